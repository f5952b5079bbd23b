//! The steps of one object, each over its two halves.
ghost use Rattle.std.specs.Prelude.{◌≡◌, ◌++◌, [], ◌∷◌, OnOk, OnErr};
ghost use Rattle.do_tree.specs.Checked.{tree_of as script_in};
ghost use Rattle.do_tree.specs.Tree.{Script};
ghost use Rattle.output_gate.specs.Storing.{KeepsTelling};
ghost use Rattle.object_core.specs.One.{CanRun, KeepsOne};
ghost use Rattle.object_core.specs.Stepping.{Steps, answer_of, given_of, turn_of};

use crate::choice::Choice;
use crate::object::Core;
use do_disk::Disk;
use do_tree::Checked;
use do_value::{Mem, NoMemory};
use front_history::laws;
use lane::{Outlet, Plain};
use object_front::{Turned, laws as front_laws};
use object_messages::laws as names;
use std::alloc::Global;
use timeline::{Event, Stepped};

impl<D: Disk> Core<D> {
    // Puts an event behind those that wait for the front.
    pub(crate) fn give(&mut self, event: Event) -> Mem<bool>
        ensures steps { (script : Script) → Steps D.moment_of D.told D.image D.faults_of script self.old self.new (Choice.Give event) result }
        ensures one { (script : Script) → KeepsOne D.moment_of D.left_since D.told D.image D.faults_of script self.old self.new }
        ensures tells { KeepsTelling D.told self.old.back.store self.new.back.store }
    {
        let sent = put(&mut self.inbox, event);
        given_so(sent)
    }

    pub(crate) fn turn(&mut self, alloc: Global, checked: &Checked) -> Mem<bool>
        requires { CanRun D.moment_of D.left_since D.told D.image D.faults_of (script_in checked.now) self.old }
        ensures steps { Steps D.moment_of D.told D.image D.faults_of (script_in checked.now) self.old self.new Choice.Turn result }
        ensures one { KeepsOne D.moment_of D.left_since D.told D.image D.faults_of (script_in checked.now) self.old self.new }
        ensures tells { KeepsTelling D.told self.old.back.store self.new.back.store }
    {
        laws::turn_steps();
        front_laws::events_come();
        front_laws::class_comes();
        names::early_is_unasked();
        names::drops_are_answered();
        let turned = self.front.turn(
            alloc,
            checked,
            &mut self.inbox,
            &mut self.notices,
            &mut self.line,
        );
        turned_so(turned)
    }

    pub(crate) fn take(&mut self) -> Mem<bool>
        requires { (script : Script) × CanRun D.moment_of D.left_since D.told D.image D.faults_of script self.old }
        ensures steps { (script : Script) → Steps D.moment_of D.told D.image D.faults_of script self.old self.new Choice.Take result }
        ensures one { (script : Script) → KeepsOne D.moment_of D.left_since D.told D.image D.faults_of script self.old self.new }
        ensures tells { KeepsTelling D.told self.old.back.store self.new.back.store }
    {
        laws::back_steps();
        let stepped = self.back.take(&mut self.line, &mut self.notices);
        stepped_so(stepped)
    }

    pub(crate) fn flush(&mut self) -> Mem<bool>
        requires { (script : Script) × CanRun D.moment_of D.left_since D.told D.image D.faults_of script self.old }
        ensures steps { (script : Script) → Steps D.moment_of D.told D.image D.faults_of script self.old self.new Choice.Flush result }
        ensures one { (script : Script) → KeepsOne D.moment_of D.left_since D.told D.image D.faults_of script self.old self.new }
        ensures tells { KeepsTelling D.told self.old.back.store self.new.back.store }
    {
        laws::back_steps();
        let stepped = self.back.flush();
        stepped_so(Ok(stepped))
    }

    pub(crate) fn release(&mut self) -> Mem<bool>
        requires { (script : Script) × CanRun D.moment_of D.left_since D.told D.image D.faults_of script self.old }
        ensures steps { (script : Script) → Steps D.moment_of D.told D.image D.faults_of script self.old self.new Choice.Release result }
        ensures one { (script : Script) → KeepsOne D.moment_of D.left_since D.told D.image D.faults_of script self.old self.new }
        ensures tells { KeepsTelling D.told self.old.back.store self.new.back.store }
    {
        laws::back_steps();
        let stepped = self.back.release(&mut self.notices, &mut self.out);
        stepped_so(stepped)
    }

    pub(crate) fn mend(&mut self, alloc: Global) -> Mem<bool>
        requires { (script : Script) × CanRun D.moment_of D.left_since D.told D.image D.faults_of script self.old }
        ensures steps { (script : Script) → Steps D.moment_of D.told D.image D.faults_of script self.old self.new Choice.Mend result }
        ensures one { (script : Script) → KeepsOne D.moment_of D.left_since D.told D.image D.faults_of script self.old self.new }
        ensures tells { KeepsTelling D.told self.old.back.store self.new.back.store }
    {
        laws::back_steps();
        let stepped = self.back.mend(alloc, &mut self.notices);
        stepped_so(stepped)
    }
}

// Whether a step of the back did something.
fn stepped_so(stepped: Mem<Stepped>) -> Mem<bool>
    ensures { result ≡ answer_of stepped }
{
    match stepped {
        Ok(Stepped::Did) => Ok(true),
        Ok(Stepped::Nothing) => Ok(false),
        Err(NoMemory) => Err(NoMemory),
    }
}

// Whether a turn of the front did something.
fn turned_so(turned: Mem<Turned>) -> Mem<bool>
    ensures { result ≡ turn_of turned }
{
    match turned {
        Ok(Turned::Ran) => Ok(true),
        Ok(Turned::Idle) => Ok(false),
        Err(NoMemory) => Err(NoMemory),
    }
}

// Puts an event behind those of a queue.
fn put(inbox: &mut Plain<Event>, event: Event) -> Mem<()>
    ensures got { inbox.new.got ≡ inbox.old.got }
    ensures sent { OnOk result (inbox.new.waiting ≡ inbox.old.waiting ++ event ∷ []) }
    ensures same { OnErr result (inbox.new ≡ inbox.old) }
{
    match inbox.send(event) {
        Ok(()) => Ok(()),
        Err(_) => Err(NoMemory),
    }
}

// Whether an event was given.
fn given_so(sent: Mem<()>) -> Mem<bool>
    ensures { result ≡ given_of sent }
{
    match sent {
        Ok(()) => Ok(true),
        Err(NoMemory) => Err(NoMemory),
    }
}
