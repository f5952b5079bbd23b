//! One object.
ghost use Rattle.std.specs.Prelude.{◌≡◌, ◌++◌, [], ◌∷◌, List, ℕ, IfNone, IfSome};
ghost use Rattle.do_tree.specs.Checked.{tree_of as script_in};
ghost use Rattle.do_tree.specs.Tree.{Script};
ghost use Rattle.storage_map.specs.declared.op.Op.{Op};
ghost use Rattle.output_gate.specs.Serving.{IsBack};
ghost use Rattle.output_gate.specs.Storing.{KeepsTelling};
ghost use Rattle.object_core.specs.Alone.{AreApart};
ghost use Rattle.object_core.specs.Collecting.{Collects};
ghost use Rattle.object_core.specs.One.{AreFresh, IsOne, IsOneOf, CanRun, KeepsOne, Origin, mounted_at, unused};
ghost use Rattle.object_core.specs.Running.{Runs};
ghost use Rattle.object_core.specs.Stepping.{Steps};

use crate::apart::halves_meet;
use crate::choice::Choice;
use do_disk::Disk;
use do_tree::Checked;
use do_value::Mem;
use front_history::laws;
use lane::{Inlet, Plain};
use object_front::{Front, laws as front_laws};
use output_gate::Back;
use std::alloc::Global;
use timeline::{Entry, Event, Message, Notice};

/// One object on one thread, over its mounted slot.
pub struct Core<D> {
    pub(crate) front: Front,
    pub(crate) back: Back<D>,
    // events to the front, entries to the back, notices to the front, and what was released
    pub(crate) inbox: Plain<Event>,
    pub(crate) line: Plain<Entry>,
    pub(crate) notices: Plain<Notice>,
    pub(crate) out: Plain<Message>,
}

// Written out, so that letting a core go is proved once.
impl<D: Drop> Drop for Core<D> {
    fn drop(self) {
        let Core {
            front,
            back,
            inbox,
            line,
            notices,
            out,
        } = self;
        drop(front);
        drop(back);
        drop(inbox);
        drop(line);
        drop(notices);
        drop(out);
    }
}

impl<D: Disk> Core<D> {
    /// Both halves of a slot that was just mounted.
    pub fn new(alloc: Global, front: Front, back: Back<D>) -> Core<D>
        ensures halves { (result.front ≡ front) × (result.back ≡ back) }
        ensures lanes { (result.inbox ≡ unused) × (result.line ≡ unused) × (result.notices ≡ unused) × (result.out ≡ unused) }
        ensures one { (script : Script) (start : List (List Op)) (opening : ℕ) → IsBack D.moment_of D.left_since D.told D.image D.faults_of start opening back
            → AreFresh script front.half back → IsOne D.moment_of D.left_since D.told D.image D.faults_of script (mounted_at start opening back) result }
    {
        laws::front_begins();
        front_laws::events_come();
        Core {
            front,
            back,
            inbox: Plain::new(alloc),
            line: Plain::new(alloc),
            notices: Plain::new(alloc),
            out: Plain::new(alloc),
        }
    }

    /// Halves that ran apart, with what their lanes still had.
    pub fn join(
        front: Front,
        back: Back<D>,
        inbox: Plain<Event>,
        line: Plain<Entry>,
        notices: Plain<Notice>,
        out: Plain<Message>,
    ) -> Core<D>
        ensures halves { (result.front ≡ front) × (result.back ≡ back) }
        ensures lanes { (result.inbox ≡ inbox) × (result.line ≡ line) × (result.notices ≡ notices) × (result.out ≡ out) }
        ensures one { (script : Script) (origin : Origin)
            → IsOneOf D.moment_of D.left_since D.told D.image D.faults_of script origin front.half inbox back line notices out
            → IsOne D.moment_of D.left_since D.told D.image D.faults_of script origin result }
        ensures apart { (script : Script) (origin : Origin)
            → AreApart D.moment_of D.left_since D.told D.image D.faults_of script origin front.half inbox back line notices out
            → IsOne D.moment_of D.left_since D.told D.image D.faults_of script origin result }
    {
        halves_meet();
        Core {
            front,
            back,
            inbox,
            line,
            notices,
            out,
        }
    }

    /// Does what is chosen, and tells whether there was something to do. After `NoMemory` the half whose step it was is stopped: each
    /// further step of it answers `NoMemory` and does nothing, but for a flush; an event that memory didn't suffice for is gone.
    pub fn step(&mut self, alloc: Global, checked: &Checked, choice: Choice) -> Mem<bool>
        requires { CanRun D.moment_of D.left_since D.told D.image D.faults_of (script_in checked.now) self.old }
        ensures steps { Steps D.moment_of D.told D.image D.faults_of (script_in checked.now) self.old self.new choice result }
        ensures again { CanRun D.moment_of D.left_since D.told D.image D.faults_of (script_in checked.now) self.new }
        ensures one { KeepsOne D.moment_of D.left_since D.told D.image D.faults_of (script_in checked.now) self.old self.new }
        ensures tells { KeepsTelling D.told self.old.back.store self.new.back.store }
    {
        match choice {
            Choice::Give(event) => self.give(event),
            Choice::Turn => self.turn(alloc, checked),
            Choice::Take => self.take(),
            Choice::Flush => self.flush(),
            Choice::Release => self.release(),
            Choice::Mend => self.mend(alloc),
        }
    }

    /// Does all that is chosen, in order, up to the first want of memory.
    pub fn run(&mut self, alloc: Global, checked: &Checked, choices: Vec<Choice>) -> Mem<()>
        requires { CanRun D.moment_of D.left_since D.told D.image D.faults_of (script_in checked.now) self.old }
        ensures runs { Runs D.moment_of D.told D.image D.faults_of (script_in checked.now) self.old self.new choices.items result }
        ensures again { CanRun D.moment_of D.left_since D.told D.image D.faults_of (script_in checked.now) self.new }
        ensures one { KeepsOne D.moment_of D.left_since D.told D.image D.faults_of (script_in checked.now) self.old self.new }
        ensures tells { KeepsTelling D.told self.old.back.store self.new.back.store }
    {
        for choice in choices {
            self.step(alloc, checked, choice)?;
        }
        Ok(())
    }

    /// The next released message that wasn't collected. It takes no memory.
    pub fn collect(&mut self) -> Option<Message>
        ensures none { IfNone result ((self.old.out.waiting ≡ []) × (self.new ≡ self.old)) }
        ensures some { IfSome result (λ message. Collects self.old self.new message) }
        ensures one { (script : Script) → KeepsOne D.moment_of D.left_since D.told D.image D.faults_of script self.old self.new }
    {
        self.out.take()
    }

    /// The halves, with what they have logged.
    pub fn split(self) -> (Front, Back<D>)
        ensures { (result.0 ≡ self.front) × (result.1 ≡ self.back) }
    {
        let Core {
            front,
            back,
            inbox,
            line,
            notices,
            out,
        } = self;
        drop(inbox);
        drop(line);
        drop(notices);
        drop(out);
        (front, back)
    }
}
