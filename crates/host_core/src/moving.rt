//! What goes to one object and comes from it.
ghost use Rattle.std.specs.Prelude.{◌≡◌, ◌++◌, ◌∷◌, [], ℕ, List, Option, OnOk, OnErr};
ghost use Rattle.do_tree.specs.Checked.{tree_of as script_in};
ghost use Rattle.do_tree.specs.Tree.{Script};
ghost use Rattle.lane.specs.Lanes.{sent_on, StartsWith};
ghost use Rattle.object_core.specs.One.{CanRun, KeepsOne, TellsNow};
ghost use Rattle.storage_map.specs.Limits.{Object};
ghost use Rattle.timeline.specs.declared.event.Event.{Event};
ghost use Rattle.timeline.specs.declared.message.Message.{Message};
ghost use Rattle.host_core.specs.Moving.{Gives, HandsOn};
ghost use Rattle.host_core.specs.Slots.{IsSlot, IsGoing, IsResting};

use crate::acting::act_on;
use do_disk::Disk;
use do_tree::Checked;
use do_value::{Mem, NoMemory};
use lane::{Inlet, Outlet, Plain};
use object_core::{Choice, Core};
use std::alloc::Global;
use std::sync::Wait;
use timeline::{Event, Message};

// Gives an object all that was posted to it. After `NoMemory` it has the first of it.
fn give<D: Disk>(
    alloc: Global,
    checked: &Checked,
    core: &mut Core<D>,
    inbox: &mut Plain<Event>,
) -> Mem<()>
    requires can { CanRun D.moment_of D.left_since D.told D.image D.faults_of (script_in checked.now) core.old }
    ensures gives { Gives core.old core.new inbox.old inbox.new result }
    ensures again { CanRun D.moment_of D.left_since D.told D.image D.faults_of (script_in checked.now) core.new }
    ensures one { KeepsOne D.moment_of D.left_since D.told D.image D.faults_of (script_in checked.now) core.old core.new }
    ensures tells { TellsNow D.told core.new.back → TellsNow D.told core.old.back }
{
    while let Some(event) = inbox.take() {
        core.step(alloc, checked, Choice::Give(event))?;
    }
    Ok(())
}

// Hands on all that an object has let go. After `NoMemory` the first of it is handed on.
fn hand_on<D: Disk>(core: &mut Core<D>, out: &mut Plain<Message>) -> Mem<()>
    ensures hands { HandsOn core.old core.new out.old out.new result }
    ensures one { (script : Script) → KeepsOne D.moment_of D.left_since D.told D.image D.faults_of script core.old core.new }
{
    while let Some(message) = core.collect() {
        put(out, message)?;
    }
    Ok(())
}

// Puts a message behind those of a queue.
pub(crate) fn put(out: &mut Plain<Message>, message: Message) -> Mem<()>
    ensures got { out.new.got ≡ out.old.got }
    ensures sent { OnOk result (out.new.waiting ≡ out.old.waiting ++ message ∷ []) }
    ensures same { OnErr result (out.new ≡ out.old) }
{
    match out.send(message) {
        Ok(()) => Ok(()),
        Err(_) => Err(NoMemory),
    }
}

// Runs an object until it has nothing to do: it is given what was posted to it, and what it has let go is handed on.
pub(crate) fn run_slot<D: Disk, R: Wait>(
    rt: &R,
    alloc: Global,
    checked: &Checked,
    core: &mut Core<D>,
    inbox: &mut Plain<Event>,
    out: &mut Plain<Message>,
) -> Mem<()>
    requires can { CanRun D.moment_of D.left_since D.told D.image D.faults_of (script_in checked.now) core.old }
    ensures going { OnOk result ((limit : ℕ) (content : Option (List ℕ)) (named : Option Object) (posts : List Event) (routed : List Message)
        → IsGoing D.moment_of D.left_since D.told D.image D.faults_of limit (script_in checked.now) content named posts routed core.old inbox.old out.old
        → IsGoing D.moment_of D.left_since D.told D.image D.faults_of limit (script_in checked.now) content named posts routed core.new inbox.new out.new) }
    ensures resting { OnOk result (IsResting (script_in checked.now) core.new inbox.new) }
    ensures stands { OnErr result ((limit : ℕ) (content : Option (List ℕ)) (named : Option Object) (posts : List Event) (routed : List Message)
        → IsGoing D.moment_of D.left_since D.told D.image D.faults_of limit (script_in checked.now) content named posts routed core.old inbox.old out.old
        → IsSlot D.moment_of D.left_since D.told D.image D.faults_of limit (script_in checked.now) content named posts routed core.new inbox.new out.new) }
    ensures again { CanRun D.moment_of D.left_since D.told D.image D.faults_of (script_in checked.now) core.new }
    ensures tells { TellsNow D.told core.new.back → TellsNow D.told core.old.back }
{
    give(alloc, checked, core, inbox)?;
    act_on(rt, alloc, checked, core)?;
    hand_on(core, out)
}
