//! The objects and the switch, until nothing is under way.
ghost use Rattle.std.specs.Prelude.{◌≡◌, ℕ, List, Option, OnOk, OnErr, Ok, false, length};
ghost use Rattle.do_tree.specs.Checked.{tree_of as script_in};
ghost use Rattle.do_tree.specs.Tree.{Script};
ghost use Rattle.placement.specs.Slots.{Slots};
ghost use Rattle.timeline.specs.Switch.{SwitchLog};
ghost use Rattle.mailbox.specs.Runs.{log_of};
ghost use Rattle.host_core.specs.Objects.{ObjectsTell, AreSlots, AreGoing, AreResting, AreRouted, CanAllRun};
ghost use Rattle.host_core.specs.Running.{HasServed, IsServing, Prints};

use crate::moving::run_slot;
use crate::objects::Objects;
use do_disk::{Disk, Sink};
use do_tree::Checked;
use do_value::{Mem, NoMemory};
use mailbox::{Switch, SwitchFault};
use object_core::laws;
use std::alloc::Global;
use std::sync::Wait;
use timeline::Stepped;

// Runs the objects and routes what they say, until no object has anything to do and no message waits.
pub(crate) fn settle<D: Disk, W: Sink, T: Wait>(
    rt: &T,
    alloc: Global,
    checked: &Checked,
    switch: &mut Switch<W>,
    objects: &mut Objects<D>,
) -> Result<(), SwitchFault>
    requires serving { (limit : ℕ) × (contents : ℕ → Option (List ℕ)) × (named : Slots)
        × IsServing D.moment_of D.left_since D.told D.image D.faults_of limit (script_in checked.now) contents named switch.old objects.old }
    ensures serving { OnOk result ((limit : ℕ) (contents : ℕ → Option (List ℕ)) (named : Slots)
        → IsServing D.moment_of D.left_since D.told D.image D.faults_of limit (script_in checked.now) contents named switch.old objects.old
        → IsServing D.moment_of D.left_since D.told D.image D.faults_of limit (script_in checked.now) contents named switch.new objects.new) }
    ensures served { OnErr result ((limit : ℕ) (contents : ℕ → Option (List ℕ)) (named : Slots)
        → IsServing D.moment_of D.left_since D.told D.image D.faults_of limit (script_in checked.now) contents named switch.old objects.old
        → HasServed D.moment_of D.left_since D.told D.image D.faults_of limit (script_in checked.now) contents named switch.new objects.new) }
    ensures again { CanAllRun D.moment_of D.left_since D.told D.image D.faults_of (script_in checked.now) objects.new }
    ensures resting { OnOk result (AreResting (script_in checked.now) objects.new) }
    ensures routed { OnOk result (AreRouted objects.new) }
    ensures many { length objects.new.cores.items ≡ length objects.old.cores.items }
    ensures accepted { (log_of switch.new).accepted ≡ (log_of switch.old).accepted }
    ensures prints { Prints W.taken W.faults_of switch.old switch.new result }
{
    for _ in rt.forever() {
        if !go_round(rt, alloc, checked, switch, objects)? {
            return Ok(());
        }
    }
    unreachable!()
}

// Runs each object until it has nothing to do, and routes what they have let go. False where no message waited.
fn go_round<D: Disk, W: Sink, T: Wait>(
    rt: &T,
    alloc: Global,
    checked: &Checked,
    switch: &mut Switch<W>,
    objects: &mut Objects<D>,
) -> Result<bool, SwitchFault>
    requires serving { (limit : ℕ) × (contents : ℕ → Option (List ℕ)) × (named : Slots)
        × IsServing D.moment_of D.left_since D.told D.image D.faults_of limit (script_in checked.now) contents named switch.old objects.old }
    ensures serving { OnOk result ((limit : ℕ) (contents : ℕ → Option (List ℕ)) (named : Slots)
        → IsServing D.moment_of D.left_since D.told D.image D.faults_of limit (script_in checked.now) contents named switch.old objects.old
        → IsServing D.moment_of D.left_since D.told D.image D.faults_of limit (script_in checked.now) contents named switch.new objects.new) }
    ensures served { OnErr result ((limit : ℕ) (contents : ℕ → Option (List ℕ)) (named : Slots)
        → IsServing D.moment_of D.left_since D.told D.image D.faults_of limit (script_in checked.now) contents named switch.old objects.old
        → HasServed D.moment_of D.left_since D.told D.image D.faults_of limit (script_in checked.now) contents named switch.new objects.new) }
    ensures again { CanAllRun D.moment_of D.left_since D.told D.image D.faults_of (script_in checked.now) objects.new }
    ensures resting { result ≡ Ok false → AreResting (script_in checked.now) objects.new }
    ensures routed { OnOk result (AreRouted objects.new) }
    ensures many { length objects.new.cores.items ≡ length objects.old.cores.items }
    ensures accepted { (log_of switch.new).accepted ≡ (log_of switch.old).accepted }
    ensures prints { Prints W.taken W.faults_of switch.old switch.new result }
{
    match run_slots(rt, alloc, checked, objects) {
        Ok(()) => route_all(rt, checked, switch, objects),
        Err(NoMemory) => Err(SwitchFault::NoMemory),
    }
}

// Routes all that the objects have let go. False where no message waited: then objects that rest still do.
fn route_all<D: Disk, W: Sink, T: Wait>(
    rt: &T,
    checked: &Checked,
    switch: &mut Switch<W>,
    objects: &mut Objects<D>,
) -> Result<bool, SwitchFault>
    requires serving { (limit : ℕ) × (contents : ℕ → Option (List ℕ)) × (named : Slots)
        × IsServing D.moment_of D.left_since D.told D.image D.faults_of limit (script_in checked.now) contents named switch.old objects.old }
    ensures serving { OnOk result ((limit : ℕ) (contents : ℕ → Option (List ℕ)) (named : Slots)
        → IsServing D.moment_of D.left_since D.told D.image D.faults_of limit (script_in checked.now) contents named switch.old objects.old
        → IsServing D.moment_of D.left_since D.told D.image D.faults_of limit (script_in checked.now) contents named switch.new objects.new) }
    ensures served { OnErr result ((limit : ℕ) (contents : ℕ → Option (List ℕ)) (named : Slots)
        → IsServing D.moment_of D.left_since D.told D.image D.faults_of limit (script_in checked.now) contents named switch.old objects.old
        → HasServed D.moment_of D.left_since D.told D.image D.faults_of limit (script_in checked.now) contents named switch.new objects.new) }
    ensures cores { objects.new.cores.items ≡ objects.old.cores.items }
    ensures resting { result ≡ Ok false → (script : Script) → AreResting script objects.old → AreResting script objects.new }
    ensures routed { OnOk result (AreRouted objects.new) }
    ensures accepted { (log_of switch.new).accepted ≡ (log_of switch.old).accepted }
    ensures prints { Prints W.taken W.faults_of switch.old switch.new result }
{
    let mut routed = false;
    for _ in rt.forever() {
        if !route_one(checked, switch, objects)? {
            return Ok(routed);
        }
        routed = true;
    }
    unreachable!()
}

// Routes one message. False where none waited: then objects that rest still do.
fn route_one<D: Disk, W: Sink>(
    checked: &Checked,
    switch: &mut Switch<W>,
    objects: &mut Objects<D>,
) -> Result<bool, SwitchFault>
    requires serving { (limit : ℕ) × (contents : ℕ → Option (List ℕ)) × (named : Slots)
        × IsServing D.moment_of D.left_since D.told D.image D.faults_of limit (script_in checked.now) contents named switch.old objects.old }
    ensures serving { OnOk result ((limit : ℕ) (contents : ℕ → Option (List ℕ)) (named : Slots)
        → IsServing D.moment_of D.left_since D.told D.image D.faults_of limit (script_in checked.now) contents named switch.old objects.old
        → IsServing D.moment_of D.left_since D.told D.image D.faults_of limit (script_in checked.now) contents named switch.new objects.new) }
    ensures served { OnErr result ((limit : ℕ) (contents : ℕ → Option (List ℕ)) (named : Slots)
        → IsServing D.moment_of D.left_since D.told D.image D.faults_of limit (script_in checked.now) contents named switch.old objects.old
        → HasServed D.moment_of D.left_since D.told D.image D.faults_of limit (script_in checked.now) contents named switch.new objects.new) }
    ensures cores { objects.new.cores.items ≡ objects.old.cores.items }
    ensures resting { result ≡ Ok false → (script : Script) → AreResting script objects.old → AreResting script objects.new }
    ensures routed { result ≡ Ok false → AreRouted objects.new }
    ensures accepted { (log_of switch.new).accepted ≡ (log_of switch.old).accepted }
    ensures prints { Prints W.taken W.faults_of switch.old switch.new result }
{
    laws::all_are_owed::<D>();
    switch_history::laws::posts_are_placed();
    match switch.route(checked, &mut objects.outs, &mut objects.inboxes)? {
        Stepped::Did => Ok(true),
        Stepped::Nothing => Ok(false),
    }
}

// Runs each object until it has nothing to do.
fn run_slots<D: Disk, T: Wait>(
    rt: &T,
    alloc: Global,
    checked: &Checked,
    objects: &mut Objects<D>,
) -> Mem<()>
    requires can { CanAllRun D.moment_of D.left_since D.told D.image D.faults_of (script_in checked.now) objects.old }
    ensures going { OnOk result ((limit : ℕ) (contents : ℕ → Option (List ℕ)) (named : Slots) (log : SwitchLog)
        → AreGoing D.moment_of D.left_since D.told D.image D.faults_of limit (script_in checked.now) contents named log objects.old
        → AreGoing D.moment_of D.left_since D.told D.image D.faults_of limit (script_in checked.now) contents named log objects.new) }
    ensures resting { OnOk result (AreResting (script_in checked.now) objects.new) }
    ensures stands { OnErr result ((limit : ℕ) (contents : ℕ → Option (List ℕ)) (named : Slots) (log : SwitchLog)
        → AreGoing D.moment_of D.left_since D.told D.image D.faults_of limit (script_in checked.now) contents named log objects.old
        → AreSlots D.moment_of D.left_since D.told D.image D.faults_of limit (script_in checked.now) contents named log objects.new) }
    ensures again { CanAllRun D.moment_of D.left_since D.told D.image D.faults_of (script_in checked.now) objects.new }
    ensures many { length objects.new.cores.items ≡ length objects.old.cores.items }
    ensures tells { ObjectsTell D.told objects.new → ObjectsTell D.told objects.old }
{
    let slots = objects.cores.len();
    for slot in 0..slots {
        run_slot(
            rt,
            alloc,
            checked,
            &mut objects.cores[slot],
            &mut objects.inboxes[slot],
            &mut objects.outs[slot],
        )?;
    }
    Ok(())
}
