//! The steps of one object, until it has nothing to do.
ghost use Rattle.std.specs.Prelude.{◌≡◌, Ok, OnOk, false};
ghost use Rattle.do_tree.specs.Checked.{tree_of as script_in};
ghost use Rattle.object_core.specs.One.{CanRun, KeepsOne, TellsNow};
ghost use Rattle.host_core.specs.Acting.{Acts, HasSettled, IsIdle, IsOwn};

use do_disk::Disk;
use do_tree::Checked;
use do_value::{Mem, NoMemory};
use object_core::{Choice, Core};
use std::alloc::Global;
use std::sync::Wait;

// Makes the first step that does something: what was said is taken before anything is written, so that one flight has all of it. False
// where no step does anything.
fn act<D: Disk>(alloc: Global, checked: &Checked, core: &mut Core<D>) -> Mem<bool>
    requires can { CanRun D.moment_of D.left_since D.told D.image D.faults_of (script_in checked.now) core.old }
    ensures acts { Acts core.old core.new }
    ensures settled { result ≡ Ok false → HasSettled (script_in checked.now) core.new }
    ensures again { CanRun D.moment_of D.left_since D.told D.image D.faults_of (script_in checked.now) core.new }
    ensures one { KeepsOne D.moment_of D.left_since D.told D.image D.faults_of (script_in checked.now) core.old core.new }
    ensures tells { TellsNow D.told core.new.back → TellsNow D.told core.old.back }
{
    let turned = act_next(alloc, checked, core, Choice::Turn, Ok(false));
    let taken = act_next(alloc, checked, core, Choice::Take, turned);
    let flushed = act_next(alloc, checked, core, Choice::Flush, taken);
    let released = act_next(alloc, checked, core, Choice::Release, flushed);
    act_next(alloc, checked, core, Choice::Mend, released)
}

// Makes the step where none before it did anything; and answers what was answered before, where one did.
fn act_next<D: Disk>(
    alloc: Global,
    checked: &Checked,
    core: &mut Core<D>,
    choice: Choice,
    before: Mem<bool>,
) -> Mem<bool>
    requires can { CanRun D.moment_of D.left_since D.told D.image D.faults_of (script_in checked.now) core.old }
    requires own { IsOwn choice }
    ensures acts { Acts core.old core.new }
    ensures idle { result ≡ Ok false → IsIdle (script_in checked.now) core.old core.new choice before }
    ensures again { CanRun D.moment_of D.left_since D.told D.image D.faults_of (script_in checked.now) core.new }
    ensures one { KeepsOne D.moment_of D.left_since D.told D.image D.faults_of (script_in checked.now) core.old core.new }
    ensures tells { TellsNow D.told core.new.back → TellsNow D.told core.old.back }
{
    match before {
        Ok(false) => core.step(alloc, checked, choice),
        Ok(true) => Ok(true),
        Err(NoMemory) => Err(NoMemory),
    }
}

// Makes steps until none does anything.
pub(crate) fn act_on<D: Disk, R: Wait>(
    rt: &R,
    alloc: Global,
    checked: &Checked,
    core: &mut Core<D>,
) -> Mem<()>
    requires can { CanRun D.moment_of D.left_since D.told D.image D.faults_of (script_in checked.now) core.old }
    ensures acts { Acts core.old core.new }
    ensures settled { OnOk result (HasSettled (script_in checked.now) core.new) }
    ensures again { CanRun D.moment_of D.left_since D.told D.image D.faults_of (script_in checked.now) core.new }
    ensures one { KeepsOne D.moment_of D.left_since D.told D.image D.faults_of (script_in checked.now) core.old core.new }
    ensures tells { TellsNow D.told core.new.back → TellsNow D.told core.old.back }
{
    for _ in rt.forever() {
        if !act(alloc, checked, core)? {
            return Ok(());
        }
    }
    unreachable!()
}
