//! The rows of the report, and what the objects have left.
ghost use Rattle.std.specs.Prelude.{◌≡◌, ◌≤◌, ◌+◌, ◌++◌, ◌∷◌, ℕ, List, OnOk, Option, [], length, vec_len};
ghost use Rattle.std.specs.List.{All};
ghost use Rattle.std.specs.Vec.{vec_capacity};
ghost use Rattle.do_disk.specs.Slots.{most_slots};
ghost use Rattle.do_tree.specs.Tree.{Script};
ghost use Rattle.timeline.specs.Switch.{SwitchLog};
ghost use Rattle.placement.specs.Slots.{Slots};
ghost use Rattle.batch_journal.specs.Moments.{IsTold};
ghost use Rattle.object_core.specs.One.{CanRun, TellsNow};
ghost use Rattle.object_front.specs.Evaluated.{seen};
ghost use Rattle.front_half.specs.Turning.{CanTurn};
ghost use Rattle.output_gate.specs.Serving.{CanServe};
ghost use Rattle.output_gate.specs.Storing.{IsDiskOf};
ghost use Rattle.timeline.specs.Logs.{backed, fronted};
ghost use Rattle.host_core.specs.Closing.{AddsLeft, AreHalves, AreSettledUnless, IsLetGoOf, IsRowOf, IsSettledOf, with_slot};
ghost use Rattle.host_core.specs.Objects.{ObjectsTell, AreGoing, AreResting, AreRouted, AreSlots, CanAllRun};
ghost use Rattle.host_core.specs.Quiet.{AreLeftIn, AreLetGo, RowsTell};
ghost use Rattle.host_core.specs.Rows.{AreRows};

use crate::objects::Objects;
use crate::report::SlotReport;
use do_disk::Disk;
use do_value::{Mem, NoMemory};
use host_workers::Halves;
use object_core::{Core, laws};
use object_front::Front;
use output_gate::{Back, BackParts};
use std::alloc::Global;
use timeline::{Caller, Waits};

// Makes a row of each object, and asks each what it has left. After `NoMemory` there is a row of each all the same, and of what is left
// the first.
pub(crate) fn close<D: Disk + Drop>(
    alloc: Global,
    objects: Objects<D>,
    rows: &mut Vec<SlotReport<D>>,
    left: &mut Vec<(u32, Caller, Waits)>,
) -> Mem<()>
    requires room { vec_len rows.old + length objects.cores.items ≤ vec_capacity rows.old }
    requires none { rows.old.items ≡ [] }
    requires none_left { left.old.items ≡ [] }
    requires can { (script : Script) × CanAllRun D.moment_of D.left_since D.told D.image D.faults_of script objects }
    requires few { length objects.cores.items ≤ most_slots }
    ensures rows { (limit : ℕ) (script : Script) (contents : ℕ → Option (List ℕ)) (named : Slots) (log : SwitchLog)
        → AreSlots D.moment_of D.left_since D.told D.image D.faults_of limit script contents named log objects
        → AreRows D.moment_of D.left_since D.told D.faults_of limit script contents named log rows.new.items }
    ensures quiet { (limit : ℕ) (script : Script) (contents : ℕ → Option (List ℕ)) (named : Slots) (log : SwitchLog)
        → AreGoing D.moment_of D.left_since D.told D.image D.faults_of limit script contents named log objects
        → AreResting script objects → AreRouted objects → AreLetGo D.told script named log rows.new.items }
    ensures settled { OnOk result ((limit : ℕ) (script : Script) (contents : ℕ → Option (List ℕ)) (named : Slots) (log : SwitchLog)
        → AreGoing D.moment_of D.left_since D.told D.image D.faults_of limit script contents named log objects → AreResting script objects
        → AreRouted objects → AreSettledUnless D.told limit script contents named log left.new.items rows.new.items) }
    ensures left_in { OnOk result (AreLeftIn (length objects.cores.items) left.new.items) }
    ensures many { length rows.new.items ≡ length objects.cores.items }
    ensures room { vec_capacity rows.old ≤ vec_capacity rows.new }
    ensures tells { RowsTell D.told rows.new.items → ObjectsTell D.told objects }
{
    let mut asked = Ok(());
    for core in objects.into_cores() {
        let slot = rows.len() as u32;
        let (row, told) = close_slot(alloc, slot, core, asked, left);
        asked = told;
        push_row(rows, row);
    }
    asked
}

// Makes a row of the halves of each slot of which memory was wanting to make an object.
pub(crate) fn close_apart<D: Disk + Drop>(apart: Vec<Halves<D>>, rows: &mut Vec<SlotReport<D>>)
    requires room { vec_len rows.old + length apart.items ≤ vec_capacity rows.old }
    requires can { All (λ halves. CanServe D.moment_of D.left_since D.told D.image D.faults_of halves.back) apart.items }
    ensures rows { (limit : ℕ) (script : Script) (contents : ℕ → Option (List ℕ)) (named : Slots) (log : SwitchLog)
        → AreHalves D.moment_of D.left_since D.told D.image D.faults_of limit script contents named log (length rows.old.items) apart.items
        → AreRows D.moment_of D.left_since D.told D.faults_of limit script contents named log rows.old.items
        → AreRows D.moment_of D.left_since D.told D.faults_of limit script contents named log rows.new.items }
    ensures many { length rows.new.items ≡ length rows.old.items + length apart.items }
    ensures same { apart.items ≡ [] → rows.new.items ≡ rows.old.items }
{
    laws::all_show::<D>();
    for halves in apart {
        let Halves { front, back } = halves;
        push_row(rows, row_of(front, back));
    }
}

// The row of an object, which is asked what it has left, unless memory was wanting before.
fn close_slot<D: Disk + Drop>(
    alloc: Global,
    slot: u32,
    core: Core<D>,
    asked: Mem<()>,
    left: &mut Vec<(u32, Caller, Waits)>,
) -> (SlotReport<D>, Mem<()>)
    requires { (script : Script) × CanRun D.moment_of D.left_since D.told D.image D.faults_of script core }
    ensures row { IsRowOf D.moment_of D.left_since D.told D.image D.faults_of core result.0 }
    ensures quiet { IsLetGoOf D.moment_of D.left_since D.told D.image D.faults_of core result.0 }
    ensures settled { IsSettledOf D.moment_of D.left_since D.told D.image D.faults_of core result.0 }
    ensures left { OnOk result.1 (AddsLeft slot core.front.half asked left.old.items left.new.items) }
    ensures tells { IsTold (D.told result.0.store) → TellsNow D.told core.back }
{
    laws::one_is_history(&core);
    laws::one_is_limited(&core);
    laws::one_has_intake(&core);
    laws::one_has_got(&core);
    laws::one_has_class(&core);
    laws::one_has_left(&core);
    laws::one_has_let_go(&core);
    laws::one_has_told(&core);
    laws::one_is_owed(&core);
    laws::one_tells_no_end(&core);
    laws::one_is_quiet(&core);
    laws::one_leaves(&core);
    laws::one_rests(&core);
    laws::one_serves_once(&core);
    laws::one_sticks(&core);
    laws::one_drops(&core);
    laws::one_waits_for_fetches(&core);
    laws::one_without_class(&core);
    let (front, back) = core.split();
    let asked = ask(alloc, asked, slot, &front, left);
    (row_of(front, back), asked)
}

// Adds what the object of the slot has left, unless memory was wanting before.
fn ask(
    alloc: Global,
    asked: Mem<()>,
    slot: u32,
    front: &Front,
    left: &mut Vec<(u32, Caller, Waits)>,
) -> Mem<()>
    requires { (script : Script) × CanTurn seen script front.now.half }
    ensures { OnOk result (AddsLeft slot front.now.half asked left.old.items left.new.items) }
{
    asked?;
    let remaining = front.left(alloc)?;
    add_left(slot, remaining, left)
}

// Puts this of the slot behind what is left.
fn add_left(
    slot: u32,
    remaining: Vec<(Caller, Waits)>,
    left: &mut Vec<(u32, Caller, Waits)>,
) -> Mem<()>
    ensures { OnOk result (left.new.items ≡ left.old.items ++ with_slot slot remaining.items) }
{
    for item in remaining {
        push_left(slot, item, left)?;
    }
    Ok(())
}

fn push_left(slot: u32, item: (Caller, Waits), left: &mut Vec<(u32, Caller, Waits)>) -> Mem<()>
    ensures { OnOk result (left.new.items ≡ left.old.items ++ with_slot slot (item ∷ [])) }
{
    let (caller, waits) = item;
    if left.push((slot, caller, waits)).is_err() {
        return Err(NoMemory);
    }
    Ok(())
}

// The row of an object's halves.
fn row_of<D: Disk>(front: Front, back: Back<D>) -> SlotReport<D>
    requires { CanServe D.moment_of D.left_since D.told D.image D.faults_of back }
    ensures store { IsDiskOf back.store result.store }
    ensures identity { result.identity ≡ back.identity }
    ensures front { fronted result.front ≡ fronted front.half.log }
    ensures back { backed result.back ≡ backed back.log }
{
    let BackParts {
        disk,
        identity,
        log,
    } = back.into_parts();
    SlotReport {
        store: disk,
        front: front.into_log(),
        back: log,
        identity,
    }
}

fn push_row<D>(rows: &mut Vec<SlotReport<D>>, row: SlotReport<D>)
    requires { vec_len rows.old + 1 ≤ vec_capacity rows.old }
    ensures rows { rows.new.items ≡ rows.old.items ++ row ∷ [] }
    ensures len { vec_len rows.new ≡ vec_len rows.old + 1 }
    ensures room { vec_capacity rows.old ≤ vec_capacity rows.new }
{
    rows.push(row).unwrap();
}
