//! What the workers are given.
ghost use Rattle.std.specs.Prelude.{◌≡◌, ◌≤◌, [], IfOk, None};
ghost use Rattle.std.specs.List.{All};
ghost use Rattle.batch_journal.specs.Mounting.{IsMountOf};
ghost use Rattle.batch_journal.specs.Rest.{IsStaged};
ghost use Rattle.do_tree.specs.Checked.{tree_of as script_in};
ghost use Rattle.object_core.specs.One.{CanRun};
ghost use Rattle.storage_map.specs.Limits.{Object};
ghost use Rattle.worker_pool.specs.Fresh.{IsFreshSlot};

use batch_journal::{Journal, Mounted};
use do_check::check;
use do_disk::{Disk, Fails, MemDisk, Sink, Source, TurnGate};
use do_parse::parse;
use do_tree::Checked;
use host_workers::Halves;
use line_server::Lines;
use mailbox::Switch;
use object_core::laws;
use object_front::Front;
use output_gate::Back;
use placement::Directory;
use std::alloc::Global;
use std::sync::Wait;
use std::test::Fail;
use std::thread::Threads;
use worker_pool::{Ran, run_workers};

// How many bytes the journal of a slot may have.
const JOURNAL: u64 = 1_000_000_000;

/// No call fails.
pub(crate) fn never(alloc: Global) -> Fails {
    Fails::Listed(Vec::new(alloc))
}

/// The script of a text that is right.
pub(crate) fn script(alloc: Global, text: &str) -> Result<Checked, Fail> {
    let Ok(script) = parse(alloc, text.as_bytes()) else {
        return Err("refused by the parser")?;
    };
    match check(alloc, script) {
        Ok(checked) => Ok(checked),
        Err(_) => Err("refused by the check")?,
    }
}

/// So many disks whose files are empty.
pub(crate) fn empty_disks(alloc: Global, count: u32) -> Result<Vec<MemDisk>, Fail> {
    let mut disks = Vec::new(alloc);
    for _ in 0..count {
        disks.push(MemDisk::new(Vec::new(alloc), never(alloc)))?;
    }
    Ok(disks)
}

// The halves of what was mounted and names no object.
fn begin<D: Disk + Drop>(
    alloc: Global,
    checked: &Checked,
    mounted: Mounted<D>,
) -> Result<Halves<D>, Fail>
    requires staged { (object : Object) → IsStaged mounted.journal object [] }
    requires none { mounted.identity ≡ None }
    requires mount { (disk : D) × IsMountOf D.told D.image D.moment_of D.left_since disk mounted }
    ensures { IfOk result (IsFreshSlot D.moment_of D.left_since D.told D.image D.faults_of (script_in checked.now)) }
{
    let front = Front::new(alloc, checked, None, mounted.index.alarm());
    let Ok(back) = Back::new(alloc, mounted) else {
        return Err("no memory for a back")?;
    };
    laws::halves_are_fresh(&back);
    Ok(Halves { front, back })
}

// The halves of a slot whose file is new.
fn new_slot<D: Disk + Drop>(alloc: Global, checked: &Checked, disk: D) -> Result<Halves<D>, Fail>
    ensures { IfOk result (IsFreshSlot D.moment_of D.left_since D.told D.image D.faults_of (script_in checked.now)) }
{
    let Ok(mounted) = Journal::mount(alloc, disk, JOURNAL) else {
        return Err("not mounted")?;
    };
    if mounted.identity.is_some() {
        return Err("a new file has an object")?;
    }
    begin(alloc, checked, mounted)
}

// The halves of slots whose files are new.
fn new_slots<D: Disk + Drop>(
    alloc: Global,
    checked: &Checked,
    disks: Vec<D>,
) -> Result<Vec<Halves<D>>, Fail>
    ensures { IfOk result (λ slots. All (IsFreshSlot D.moment_of D.left_since D.told D.image D.faults_of (script_in checked.now)) slots.items) }
{
    let mut slots = Vec::new(alloc);
    for disk in disks {
        let halves = new_slot(alloc, checked, disk)?;
        slots.push(halves)?;
    }
    Ok(slots)
}

/// Lets so many workers work over the new slots of these disks on this input.
pub(crate) fn run<
    D: Disk + Drop + Send,
    R: Source + Drop + Send,
    W: Sink + Drop + Send,
    G: TurnGate + Sync,
    T: Threads + Wait + Copy + Send + Sync,
>(
    rt: &T,
    alloc: Global,
    checked: &Checked,
    gate: &G,
    disks: Vec<D>,
    source: R,
    sink: W,
    workers: u32,
) -> Result<Ran<D, R, W>, Fail>
    requires { 1 ≤ workers }
    ensures { IfOk result (λ ran. All (CanRun D.moment_of D.left_since D.told D.image D.faults_of (script_in checked.now)) ran.cores.items) }
{
    let slots = new_slots(alloc, checked, disks)?;
    let count = slots.len();
    if count > 256 {
        return Err("too many slots")?;
    }
    let directory = Directory::new(alloc, count as u32);
    let switch = Switch::new(alloc, checked, directory, sink);
    let lines = Lines::new(alloc, source);
    Ok(run_workers(rt, alloc, checked, slots, switch, lines, gate, workers))
}
