//! A run of the workers, from fresh halves to joined objects.
ghost use Rattle.std.specs.Prelude.{◌≡◌, ◌<◌, ◌≤◌, length, IfOk};
ghost use Rattle.do_disk.specs.Slots.{most_slots};
ghost use Rattle.do_tree.specs.Checked.{tree_of as script_in};
ghost use Rattle.do_tree.specs.Tree.{Script};
ghost use Rattle.host_workers.specs.Board.{AreCells, empty_places, places_of};
ghost use Rattle.worker_pool.specs.Ended.{HasRun};
ghost use Rattle.worker_pool.specs.Fresh.{AreFreshSlots, IsFreshReader, IsFreshSwitch};
ghost use Rattle.worker_pool.specs.Prepared.{IsPrepared};

use crate::boxing::{BoxedRun, GivenRun, box_run};
use crate::closing::{Room, close_all};
use crate::making::{Made, SlotEnds, make_all, make_all_ends, with_room};
use crate::ran::Ran;
use crate::team::work_together;
use do_disk::{Disk, Sink, Source, TurnGate};
use do_tree::Checked;
use do_value::Mem;
use host_workers::{Board, Cells, Halves, LinesCell, Names, Shared, SwitchCell, WorkEnd, Worked};
use lane::{Plain, SendEnd, TakeEnd, make};
use line_server::{Line, Lines};
use mailbox::{Switch, SwitchFault};
use object_core::laws;
use std::alloc::Global;
use std::marker::Brand;
use std::sync::Wait;
use std::sync::ledger::Blank;
use std::thread::Threads;

// All that a run takes memory for before its halves are moved: its lanes, and room for the cells and for what is left of them.
#[derive(Drop)]
struct Prepared<'s, D, T: Wait> {
    send: SendEnd<Line, T>,
    take: TakeEnd<Line, T>,
    ends: Vec<SlotEnds<T>>,
    made: Made<'s, D, T>,
    room: Room<D>,
}

fn prepare<'s, D: Disk + Drop, T: Wait + Copy>(
    rt: &T,
    alloc: Global,
    slots: usize,
) -> Mem<Prepared<'s, D, T>>
    ensures { IfOk result (IsPrepared slots) }
{
    let (send, take) = make(rt, alloc)?;
    let ends = make_all_ends(rt, alloc, slots)?;
    let made = Made::with_room(alloc, slots)?;
    let cores = with_room(alloc, slots)?;
    let apart = with_room(alloc, slots)?;
    Ok(Prepared {
        send,
        take,
        ends,
        made,
        room: Room { cores, apart },
    })
}

// What is left of a run that didn't begin, since memory was wanting.
fn unmade<D: Disk, R: Source, W: Sink>(
    alloc: Global,
    slots: Vec<Halves<D>>,
    switch: Switch<W>,
    lines: Lines<R>,
) -> Ran<D, R, W>
    requires switch { IsFreshSwitch (length slots.items) switch }
    requires lines { IsFreshReader lines }
    ensures { (script : Script) → AreFreshSlots D.moment_of D.left_since D.told D.image D.faults_of script slots.items
        → HasRun D.moment_of D.left_since D.told D.image D.faults_of R.left R.faults_of W.taken W.faults_of script slots.items switch lines result }
{
    laws::fresh_are_one::<D>();
    Ran {
        end: Err(SwitchFault::NoMemory),
        cores: Vec::new(alloc),
        apart: slots,
        switch,
        kept: None,
        lines,
        rest: Plain::new(alloc),
    }
}

// Lets workers work on the cells of a run that is named, until nothing is left to do, and gives all cells back.
fn run_named<
    's,
    L: Names + Send + Sync,
    D: Disk + Drop + Send,
    R: Source + Drop + Send,
    W: Sink + Drop + Send,
    T: Threads + Wait + Copy + Send + Sync,
    G: TurnGate + Sync,
>(
    rt: &T,
    alloc: Global,
    blank: Blank,
    cells: Cells<'s, D, R, W, T>,
    gate: &G,
    workers: u32,
) -> (WorkEnd, Cells<'s, D, R, W, T>)
    requires name { (blank.name ≡ L.name) × (blank.parts ≡ L.parts) }
    requires workers { (0 < workers) × (workers ≡ blank.parts) }
    requires cells { AreCells L.names D.moment_of D.left_since D.told D.image D.faults_of R.left R.faults_of W.taken W.faults_of cells }
    requires full { empty_places (places_of cells) ≡ 0 }
    ensures cells { AreCells L.names D.moment_of D.left_since D.told D.image D.faults_of R.left R.faults_of W.taken W.faults_of result.1 }
    ensures full { empty_places (places_of result.1) ≡ 0 }
{
    let (book, share) = blank.open::<L>();
    let shared = Shared::new(Board::new(cells, workers, book));
    let Worked { end, share } = work_together(rt, alloc, &shared, gate, 0, workers, share);
    let board = shared.close(share);
    (end, board.into_cells())
}

// The same over what stands behind pointers, once all that it takes memory for is there.
fn run_prepared<
    's,
    D: Disk + Drop + Send,
    R: Source + Drop + Send,
    W: Sink + Drop + Send,
    T: Threads + Wait + Copy + Send + Sync,
    G: TurnGate + Sync,
>(
    rt: &T,
    alloc: Global,
    checked: &'s Checked,
    run: BoxedRun<D, R, W>,
    prepared: Prepared<'s, D, T>,
    gate: &G,
    workers: u32,
) -> Ran<D, R, W>
    requires workers { 1 ≤ workers }
    requires few { length run.slots.items ≤ most_slots }
    requires slots { AreFreshSlots D.moment_of D.left_since D.told D.image D.faults_of (script_in checked.now) run.slots.items }
    requires switch { IsFreshSwitch (length run.slots.items) run.switch }
    requires lines { IsFreshReader run.lines }
    requires prepared { IsPrepared (length run.slots.items) prepared }
    ensures { HasRun D.moment_of D.left_since D.told D.image D.faults_of R.left R.faults_of W.taken W.faults_of (script_in checked.now)
        run.slots.items run.switch run.lines result }
{
    let BoxedRun {
        slots,
        switch,
        lines,
    } = run;
    let Prepared {
        send,
        take,
        ends,
        made,
        room,
    } = prepared;
    let Made {
        fronts,
        backs,
        outs,
        inboxes,
    } = make_all(checked, slots, ends, made);
    let cells = Cells {
        fronts,
        backs,
        switch: Some(SwitchCell::new(switch, checked, take, outs, inboxes)),
        lines: Some(LinesCell::new(lines, send)),
    };
    let blank = Blank::new(u64::from(workers));
    let (end, cells) = run_named::<Brand, D, R, W, T, G>(rt, alloc, blank, cells, gate, workers);
    close_all(alloc, end, cells, room)
}

/// Makes the lanes and the cells of a run, and lets so many workers work, each in a thread of its own where one is to be had, until nothing is left to do
/// and the input has ended or a read of it has failed, or until one has met a write fault or want of memory. Then it closes the lanes and joins
/// the halves of each slot. Where memory is wanting for the lanes or the cells, nothing is done, and the halves are as they were.
///
/// The gate is entered and left round a front's turns.
pub fn run_workers<
    D: Disk + Drop + Send,
    R: Source + Drop + Send,
    W: Sink + Drop + Send,
    T: Threads + Wait + Copy + Send + Sync,
    G: TurnGate + Sync,
>(
    rt: &T,
    alloc: Global,
    checked: &Checked,
    slots: Vec<Halves<D>>,
    switch: Switch<W>,
    lines: Lines<R>,
    gate: &G,
    workers: u32,
) -> Ran<D, R, W>
    requires workers { 1 ≤ workers }
    requires few { length slots.items ≤ most_slots }
    requires slots { AreFreshSlots D.moment_of D.left_since D.told D.image D.faults_of (script_in checked.now) slots.items }
    requires switch { IsFreshSwitch (length slots.items) switch }
    requires lines { IsFreshReader lines }
    ensures { HasRun D.moment_of D.left_since D.told D.image D.faults_of R.left R.faults_of W.taken W.faults_of (script_in checked.now)
        slots.items switch lines result }
{
    let Ok(prepared) = prepare::<D, T>(rt, alloc, slots.len()) else {
        return unmade(alloc, slots, switch, lines);
    };
    let Ok(room) = with_room(alloc, slots.len()) else {
        return unmade(alloc, slots, switch, lines);
    };
    let given = GivenRun {
        slots,
        switch,
        lines,
    };
    match box_run(alloc, given, room) {
        Ok(run) => run_prepared(rt, alloc, checked, run, prepared, gate, workers),
        Err(
            GivenRun {
                slots,
                switch,
                lines,
            },
        ) => unmade(alloc, slots, switch, lines),
    }
}
