//! Serving a folder.
ghost use Rattle.std.specs.Prelude.{◌≡◌, ◌≢◌, ◌≤◌, ◌+◌, ℕ, List, [], true, false, Option, None, Err, IfErr, IfOk, OnErr, OnOk, length, string_bytes, vec_len};
ghost use Rattle.std.specs.Vec.{vec_capacity};
ghost use Rattle.do_disk.specs.Disk.{Rose};
ghost use Rattle.do_disk.specs.Slots.{most_slots};
ghost use Rattle.do_tree.specs.Checked.{tree_of as script_in};
ghost use Rattle.line_server.specs.Lines.{source_of};
ghost use Rattle.placement.specs.Slots.{IsOneEach, Slots};
ghost use Rattle.mailbox.specs.Runs.{fault_of, out_of};
ghost use Rattle.worker_pool.specs.declared.ran.Ran.{Ran as SeenRan};
ghost use Rattle.host_core.specs.Ends as spec;
ghost use Rattle.host_core.specs.Ends.{is_late};
ghost use Rattle.host_core.specs.Finishing.{Finishes};
ghost use Rattle.host_core.specs.Begun.{AreBegun};
ghost use Rattle.host_core.specs.Objects.{CanAllRun};
ghost use Rattle.host_core.specs.Opening.{HasRoom};
ghost use Rattle.host_core.specs.Report.{AreInRange, AsksSlots, HasCause, IsEmpty, IsOpened, IsReport, LeavesUnopened, PrintsLines, ReadsLines};
ghost use Rattle.host_core.specs.Resuming.{CameFrom, Resumes, ServesFrom, ServesOn};

use crate::closing::{close, close_apart};
use crate::objects::Objects;
use crate::opening::{OpenEnd, open};
use crate::report::{Report, SlotReport};
use crate::room::Queues;
use crate::serving::{Stop, serve_lines};
use crate::settings::{ServeEnd, Served, Settings};
use do_disk::{Depot, Disk, Sink, Source, TurnGate};
use do_tree::Checked;
use do_value::{Mem, NoMemory};
use host_workers::Halves;
use lane::Plain;
use line_server::{Line, Lines};
use mailbox::{Switch, SwitchFault};
use object_core::laws;
use placement::Directory;
use std::alloc::Global;
use std::sync::Wait;
use std::thread::Threads;
use timeline::{Caller, Message, Waits};
use worker_pool::{Ran, run_workers};

/// Serves the input over the objects of the folder's slots. It mounts slots 0, 1, 2 and on, and ends at the first that can't be mounted or
/// names the object of an earlier one. Then so many worker threads run the objects, read the lines of the input, and pass on what objects say, until the
/// input has ended or a read of it has failed, and nothing is left to do. What they leave is done on one thread: before each line that is left, and at
/// the end, the objects run until nothing is under way. At the end of the input, and where its source fails, it writes what each request that is
/// left waits for. It isn't promised to return.
///
/// The report has one row for each slot that was mounted, from slot 0 on; room for all is made before the first is mounted.
/// `unopened` is the disk of the slot at which the opening ended, where the depot handed it out.
///
/// The gate is entered and left, with the number of the slot, round the turns that a worker makes of a slot's object.
pub fn serve<
    P: Depot,
    R: Source + Drop + Send,
    W: Sink + Drop + Send,
    G: TurnGate + Sync,
    T: Threads + Wait + Copy + Send + Sync,
>(
    rt: &T,
    alloc: Global,
    checked: &Checked,
    settings: &Settings,
    depot: &mut P,
    input: R,
    out: W,
    gate: &G,
    report: &mut Report<P::Store>,
) -> Served<R, W>
    requires settings { AreInRange settings.now }
    requires empty { IsEmpty report.old }
    ensures report { IsReport P.Store.moment_of P.Store.left_since P.Store.told P.Store.faults_of settings.now.journal (script_in checked.now)
        (P.slot_at depot.old (string_bytes settings.now.folder)) settings.now.slots result.end report.new }
    ensures lines { ReadsLines (R.left input) (R.left result.input) result.end report.new }
    ensures output { PrintsLines (W.taken out) (W.taken result.out) result.end report.new }
    ensures opened { IsOpened settings.now.slots input result.input out result.out result.end report.old report.new }
    ensures unopened { LeavesUnopened P.Store.told P.Store.image P.Store.moment_of P.Store.left_since
        (P.slot_at depot.old (string_bytes settings.now.folder)) result.end report.new }
    ensures causes { HasCause P.Store.faults_of (P.faults_of depot.old) (P.faults_of depot.new) (R.faults_of input) (R.faults_of result.input)
        (W.faults_of out) (W.faults_of result.out) result.end report.new }
    ensures asked { AsksSlots (P.asked depot.old) (P.asked depot.new) (string_bytes settings.now.folder) settings.now.slots report.new }
{
    let Ok(room) = Room::of(alloc, &mut report.slots, settings.slots) else {
        return without_memory(input, out);
    };
    let Room { mut slots, queues } = room;
    let mut directory = Directory::new(alloc, settings.slots);
    match open(
        alloc,
        checked,
        settings,
        depot,
        &mut directory,
        &mut slots,
        &mut report.unopened,
    ) {
        Ok(()) => serve_slots(
            rt, alloc, checked, settings, gate, directory, slots, queues, input, out, report,
        ),
        Err(end) => {
            laws::fresh_are_one::<P::Store>();
            close_apart(slots, &mut report.slots);
            Served {
                end: opening_end(end),
                input,
                out,
            }
        }
    }
}

fn without_memory<R, W>(input: R, out: W) -> Served<R, W>
    ensures { result ≡ record { end = ServeEnd.NoMemory; input = input; out = out } }
{
    Served {
        end: ServeEnd::NoMemory,
        input,
        out,
    }
}

// Room for the halves of all slots and the queues of their objects.
#[derive(Drop)]
struct Room<D> {
    slots: Vec<Halves<D>>,
    queues: Queues,
}

impl<D: Disk + Drop> Room<D> {
    // Room for so many slots, and for as many rows more.
    fn of(alloc: Global, rows: &mut Vec<SlotReport<D>>, count: u32) -> Mem<Room<D>>
        ensures rows { OnOk result (vec_len rows.new + count ≤ vec_capacity rows.new) }
        ensures same { rows.new.items ≡ rows.old.items }
        ensures room { IfOk result (λ room. (room.slots.items ≡ []) × (count ≤ vec_capacity room.slots) × HasRoom count room.queues) }
    {
        let mut slots = Vec::new(alloc);
        make_room(rows, count)?;
        make_room(&mut slots, count)?;
        let queues = Queues::with_room(alloc, count as usize)?;
        Ok(Room { slots, queues })
    }
}

// Makes room for so many items more.
fn make_room<X>(items: &mut Vec<X>, count: u32) -> Mem<()>
    ensures room { OnOk result (vec_len items.new + count ≤ vec_capacity items.new) }
    ensures same { items.new.items ≡ items.old.items }
{
    if items.reserve(count as usize).is_err() {
        return Err(NoMemory);
    }
    Ok(())
}

// Serves the input over the slots, all of which are mounted: first the workers run.
fn serve_slots<
    D: Disk + Drop + Send,
    R: Source + Drop + Send,
    W: Sink + Drop + Send,
    G: TurnGate + Sync,
    T: Threads + Wait + Copy + Send + Sync,
>(
    rt: &T,
    alloc: Global,
    checked: &Checked,
    settings: &Settings,
    gate: &G,
    directory: Directory,
    slots: Vec<Halves<D>>,
    queues: Queues,
    input: R,
    out: W,
    report: &mut Report<D>,
) -> Served<R, W>
    requires settings { AreInRange settings.now }
    requires empty { report.old.slots.items ≡ [] }
    requires room { (vec_len report.old.slots + length slots.items ≤ vec_capacity report.old.slots) × HasRoom (length slots.items) queues }
    requires few { length slots.items ≤ most_slots }
    requires many { length directory ≡ length slots.items }
    requires begun { (limit : ℕ) × (contents : ℕ → Option (List ℕ))
        × AreBegun D.moment_of D.left_since D.told D.image D.faults_of limit (script_in checked.now) contents directory slots.items }
    ensures report { (limit : ℕ) (contents : ℕ → Option (List ℕ)) → IsOneEach directory
        → AreBegun D.moment_of D.left_since D.told D.image D.faults_of limit (script_in checked.now) contents directory slots.items
        → IsReport D.moment_of D.left_since D.told D.faults_of limit (script_in checked.now) contents (length directory) result.end report.new }
    ensures lines { ReadsLines (R.left input) (R.left result.input) result.end report.new }
    ensures output { PrintsLines (W.taken out) (W.taken result.out) result.end report.new }
    ensures many { length report.new.slots.items ≡ length slots.items }
    ensures unopened { report.new.unopened ≡ report.old.unopened }
    ensures end { is_late result.end }
    ensures read_failed { result.end ≡ ServeEnd.ReadFailed → Rose (R.faults_of input) (R.faults_of result.input) }
    ensures write_failed { result.end ≡ ServeEnd.WriteFailed → Rose (W.faults_of out) (W.faults_of result.out) }
    ensures steady { result.end ≢ ServeEnd.WriteFailed → W.faults_of result.out ≡ W.faults_of out }
{
    let lines = Lines::new(alloc, input);
    let switch = Switch::new(alloc, checked, directory, out);
    let ran = run_workers(
        rt,
        alloc,
        checked,
        slots,
        switch,
        lines,
        gate,
        settings.workers,
    );
    serve_ran(rt, alloc, checked, ran, queues, report)
}

// Serves on from what the workers have left, and makes the report.
fn serve_ran<D: Disk + Drop, R: Source, W: Sink, T: Wait>(
    rt: &T,
    alloc: Global,
    checked: &Checked,
    ran: Ran<D, R, W>,
    queues: Queues,
    report: &mut Report<D>,
) -> Served<R, W>
    requires empty { report.old.slots.items ≡ [] }
    requires room { (vec_len report.old.slots + (length ran.cores.items + length ran.apart.items) ≤ vec_capacity report.old.slots)
        × HasRoom (length ran.cores.items) queues }
    requires came { (limit : ℕ) × (contents : ℕ → Option (List ℕ)) × (named : Slots)
        × CameFrom D.moment_of D.left_since D.told D.image D.faults_of R.left R.faults_of W.taken W.faults_of limit (script_in checked.now) contents named ran }
    ensures report { (limit : ℕ) (contents : ℕ → Option (List ℕ)) (named : Slots) → IsOneEach named
        → CameFrom D.moment_of D.left_since D.told D.image D.faults_of R.left R.faults_of W.taken W.faults_of limit (script_in checked.now) contents named ran
        → IsReport D.moment_of D.left_since D.told D.faults_of limit (script_in checked.now) contents (length named) result.end report.new }
    ensures served { (limit : ℕ) (contents : ℕ → Option (List ℕ)) (named : Slots)
        → (came : CameFrom D.moment_of D.left_since D.told D.image D.faults_of R.left R.faults_of W.taken W.faults_of limit (script_in checked.now)
        contents named ran)
        → ServesFrom R.left R.faults_of W.taken W.faults_of (source_of came.lines) (out_of came.switch) result report.new }
    ensures many { length report.new.slots.items ≡ length ran.cores.items + length ran.apart.items }
    ensures unopened { report.new.unopened ≡ report.old.unopened }
    ensures end { is_late result.end }
{
    let Ran {
        end,
        cores,
        apart,
        mut switch,
        kept,
        mut lines,
        rest,
    } = ran;
    let mut objects = Objects::of(alloc, cores, queues);
    let served = serve_on(
        rt,
        alloc,
        checked,
        end,
        kept,
        rest,
        &mut lines,
        &mut switch,
        &mut objects,
    );
    switch_history::laws::answers_are_asked();
    switch_history::laws::calls_come_in_order();
    switch_history::laws::ends_are_routed();
    switch_history::laws::posts_fit();
    switch_history::laws::moments_are_in_range();
    switch_history::laws::calls_are_answered_once();
    switch_history::laws::asks_are_answered_once();
    switch_history::laws::answers_are_no_more_than_asks();
    switch_history::laws::unknown_is_only_answered();
    switch_history::laws::fetches_are_open();
    switch_history::laws::left_has_its_line();
    let mut left = Vec::new(alloc);
    let closed = close(alloc, objects, &mut report.slots, &mut left);
    close_apart(apart, &mut report.slots);
    let end = finish(&mut switch, served, closed, left);
    report.lines = lines.count();
    let (out, log) = switch.into_parts();
    report.switch = log;
    Served {
        end,
        input: lines.into_source(),
        out,
    }
}

// Serves on where nothing has stopped the workers: a message that they kept waits to be routed with the others.
fn serve_on<D: Disk, R: Source, W: Sink, T: Wait>(
    rt: &T,
    alloc: Global,
    checked: &Checked,
    end: Result<(), SwitchFault>,
    kept: Option<(u32, Message)>,
    rest: Plain<Line>,
    lines: &mut Lines<R>,
    switch: &mut Switch<W>,
    objects: &mut Objects<D>,
) -> Result<(), Stop>
    requires resumes { (limit : ℕ) × (contents : ℕ → Option (List ℕ)) × (named : Slots) × (ran : SeenRan D R W)
        × Resumes D.moment_of D.left_since D.told D.image D.faults_of R.left R.faults_of W.taken W.faults_of limit (script_in checked.now) contents named
        ran end kept rest lines.old switch.old objects.old }
    ensures serves { (limit : ℕ) (contents : ℕ → Option (List ℕ)) (named : Slots) (ran : SeenRan D R W)
        → (resumes : Resumes D.moment_of D.left_since D.told D.image D.faults_of R.left R.faults_of W.taken W.faults_of limit (script_in checked.now)
        contents named ran end kept rest lines.old switch.old objects.old)
        → ServesOn D.moment_of D.left_since D.told D.image D.faults_of R.left R.faults_of W.taken W.faults_of limit (script_in checked.now) contents named
        resumes.came.switch resumes.came.lines lines.new switch.new objects.new result }
    ensures stops { IfErr end (λ fault. (result ≡ Err (spec.switch_stop fault)) × (switch.new ≡ switch.old)) }
    ensures again { CanAllRun D.moment_of D.left_since D.told D.image D.faults_of (script_in checked.now) objects.new }
    ensures many { length objects.new.cores.items ≡ length objects.old.cores.items }
{
    end?;
    if objects.keep(kept).is_err() {
        return Err(Stop::NoMemory);
    }
    serve_lines(rt, alloc, checked, rest, lines, switch, objects)
}

// Writes what is left, where all that was read is served.
fn finish<W: Sink>(
    switch: &mut Switch<W>,
    served: Result<(), Stop>,
    closed: Mem<()>,
    left: Vec<(u32, Caller, Waits)>,
) -> ServeEnd
    requires { spec.is_served (spec.serving_end served) ≡ true → fault_of switch.old ≡ None }
    ensures late { is_late result }
    ensures stops { spec.is_served (spec.serving_end served) ≡ false → (result ≡ spec.serving_end served) × (switch.new ≡ switch.old) }
    ensures finishes { spec.is_served (spec.serving_end served) ≡ true
        → Finishes W.taken W.faults_of switch.old switch.new left.items (spec.serving_end served) result }
    ensures closed { spec.is_served (spec.serving_end served) ≡ true → spec.is_served result ≡ true → OnErr closed ⊥ }
{
    let end = serving_end(served);
    if is_served(&end) {
        finish_served(switch, closed, left, end)
    } else {
        end
    }
}

// Writes what is left, and ends so, where that succeeds.
fn finish_served<W: Sink>(
    switch: &mut Switch<W>,
    closed: Mem<()>,
    left: Vec<(u32, Caller, Waits)>,
    end: ServeEnd,
) -> ServeEnd
    requires goes { fault_of switch.old ≡ None }
    requires served { spec.is_served end ≡ true }
    ensures late { is_late result }
    ensures finishes { Finishes W.taken W.faults_of switch.old switch.new left.items end result }
    ensures closed { spec.is_served result ≡ true → OnErr closed ⊥ }
{
    if closed.is_err() {
        return ServeEnd::NoMemory;
    }
    match switch.finish(left) {
        Ok(()) => end,
        Err(SwitchFault::WriteFailed) => ServeEnd::WriteFailed,
        Err(SwitchFault::NoMemory) => ServeEnd::NoMemory,
    }
}

fn is_served(end: &ServeEnd) -> bool
    ensures { result ≡ spec.is_served end.now }
{
    matches!(end, ServeEnd::Finished | ServeEnd::ReadFailed)
}

/// The end of a run whose opening stopped so.
pub fn opening_end(end: OpenEnd) -> ServeEnd
    ensures { result ≡ spec.opening_end end }
{
    match end {
        OpenEnd::Failed => ServeEnd::OpenFailed,
        OpenEnd::BadSlot(bad) => ServeEnd::BadSlot(bad),
        OpenEnd::NoMemory => ServeEnd::NoMemory,
    }
}

// The end of a run whose lines were served, or stopped so.
fn serving_end(served: Result<(), Stop>) -> ServeEnd
    ensures { result ≡ spec.serving_end served }
{
    match served {
        Ok(()) => ServeEnd::Finished,
        Err(Stop::ReadFailed) => ServeEnd::ReadFailed,
        Err(Stop::WriteFailed) => ServeEnd::WriteFailed,
        Err(Stop::NoMemory) => ServeEnd::NoMemory,
    }
}
