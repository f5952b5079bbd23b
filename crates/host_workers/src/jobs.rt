//! What is done with a cell that is out of its place.
ghost use Rattle.std.specs.Prelude.{◌≡◌, ℕ, ℤ, List, Option, Some};
ghost use Rattle.timeline.specs.Switch.{Switch as SeenSwitch};
ghost use Rattle.host_workers.specs.Backs.{CanStep, KeepsBackCell, KeepsCellAlone, SameLanes as SameBackLanes};
ghost use Rattle.host_workers.specs.Board.{IsHeld, held_count};
ghost use Rattle.host_workers.specs.Fronts.{IsFrontCell, KeepsFrontCell, SameLanes as SameFrontLanes};
ghost use Rattle.host_workers.specs.Lines.{IsNumbered, HasCounted, IsLinesCell};
ghost use Rattle.host_workers.specs.Switches.{IsSwitchCell, KeepsPrinted, KeepsSwitchCell, SameLanes as SameSwitchLanes};

use crate::back_cell::BackCell;
use crate::cells::Held;
use crate::front_cell::FrontCell;
use crate::lines_cell::LinesCell;
use crate::marks::MOST_WAITS;
use crate::names::Names;
use crate::switch_cell::SwitchCell;
use do_disk::{Disk, Sink, Source, TurnGate};
use do_value::NoMemory;
use line_server::LineFault;
use mailbox::SwitchFault;
use object_front::Turned;
use std::alloc::Global;
use std::sync::Wait;
use timeline::Stepped;

/// How many steps of one kind a worker makes at most while it holds a cell.
pub const MOST_STEPS: u32 = 1_024;

/// How a worker ended.
#[derive(Clone, Copy, PartialEq, Eq, Debug, Drop)]
pub enum WorkEnd {
    /// The input has ended, and nothing is left to do.
    Ended,
    /// A read of the input has failed, and nothing is left to do.
    ReadFailed,
    /// A worker has met a write fault.
    WriteFailed,
    /// A worker has met want of memory.
    NoMemory,
}

// A place whose cell a worker takes to work on it.
#[derive(Clone, Copy, Debug, Drop)]
pub(crate) enum Job {
    Front(u32),
    Back(u32),
    Switch,
    Lines,
}

// What a worker found at a cell, and for whom it has made something.
#[derive(Clone, Copy, Debug, Drop)]
pub(crate) struct Found {
    // The cell next to it has got something: a front's back entries, a back's front notices, the lines' switch a line.
    pub(crate) told: bool,
    // A back let messages go to the switch.
    pub(crate) freed: bool,
    // There may be more to do at the cell itself.
    pub(crate) more: bool,
    // How often in a row a back has now answered its front and left its flight for what the front writes next.
    pub(crate) waits: u8,
    // How many lines were read.
    pub(crate) lines: u32,
    // The input has ended, or it stands at this fault.
    pub(crate) stopped: Option<WorkEnd>,
}

// What a step of the switch did.
#[derive(Clone, Copy, Debug, Drop)]
enum Step {
    Did,
    Nothing,
    Stopped(WorkEnd),
}

// How far the work on a cell goes.
#[derive(Clone, Copy, Debug, Drop)]
pub(crate) struct Bounds {
    // How often in a row the back has left its flight for what its front writes next.
    pub(crate) waits: u8,
    // How many lines are read at most.
    pub(crate) lines: u32,
}

impl Found {
    fn nothing() -> Found {
        Found {
            told: false,
            freed: false,
            more: false,
            waits: 0,
            lines: 0,
            stopped: None,
        }
    }

    fn told() -> Found {
        Found {
            told: true,
            ..Found::nothing()
        }
    }

    // Whoever is next to it may have got something, and there may be more to do at it.
    fn more() -> Found {
        Found {
            more: true,
            ..Found::told()
        }
    }

    // Lines that were read before their end are for the switch.
    fn stopped(end: WorkEnd) -> Found {
        Found {
            stopped: Some(end),
            ..Found::told()
        }
    }

    // A back has answered its front so often in a row by now, and left its flight.
    fn waits(count: u8) -> Found {
        Found {
            waits: count,
            ..Found::nothing()
        }
    }

    // A back let go what it held in so many steps, of which so many were messages.
    fn left(steps: usize, messages: usize) -> Found {
        Found {
            told: messages < steps,
            freed: messages > 0,
            ..Found::nothing()
        }
    }

    // So many lines are on their way to the switch.
    fn read(lines: u32) -> Found {
        Found {
            lines,
            ..Found::told()
        }
    }

    // Whether something was done, and nothing is left.
    fn is_whole(&self) -> bool {
        self.told && !self.more && self.stopped.is_none()
    }

    // The same, where the front was told something just if this is so.
    fn told_where(self, answered: bool) -> Found {
        Found {
            told: answered,
            ..self
        }
    }

    // What was taken behind the flight is for another look: what is let go meanwhile doesn't wait for it.
    fn behind_flight(self, answered: bool) -> Found {
        Found {
            told: answered,
            more: self.told,
            ..self
        }
    }

    // The flight is for the next look: what was let go before it doesn't wait for the disk.
    fn leaving_flight(self) -> Found {
        Found { more: true, ..self }
    }

    // What was found in two things that a back did.
    fn and(self, other: Found) -> Found {
        Found {
            told: self.told || other.told,
            freed: self.freed || other.freed,
            more: self.more || other.more,
            stopped: match self.stopped {
                Some(end) => Some(end),
                None => other.stopped,
            },
            ..self
        }
    }
}

// Works on a cell, without the lock.
pub(crate) fn work_on<'s, L: Names, D: Disk, R: Source, W: Sink, T: Wait + Copy, G: TurnGate>(
    alloc: Global,
    gate: &G,
    held: Held<'s, D, R, W, T>,
    bounds: Bounds,
) -> (Held<'s, D, R, W, T>, Found)
    requires held { IsHeld L.names D.moment_of D.left_since D.told D.image D.faults_of R.left R.faults_of W.taken W.faults_of held }
    ensures held { IsHeld L.names D.moment_of D.left_since D.told D.image D.faults_of R.left R.faults_of W.taken W.faults_of result.0 }
    ensures count { held_count result.0 ≡ held_count held.entry }
{
    match held {
        Held::Front { slot, cell } => {
            let mut cell = cell;
            let found = turn_front(alloc, gate, slot, &mut cell);
            (Held::Front { slot, cell }, found)
        }
        Held::Back { slot, cell } => {
            let mut cell = cell;
            let found = step_back(alloc, &mut cell, bounds.waits);
            (Held::Back { slot, cell }, found)
        }
        Held::Switch { cell } => {
            let mut cell = cell;
            let found = run_switch(&mut cell);
            (Held::Switch { cell }, found)
        }
        Held::Lines { cell } => {
            let mut cell = cell;
            let found = read_lines(&mut cell, bounds.lines);
            (Held::Lines { cell }, found)
        }
    }
}

// Makes a front's turns until it is idle, within the gate.
fn turn_front<'s, T: Wait + Copy, G: TurnGate>(
    alloc: Global,
    gate: &G,
    slot: u32,
    cell: &mut FrontCell<'s, T>,
) -> Found
    requires { (first : Option ℕ) × (alarm : Option (ℤ × ℕ)) × IsFrontCell first alarm cell.old }
    ensures lanes { SameFrontLanes cell.old cell.new }
    ensures cell { KeepsFrontCell cell.old cell.new }
{
    gate.enter(slot);
    let found = make_turns(alloc, cell);
    gate.leave(slot);
    found
}

fn make_turns<'s, T: Wait + Copy>(alloc: Global, cell: &mut FrontCell<'s, T>) -> Found
    requires { (first : Option ℕ) × (alarm : Option (ℤ × ℕ)) × IsFrontCell first alarm cell.old }
    ensures lanes { SameFrontLanes cell.old cell.new }
    ensures cell { KeepsFrontCell cell.old cell.new }
{
    let mut found = Found::nothing();
    for _ in 0..MOST_STEPS {
        match cell.turn(alloc) {
            Ok(Turned::Ran) => found = Found::told(),
            Ok(Turned::Idle) => return found,
            Err(NoMemory) => return Found::stopped(WorkEnd::NoMemory),
        }
    }
    Found::more()
}

// Takes all that has come, lets go what follows unconfirmed batches alone, appends all as one flight, and lets go what may go. What that
// makes room for is taken by the next worker. Where its front waits for what it was answered now, the flight may be left to the next
// look: so what the front writes next goes along. So it is where something could go before the flight: that doesn't wait for the disk.
//
// The front was told something where an entry was answered that a front waits for, where what was let go isn't a message, and by a mounting.
fn step_back<D: Disk, T: Wait + Copy>(alloc: Global, cell: &mut BackCell<D, T>, waits: u8) -> Found
    requires { CanStep D.moment_of D.left_since D.told D.image D.faults_of cell.old }
    ensures lanes { SameBackLanes cell.old cell.new }
    ensures cell { KeepsBackCell D.moment_of D.left_since D.told D.image D.faults_of cell.old cell.new }
    ensures alone { KeepsCellAlone D.moment_of D.left_since D.told D.image D.faults_of cell.old cell.new }
{
    let first = cell.count_taken();
    let took = take_all(cell);
    let answered = cell.has_answered(first);
    if waits < MOST_WAITS && answered && took.is_whole() {
        return Found::waits(waits + 1);
    }
    let taken = took.told_where(answered);
    let early = release_early(cell);
    if early.freed {
        return taken.and(early).leaving_flight();
    }
    cell.flush();
    let released = release_all(cell);
    let mended = mend(alloc, cell);
    let behind = cell.count_taken();
    let again = take_all(cell);
    let behind = again.behind_flight(cell.has_answered(behind));
    taken.and(early).and(released).and(mended).and(behind)
}

// Where a flight is due, lets go first what waits for none of its batches: what follows unconfirmed writes alone.
fn release_early<D: Disk, T: Wait + Copy>(cell: &mut BackCell<D, T>) -> Found
    requires { CanStep D.moment_of D.left_since D.told D.image D.faults_of cell.old }
    ensures lanes { SameBackLanes cell.old cell.new }
    ensures cell { KeepsBackCell D.moment_of D.left_since D.told D.image D.faults_of cell.old cell.new }
    ensures alone { KeepsCellAlone D.moment_of D.left_since D.told D.image D.faults_of cell.old cell.new }
{
    if cell.has_unflushed() {
        release_all(cell)
    } else {
        Found::nothing()
    }
}

fn take_all<D: Disk, T: Wait + Copy>(cell: &mut BackCell<D, T>) -> Found
    requires { CanStep D.moment_of D.left_since D.told D.image D.faults_of cell.old }
    ensures lanes { SameBackLanes cell.old cell.new }
    ensures cell { KeepsBackCell D.moment_of D.left_since D.told D.image D.faults_of cell.old cell.new }
    ensures alone { KeepsCellAlone D.moment_of D.left_since D.told D.image D.faults_of cell.old cell.new }
{
    let mut found = Found::nothing();
    for _ in 0..MOST_STEPS {
        match cell.take() {
            Ok(Stepped::Did) => found = Found::told(),
            Ok(Stepped::Nothing) => return found,
            Err(NoMemory) => return Found::stopped(WorkEnd::NoMemory),
        }
    }
    Found::more()
}

fn release_all<D: Disk, T: Wait + Copy>(cell: &mut BackCell<D, T>) -> Found
    requires { CanStep D.moment_of D.left_since D.told D.image D.faults_of cell.old }
    ensures lanes { SameBackLanes cell.old cell.new }
    ensures cell { KeepsBackCell D.moment_of D.left_since D.told D.image D.faults_of cell.old cell.new }
    ensures alone { KeepsCellAlone D.moment_of D.left_since D.told D.image D.faults_of cell.old cell.new }
{
    let before = cell.count_released();
    let mut steps: usize = 0;
    for _ in 0..MOST_STEPS {
        match cell.release() {
            Ok(Stepped::Did) => steps = steps.saturating_add(1),
            Ok(Stepped::Nothing) => {
                return Found::left(steps, cell.count_released().saturating_sub(before));
            }
            Err(NoMemory) => return Found::stopped(WorkEnd::NoMemory),
        }
    }
    Found::left(steps, cell.count_released().saturating_sub(before)).and(Found::more())
}

// Mounts the journal again, where an append has failed.
fn mend<D: Disk, T: Wait + Copy>(alloc: Global, cell: &mut BackCell<D, T>) -> Found
    requires { CanStep D.moment_of D.left_since D.told D.image D.faults_of cell.old }
    ensures lanes { SameBackLanes cell.old cell.new }
    ensures cell { KeepsBackCell D.moment_of D.left_since D.told D.image D.faults_of cell.old cell.new }
    ensures alone { KeepsCellAlone D.moment_of D.left_since D.told D.image D.faults_of cell.old cell.new }
{
    match cell.mend(alloc) {
        Ok(Stepped::Did) => Found::more(),
        Ok(Stepped::Nothing) => Found::nothing(),
        Err(NoMemory) => Found::stopped(WorkEnd::NoMemory),
    }
}

// What a step of the switch did.
fn step_of(answer: Result<Stepped, SwitchFault>) -> Step {
    match answer {
        Ok(Stepped::Did) => Step::Did,
        Ok(Stepped::Nothing) => Step::Nothing,
        Err(SwitchFault::WriteFailed) => Step::Stopped(WorkEnd::WriteFailed),
        Err(SwitchFault::NoMemory) => Step::Stopped(WorkEnd::NoMemory),
    }
}

// Accepts the lines that have come, and routes the messages.
fn run_switch<'s, W: Sink, T: Wait + Copy>(cell: &mut SwitchCell<'s, W, T>) -> Found
    requires { (first : SeenSwitch) × IsSwitchCell first cell.old }
    ensures lanes { SameSwitchLanes cell.old cell.new }
    ensures cell { KeepsSwitchCell cell.old cell.new }
    ensures printed { KeepsPrinted W.taken W.faults_of cell.old.switch cell.new.switch }
{
    let accepted = accept_all(cell);
    accepted.and(route_all(cell))
}

fn accept_all<'s, W: Sink, T: Wait + Copy>(cell: &mut SwitchCell<'s, W, T>) -> Found
    requires { (first : SeenSwitch) × IsSwitchCell first cell.old }
    ensures lanes { SameSwitchLanes cell.old cell.new }
    ensures cell { KeepsSwitchCell cell.old cell.new }
    ensures printed { KeepsPrinted W.taken W.faults_of cell.old.switch cell.new.switch }
{
    for _ in 0..MOST_STEPS {
        match step_of(cell.accept()) {
            Step::Did => (),
            Step::Nothing => return Found::nothing(),
            Step::Stopped(end) => return Found::stopped(end),
        }
    }
    Found::more()
}

fn route_all<'s, W: Sink, T: Wait + Copy>(cell: &mut SwitchCell<'s, W, T>) -> Found
    requires { (first : SeenSwitch) × IsSwitchCell first cell.old }
    ensures lanes { SameSwitchLanes cell.old cell.new }
    ensures cell { KeepsSwitchCell cell.old cell.new }
    ensures printed { KeepsPrinted W.taken W.faults_of cell.old.switch cell.new.switch }
{
    for _ in 0..MOST_STEPS {
        match step_of(cell.route()) {
            Step::Did => (),
            Step::Nothing => return Found::nothing(),
            Step::Stopped(end) => return Found::stopped(end),
        }
    }
    Found::more()
}

// Reads the next line, and so many at most with those behind it that are at hand, and sends them to the switch.
fn read_lines<R: Source, T: Wait + Copy>(cell: &mut LinesCell<R, T>, most: u32) -> Found
    ensures cell { (whole : List ℕ) → IsLinesCell R.left whole cell.old → IsLinesCell R.left whole cell.new }
    ensures counts { (from : ℕ) → HasCounted R.faults_of from cell.old.lines → HasCounted R.faults_of from cell.new.lines }
    ensures lane { cell.new.send.lane ≡ cell.old.send.lane }
    ensures numbers { IsNumbered cell.old → IsNumbered cell.new }
{
    let mut lines: u32 = 0;
    for _ in 0..most {
        if let Some(end) = read_line(cell) {
            return Found::stopped(end);
        }
        lines = lines.saturating_add(1);
        if !cell.is_ready() {
            return Found::read(lines);
        }
    }
    Found::read(lines)
}

// Reads the next line and sends it to the switch, or says what has ended the reading.
fn read_line<R: Source, T: Wait + Copy>(cell: &mut LinesCell<R, T>) -> Option<WorkEnd>
    ensures cell { (whole : List ℕ) → IsLinesCell R.left whole cell.old → IsLinesCell R.left whole cell.new }
    ensures counts { (from : ℕ) → HasCounted R.faults_of from cell.old.lines → HasCounted R.faults_of from cell.new.lines }
    ensures lane { cell.new.send.lane ≡ cell.old.send.lane }
    ensures numbers { IsNumbered cell.old → IsNumbered cell.new }
{
    match cell.read() {
        Ok(Stepped::Did) => None,
        Ok(Stepped::Nothing) => Some(WorkEnd::Ended),
        Err(LineFault::ReadFailed) => Some(WorkEnd::ReadFailed),
        Err(LineFault::NoMemory) => Some(WorkEnd::NoMemory),
    }
}
