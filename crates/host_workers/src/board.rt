//! The board, and how cells leave it and come back.
ghost use Rattle.std.specs.Prelude.{◌≡◌, ◌≤◌, ◌<◌, ◌+◌, true, IfSome};
ghost use Rattle.host_workers.specs.Board.{AreCells, IsBackOf, IsFrontOf, IsHeld, IsLinesOf, IsLook, IsSwitchOf, IsThere};
ghost use Rattle.host_workers.specs.Board.{empty_places, held_count, lines_count, places_of};
ghost use Rattle.host_workers.specs.declared.jobs.Job.TheVariants.{Front, Back, Switch, Lines};

use crate::back_cell::BackCell;
use crate::cells::{Cells, Held};
use crate::crew::Crew;
use crate::flow::Flow;
use crate::front_cell::FrontCell;
use crate::jobs::{Bounds, Found, Job, WorkEnd};
use crate::lines_cell::LinesCell;
use crate::marks::Marks;
use crate::names::Names;
use crate::switch_cell::{SwitchCell, SwitchParts};
use do_disk::{Disk, Sink, Source};
use lane::no_two;
use std::marker::Model;
use std::sync::Wait;
use std::sync::ledger::{Book, Share};

// What an empty place of the lines counts in the ledger, and any other.
const LINES_COUNT: u64 = 1_024;

const EACH_COUNT: u64 = 1;

// How far the input was read.
#[derive(Clone, Copy, PartialEq, Eq, Debug, Drop)]
enum Reading {
    Goes,
    Ended,
    Failed,
}

// What a look at the board tells a worker.
#[derive(Clone, Copy, Debug, Drop)]
pub(crate) enum Look {
    Do(Job),
    // Another worker may still make something to do.
    Wait,
    End(WorkEnd),
}

// Whose slots a worker looks at.
#[derive(Clone, Copy, Debug, Drop)]
enum Whose {
    Mine(u32),
    Anyone,
}

/// The cells of a run at their places, of which some are empty while a worker has their cell. The ledger's book counts the empty ones.
/// Contracts
/// see which places have theirs.
pub struct Board<'s, L: Names, D: Disk, R: Source, W: Sink, T: Wait> {
    cells: Cells<'s, D, R, W, T>,
    marks: Marks,
    slots: u32,
    workers: u32,
    // The slot at which the next look begins.
    next: u32,
    reading: Reading,
    // What a worker has met that ends the work.
    halted: Option<WorkEnd>,
    crew: Crew,
    flow: Flow,
    book: Book<L>,
}

// Written out, so that letting one go is proved once.
impl<'s, L: Names + Drop, D: Disk + Drop, R: Source + Drop, W: Sink + Drop, T: Wait + Drop> Drop
    for Board<'s, L, D, R, W, T> {
    fn drop(self) {
        let Board {
            cells,
            marks,
            slots: _,
            workers: _,
            next: _,
            reading: _,
            halted: _,
            crew,
            flow,
            book,
        } = self;
        drop(cells);
        drop(marks);
        drop(crew);
        drop(flow);
        drop(book);
    }
}

impl<'s, L: Names, D: Disk, R: Source, W: Sink, T: Wait> Model for Board<'s, L, D, R, W, T> {
    ghost use Rattle.host_workers.specs.Board.{Places};

    ghost Value = { Places };

    ghost use Rattle.host_workers.specs.Board.{IsBoard, places_of};

    ghost view = { λ b. places_of b.cells };

    ghost invariant = { λ b. IsBoard L.names D.moment_of D.left_since D.told D.image D.faults_of R.left R.faults_of W.taken W.faults_of
        b.book.total b.slots b.workers b.cells };
}

impl<'s, L: Names, D: Disk + Drop, R: Source + Drop, W: Sink + Drop, T: Wait + Copy> Board<
    's,
    L,
    D,
    R,
    W,
    T,
> {
    /// A board with each cell at its place. It takes no memory.
    pub fn new(
        cells: Cells<'s, D, R, W, T>,
        workers: u32,
        book: Book<L>,
    ) -> Board<'s, L, D, R, W, T>
        requires cells { AreCells L.names D.moment_of D.left_since D.told D.image D.faults_of R.left R.faults_of W.taken W.faults_of cells }
        requires full { empty_places (places_of cells) ≡ 0 }
        requires workers { 1 ≤ workers }
        requires book { book.total ≡ 0 }
        ensures { result ≡ places_of cells.entry }
    {
        let slots = cells.fronts.as_slice().len() as u32;
        let marks = Marks::new(slots);
        Board {
            cells,
            marks,
            slots,
            workers,
            next: 0,
            reading: Reading::Goes,
            halted: None,
            crew: Crew::new(),
            flow: Flow::new(),
            book,
        }
    }

    /// The cells as the board holds them. It takes no memory.
    pub fn into_cells(self) -> Cells<'s, D, R, W, T>
        ensures places { places_of result ≡ self.entry }
        ensures cells { AreCells L.names D.moment_of D.left_since D.told D.image D.faults_of R.left R.faults_of W.taken W.faults_of result }
    {
        let Board {
            cells,
            marks,
            slots: _,
            workers: _,
            next: _,
            reading: _,
            halted: _,
            crew,
            flow,
            book,
        } = self;
        drop(marks);
        drop(crew);
        drop(flow);
        drop(book);
        cells
    }

    // Who has every part of the ledger knows what the empty places count.
    pub(crate) fn audit(&mut self, share: &mut Share<L>)
        requires { share.old.parts ≡ L.parts }
        ensures { (self.new ≡ self.old) × (empty_places self.new ≡ share.old.amount) }
    {
        self.book.audit(share);
    }

    // What a worker may do now: work on a cell that is there and marked, of its own slots first; or read a line, where no place is marked;
    // or end, where no line is left to read either and no cell is out.
    pub(crate) fn look(&self, me: u32) -> Look
        ensures { IsLook self.now result }
    {
        if let Some(end) = self.halted {
            return Look::End(end);
        }
        match self.find_job(me) {
            Some(job) => Look::Do(job),
            None => self.look_on(),
        }
    }

    fn find_job(&self, me: u32) -> Option<Job>
        ensures { IfSome result (λ job. IsThere self.now job) }
    {
        if self.marks.switch() && self.has_switch() {
            return Some(Job::Switch);
        }
        match self.find(Whose::Mine(me)) {
            Some(job) => Some(job),
            None => self.find(Whose::Anyone),
        }
    }

    // A half that is there and marked, of these slots: from the next slot on, and then from the first on.
    fn find(&self, whose: Whose) -> Option<Job>
        ensures { IfSome result (λ job. IsThere self.now job) }
    {
        match self.find_from(self.next, whose) {
            Some(job) => Some(job),
            None => self.find_from(0, whose),
        }
    }

    fn find_from(&self, first: u32, whose: Whose) -> Option<Job>
        ensures { IfSome result (λ job. IsThere self.now job) }
    {
        let mut at = first;
        for _ in 0..self.slots {
            let slot = self.marks.first_from(at)?;
            if suits(slot, self.workers, whose)
                && let Some(job) = self.job_at(slot)
            {
                return Some(job);
            }
            at = slot.wrapping_add(1);
        }
        None
    }

    fn job_at(&self, slot: u32) -> Option<Job>
        ensures { IfSome result (λ job. IsThere self.now job) }
    {
        if self.marks.back(slot) && self.has_back(slot) {
            return Some(Job::Back(slot));
        }
        if self.marks.front(slot) && self.has_front(slot) {
            return Some(Job::Front(slot));
        }
        None
    }

    // What a worker may do where it finds no marked cell.
    fn look_on(&self) -> Look
        ensures { IsLook self.now result }
    {
        match self.reading {
            Reading::Goes => self.look_at_lines(),
            Reading::Ended => self.end_by(WorkEnd::Ended),
            Reading::Failed => self.end_by(WorkEnd::ReadFailed),
        }
    }

    fn look_at_lines(&self) -> Look
        ensures { IsLook self.now result }
    {
        if self.has_lines() && self.flow.room() > 0 {
            Look::Do(Job::Lines)
        } else {
            Look::Wait
        }
    }

    // A cell that is out may still make something to do.
    fn end_by(&self, end: WorkEnd) -> Look
        ensures { IsLook self.now result }
    {
        if self.is_whole() {
            Look::End(end)
        } else {
            Look::Wait
        }
    }

    fn is_whole(&self) -> bool {
        self.has_switch()
            && self.has_lines()
            && self.cells.fronts.iter().all(|place| place.is_some())
            && self.cells.backs.iter().all(|place| place.is_some())
    }

    fn has_front(&self, slot: u32) -> bool
        ensures { result ≡ true → IsThere self.now (Front slot) }
    {
        match self.cells.fronts.get(slot as usize) {
            Some(place) => place.is_some(),
            None => false,
        }
    }

    fn has_back(&self, slot: u32) -> bool
        ensures { result ≡ true → IsThere self.now (Back slot) }
    {
        match self.cells.backs.get(slot as usize) {
            Some(place) => place.is_some(),
            None => false,
        }
    }

    fn has_switch(&self) -> bool
        ensures { result ≡ true → IsThere self.now Switch }
    {
        self.cells.switch.is_some()
    }

    fn has_lines(&self) -> bool
        ensures { result ≡ true → IsThere self.now Lines }
    {
        self.cells.lines.is_some()
    }

    // Counts a worker that has come.
    pub(crate) fn come(&mut self)
        ensures { self.new ≡ self.old }
    {
        self.crew.come();
    }

    // Counts a worker that is about to sleep.
    pub(crate) fn sleep(&mut self)
        ensures { self.new ≡ self.old }
    {
        self.crew.sleep();
    }

    // Counts a worker that has woken.
    pub(crate) fn wake(&mut self)
        ensures { self.new ≡ self.old }
    {
        self.crew.wake();
    }

    // Whether a worker is to be called, since one sleeps and something is left to do; it counts as called then. For lines alone one is called
    // where the last read had several at hand, or where nobody looks soon: so no line waits for a turn or for a disk while a worker sleeps.
    pub(crate) fn call_one(&mut self, me: u32) -> bool
        ensures { self.new ≡ self.old }
    {
        if !self.crew.is_any_asleep() {
            return false;
        }
        let calls = match self.look(me) {
            Look::Do(Job::Lines) => self.flow.had_several() || !self.crew.looks_any_soon(),
            Look::Do(_) => true,
            _ => false,
        };
        if calls {
            self.crew.call();
        }
        calls
    }

    // How far the work on the cell of a place goes. A worker that is alone reads one line at a time: each is answered as far as it can be
    // before the next is read.
    pub(crate) fn bounds(&self, job: Job) -> Bounds {
        Bounds {
            waits: match job {
                Job::Back(slot) => self.marks.waits(slot),
                _ => 0,
            },
            lines: if self.workers == 1 {
                1
            } else {
                self.flow.room()
            },
        }
    }

    // Takes a cell that is there out of its place.
    pub(crate) fn take(&mut self, share: &mut Share<L>, job: Job) -> Held<'s, D, R, W, T>
        requires there { IsThere self.old job }
        requires part { 0 < share.old.parts }
        ensures held { IsHeld L.names D.moment_of D.left_since D.told D.image D.faults_of R.left R.faults_of W.taken W.faults_of result }
        ensures parts { share.new.parts ≡ share.old.parts }
        ensures amount { share.new.amount ≡ share.old.amount + held_count result }
    {
        self.marks.set(job, false);
        self.crew.begin(job);
        match job {
            Job::Front(slot) => {
                let cell = self.take_front(share, slot);
                Held::Front { slot, cell }
            }
            Job::Back(slot) => {
                let cell = self.take_back(share, slot);
                Held::Back { slot, cell }
            }
            Job::Switch => {
                let cell = self.take_switch(share);
                Held::Switch { cell }
            }
            Job::Lines => {
                let cell = self.take_lines(share);
                Held::Lines { cell }
            }
        }
    }

    fn take_front(&mut self, share: &mut Share<L>, slot: u32) -> FrontCell<'s, T>
        requires there { IsThere self.old (Front slot) }
        requires part { 0 < share.old.parts }
        ensures cell { (slot < L.names.slots) × IsFrontOf L.names slot result }
        ensures parts { share.new.parts ≡ share.old.parts }
        ensures amount { share.new.amount ≡ share.old.amount + 1 }
    {
        let Some(cell) = self.cells.fronts[slot as usize].take() else {
            unreachable!()
        };
        self.book.add(share, EACH_COUNT);
        self.next = slot.wrapping_add(1);
        cell
    }

    fn take_back(&mut self, share: &mut Share<L>, slot: u32) -> BackCell<D, T>
        requires there { IsThere self.old (Back slot) }
        requires part { 0 < share.old.parts }
        ensures cell { (slot < L.names.slots) × IsBackOf D.moment_of D.left_since D.told D.image D.faults_of L.names slot result }
        ensures parts { share.new.parts ≡ share.old.parts }
        ensures amount { share.new.amount ≡ share.old.amount + 1 }
    {
        let Some(cell) = self.cells.backs[slot as usize].take() else {
            unreachable!()
        };
        self.book.add(share, EACH_COUNT);
        self.next = slot.wrapping_add(1);
        cell
    }

    fn take_switch(&mut self, share: &mut Share<L>) -> SwitchCell<'s, W, T>
        requires there { IsThere self.old Switch }
        requires part { 0 < share.old.parts }
        ensures cell { IsSwitchOf W.taken W.faults_of L.names result }
        ensures parts { share.new.parts ≡ share.old.parts }
        ensures amount { share.new.amount ≡ share.old.amount + 1 }
    {
        let Some(cell) = self.cells.switch.take() else {
            unreachable!()
        };
        self.book.add(share, EACH_COUNT);
        cell
    }

    fn take_lines(&mut self, share: &mut Share<L>) -> LinesCell<R, T>
        requires there { IsThere self.old Lines }
        requires part { 0 < share.old.parts }
        ensures cell { IsLinesOf R.left R.faults_of L.names result }
        ensures parts { share.new.parts ≡ share.old.parts }
        ensures amount { share.new.amount ≡ share.old.amount + lines_count }
    {
        let Some(cell) = self.cells.lines.take() else {
            unreachable!()
        };
        self.book.add(share, LINES_COUNT);
        cell
    }

    // Puts a cell that was out back at its place, and marks what may have something to do after what was found at it.
    pub(crate) fn put_back(
        &mut self,
        share: &mut Share<L>,
        held: Held<'s, D, R, W, T>,
        found: Found,
    )
        requires held { IsHeld L.names D.moment_of D.left_since D.told D.image D.faults_of R.left R.faults_of W.taken W.faults_of held }
        requires out { held_count held ≤ share.old.amount }
        ensures parts { share.new.parts ≡ share.old.parts }
        ensures amount { share.new.amount + held_count held.entry ≡ share.old.amount }
    {
        self.stop_at(found);
        match held {
            Held::Front { slot, cell } => {
                self.note(Job::Front(slot), found);
                self.put_front(share, slot, cell);
            }
            Held::Back { slot, cell } => {
                self.note(Job::Back(slot), found);
                self.put_back_half(share, slot, cell);
            }
            Held::Switch { cell } => {
                self.note(Job::Switch, found);
                self.marks.follow_posts(cell.posts());
                self.flow.accept(cell.count_accepted());
                self.put_switch(share, cell);
            }
            Held::Lines { cell } => {
                self.note(Job::Lines, found);
                self.flow.read(found.lines);
                self.put_lines(share, cell);
            }
        }
    }

    // Notes that the cell of this place comes back, and what was found at it.
    fn note(&mut self, place: Job, found: Found)
        ensures { self.new ≡ self.old }
    {
        self.crew.end(place);
        self.marks.note(place, found);
    }

    // Notes that the reading has stopped, or that the work has to.
    fn stop_at(&mut self, found: Found)
        ensures { self.new ≡ self.old }
    {
        match found.stopped {
            Some(WorkEnd::Ended) => self.reading = Reading::Ended,
            Some(WorkEnd::ReadFailed) => self.reading = Reading::Failed,
            Some(end) => self.halted = Some(end),
            None => (),
        }
    }

    fn put_front(&mut self, share: &mut Share<L>, slot: u32, cell: FrontCell<'s, T>)
        requires place { (slot < L.names.slots) × IsFrontOf L.names slot cell }
        requires out { 1 ≤ share.old.amount }
        ensures parts { share.new.parts ≡ share.old.parts }
        ensures amount { share.new.amount + 1 ≡ share.old.amount }
    {
        if let Some(other) = self.cells.fronts[slot as usize].take() {
            no_two_fronts(cell, other);
            unreachable!()
        }
        self.cells.fronts[slot as usize] = Some(cell);
        self.book.sub(share, EACH_COUNT);
    }

    fn put_back_half(&mut self, share: &mut Share<L>, slot: u32, cell: BackCell<D, T>)
        requires place { (slot < L.names.slots) × IsBackOf D.moment_of D.left_since D.told D.image D.faults_of L.names slot cell }
        requires out { 1 ≤ share.old.amount }
        ensures parts { share.new.parts ≡ share.old.parts }
        ensures amount { share.new.amount + 1 ≡ share.old.amount }
    {
        if let Some(other) = self.cells.backs[slot as usize].take() {
            no_two_backs(cell, other);
            unreachable!()
        }
        self.cells.backs[slot as usize] = Some(cell);
        self.book.sub(share, EACH_COUNT);
    }

    fn put_switch(&mut self, share: &mut Share<L>, cell: SwitchCell<'s, W, T>)
        requires place { IsSwitchOf W.taken W.faults_of L.names cell }
        requires out { 1 ≤ share.old.amount }
        ensures parts { share.new.parts ≡ share.old.parts }
        ensures amount { share.new.amount + 1 ≡ share.old.amount }
    {
        if let Some(other) = self.cells.switch.take() {
            no_two_switches(cell, other);
            unreachable!()
        }
        self.cells.switch = Some(cell);
        self.book.sub(share, EACH_COUNT);
    }

    // The place is empty, since all others together count less than what the share has out.
    fn put_lines(&mut self, share: &mut Share<L>, cell: LinesCell<R, T>)
        requires place { IsLinesOf R.left R.faults_of L.names cell }
        requires out { lines_count ≤ share.old.amount }
        ensures parts { share.new.parts ≡ share.old.parts }
        ensures amount { share.new.amount + lines_count ≡ share.old.amount }
    {
        self.book.sub(share, LINES_COUNT);
        let _none = self.cells.lines.replace(cell);
    }
}

// Whether a slot is one of these: a worker's own are those whose number, divided by that of the workers, leaves its own.
fn suits(slot: u32, workers: u32, whose: Whose) -> bool
    requires { 1 ≤ workers }
{
    match whose {
        Whose::Mine(me) => slot % workers == me % workers,
        Whose::Anyone => true,
    }
}

// A lane has one end that takes: there are no two fronts with one inbox.
fn no_two_fronts<'s, T: Wait + Copy>(one: FrontCell<'s, T>, other: FrontCell<'s, T>)
    requires { one.inbox.lane ≡ other.inbox.lane }
    ensures { ⊥ }
{
    let (_front, inbox, _notices, _line) = one.into_parts();
    let (_other, second, _others, _more) = other.into_parts();
    no_two(inbox, second);
}

// Nor two backs with one line.
fn no_two_backs<D: Disk + Drop, T: Wait + Copy>(one: BackCell<D, T>, other: BackCell<D, T>)
    requires { one.line.lane ≡ other.line.lane }
    ensures { ⊥ }
{
    let (_back, line, _notices, _out) = one.into_parts();
    let (_other, second, _others, _more) = other.into_parts();
    no_two(line, second);
}

// Nor two switches with one lane of lines.
fn no_two_switches<'s, W: Sink + Drop, T: Wait + Copy>(
    one: SwitchCell<'s, W, T>,
    other: SwitchCell<'s, W, T>,
)
    requires { one.lines.lane ≡ other.lines.lane }
    ensures { ⊥ }
{
    let SwitchParts { lines, .. } = one.into_parts();
    let SwitchParts { lines: second, .. } = other.into_parts();
    no_two(lines, second);
}
