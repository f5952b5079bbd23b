//! The lanes are closed, and the halves of each slot joined.
ghost use Rattle.std.specs.Prelude.{◌≡◌, ◌≤◌, ◌++◌, ◌∷◌, [], length, false, List, Ok, Err, None, Some};
ghost use Rattle.std.specs.Vec.{vec_capacity};
ghost use Rattle.do_tree.specs.Tree.{Script};
ghost use Rattle.lane.specs.Lanes.{StartsWith};
ghost use Rattle.line_server.specs.declared.lines.Lines.{Lines as SeenLines};
ghost use Rattle.mailbox.specs.declared.fault.SwitchFault.TheVariants.{WriteFailed};
ghost use Rattle.mailbox.specs.declared.switch.Switch.{Switch as SeenSwitch};
ghost use Rattle.host_workers.specs.declared.joining.Halves.{Halves as SeenHalves};
ghost use Rattle.worker_pool.specs.Ended.{HasRun};
ghost use Rattle.worker_pool.specs.Joined.{AreJoined, AreOf, HasRoom, IsOf, IsPut, KeepsRoom, Slot};
ghost use Rattle.worker_pool.specs.Worked.{HasWorked};

use crate::ran::Ran;
use do_disk::{Disk, Sink, Source};
use do_value::{Mem, NoMemory};
use host_workers::{BackCell, Cells, FrontCell, Halves, LinesCell, SwitchParts, WorkEnd, join};
use lane::{Plain, SendEnd, TakeEnd, close};
use line_server::{Line, Lines};
use mailbox::SwitchFault;
use object_core::Core;
use std::alloc::Global;
use std::sync::Wait;
use timeline::{Event, Message};

// Room for the objects, or the halves, of all slots.
#[derive(Drop)]
pub(crate) struct Room<D> {
    pub(crate) cores: Vec<Core<D>>,
    pub(crate) apart: Vec<Halves<D>>,
}

impl<D: Disk + Drop> Room<D> {
    // Puts the object of the next slot behind the others, or its halves, where memory was wanting for it or for one before.
    fn put(&mut self, joined: Result<Core<D>, Halves<D>>)
        requires { HasRoom self.old }
        ensures put { IsPut joined self.old self.new }
        ensures room { KeepsRoom self.old self.new }
    {
        match joined {
            Ok(core) => self.put_core(core),
            Err(halves) => self.apart.push(halves).unwrap(),
        }
    }

    fn put_core(&mut self, core: Core<D>)
        requires { HasRoom self.old }
        ensures put { IsPut (Ok core) self.old self.new }
        ensures room { KeepsRoom self.old self.new }
    {
        if self.apart.is_empty() {
            self.cores.push(core).unwrap();
            return;
        }
        let (front, back) = core.split();
        self.apart.push(Halves { front, back }).unwrap();
    }

    // Whether each slot has its object.
    fn whole(&self) -> Mem<()>
        ensures { result ≡ Ok tt → self.now.apart.items ≡ [] }
    {
        if self.apart.is_empty() {
            Ok(())
        } else {
            Err(NoMemory)
        }
    }
}

// What the workers leave: the lanes are closed, and each slot's halves are joined, up to the first of which memory is wanting to keep what
// its lanes had.
pub(crate) fn close_all<'s, D: Disk + Drop, R: Source + Drop, W: Sink + Drop, T: Wait + Copy>(
    alloc: Global,
    end: WorkEnd,
    cells: Cells<'s, D, R, W, T>,
    room: Room<D>,
) -> Ran<D, R, W>
    requires none { (room.cores.items ≡ []) × (room.apart.items ≡ []) }
    requires room { (length cells.fronts.items ≤ vec_capacity room.cores) × (length cells.fronts.items ≤ vec_capacity room.apart) }
    requires worked { (script : Script) × (all : List (SeenHalves D)) × (switch : SeenSwitch W) × (lines : SeenLines R)
        × HasWorked D.moment_of D.left_since D.told D.image D.faults_of R.left R.faults_of W.taken W.faults_of script all switch lines cells }
    ensures { (script : Script) (all : List (SeenHalves D)) (switch : SeenSwitch W) (lines : SeenLines R)
        → HasWorked D.moment_of D.left_since D.told D.image D.faults_of R.left R.faults_of W.taken W.faults_of script all switch lines cells.entry
        → HasRun D.moment_of D.left_since D.told D.image D.faults_of R.left R.faults_of W.taken W.faults_of script all switch lines result }
{
    let Cells {
        fronts,
        backs,
        switch,
        lines,
    } = cells;
    let cell = switch.unwrap();
    let reader = lines.unwrap();
    let SwitchParts {
        switch,
        kept,
        lines: take,
        outs,
        inboxes,
    } = cell.into_parts();
    let (lines, rest, passed) = close_lines(alloc, reader, take);
    let room = join_all(alloc, fronts, backs, outs, inboxes, room);
    let fault = switch.fault();
    let joined = room.whole();
    let end = end_of(end, fault, passed, joined);
    let Room { cores, apart } = room;
    Ran {
        end,
        cores,
        apart,
        switch,
        kept,
        lines,
        rest,
    }
}

// The reader, the lines that were read and not accepted, and whether none that was read is lost.
fn close_lines<R: Source + Drop, T: Wait + Copy>(
    alloc: Global,
    cell: LinesCell<R, T>,
    take: TakeEnd<Line, T>,
) -> (Lines<R>, Plain<Line>, Mem<()>)
    requires { cell.send.lane ≡ take.lane }
    ensures lines { result.0 ≡ cell.lines }
    ensures taken { StartsWith cell.send.sent take.got }
    ensures passed { result.2 ≡ Ok tt → (cell.stopped ≡ false) × (cell.send.sent ≡ take.got ++ result.1.waiting) }
{
    let stopped = cell.is_stopped();
    let (lines, send) = cell.into_parts();
    match close(alloc, send, take) {
        Ok(rest) => {
            let passed = if stopped { Err(NoMemory) } else { Ok(()) };
            (lines, rest, passed)
        }
        Err(NoMemory) => (lines, Plain::new(alloc), Err(NoMemory)),
    }
}

// What stopped the run: the switch's fault, or want of memory of a worker, for a line or for an object.
fn end_of(
    end: WorkEnd,
    fault: Option<SwitchFault>,
    passed: Mem<()>,
    joined: Mem<()>,
) -> Result<(), SwitchFault>
    ensures goes_on { result ≡ Ok tt → (fault ≡ None) × (passed ≡ Ok tt) × (joined ≡ Ok tt) }
    ensures write_failed { result ≡ Err WriteFailed → fault ≡ Some WriteFailed }
    ensures failed_write { fault ≡ Some WriteFailed → result ≡ Err WriteFailed }
{
    if let Some(fault) = fault {
        return Err(fault);
    }
    match (end, passed, joined) {
        (WorkEnd::NoMemory, _, _) => Err(SwitchFault::NoMemory),
        (_, Ok(()), Ok(())) => Ok(()),
        _ => Err(SwitchFault::NoMemory),
    }
}

// Joins the cells of each slot.
fn join_all<'s, D: Disk + Drop, T: Wait + Copy>(
    alloc: Global,
    fronts: Vec<Option<FrontCell<'s, T>>>,
    backs: Vec<Option<BackCell<D, T>>>,
    outs: Vec<TakeEnd<Message, T>>,
    inboxes: Vec<SendEnd<Event, T>>,
    room: Room<D>,
) -> Room<D>
    requires none { (room.cores.items ≡ []) × (room.apart.items ≡ []) }
    requires room { (length fronts.items ≤ vec_capacity room.cores) × (length fronts.items ≤ vec_capacity room.apart) }
    requires slots { (slots : List (Slot D T)) × AreOf slots fronts.items backs.items outs.items inboxes.items }
    ensures { (slots : List (Slot D T)) → AreOf slots fronts.entry.items backs.items outs.items inboxes.items
        → AreJoined D.moment_of D.left_since D.told D.image D.faults_of slots result.cores.items result.apart.items }
{
    let mut room = room;
    let mut backs = backs.into_iter();
    let mut outs = outs.into_iter();
    let mut inboxes = inboxes.into_iter();
    for front in fronts {
        let back = backs.next();
        let messages = outs.next();
        let posts = inboxes.next();
        join_slot(alloc, &mut room, front, back, messages, posts);
    }
    room
}

// Joins the cells of the next slot.
fn join_slot<'s, D: Disk + Drop, T: Wait + Copy>(
    alloc: Global,
    room: &mut Room<D>,
    front: Option<FrontCell<'s, T>>,
    back: Option<Option<BackCell<D, T>>>,
    messages: Option<TakeEnd<Message, T>>,
    posts: Option<SendEnd<Event, T>>,
)
    requires room { HasRoom room.old }
    requires slot { (slot : Slot D T) × IsOf slot front back messages posts }
    ensures room { KeepsRoom room.old room.new }
    ensures joined { (slot : Slot D T) (done : List (Slot D T)) → IsOf slot front.entry back messages posts
        → AreJoined D.moment_of D.left_since D.told D.image D.faults_of done room.old.cores.items room.old.apart.items
        → AreJoined D.moment_of D.left_since D.told D.image D.faults_of (done ++ slot ∷ []) room.new.cores.items room.new.apart.items }
{
    let front = front.unwrap();
    let place = back.unwrap();
    let back = place.unwrap();
    let posts = posts.unwrap();
    let messages = messages.unwrap();
    let joined = join(alloc, front, back, posts, messages);
    room.put(joined);
}
