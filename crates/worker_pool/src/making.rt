//! The lanes and the cells of slots that were just mounted.
ghost use Rattle.std.specs.Prelude.{◌≡◌, ◌≤◌, ◌+◌, ◌++◌, ◌∷◌, ℕ, [], length, vec_len, Some, IfOk};
ghost use Rattle.std.specs.List.{All};
ghost use Rattle.std.specs.Vec.{vec_capacity};
ghost use Rattle.do_tree.specs.Checked.{tree_of as script_in};
ghost use Rattle.object_core.specs.One.{AreFresh};
ghost use Rattle.worker_pool.specs.Making.{AreJustMounted, AreMade, AreNewEnds, HasRoom, IsEmpty, IsMade};

use crate::boxing::BoxedHalves;
use do_disk::Disk;
use do_tree::Checked;
use do_value::{Mem, NoMemory};
use host_workers::{BackCell, FrontCell};
use lane::{SendEnd, TakeEnd, make};
use std::alloc::Global;
use std::sync::Wait;
use timeline::{Entry, Event, Message, Notice};

// Both ends of each of a slot's lanes: of its events, entries, notices and messages.
#[derive(Drop)]
pub(crate) struct SlotEnds<T: Wait> {
    pub(crate) inbox: SendEnd<Event, T>,
    pub(crate) events: TakeEnd<Event, T>,
    pub(crate) line: SendEnd<Entry, T>,
    pub(crate) entries: TakeEnd<Entry, T>,
    pub(crate) told: SendEnd<Notice, T>,
    pub(crate) notices: TakeEnd<Notice, T>,
    pub(crate) messages: SendEnd<Message, T>,
    pub(crate) out: TakeEnd<Message, T>,
}

// The cells of one slot, with the switch's ends of its lanes.
#[derive(Drop)]
pub(crate) struct Slot<'s, D, T: Wait> {
    pub(crate) front: FrontCell<'s, T>,
    pub(crate) back: BackCell<D, T>,
    pub(crate) out: TakeEnd<Message, T>,
    pub(crate) inbox: SendEnd<Event, T>,
}

// Those of all slots, by their numbers.
#[derive(Drop)]
pub(crate) struct Made<'s, D, T: Wait> {
    pub(crate) fronts: Vec<Option<FrontCell<'s, T>>>,
    pub(crate) backs: Vec<Option<BackCell<D, T>>>,
    pub(crate) outs: Vec<TakeEnd<Message, T>>,
    pub(crate) inboxes: Vec<SendEnd<Event, T>>,
}

// An empty list with room for so many.
pub(crate) fn with_room<X: Drop>(alloc: Global, many: usize) -> Mem<Vec<X>>
    ensures none { IfOk result (λ v. (v.items ≡ []) × (vec_len v ≡ 0)) }
    ensures room { IfOk result (λ v. many ≤ vec_capacity v) }
{
    match Vec::with_capacity(alloc, many) {
        Ok(list) => Ok(list),
        Err(_) => Err(NoMemory),
    }
}

// Makes the lanes of a slot.
fn make_ends<T: Wait + Copy>(rt: &T, alloc: Global) -> Mem<SlotEnds<T>>
    ensures { IfOk result AreNewEnds }
{
    let (inbox, events) = make(rt, alloc)?;
    let (line, entries) = make(rt, alloc)?;
    let (told, notices) = make(rt, alloc)?;
    let (messages, out) = make(rt, alloc)?;
    Ok(SlotEnds {
        inbox,
        events,
        line,
        entries,
        told,
        notices,
        messages,
        out,
    })
}

// Makes those of so many slots.
pub(crate) fn make_all_ends<T: Wait + Copy>(
    rt: &T,
    alloc: Global,
    slots: usize,
) -> Mem<Vec<SlotEnds<T>>>
    ensures many { IfOk result (λ all. length all.items ≡ slots) }
    ensures new { IfOk result (λ all. All AreNewEnds all.items) }
{
    let mut all = Vec::new(alloc);
    for _ in 0..slots {
        let ends = make_ends(rt, alloc)?;
        if all.push(ends).is_err() {
            return Err(NoMemory);
        }
    }
    Ok(all)
}

// The cells of a slot's halves, on lanes that are new. It takes no memory.
fn make_slot<'s, D: Disk + Drop, T: Wait + Copy>(
    checked: &'s Checked,
    halves: BoxedHalves<D>,
    ends: SlotEnds<T>,
) -> Slot<'s, D, T>
    requires fresh { AreFresh (script_in checked.now) halves.front.half halves.back }
    requires new { AreNewEnds ends }
    ensures { IsMade D.moment_of D.left_since D.told D.image D.faults_of (script_in checked.now) halves result }
{
    let (front, back) = halves.into_parts();
    let SlotEnds {
        inbox,
        events,
        line,
        entries,
        told,
        notices,
        messages,
        out,
    } = ends;
    Slot {
        front: FrontCell::new(front, checked, events, notices, line),
        back: BackCell::new(back, entries, told, messages),
        out,
        inbox,
    }
}

impl<'s, D: Disk + Drop, T: Wait + Copy> Made<'s, D, T> {
    // None yet, with room for those of so many slots.
    pub(crate) fn with_room(alloc: Global, slots: usize) -> Mem<Made<'s, D, T>>
        ensures empty { IfOk result IsEmpty }
        ensures room { IfOk result (HasRoom slots) }
    {
        let fronts = with_room(alloc, slots)?;
        let backs = with_room(alloc, slots)?;
        let outs = with_room(alloc, slots)?;
        let inboxes = with_room(alloc, slots)?;
        Ok(Made {
            fronts,
            backs,
            outs,
            inboxes,
        })
    }

    // Puts the cells and ends of one slot behind those of others.
    fn add(&mut self, slot: Slot<'s, D, T>)
        requires { HasRoom 1 self.old }
        ensures fronts { self.new.fronts.items ≡ self.old.fronts.items ++ Some slot.entry.front ∷ [] }
        ensures backs { self.new.backs.items ≡ self.old.backs.items ++ Some slot.entry.back ∷ [] }
        ensures outs { self.new.outs.items ≡ self.old.outs.items ++ slot.entry.out ∷ [] }
        ensures inboxes { self.new.inboxes.items ≡ self.old.inboxes.items ++ slot.entry.inbox ∷ [] }
        ensures room { (more : ℕ) → HasRoom (more + 1) self.old → HasRoom more self.new }
    {
        let Slot {
            front,
            back,
            out,
            inbox,
        } = slot;
        self.fronts.push(Some(front)).unwrap();
        self.backs.push(Some(back)).unwrap();
        self.outs.push(out).unwrap();
        self.inboxes.push(inbox).unwrap();
    }
}

// Makes the cells of all slots, on lanes that are new. It takes no memory.
pub(crate) fn make_all<'s, D: Disk + Drop, T: Wait + Copy>(
    checked: &'s Checked,
    slots: Vec<BoxedHalves<D>>,
    ends: Vec<SlotEnds<T>>,
    made: Made<'s, D, T>,
) -> Made<'s, D, T>
    requires fresh { AreJustMounted (script_in checked.now) slots.items }
    requires many { length ends.items ≡ length slots.items }
    requires new { All AreNewEnds ends.items }
    requires empty { IsEmpty made }
    requires room { HasRoom (length slots.items) made }
    ensures { AreMade D.moment_of D.left_since D.told D.image D.faults_of (script_in checked.now) slots.items result }
{
    let mut made = made;
    let mut ends = ends;
    for halves in slots {
        let Some(next) = ends.pop() else {
            unreachable!()
        };
        made.add(make_slot(checked, halves, next));
    }
    made
}
