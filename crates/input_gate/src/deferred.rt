//! The events that wait until they may be delivered.
ghost use Rattle.std.specs.Prelude.{◌≡◌, ◌<◌, ◌^◌, ◌+◌, ◌++◌, ◌∷◌, [], List, IfErr, IfOk, OnOk, OnErr, MatchOption, is_some};
ghost use Rattle.std.specs.Ordering.{nat_cmp};
ghost use Rattle.std.specs.BTreeMap.{IsOrdered, insert_entry};
ghost use Rattle.object_calls.specs.Numbered.{under};
ghost use Rattle.input_gate.specs.Deferring.{may_enter, NoneEnters, TakesFirst};
ghost use Rattle.input_gate.specs.Doors.{AreDoors, FindsLeast, IsNew, Leaves, StandsAsBefore, StandsToo, is_among};

use crate::doors::{Doors, earlier};
use do_value::{Mem, NoMemory};
use std::alloc::Global;
use std::collections::BTreeMap;
use std::collections::btree_map::Values;
use std::marker::Model;
use timeline::Event;

/// Which of the events that wait may be delivered.
#[derive(Clone, Copy, Debug)]
pub enum Entering {
    /// Each: no block is open and no task, or the object is down.
    Any,
    /// Each but an eviction: some task is open, and no block.
    NoEviction,
    /// A `Bind`, and the answers under this number, of any incarnation: the task whose block is open waits under the number.
    AnswerUnder(u64),
    /// A `Bind` alone: a block is open, whose task waits for no answer.
    BindAlone,
}

/// The events that an object defers. Contracts see them in the order in which they came. To add one costs logarithmic time in how
/// many there are, and so does to take the first of those that may be delivered.
pub struct Deferred {
    // How many came so far: each has its number, the first 1.
    came: u64,
    events: BTreeMap<u64, Event>,
    doors: Doors,
}

// Written out, so that letting one go is proved once.
impl Drop for Deferred {
    fn drop(self) {
        let Deferred {
            came: _,
            events,
            doors,
        } = self;
        drop(events);
        drop(doors);
    }
}

impl Model for Deferred {
    ghost use Rattle.std.specs.Prelude.{List};
    ghost use Rattle.std.specs.BTreeMap.{values};
    ghost use Rattle.std.specs.Coded.{coded_list};
    ghost use Rattle.timeline.specs.contracts.event.Event as one_event;
    ghost use Rattle.timeline.specs.declared.event.Event.{Event as OneEvent};
    ghost use Rattle.input_gate.specs.Doors.{IsIndexed};

    ghost Value = { List OneEvent };

    ghost coded = { coded_list one_event.the_row.coded };

    ghost view = { λ d. values d.events };

    ghost invariant = { λ d. IsIndexed d.came d.events d.doors };
}

impl Deferred {
    /// No event waits.
    pub fn new(alloc: Global) -> Deferred
        ensures { result ≡ [] }
    {
        Deferred {
            came: 0,
            events: BTreeMap::new(alloc),
            doors: Doors::new(alloc),
        }
    }

    /// The event waits from here on, behind the others. After `NoMemory` they are as before.
    pub fn add(&mut self, event: Event) -> Mem<()>
        ensures added { OnOk result (self.new ≡ self.old ++ event ∷ []) }
        ensures same { OnErr result (self.new ≡ self.old) }
    {
        self.came = put_event(self.came, &mut self.events, &mut self.doors, event)?;
        Ok(())
    }

    /// The first event of those that may be delivered, which waits no more. `None` exactly where none may be. It takes no memory.
    pub fn take_first(&mut self, entering: Entering) -> Option<Event>
        ensures { MatchOption result (NoneEnters (may_enter entering) self.old self.new) (TakesFirst (may_enter entering) self.old self.new) }
    {
        let number = first_of(&self.events, &self.doors, entering)?;
        let event = self.events.remove(&number)?;
        self.doors.leave(&event, number);
        Some(event)
    }

    /// The events that wait, in their order.
    pub fn iter(&self) -> Values<'_, u64, Event>
        ensures { result ≡ self.now }
    {
        self.events.values()
    }
}

// The event is put behind the others, under the number after the last one, which it gives. After `NoMemory` all is as before.
fn put_event(
    came: u64,
    events: &mut BTreeMap<u64, Event>,
    doors: &mut Doors,
    event: Event,
) -> Mem<u64>
    requires { IsNew doors.old (came + 1) }
    ensures number { IfOk result (λ number. (number ≡ came + 1) × (number < 2 ^ 64)) }
    ensures entries { OnOk result (events.new.entries ≡ insert_entry nat_cmp events.old.entries (came + 1) event) }
    ensures ordered { OnOk result (IsOrdered nat_cmp events.new) }
    ensures stands { OnOk result (StandsToo event (came + 1) doors.old doors.new) }
    ensures same { OnErr result (events.new.entries ≡ events.old.entries) }
    ensures same_doors { OnErr result (StandsAsBefore doors.old doors.new) }
{
    if came == u64::MAX {
        return Err(NoMemory);
    }
    let number = came + 1;
    if doors.stand(&event, number).is_err() {
        return Err(NoMemory);
    }
    match insert_event(events, number, event) {
        Ok(()) => Ok(number),
        Err(event) => {
            drop_event(doors, event, number);
            Err(NoMemory)
        }
    }
}

// The event waits under this number, or comes back for want of memory.
fn insert_event(events: &mut BTreeMap<u64, Event>, number: u64, event: Event) -> Result<(), Event>
    ensures entries { OnOk result (events.new.entries ≡ insert_entry nat_cmp events.old.entries number event) }
    ensures ordered { OnOk result (IsOrdered nat_cmp events.new) }
    ensures same { OnErr result (events.new.entries ≡ events.old.entries) }
    ensures back { IfErr result (λ e. e ≡ event) }
{
    match events.insert(number, event) {
        Ok(_) => Ok(()),
        Err(refused) => {
            let (_, event) = refused.value;
            Err(event)
        }
    }
}

// The event stands before its doors no more, and is gone.
fn drop_event(doors: &mut Doors, event: Event, number: u64)
    ensures { Leaves event number doors.old doors.new }
{
    doors.leave(&event, number);
    drop(event);
}

// The number of the first event of those that may be delivered.
fn first_of(events: &BTreeMap<u64, Event>, doors: &Doors, entering: Entering) -> Option<u64>
    requires { AreDoors events.now.entries doors.now }
    ensures { FindsLeast (λ k. is_among (may_enter entering) (under k events.now.entries)) result }
{
    match entering {
        Entering::Any => oldest(events),
        Entering::NoEviction => doors.staying(),
        Entering::AnswerUnder(number) => earlier(doors.answer(number), doors.bind()),
        Entering::BindAlone => doors.bind(),
    }
}

// The number of the first event.
fn oldest(events: &BTreeMap<u64, Event>) -> Option<u64>
    ensures { FindsLeast (λ k. is_some (under k events.now.entries)) result }
{
    match events.first_key_value() {
        Some((number, _)) => Some(*number),
        None => None,
    }
}
