//! The numbers of the events that wait, by what lets them enter.
ghost use Rattle.std.specs.Prelude.{◌≡◌, [], ℕ, ◌||◌, Bool, true, false, OnOk, OnErr};
ghost use Rattle.std.specs.Ordering.{nat_cmp};
ghost use Rattle.std.specs.BTreeSet.{contains, IsSameSet, IsUnchanged, Updates};
ghost use Rattle.input_gate.specs.Doors.{staying, bind, answer, stands, AreDoors, FindsLeast, IsNew, Leaves, StandsAsBefore, StandsToo};

use do_value::{Mem, NoMemory};
use std::alloc::Global;
use std::collections::BTreeSet;
use timeline::Event;

/// The numbers of all events but evictions; those of each `Bind`; and those of answers, behind the numbers that they answer.
pub(crate) struct Doors {
    pub staying: BTreeSet<u64>,
    pub binds: BTreeSet<u64>,
    pub answers: BTreeSet<(u64, u64)>,
}

// Written out, so that letting one go is proved once.
impl Drop for Doors {
    fn drop(self) {
        let Doors {
            staying,
            binds,
            answers,
        } = self;
        drop(staying);
        drop(binds);
        drop(answers);
    }
}

impl Doors {
    pub fn new(alloc: Global) -> Doors
        ensures { AreDoors [] result }
    {
        Doors {
            staying: BTreeSet::new(alloc),
            binds: BTreeSet::new(alloc),
            answers: BTreeSet::new(alloc),
        }
    }

    // The event of this number stands before its doors from here on. After `NoMemory` all is as before.
    pub fn stand(&mut self, event: &Event, number: u64) -> Mem<()>
        requires { IsNew self.old number }
        ensures too { OnOk result (StandsToo event.now number self.old self.new) }
        ensures same { OnErr result (StandsAsBefore self.old self.new) }
    {
        match event {
            Event::Evict { .. } => Ok(()),
            Event::Call { .. } | Event::Tick { .. } => insert(&mut self.staying, number),
            Event::Bind(_) => insert_both(&mut self.staying, &mut self.binds, number, number),
            Event::Answer {
                number: answered,
                ..
            } => {
                let place = (*answered, number);
                insert_both(&mut self.staying, &mut self.answers, number, place)
            }
        }
    }

    // It stands before them no more.
    pub fn leave(&mut self, event: &Event, number: u64)
        ensures { Leaves event.now number self.old self.new }
    {
        match event {
            Event::Evict { .. } => {}
            Event::Call { .. } | Event::Tick { .. } => {
                self.staying.remove(&number);
            }
            Event::Bind(_) => {
                self.staying.remove(&number);
                self.binds.remove(&number);
            }
            Event::Answer {
                number: answered,
                ..
            } => {
                self.staying.remove(&number);
                self.answers.remove(&(*answered, number));
            }
        }
    }

    // The first that isn't an eviction.
    pub fn staying(&self) -> Option<u64>
        ensures { FindsLeast (stands self.now staying) result }
    {
        self.staying.first().copied()
    }

    // The first `Bind`.
    pub fn bind(&self) -> Option<u64>
        ensures { FindsLeast (stands self.now bind) result }
    {
        self.binds.first().copied()
    }

    // The first answer under this number.
    pub fn answer(&self, number: u64) -> Option<u64>
        ensures { FindsLeast (stands self.now (answer number)) result }
    {
        let (_, k) = self.answers.range((number, 0)..=(number, u64::MAX)).next()?;
        Some(*k)
    }
}

// The set has the number too.
fn insert(set: &mut BTreeSet<u64>, number: u64) -> Mem<()>
    ensures too { OnOk result (Updates nat_cmp set.old set.new number true) }
    ensures same { OnErr result (IsUnchanged set.old set.new) }
{
    match set.insert(number) {
        Ok(_) => Ok(()),
        Err(_) => Err(NoMemory),
    }
}

// The one set has the number too, which it had not, and the other the key. After `NoMemory` both are as before.
fn insert_both<K: Ord + Drop>(
    numbers: &mut BTreeSet<u64>,
    keys: &mut BTreeSet<K>,
    number: u64,
    key: K,
) -> Mem<()>
    requires { contains nat_cmp numbers.old number ≡ false }
    ensures number { OnOk result (Updates nat_cmp numbers.old numbers.new number true) }
    ensures key { OnOk result (Updates K.cmp keys.old keys.new key true) }
    ensures same { OnErr result (IsSameSet nat_cmp numbers.new numbers.old) }
    ensures same_keys { OnErr result (IsUnchanged keys.old keys.new) }
{
    if numbers.insert(number).is_err() {
        return Err(NoMemory);
    }
    if keys.insert(key).is_err() {
        numbers.remove(&number);
        return Err(NoMemory);
    }
    Ok(())
}

// The smaller of two numbers, either of which may be missing.
pub(crate) fn earlier(one: Option<u64>, other: Option<u64>) -> Option<u64>
    ensures { (f g : ℕ → Bool) → FindsLeast f one → FindsLeast g other → FindsLeast (λ k. f k || g k) result }
{
    match (one, other) {
        (Some(one), Some(other)) => Some(one.min(other)),
        (Some(one), None) => Some(one),
        (None, found) => found,
    }
}
