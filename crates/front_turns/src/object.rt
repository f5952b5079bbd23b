//! The object of an incarnation, as its front has it.
ghost use Rattle.std.specs.Prelude.{◌≡◌, pos, []};
ghost use Rattle.timeline.specs.Object.{Life, begun};
ghost use Rattle.front_turns.specs.Held.{Holds, object_of};

use crate::evaluator::Task;
use do_value::{Fields, Num};
use std::alloc::Global;
use std::collections::BTreeMap;
use storage_map::{Alarm, Identity, StoreAsk};
use timeline::{Caller, Cause, Event};

/// Why a task runs.
#[derive(Clone, Copy, Drop)]
pub enum Purpose {
    /// It is the constructor.
    Starts,
    /// It is the handler of this alarm.
    Handles(Alarm),
    /// It is a method for this caller.
    Serves(Caller),
}

/// What is known of a task beside its evaluation: its purpose, its depth, and how many of its calls and fetches were let
/// through.
#[derive(Clone, Copy, Drop)]
pub struct Running {
    pub purpose: Purpose,
    pub depth: u32,
    pub made: u32,
}

/// For what a task waits.
pub enum Awaited {
    /// The answer of this object.
    Call(Identity),
    /// The answer to a fetch.
    Fetch,
}

// Written out, so that letting one go is proved once.
impl Drop for Awaited {
    fn drop(self) {
        match self {
            Awaited::Call(part) => drop(part),
            Awaited::Fetch => {}
        }
    }
}

/// A task that waits for the answer to a call or a fetch.
#[derive(Drop)]
pub struct Held<T> {
    pub running: Running,
    pub awaited: Awaited,
    pub task: T,
}

/// What an object has between its events, with the evaluator's tasks. Where there are no fields none are kept. Each task that
/// waits for a call or a fetch stands under the number of that, and `blocks` counts those whose block is open.
pub struct Object<T> {
    pub fields: Option<Fields>,
    pub started: bool,
    pub tasks: BTreeMap<u64, Held<T>>,
    pub blocks: u64,
    pub parked: Option<Event>,
    pub clock: Num,
    pub alarm: Option<Alarm>,
    pub handler: Option<Alarm>,
    pub touched: bool,
    pub made: u64,
}

// Written out, so that letting one go is proved once.
impl<T: Drop> Drop for Object<T> {
    fn drop(self) {
        let Object {
            fields,
            started: _,
            tasks,
            blocks: _,
            parked,
            clock: _,
            alarm: _,
            handler: _,
            touched: _,
            made: _,
        } = self;
        drop(fields);
        drop(tasks);
        drop(parked);
    }
}

/// What a task asked of its storage.
pub enum Asked {
    Read(StoreAsk),
    Taken,
    Synced,
}

// Written out, so that letting one go is proved once.
impl Drop for Asked {
    fn drop(self) {
        match self {
            Asked::Read(part) => drop(part),
            Asked::Taken | Asked::Synced => {}
        }
    }
}

/// How an object stands between its front's turns.
#[derive(Drop)]
pub enum State<T> {
    Idle {
        object: Object<T>,
    },
    /// A task waits for the storage.
    Waiting {
        object: Object<T>,
        running: Running,
        task: T,
        asked: Asked,
    },
    /// The incarnation has ended.
    Ended {
        cause: Cause,
    },
}

impl<T: Task + Drop> Object<T> {
    /// An incarnation begins with its alarm and nothing else.
    pub fn begin(alloc: Global, alarm: Option<Alarm>) -> Object<T>
        ensures object { object_of result [] ≡ begun alarm }
        ensures holds { (l : Life) → Holds T.seen l result [] }
    {
        Object {
            fields: None,
            started: false,
            tasks: BTreeMap::new(alloc),
            blocks: 0,
            parked: None,
            clock: start(),
            alarm,
            handler: None,
            touched: false,
            made: 0,
        }
    }
}

// The moment before the first event.
fn start() -> Num
    ensures { result ≡ pos 0 }
{
    match Num::new(0) {
        Ok(zero) => zero,
        Err(_) => unreachable!(),
    }
}
