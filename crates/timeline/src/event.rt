//! What is delivered to an object.
ghost use Rattle.std.specs.Prelude.{◌≡◌, IfOk};

use crate::caller::{Caller, Failure, copy_result};
use do_value::{Args, Mem, Value};
use storage_map::Identity;

/// What is delivered to an object. Moments are in milliseconds.
#[derive(Debug, Drop)]
pub enum Event {
    /// The slot gets this object.
    Bind(Identity),
    /// A call of a method, by its number in the class. A request has depth 0, a call from a task one more than its task.
    Call {
        from: Caller,
        method: u32,
        args: Args,
        depth: u32,
        at: i64,
    },
    /// The answer to the call or fetch of this number that the incarnation made.
    Answer {
        incarnation: u64,
        number: u64,
        result: Result<Value, Failure>,
        at: i64,
    },
    /// The clock is at this moment.
    Tick {
        at: i64,
    },
    /// The object may be dropped from memory.
    Evict {
        at: i64,
    },
}

impl Event {
    /// The same event again, in memory of its own.
    pub fn copy(&self) -> Mem<Event>
        ensures { IfOk result (λ event. event ≡ self.now) }
    {
        match self {
            Event::Bind(identity) => Ok(Event::Bind(identity.copy()?)),
            Event::Call {
                from,
                method,
                args,
                depth,
                at,
            } => Ok(Event::Call {
                from: *from,
                method: *method,
                args: args.copy()?,
                depth: *depth,
                at: *at,
            }),
            Event::Answer {
                incarnation,
                number,
                result,
                at,
            } => Ok(Event::Answer {
                incarnation: *incarnation,
                number: *number,
                result: copy_result(result)?,
                at: *at,
            }),
            Event::Tick { at } => Ok(Event::Tick { at: *at }),
            Event::Evict { at } => Ok(Event::Evict { at: *at }),
        }
    }
}
