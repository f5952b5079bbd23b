//! What an object's front sends to its back.
ghost use Rattle.std.specs.Prelude.{◌≡◌, IfOk};

use crate::caller::Cause;
use crate::message::Message;
use do_value::Mem;
use storage_map::{Batch, Identity, StoreAsk};

/// What an object's entry says.
#[derive(Debug, Drop)]
pub enum Body {
    /// The slot has this object from here on.
    Bind(Identity),
    /// Writes that take effect together. A number of its last operations is there where the write is awaited. What is said behind
    /// a confirmed one leaves once it is durable.
    Batch {
        batch: Batch,
        tail: Option<u32>,
        confirmed: bool,
    },
    /// A read that a task waits for; a free one leaves other events in meanwhile. Fronts send none that is free yet.
    Ask {
        ask: StoreAsk,
        free: bool,
    },
    /// The task waits until all that was written before is durable.
    Sync,
    /// A message that leaves once the last confirmed batch before it is durable.
    Message(Message),
    /// The incarnation ends by this cause.
    Halt(Cause),
    /// The slot is to be mounted again.
    Mend,
}

/// One thing that an incarnation of an object says, numbered from 1 in its incarnation.
#[derive(Debug, Drop)]
pub struct Entry {
    pub incarnation: u64,
    pub number: u64,
    pub body: Body,
}

impl Body {
    /// The same again, in memory of its own.
    pub fn copy(&self) -> Mem<Body>
        ensures { IfOk result (λ body. body ≡ self.now) }
    {
        match self {
            Body::Bind(identity) => Ok(Body::Bind(identity.copy()?)),
            Body::Batch {
                batch,
                tail,
                confirmed,
            } => Ok(Body::Batch {
                batch: batch.copy()?,
                tail: *tail,
                confirmed: *confirmed,
            }),
            Body::Ask { ask, free } => Ok(Body::Ask {
                ask: ask.copy()?,
                free: *free,
            }),
            Body::Sync => Ok(Body::Sync),
            Body::Message(message) => Ok(Body::Message(message.copy()?)),
            Body::Halt(cause) => Ok(Body::Halt(*cause)),
            Body::Mend => Ok(Body::Mend),
        }
    }
}

impl Entry {
    /// The same entry again, in memory of its own.
    pub fn copy(&self) -> Mem<Entry>
        ensures { IfOk result (λ entry. entry ≡ self.now) }
    {
        Ok(Entry {
            incarnation: self.incarnation,
            number: self.number,
            body: self.body.copy()?,
        })
    }
}
