//! What a back holds until it may leave.
ghost use Rattle.std.specs.Prelude.{◌≡◌, ◌++◌, ◌∷◌, List, option_to_list};
ghost use Rattle.std.specs.List.{flat_map};
ghost use Rattle.output_gate.specs.Held.{is_failed_read, stays};

use std::collections::VecDeque;
use timeline::{Cause, Failure, Message};

/// What is held.
#[derive(Drop)]
pub(crate) enum HeldBody {
    /// It leaves once its batches are durable.
    Message(Message),
    /// The front is told of it once its batches are durable.
    Sync { number: u64 },
    /// The incarnation ends by this cause once its batches are durable: a front's halt, or a read of the disk that failed.
    Halt(Cause),
}

/// Something held, with the batches that it needs and the incarnation of whose line they are.
#[derive(Drop)]
pub(crate) struct Held {
    pub(crate) body: HeldBody,
    pub(crate) needs: u64,
    pub(crate) since: u64,
}

impl Held {
    // Whether it is an end by a read that failed.
    pub(crate) fn is_failed_read(&self) -> bool
        ensures { result ≡ is_failed_read self.now.body }
    {
        matches!(self.body, HeldBody::Halt(Cause::Disk { .. }))
    }

    // What stays of it where the incarnation of this number has ended by this cause at an append, and so many batches are
    // durable.
    pub(crate) fn kept(self, durable: u64, number: u64, cause: Cause) -> Option<Held>
        ensures { option_to_list result ≡ stays durable number cause self }
    {
        if self.needs <= durable {
            return Some(self);
        }
        match self.body {
            HeldBody::Message(Message::Reply { to, result: _ }) => Some(Held {
                body: HeldBody::Message(Message::Reply {
                    to,
                    result: Err(Failure::Reset(cause)),
                }),
                needs: durable,
                since: number,
            }),
            _ => None,
        }
    }
}

// All that is held, at such an end.
pub(crate) fn discard_all(held: &mut VecDeque<Held>, durable: u64, number: u64, cause: Cause)
    ensures { held.new.items ≡ flat_map (stays durable number cause) held.old.items }
{
    for _ in 0..held.len() {
        discard_first(held, durable, number, cause);
    }
}

// The first goes behind the last, as far as it stays.
fn discard_first(held: &mut VecDeque<Held>, durable: u64, number: u64, cause: Cause)
    ensures { (first : Held) (rest : List Held) → held.old.items ≡ first ∷ rest → held.new.items ≡ rest ++ stays durable number cause first }
{
    if let Some(first) = held.pop_front() {
        if let Some(kept) = first.kept(durable, number, cause) {
            held.push_back_reserved(kept);
        }
    }
}
