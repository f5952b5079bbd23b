//! Room for the queues of a run's slots.
ghost use Rattle.std.specs.Prelude.{◌≡◌, []};

use lane::Plain;
use timeline::{Event, Message};

// Room for queues to objects and from them: there are none yet.
#[derive(Drop)]
pub(crate) struct Queues {
    pub(crate) inboxes: Vec<Plain<Event>>,
    pub(crate) outs: Vec<Plain<Message>>,
    ghost no_inbox: { inboxes.items ≡ [] },
    ghost no_out: { outs.items ≡ [] },
}
