//! What may be done with an object.
use timeline::Event;

/// What is done next with an object.
#[derive(Drop)]
pub enum Choice {
    /// The event is put behind those that wait.
    Give(Event),
    /// The front takes a notice, else an event.
    Turn,
    /// The back takes what the front said next.
    Take,
    /// The back appends what it has taken to the journal.
    Flush,
    /// The back lets the first go of what it holds.
    Release,
    /// The back mounts the journal again.
    Mend,
}
