//! What became of a message that is routed only where it is fit.
use timeline::Message;

/// What became of the next message.
#[derive(Drop)]
pub enum Routed {
    /// It was routed.
    Did,
    /// No lane had one.
    Nothing,
    /// It isn't fit now: it was taken from the lane of this slot, and nothing was done.
    Unfit {
        /// The slot that it comes from.
        slot: u32,
        /// The message.
        message: Message,
    },
}
