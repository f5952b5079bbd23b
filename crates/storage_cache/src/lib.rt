//! The cache of an object whose values stay on the disk: batches are taken, asks answered, pairs lent. A value that isn't in memory
//! is given as the place where it stands.
#![tactic(auto)]

mod cache;
mod held;
pub mod laws;
mod look;
mod range;
mod taking;

pub use cache::{Cache, MOST_KEPT, MOST_KEPT_BYTES};
pub use held::{Held, HeldRef, Look};
pub use range::Range;
