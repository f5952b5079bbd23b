//! The back half of an object: it takes what the object says, appends its batches to the journal, lets a message go once every
//! batch before it is durable, and mounts the journal again after an append that failed or was full.
#![tactic(auto)]

mod back;
mod fit;
mod flushing;
mod held;
pub mod laws;
mod mending;
mod releasing;
mod store;
mod taking;

pub use back::{Back, BackParts, MOST_UNFLUSHED_BYTES};
