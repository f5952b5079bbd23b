//! What an object's calls and fetches are counted by: which are let through, under which number a task waits for its answer, and
//! which fetches of all objects have none yet.
#![tactic(auto)]

mod admission;
mod fetches;
mod waiting;

pub use admission::{CallFault, MOST_CALLS, MOST_DEPTH, admit};
pub use fetches::Fetches;
pub use waiting::Waiting;
