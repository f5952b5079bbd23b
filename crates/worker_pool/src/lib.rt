//! The workers of a run: from the halves of slots that were just mounted to the objects that they are once all workers have ended.
#![tactic(auto)]

mod boxing;
mod closing;
mod making;
mod ran;
mod running;
mod team;

pub use ran::Ran;
pub use running::run_workers;
