//! The evaluator of scripts: a task runs to its next ask, is kept there, and goes on with the answer.
#![tactic(auto)]

mod act;
mod blocks;
mod calls;
mod ends;
mod frames;
mod giving;
mod helper;
mod machine;
mod node;
mod outcome;
mod start;
mod task;
mod unfold;
mod variables;

pub use outcome::Outcome;
pub use script_mean::{Answer, Ask};
pub use task::Task;
