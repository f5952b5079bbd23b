//! One object on one thread: its front and its back, tied by queues, under any order of their steps.
#![tactic(auto)]

pub mod apart;
mod choice;
pub mod laws;
mod object;
mod steps;

pub use choice::Choice;
pub use object::Core;
