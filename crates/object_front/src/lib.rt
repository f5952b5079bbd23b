//! The front half of an object: it is given events and notices, runs the tasks of its script, and sends what they say.
#![tactic(auto)]

mod evaluated;
mod front;
pub mod laws;

pub use front::Front;
pub use front_half::Turned;
