//! Which object has which slot, and which worker is an object's home.
#![tactic(auto)]

mod answers;
mod directory;
pub mod laws;
mod texts;
mod worker;

pub use answers::{AdoptFault, PlaceFault, Placed};
pub use directory::Directory;
pub use worker::home;
