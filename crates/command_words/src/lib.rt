//! The words of a run of `durable`, as `clap` reads them: `serve SCRIPT FOLDER`, `check SCRIPT`, `dump FOLDER`, `gen SEED COUNT FOLDER`, and
//! their options.
#![tactic(auto)]

mod command;
mod described;
pub mod laws;
mod matched;
mod number;
mod reading;

pub use command::{Command, ServeWords};
pub use reading::command_of;
