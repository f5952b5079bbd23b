//! The host: the top call.
#![tactic(auto)]

mod accept;
mod bad_slot;
mod dump;
mod early_end;
mod ending;
mod generating;
pub mod laws;
mod made_lines;
mod made_source;
mod mounting;
mod program;
mod run_end;
mod script;
mod script_lines;
mod slot_lines;
mod stored;
mod summing;

pub use host_core::{Report, SlotReport};
pub use mailbox::SwitchLog;
pub use program::{Ran, run};
