//! Serves the lines of an input over the objects of a folder's slots, until the input ends and nothing is under way.
#![tactic(auto)]

mod acting;
mod closing;
mod folder;
mod moving;
mod objects;
mod opening;
mod report;
mod room;
pub mod row_examples;
mod serving;
mod settings;
mod settling;

pub use folder::{opening_end, serve};
pub use opening::{OpenEnd, mount_slot, refused_mounting};
pub use report::{Report, SlotReport};
pub use settings::{Bad, ServeEnd, Served, Settings};
