//! The cells of a run on several threads: each half of an object, the switch and the lines, with the ends of their lanes. A cell's log
//! is tied to what went through its own ends.
#![tactic(auto)]

pub mod apart;
mod back_cell;
mod board;
mod boxed;
mod cells;
mod crew;
mod flow;
mod front_cell;
mod jobs;
mod joining;
pub mod laws;
mod lines_cell;
mod marks;
mod names;
mod shared;
mod switch_cell;

pub use back_cell::BackCell;
pub use board::Board;
pub use boxed::Boxed;
pub use cells::Cells;
pub use flow::MOST_WAITING_LINES;
pub use front_cell::FrontCell;
pub use jobs::{MOST_STEPS, WorkEnd};
pub use joining::{Halves, join};
pub use lines_cell::LinesCell;
pub use names::Names;
pub use shared::{Shared, Worked, work};
pub use switch_cell::{SwitchCell, SwitchParts};
