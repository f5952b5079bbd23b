//! Parts of values, and writes into places, as the meaning of scripts has them. No list or record is copied that is
//! changed.
#![tactic(auto)]

mod change;
mod number;
mod own;
mod part;
mod reads;
mod size;
mod step;
mod writes;

pub use number::moved;
pub use own::{assign_own, push_own};
pub use reads::{element, part_at, property};
pub use step::Step;
pub use writes::{assign, push};
