//! How paths unfold: from what they begin with, link by link, with the arguments of their calls; and the places of writes.
#![tactic(auto)]

mod argument;
mod begun;
mod call_arguments;
mod called;
mod classes;
mod counts;
mod itself;
mod leaf;
mod link;
mod places;
mod pushed;
mod resumed;
mod storing;
mod values;
mod walked;

pub use begun::begin;
pub use call_arguments::arguments;
pub use called::{identified, instance};
pub use places::{begin_write, place, written};
pub use pushed::push;
pub use resumed::hand_path;
pub use walked::walk;
