//! The variables of a task: what each name in sight stands for, in blocks inside each other.
//!
//! Contracts see the variables as [`Vars`] keeps them, the outermost block first, and speak of the environment that
//! they are (`env_of` in `specs/Seen.antt`): the blocks, the innermost first, each with its names, the latest first.
#![tactic(auto)]

mod block;
mod bound;
mod calls;
mod vars;

pub use bound::Bound;
pub use vars::Vars;
