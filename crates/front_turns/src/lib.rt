//! The turns of one object's tasks: what an event or an answer of the storage makes the object say, up to the next ask or end.
#![tactic(auto)]

mod alarm;
mod answers;
mod asks;
mod delivering;
mod ends;
mod evaluator;
mod info;
mod object;
mod outcome;
mod say;
mod serving;
mod turns;

pub use delivering::deliver;
pub use evaluator::Task;
pub use object::{Asked, Awaited, Held, Object, Purpose, Running, State};
pub use outcome::Outcome;
pub use serving::stored;
