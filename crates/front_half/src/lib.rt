//! The front half of an object, over the tasks of any evaluator: it is given events and notices, runs the tasks, and sends what
//! they say.
#![tactic(auto)]

mod by_caller;
mod choosing;
mod ending;
mod entering;
mod fitting;
mod half;
mod leaving;
mod noticing;
mod remaining;
mod sending;
mod testing;
mod turning;
mod turns;
mod unanswered;
mod unmounted;

pub use half::Half;
pub use testing::Doing;
pub use turning::Turned;
