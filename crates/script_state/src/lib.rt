//! What a task has while it runs: its variables, the fields of its object, its batches and counts; and what the parts of a
//! script do with it that need it.
#![tactic(auto)]

mod answers;
mod asks;
mod block;
mod done;
mod enter;
mod places;
mod returned;
mod state;
mod thrown;
mod transaction;
mod variables;
mod waiting;

pub use answers::answered;
pub use done::Done;
pub use enter::{enter_callback, enter_handler, enter_loop};
pub use state::State;
pub use waiting::{Gives, Waiting};
