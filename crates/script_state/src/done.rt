//! How a part ends that a running task does at once.
use crate::waiting::Waiting;
use do_value::Value;
use script_mean::Ask;
use script_steps::Outcome;

/// How a part ends that a running task does at once.
#[derive(Drop)]
pub enum Done {
    /// The part is over.
    Ended(Outcome),
    /// The turn ends with this ask, and the task waits so.
    Asks(Ask, Waiting),
    /// The turn is stopped at a limit.
    Exceeded,
    /// A block threw this value, which ends the task and its object's incarnation.
    Reset(Value),
}
