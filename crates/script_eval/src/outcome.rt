//! How a turn of a task ends.
use crate::task::Task;
use do_value::{Fields, Value};
use script_mean::Ask;
use write_batcher::Made;

/// How a turn of a task ends: the batches that it closed, in order and with their marks, and the object's fields at its end.
#[derive(Drop)]
pub enum Outcome {
    /// The task asks, and goes on with the answer.
    Paused {
        task: Task,
        batches: Vec<Made>,
        ask: Ask,
        fields: Fields,
    },
    /// The method returned this value.
    Done {
        batches: Vec<Made>,
        value: Value,
        fields: Fields,
    },
    /// The method threw this value. Where `reset` holds the object's incarnation ends: a constructor threw, or a block.
    Threw {
        batches: Vec<Made>,
        value: Value,
        fields: Fields,
        reset: bool,
    },
    /// The turn was stopped at a limit of steps, of awaits of the storage, or of calls and fetches. The operations of the
    /// open batch are dropped.
    Exceeded {
        batches: Vec<Made>,
    },
}
