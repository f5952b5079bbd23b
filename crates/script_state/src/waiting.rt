//! What a suspended task waits for.
use do_value::Value;
use script_asks::Completed;
use storage_map::StoreAsk;

/// What the completion of a write gives.
#[derive(Drop)]
pub enum Gives {
    /// What a call of the storage gives.
    Call(Completed),
    /// This value.
    This(Value),
}

/// What a suspended task waits for, as far as the answer's value depends on it.
#[derive(Drop)]
pub enum Waiting {
    /// A read.
    Reads,
    /// A read through the operations of its transaction.
    Views(StoreAsk),
    /// Whether and how many keys its transaction's delete finds, through so many of the first operations.
    Finds(StoreAsk, usize),
    /// The completion of a write of so many operations.
    Completes(u32, Gives),
    /// The durability of all batches.
    Syncs,
    /// A call or a fetch.
    Outside,
}
