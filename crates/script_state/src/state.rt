//! What a task has while it runs.
ghost use Rattle.std.specs.Prelude.{◌≡◌, ◌≤◌, ◌<◌, ◌-◌, true, false};

use do_value::{Fields, Num, Value};
use script_vars::Vars;
use storage_txn::Txn;
use write_batcher::{Batcher, Made};

/// What a task has while it runs.
#[derive(Drop)]
pub struct State {
    /// The names in sight.
    pub vars: Vars,
    /// The fields of its object.
    pub fields: Fields,
    /// The batches that this turn closed, in order and with their marks.
    pub closed: Vec<Made>,
    /// The open batch.
    pub pending: Batcher,
    /// The steps that this turn may still take.
    pub left: u32,
    /// The moment of this turn, in milliseconds.
    pub moment: Num,
    /// The awaits of the storage that the task has made.
    pub awaits: u32,
    /// The calls and fetches that the task has made, refused ones counted.
    pub calls: u32,
    /// The operations of the open transaction.
    pub transaction: Option<Txn>,
    /// Whether the task's block is open.
    pub block: bool,
}

impl State {
    /// Charges so many steps, if as many are left; else nothing changes.
    pub fn charge(&mut self, steps: usize) -> bool
        ensures charged { result ≡ true → (steps ≤ self.old.left) × (self.new ≡ record self.old { left = self.old.left - steps }) }
        ensures refused { result ≡ false → (self.old.left < steps) × (self.new ≡ self.old) }
    {
        if steps > self.left as usize {
            return false;
        }
        self.left -= steps as u32;
        true
    }

    /// The moment, in milliseconds, as a value.
    pub fn time(&self) -> Value
        ensures { result ≡ Value.Num self.now.moment }
    {
        Value::Num(self.moment)
    }
}
