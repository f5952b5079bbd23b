//! Transactions.
ghost use Rattle.std.specs.Prelude.{◌≡◌, [], IfOk, OnOk, IfSome, IsNone};
ghost use Rattle.do_value.specs.Seen.{tree_of};
ghost use Rattle.script_mean.specs.Calls as calls;
ghost use Rattle.script_mean.specs.Calls.{transacting, writes_of};
ghost use Rattle.script_state.specs.Ends.{Becomes, Does, IsReady};
ghost use Rattle.script_steps.specs.Seen.{committing, outcome_of};

use crate::done::Done;
use crate::state::State;
use crate::waiting::{Gives, Waiting};
use do_value::{Mem, Value};
use script_mean::{Ask, MOST_STORAGE_AWAITS};
use script_steps::Outcome;
use std::alloc::Global;
use storage_map::Batch;
use storage_txn::Txn;
use write_batcher::Made;

impl State {
    /// A transaction begins: the open batch is closed.
    pub fn begin_transaction(&mut self, alloc: Global) -> Mem<()>
        ensures { OnOk result (Becomes transacting self.old self.new) }
    {
        self.cut()?;
        self.transaction = Some(Txn::new(alloc));
        Ok(())
    }

    /// A transaction's body ended so: where it returned, its operations are one confirmed batch, if it has any, whose
    /// completion is waited for; where it threw, they are dropped.
    pub fn end_transaction(&mut self, ended: Outcome) -> Mem<Done>
        ensures same { IfOk result (Does (committing (outcome_of ended)) self.old self.new) }
        ensures ready { IfOk result (IsReady self.new) }
    {
        let made = self.transaction.take();
        match ended {
            Outcome::Gave(_) => self.commit(made, Value::Undefined),
            Outcome::Returned(value) => self.commit(made, value),
            Outcome::Threw(value) => Ok(Done::Ended(Outcome::Threw(value))),
            Outcome::Broke => Ok(Done::Ended(Outcome::Broke)),
            Outcome::Continued => Ok(Done::Ended(Outcome::Continued)),
        }
    }

    // The operations that a transaction made are one batch, if it has any, whose completion gives this value.
    fn commit(&mut self, made: Option<Txn>, value: Value) -> Mem<Done>
        ensures same { IfOk result (Does (calls.commit (writes_of made) (tree_of value)) self.old self.new) }
        ensures ready { IfOk result (IsReady self.new) }
    {
        match batch_of(made) {
            Some(batch) => self.write(batch, value),
            None => Ok(Done::Ended(Outcome::Gave(value))),
        }
    }

    // The batch is closed behind the open one, confirmed, and its completion gives this value.
    fn write(&mut self, batch: Batch, value: Value) -> Mem<Done>
        ensures same { IfOk result (Does (calls.commit batch (tree_of value)) self.old self.new) }
        ensures ready { IfOk result (IsReady self.new) }
    {
        if self.awaits >= MOST_STORAGE_AWAITS {
            return Ok(Done::Exceeded);
        }
        self.awaits += 1;
        self.cut()?;
        let tail = batch.as_slice().len() as u32;
        self.close(Made {
            batch,
            confirmed: true,
        })?;
        Ok(Done::Asks(
            Ask::Written { tail },
            Waiting::Completes(tail, Gives::This(value)),
        ))
    }
}

/// The batch of the operations that a transaction made, if it has any.
fn batch_of(made: Option<Txn>) -> Option<Batch>
    ensures batch { IfSome result (λ batch. writes_of made ≡ batch) }
    ensures none { IsNone result → writes_of made ≡ [] }
{
    match made {
        Some(made) => made.commit(),
        None => None,
    }
}
