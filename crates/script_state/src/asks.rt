//! Batches and asks.
ghost use Rattle.std.specs.Prelude.{◌≤◌, [], ◌∷◌, ◌++◌, IfOk, OnOk, length};
ghost use Rattle.std.specs.List.{All};
ghost use Rattle.storage_map.specs.Ops.{IsOp};
ghost use Rattle.script_mean.specs.Turn as turn;
ghost use Rattle.script_state.specs.Ends.{Becomes, Does, Goes, IsOpenFor, IsReady};
ghost use Rattle.script_state.specs.Seen.{wait_of};
ghost use Rattle.script_steps.specs.Paths.{is_present};

use crate::done::Done;
use crate::state::State;
use crate::thrown::thrown;
use crate::waiting::Waiting;
use do_value::{Mem, NoMemory, Value};
use script_mean::{Ask, MOST_OUTSIDE_CALLS, MOST_STORAGE_AWAITS};
use script_steps::{Await, Outcome};
use std::alloc::Global;
use storage_map::Op;
use write_batcher::{AddFault, Made};

impl State {
    /// The open batch is closed. One without operations isn't made.
    pub fn cut(&mut self) -> Mem<()>
        ensures { OnOk result (Becomes turn.cut self.old self.new) }
    {
        match self.pending.close() {
            Some(made) => self.close(made),
            None => Ok(()),
        }
    }

    /// The batch is closed behind the others of the turn.
    pub(crate) fn close(&mut self, made: Made) -> Mem<()>
        ensures { OnOk result (Becomes (λ st. record st { closed = st.closed ++ made ∷ [] }) self.old self.new) }
    {
        if self.closed.push(made).is_err() {
            return Err(NoMemory);
        }
        Ok(())
    }

    /// The same after a call that is awaited. After another nothing is closed.
    pub(crate) fn cut_after(&mut self, awaited: Await) -> Mem<()>
        ensures { OnOk result (Becomes (turn.cut_after (is_present awaited)) self.old self.new) }
    {
        match awaited {
            Await::Present => self.cut(),
            Await::Absent => Ok(()),
        }
    }

    /// The operations of one call join the open batch, all of them or, where it would be too large, none. `confirmed` tells that
    /// the call is without `allowUnconfirmed`.
    #[tactic(auto, using(crate::proofs::Ending::joined, crate::proofs::Ending::full))]
    pub fn join(&mut self, alloc: Global, ops: Vec<Op>, confirmed: bool) -> Mem<Outcome>
        requires within { All IsOp ops.items }
        requires few { length ops.items ≤ 4294967295 }
        ensures { IfOk result (Goes (turn.join confirmed ops.items) self.old self.new) }
    {
        match self.pending.extend(ops, confirmed) {
            Ok(()) => Ok(Outcome::Gave(Value::Undefined)),
            Err(AddFault::BatchFull { .. }) => thrown(alloc, "RangeError", "batch"),
            Err(AddFault::NoMemory) => Err(NoMemory),
        }
    }

    /// The turn ends with an ask that is an await of the storage, of which a task may make no more than its limit.
    pub fn ask_storage(&mut self, ask: Ask, wait: Waiting) -> Mem<Done>
        ensures same { IfOk result (Does (turn.ask_storage ask (wait_of wait self.old.transaction)) self.old self.new) }
        ensures ready { IsOpenFor (wait_of wait self.old.transaction) self.old.transaction → IfOk result (IsReady self.new) }
    {
        if self.awaits >= MOST_STORAGE_AWAITS {
            return Ok(Done::Exceeded);
        }
        self.awaits += 1;
        self.cut()?;
        Ok(Done::Asks(ask, wait))
    }

    /// The turn ends with an ask that is a call or a fetch, of which a task may make no more than its limit.
    pub fn ask_outside(&mut self, ask: Ask) -> Mem<Done>
        ensures same { IfOk result (Does (turn.ask_outside ask) self.old self.new) }
        ensures ready { IfOk result (IsReady self.new) }
    {
        if self.calls >= MOST_OUTSIDE_CALLS {
            return Ok(Done::Exceeded);
        }
        self.calls += 1;
        self.cut()?;
        Ok(Done::Asks(ask, Waiting::Outside))
    }
}
