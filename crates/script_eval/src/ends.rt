//! The ends of helpers, of transactions and of blocks.
ghost use Rattle.std.specs.Prelude.{IfOk};
ghost use Rattle.script_eval.specs.Machines.{IsDeep, StepsFrom, leads_of};

use crate::machine::{Machine, Progress};
use do_value::Mem;
use script_steps::{Await, Focus, Outcome};
use script_vars::Vars;
use std::alloc::Global;

impl Machine {
    /// A helper's body ended so: its caller goes on with its own variables.
    pub(crate) fn return_to(
        &mut self,
        alloc: Global,
        awaited: Await,
        caller: Vars,
        ended: Outcome,
        focus: &mut Focus,
    ) -> Mem<Progress>
        requires { IsDeep self.old }
        ensures { IfOk result (λ p. StepsFrom (Focus.Return awaited caller ended) self.old self.new (leads_of p focus.new)) }
    {
        let outcome = self.state.return_to(awaited, caller, ended)?;
        self.end_part(alloc, outcome, focus)
    }

    /// A transaction's body ended so.
    pub(crate) fn commit(
        &mut self,
        alloc: Global,
        ended: Outcome,
        focus: &mut Focus,
    ) -> Mem<Progress>
        requires { IsDeep self.old }
        ensures { IfOk result (λ p. StepsFrom (Focus.Commit ended) self.old self.new (leads_of p focus.new)) }
    {
        let done = self.state.end_transaction(ended)?;
        self.finish(alloc, done, focus)
    }

    /// A block's body ended so.
    pub(crate) fn unblock(
        &mut self,
        alloc: Global,
        awaited: Await,
        ended: Outcome,
        focus: &mut Focus,
    ) -> Mem<Progress>
        requires { IsDeep self.old }
        ensures { IfOk result (λ p. StepsFrom (Focus.Unblock awaited ended) self.old self.new (leads_of p focus.new)) }
    {
        let done = self.state.end_block(awaited, ended)?;
        self.finish(alloc, done, focus)
    }
}
