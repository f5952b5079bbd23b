//! Blocks are entered and left.
ghost use Rattle.std.specs.Prelude.{IfOk};
ghost use Rattle.script_eval.specs.Machines.{IsDeep, StepsFrom, leads_of};

use crate::machine::{Machine, Progress};
use crate::node::{body_of, handler_of, step_of, test_of};
use do_tree::{Block, Stmt};
use do_value::{Mem, Value};
use script_state::{enter_handler, enter_loop};
use script_steps::{Between, Focus, Frame, Move, Outcome};
use std::alloc::Global;
use std::sync::Arc;

impl Machine {
    /// A block with names of its own.
    pub(crate) fn enter_names(
        &mut self,
        alloc: Global,
        block: Arc<Block>,
        focus: &mut Focus,
    ) -> Mem<Progress>
        requires { IsDeep self.old }
        ensures { IfOk result (λ p. StepsFrom (Focus.Block block) self.old self.new (leads_of p focus.new)) }
    {
        self.state.vars.enter()?;
        let m = Move::Inside(0, Frame::Leave, Focus::Body(block, 0));
        self.apply_move(alloc, m, focus)
    }

    /// A counting loop from its test on, whose name has this value.
    pub(crate) fn enter_count(
        &mut self,
        alloc: Global,
        node: Arc<Stmt>,
        value: Value,
        focus: &mut Focus,
    ) -> Mem<Progress>
        requires { IsDeep self.old }
        ensures { IfOk result (λ p. StepsFrom (Focus.Count node value) self.old self.new (leads_of p focus.new)) }
    {
        let test = test_of(alloc, &node)?;
        let body = body_of(alloc, &node)?;
        let step = step_of(alloc, &node)?;
        enter_loop(alloc, &mut self.state.vars, &node, value)?;
        let next = Focus::Loop(test, body, Between::Stepped(step));
        self.apply_move(alloc, Move::Inside(0, Frame::Leave, next), focus)
    }

    /// The body of a loop over a list, whose name has this value.
    pub(crate) fn enter_visit(
        &mut self,
        alloc: Global,
        node: Arc<Stmt>,
        value: Value,
        focus: &mut Focus,
    ) -> Mem<Progress>
        requires { IsDeep self.old }
        ensures { IfOk result (λ p. StepsFrom (Focus.Visit node value) self.old self.new (leads_of p focus.new)) }
    {
        let body = body_of(alloc, &node)?;
        enter_loop(alloc, &mut self.state.vars, &node, value)?;
        self.apply_move(
            alloc,
            Move::Inside(0, Frame::Leave, Focus::Run(body)),
            focus,
        )
    }

    /// The handler of a `try`, whose name, if it has one, has this value.
    pub(crate) fn enter_handler(
        &mut self,
        alloc: Global,
        node: Arc<Stmt>,
        value: Value,
        focus: &mut Focus,
    ) -> Mem<Progress>
        requires { IsDeep self.old }
        ensures { IfOk result (λ p. StepsFrom (Focus.Handle node value) self.old self.new (leads_of p focus.new)) }
    {
        let handler = handler_of(alloc, &node)?;
        enter_handler(&mut self.state.vars, &node, value)?;
        self.apply_move(
            alloc,
            Move::Inside(0, Frame::Leave, Focus::Body(handler, 0)),
            focus,
        )
    }

    /// A block is left, and ended so.
    pub(crate) fn leave_block(
        &mut self,
        alloc: Global,
        ended: Outcome,
        focus: &mut Focus,
    ) -> Mem<Progress>
        requires { IsDeep self.old }
        ensures { IfOk result (λ p. StepsFrom (Focus.Leave ended) self.old self.new (leads_of p focus.new)) }
    {
        self.state.vars.leave();
        self.end_layer(alloc, ended, focus)
    }
}
