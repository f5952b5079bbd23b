//! Variables, and writes to places.
ghost use Rattle.std.specs.Prelude.{IfOk};
ghost use Rattle.script_steps.specs.declared.focus.Focus.{Focus as SeenFocus};
ghost use Rattle.script_eval.specs.Machines.{IsDeep, Reads, StepsFrom, leads_of};

use crate::machine::{Machine, Progress};
use do_tree::{Block, Expr};
use do_value::{Mem, Text, Value};
use script_places::Step;
use script_state::Done;
use script_steps::{Focus, Root};
use std::alloc::Global;
use std::sync::Arc;

impl Machine {
    /// The variable that this expression names is read.
    pub(crate) fn read_variable(
        &mut self,
        alloc: Global,
        expr: &Arc<Expr>,
        focus: &mut Focus,
    ) -> Mem<Progress>
        requires { IsDeep self.old }
        ensures { IfOk result (λ p. StepsFrom (Focus.Variable expr.now) self.old self.new (leads_of p focus.new)) }
    {
        let outcome = self.state.variable(expr)?;
        self.end_part(alloc, outcome, focus)
    }

    /// A part is done that reads the variable of this name and does nothing else, for which a step is charged.
    pub(crate) fn read_charged(
        &mut self,
        alloc: Global,
        name: &Text,
        focus: &mut Focus,
    ) -> Mem<Progress>
        requires { IsDeep self.old }
        ensures { IfOk result (λ p. (f : SeenFocus) → Reads f name.now → StepsFrom f self.old self.new (leads_of p focus.new)) }
    {
        if !self.state.charge(1) {
            return self.finish(alloc, Done::Exceeded, focus);
        }
        let outcome = self.state.named(name)?;
        self.end_part(alloc, outcome, focus)
    }

    /// The variable of this name is read, for which a step is charged.
    pub(crate) fn read_named(
        &mut self,
        alloc: Global,
        name: Text,
        focus: &mut Focus,
    ) -> Mem<Progress>
        requires { IsDeep self.old }
        ensures { IfOk result (λ p. StepsFrom (Focus.Named name) self.old self.new (leads_of p focus.new)) }
    {
        self.read_charged(alloc, &name, focus)
    }

    /// The name that the item at this place of the block declares is bound.
    pub(crate) fn declare(
        &mut self,
        alloc: Global,
        block: &Arc<Block>,
        place: usize,
        value: Value,
        focus: &mut Focus,
    ) -> Mem<Progress>
        requires { IsDeep self.old }
        ensures { IfOk result (λ p. StepsFrom (Focus.Declare block.now place value) self.old self.new (leads_of p focus.new)) }
    {
        let outcome = self.state.declare(alloc, block, place, value)?;
        self.end_part(alloc, outcome, focus)
    }

    /// The place has this value.
    pub(crate) fn assign(
        &mut self,
        alloc: Global,
        root: &Root,
        steps: &Vec<Step>,
        value: Value,
        focus: &mut Focus,
    ) -> Mem<Progress>
        requires { IsDeep self.old }
        ensures { IfOk result (λ p. StepsFrom (Focus.Assign root.now steps.now value) self.old self.new (leads_of p focus.new)) }
    {
        let outcome = self.state.assign(alloc, root, steps, value)?;
        self.end_part(alloc, outcome, focus)
    }
}
