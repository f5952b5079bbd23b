//! Parts that unfold, and leave what the task has as it is but for the steps that are charged.
ghost use Rattle.std.specs.Prelude.{IfOk};
ghost use Rattle.script_steps.specs.declared.focus.Focus.{Focus as SeenFocus};
ghost use Rattle.script_eval.specs.Charging.{Charges};
ghost use Rattle.script_eval.specs.Machines.{IsDeep, StepsFrom, leads_of};

use crate::machine::{Machine, Progress};
use crate::node::again;
use do_tree::{Block, Expr, Simple, Stmt, Write};
use do_value::{Mem, Num, Value};
use script_mean::laws::loops_unfold;
use script_paths::{arguments, begin, begin_write, hand_path, place, push, walk, written};
use script_places::Step;
use script_state::Done;
use script_steps::{
    Await, Between, Callee, Focus, Outcome, PathFrame, Point, Root, Writing, begin_body,
    begin_loop, begin_run, begin_simple,
};
use std::alloc::Global;
use std::sync::Arc;

impl Machine {
    /// An expression.
    pub(crate) fn unfold_value(
        &mut self,
        alloc: Global,
        awaited: Await,
        expr: Arc<Expr>,
        focus: &mut Focus,
    ) -> Mem<Progress>
        requires { IsDeep self.old }
        ensures { IfOk result (λ p. StepsFrom (Focus.Value awaited expr) self.old self.new (leads_of p focus.new)) }
    {
        match &*expr {
            Expr::Variable(name) => self.read_charged(alloc, &name.text, focus),
            Expr::Number { value, .. } => self.give_number(alloc, *value, focus),
            _ => self.begin_value(alloc, awaited, expr, focus),
        }
    }

    /// An expression, whatever it is.
    fn begin_value(
        &mut self,
        alloc: Global,
        awaited: Await,
        expr: Arc<Expr>,
        focus: &mut Focus,
    ) -> Mem<Progress>
        requires { IsDeep self.old }
        ensures { IfOk result (λ p. StepsFrom (Focus.Value awaited expr) self.old self.new (leads_of p focus.new)) }
    {
        let m = begin(alloc, awaited, expr, &self.state.vars)?;
        self.apply_move(alloc, m, focus)
    }

    /// A part is done that gives this number and does nothing else, for which a step is charged.
    fn give_number(&mut self, alloc: Global, number: Num, focus: &mut Focus) -> Mem<Progress>
        requires { IsDeep self.old }
        ensures { IfOk result (λ p. (f : SeenFocus) → Charges f (Focus.Ended (Outcome.Gave (Value.Num number)))
            → StepsFrom f self.old self.new (leads_of p focus.new)) }
    {
        if !self.state.charge(1) {
            return self.finish(alloc, Done::Exceeded, focus);
        }
        self.end_part(alloc, Outcome::Gave(Value::Num(number)), focus)
    }

    /// A statement.
    pub(crate) fn unfold_statement(
        &mut self,
        alloc: Global,
        stmt: &Arc<Stmt>,
        focus: &mut Focus,
    ) -> Mem<Progress>
        requires { IsDeep self.old }
        ensures { IfOk result (λ p. StepsFrom (Focus.Run stmt.now) self.old self.new (leads_of p focus.new)) }
    {
        match &**stmt {
            Stmt::Simple(inner) => self.unfold_simple(alloc, inner, focus),
            Stmt::Block(block) => self.enter_charged(alloc, block, focus),
            _ => self.begin_statement(alloc, stmt, focus),
        }
    }

    /// A statement, whatever it is.
    fn begin_statement(
        &mut self,
        alloc: Global,
        stmt: &Arc<Stmt>,
        focus: &mut Focus,
    ) -> Mem<Progress>
        requires { IsDeep self.old }
        ensures { IfOk result (λ p. StepsFrom (Focus.Run stmt.now) self.old self.new (leads_of p focus.new)) }
    {
        let m = begin_run(stmt)?;
        self.apply_move(alloc, m, focus)
    }

    /// A part is a block with names of its own and nothing else, for which a step is charged.
    fn enter_charged(
        &mut self,
        alloc: Global,
        block: &Arc<Block>,
        focus: &mut Focus,
    ) -> Mem<Progress>
        requires { IsDeep self.old }
        ensures { IfOk result (λ p. (f : SeenFocus) → Charges f (Focus.Block block.now) → StepsFrom f self.old self.new (leads_of p focus.new)) }
    {
        if !self.state.charge(1) {
            return self.finish(alloc, Done::Exceeded, focus);
        }
        let block = again(block)?;
        self.enter_names(alloc, block, focus)
    }

    /// The items of a block from that place on.
    pub(crate) fn unfold_body(
        &mut self,
        alloc: Global,
        block: Arc<Block>,
        place: usize,
        focus: &mut Focus,
    ) -> Mem<Progress>
        requires { IsDeep self.old }
        ensures { IfOk result (λ p. StepsFrom (Focus.Body block place) self.old self.new (leads_of p focus.new)) }
    {
        let m = begin_body(block, place)?;
        self.apply_move(alloc, m, focus)
    }

    /// A loop from its test on.
    pub(crate) fn unfold_loop(
        &mut self,
        alloc: Global,
        test: Arc<Expr>,
        body: Arc<Stmt>,
        between: Between,
        focus: &mut Focus,
    ) -> Mem<Progress>
        requires { IsDeep self.old }
        ensures { IfOk result (λ p. StepsFrom (Focus.Loop test body between) self.old self.new (leads_of p focus.new)) }
    {
        loops_unfold();
        let m = begin_loop(test, body, between)?;
        self.apply_move(alloc, m, focus)
    }

    /// An expression that is run for itself, or a write to a place.
    pub(crate) fn unfold_simple(
        &mut self,
        alloc: Global,
        inner: &Arc<Simple>,
        focus: &mut Focus,
    ) -> Mem<Progress>
        requires { IsDeep self.old }
        ensures { IfOk result (λ p. StepsFrom (Focus.Simple inner.now) self.old self.new (leads_of p focus.new)) }
    {
        match &inner.write {
            Write::Nothing => self.begin_simple(alloc, inner, focus),
            _ => self.write_charged(alloc, inner, focus),
        }
    }

    /// The same, whatever it is.
    fn begin_simple(
        &mut self,
        alloc: Global,
        inner: &Arc<Simple>,
        focus: &mut Focus,
    ) -> Mem<Progress>
        requires { IsDeep self.old }
        ensures { IfOk result (λ p. StepsFrom (Focus.Simple inner.now) self.old self.new (leads_of p focus.new)) }
    {
        let m = begin_simple(inner)?;
        self.apply_move(alloc, m, focus)
    }

    /// A part is this write and nothing else, for which a step is charged.
    fn write_charged(
        &mut self,
        alloc: Global,
        inner: &Arc<Simple>,
        focus: &mut Focus,
    ) -> Mem<Progress>
        requires { IsDeep self.old }
        ensures { IfOk result (λ p. (f : SeenFocus) → Charges f (Focus.Write inner.now) → StepsFrom f self.old self.new (leads_of p focus.new)) }
    {
        if !self.state.charge(1) {
            return self.finish(alloc, Done::Exceeded, focus);
        }
        self.unfold_write(alloc, inner, focus)
    }

    /// A write, whose step was charged.
    pub(crate) fn unfold_write(
        &mut self,
        alloc: Global,
        inner: &Arc<Simple>,
        focus: &mut Focus,
    ) -> Mem<Progress>
        requires { IsDeep self.old }
        ensures { IfOk result (λ p. StepsFrom (Focus.Write inner.now) self.old self.new (leads_of p focus.new)) }
    {
        let m = begin_write(alloc, inner)?;
        self.apply_move(alloc, m, focus)
    }

    /// A part of a path is handed the value that it waits for.
    pub(crate) fn hand_to_path(
        &mut self,
        alloc: Global,
        frame: Box<PathFrame>,
        value: Value,
        focus: &mut Focus,
    ) -> Mem<Progress>
        requires { IsDeep self.old }
        ensures { IfOk result (λ p. StepsFrom (Focus.Handed frame value) self.old self.new (leads_of p focus.new)) }
    {
        let part = Box::into_inner(frame);
        let m = hand_path(alloc, part, value)?;
        self.apply_move(alloc, m, focus)
    }

    /// A path from this point and this link on.
    pub(crate) fn walk_on(
        &mut self,
        alloc: Global,
        awaited: Await,
        point: Point,
        node: Arc<Expr>,
        place: usize,
        focus: &mut Focus,
    ) -> Mem<Progress>
        requires { IsDeep self.old }
        ensures { IfOk result (λ p. StepsFrom (Focus.Walk awaited point node place) self.old self.new (leads_of p focus.new)) }
    {
        let m = walk(alloc, awaited, point, node, place, &self.state.fields)?;
        self.apply_move(alloc, m, focus)
    }

    /// The arguments of a call from this one on.
    pub(crate) fn unfold_arguments(
        &mut self,
        alloc: Global,
        callee: Callee,
        got: Vec<Value>,
        node: Arc<Expr>,
        link: usize,
        place: usize,
        focus: &mut Focus,
    ) -> Mem<Progress>
        requires { IsDeep self.old }
        ensures { IfOk result (λ p. StepsFrom (Focus.Arguments callee got node link place) self.old self.new (leads_of p focus.new)) }
    {
        let m = arguments(alloc, callee, got, node, link, place)?;
        self.apply_move(alloc, m, focus)
    }

    /// The rest of the place of a push from that link on, and the push.
    pub(crate) fn unfold_push(
        &mut self,
        alloc: Global,
        root: Root,
        steps: Vec<Step>,
        node: Arc<Expr>,
        place: usize,
        focus: &mut Focus,
    ) -> Mem<Progress>
        requires { IsDeep self.old }
        ensures { IfOk result (λ p. StepsFrom (Focus.Push root steps node place) self.old self.new (leads_of p focus.new)) }
    {
        let m = push(alloc, root, steps, node, place)?;
        self.apply_move(alloc, m, focus)
    }

    /// The rest of the place of a write from that link on, and the write.
    pub(crate) fn unfold_place(
        &mut self,
        alloc: Global,
        writing: Writing,
        root: Root,
        steps: Vec<Step>,
        node: Arc<Expr>,
        link: usize,
        focus: &mut Focus,
    ) -> Mem<Progress>
        requires { IsDeep self.old }
        ensures { IfOk result (λ p. StepsFrom (Focus.Place writing root steps node link) self.old self.new (leads_of p focus.new)) }
    {
        let m = place(alloc, writing, root, steps, node, link)?;
        self.apply_move(alloc, m, focus)
    }

    /// The write to a place that is found.
    pub(crate) fn write_at(
        &mut self,
        alloc: Global,
        writing: Writing,
        root: Root,
        steps: Vec<Step>,
        focus: &mut Focus,
    ) -> Mem<Progress>
        requires { IsDeep self.old }
        ensures { IfOk result (λ p. StepsFrom (Focus.Written writing root steps) self.old self.new (leads_of p focus.new)) }
    {
        let m = written(
            alloc,
            writing,
            root,
            steps,
            &self.state.vars,
            &self.state.fields,
        )?;
        self.apply_move(alloc, m, focus)
    }
}
