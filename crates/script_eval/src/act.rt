//! What a call does before the frames are touched, and what the machine does with the part that is next.
ghost use Rattle.std.specs.Prelude.{◌≡◌, IfOk};
ghost use Rattle.do_tree.specs.Seen.{class_of};
ghost use Rattle.script_mean.specs.Meaning.{has_alarm_handler};
ghost use Rattle.script_eval.specs.Machines.{IsDeep, Steps, leads_of};

use crate::machine::{Machine, Progress};
use do_tree::Class;
use do_value::{Mem, Text, Value};
use script_state::Done;
use script_steps::{Await, Focus, Frame, Move};
use std::alloc::Global;

/// What was done with a call.
#[derive(Drop)]
pub(crate) enum Act {
    /// It unfolds so.
    Moves(Move),
    /// What is left of it is the frame, and inside it a block that was entered, whose focus this is.
    Enters(Frame, Focus),
    /// It was done at once.
    Does(Done),
    /// It calls this helper.
    Helps(Await, Text, Vec<Value>),
}

impl Machine {
    /// One step of the turn: the part is done or unfolds, and what comes next is put as the focus.
    pub(crate) fn step(
        &mut self,
        alloc: Global,
        class: &Class,
        has_handler: bool,
        part: Focus,
        focus: &mut Focus,
    ) -> Mem<Progress>
        requires deep { IsDeep self.old }
        requires handler { has_alarm_handler (class_of class.now) ≡ has_handler }
        ensures { IfOk result (λ p. Steps (class_of class.now) part self.old self.new (leads_of p focus.new)) }
    {
        match part {
            Focus::Ended(outcome) => self.end_part(alloc, outcome, focus),
            Focus::Value(awaited, expr) => self.unfold_value(alloc, awaited, expr, focus),
            Focus::Variable(expr) => self.read_variable(alloc, &expr, focus),
            Focus::Named(name) => self.read_named(alloc, name, focus),
            Focus::Run(stmt) => self.unfold_statement(alloc, &stmt, focus),
            Focus::Body(block, place) => self.unfold_body(alloc, block, place, focus),
            Focus::Block(block) => self.enter_names(alloc, block, focus),
            Focus::Declare(block, place, value) => self.declare(alloc, &block, place, value, focus),
            Focus::Loop(test, body, between) => self.unfold_loop(alloc, test, body, between, focus),
            Focus::Count(node, value) => self.enter_count(alloc, node, value, focus),
            Focus::Visit(node, value) => self.enter_visit(alloc, node, value, focus),
            Focus::Handle(node, value) => self.enter_handler(alloc, node, value, focus),
            Focus::Simple(inner) => self.unfold_simple(alloc, &inner, focus),
            Focus::Write(inner) => self.unfold_write(alloc, &inner, focus),
            Focus::Leave(outcome) => self.leave_block(alloc, outcome, focus),
            Focus::Handed(frame, value) => self.hand_to_path(alloc, frame, value, focus),
            Focus::Walk(awaited, point, node, place) => self.walk_on(
                alloc, awaited, point, node, place, focus,
            ),
            Focus::Arguments(callee, got, node, link, place) => self.unfold_arguments(
                alloc, callee, got, node, link, place, focus,
            ),
            Focus::Call(callee, got) => self.call(alloc, class, has_handler, callee, got, focus),
            Focus::Push(root, steps, node, place) => self.unfold_push(
                alloc, root, steps, node, place, focus,
            ),
            Focus::Place(writing, root, steps, node, place) => self.unfold_place(
                alloc, writing, root, steps, node, place, focus,
            ),
            Focus::Written(writing, root, steps) => self.write_at(
                alloc, writing, root, steps, focus,
            ),
            Focus::Assign(root, steps, value) => self.assign(alloc, &root, &steps, value, focus),
            Focus::Return(awaited, vars, outcome) => self.return_to(
                alloc, awaited, vars, outcome, focus,
            ),
            Focus::Commit(outcome) => self.commit(alloc, outcome, focus),
            Focus::Unblock(awaited, outcome) => self.unblock(alloc, awaited, outcome, focus),
        }
    }
}
