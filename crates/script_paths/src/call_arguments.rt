//! The arguments of calls.
ghost use Rattle.std.specs.Prelude.{◌≡◌, ◌+◌, IfOk};
ghost use Rattle.do_tree.specs.Seen.{expr_of};
ghost use Rattle.do_value.specs.Seen.{trees_in};
ghost use Rattle.script_mean.specs.Calls.{Calls};
ghost use Rattle.script_mean.specs.Frames.{called};
ghost use Rattle.script_mean.specs.Meaning.{arguments};
ghost use Rattle.script_steps.specs.Parts.{args_in};
ghost use Rattle.script_steps.specs.Paths.{callee_of};
ghost use Rattle.script_steps.specs.Seen.{move_run};
ghost use Rattle.script_steps.specs.Weight.{LeavesLess, callee_weight};

use do_tree::{Arg, Expr};
use do_value::{Mem, Value};
use script_steps::{Await, Callee, Focus, Move, PathFrame, again, arg_at, path_frame};
use std::alloc::Global;
use std::sync::Arc;

/// The arguments of a call from this one on, after the first of them, and then the call. Callbacks are passed over.
pub fn arguments(
    alloc: Global,
    callee: Callee,
    got: Vec<Value>,
    node: Arc<Expr>,
    link: usize,
    place: usize,
) -> Mem<Move>
    ensures same { IfOk result (λ m. (calls : Calls)
        → arguments calls (args_in (expr_of node.value) link place) (trees_in got.items) (called calls (callee_of callee)) ≡ move_run calls m) }
    ensures less { IfOk result (LeavesLess (15 + callee_weight callee)) }
{
    let mut place = place;
    'callbacks: loop {
        match arg_at(&node, link, place) {
            Some(Arg::Value(expr)) => {
                let expr = again(expr)?;
                let part = PathFrame::Call(callee, got, node, link, place + 1);
                let frame = path_frame(alloc, part)?;
                return Ok(Move::Inside(0, frame, Focus::Value(Await::Absent, expr)));
            }
            Some(Arg::Callback(_)) => place += 1,
            None => return Ok(Move::Then(0, Focus::Call(callee, got))),
        }
    }
}
