//! What a frame does with how the part inside it ended.
ghost use Rattle.std.specs.Prelude.{◌≡◌, ◌+◌, IfOk};
ghost use Rattle.do_value.specs.Seen.{tree_of};
ghost use Rattle.script_mean.specs.Answers.{broke, continued, returned, threw};
ghost use Rattle.script_mean.specs.Calls.{Calls};
ghost use Rattle.script_steps.specs.Seen.{frame_of, handed, move_run, outcome_of};
ghost use Rattle.script_steps.specs.Weight.{LeavesLess, frame_weight};

use crate::block::{turned, visit_from};
use crate::focus::{Focus, Move, Outcome};
use crate::frame::Frame;
use crate::handed::hand;
use do_value::{Mem, Value};
use std::alloc::Global;

/// What a frame does with how the part inside it ended.
pub fn hand_on(alloc: Global, frame: Frame, outcome: Outcome) -> Mem<Move>
    ensures moves { IfOk result (λ m. (calls : Calls) → handed calls (frame_of frame) (outcome_of outcome) ≡ move_run calls m) }
    ensures less { IfOk result (LeavesLess (frame_weight frame + 8)) }
{
    match outcome {
        Outcome::Gave(value) => hand(alloc, frame, value),
        Outcome::Threw(value) => on_throw(frame, value),
        Outcome::Returned(value) => on_return(frame, value),
        Outcome::Broke => on_break(frame),
        Outcome::Continued => on_continue(frame),
    }
}

/// A throw is caught, or passes by.
#[tactic(auto, using(crate::proofs::Weights::frame_weighs))]
fn on_throw(frame: Frame, value: Value) -> Mem<Move>
    ensures moves { IfOk result (λ m. (calls : Calls) → handed calls (frame_of frame) (threw (tree_of value)) ≡ move_run calls m) }
    ensures less { IfOk result (LeavesLess (frame_weight frame + 8)) }
{
    match frame {
        Frame::Catch(node) => Ok(Move::Then(0, Focus::Handle(node, value))),
        Frame::Leave => Ok(Move::Then(0, Focus::Leave(Outcome::Threw(value)))),
        Frame::Commit => Ok(Move::Then(0, Focus::Commit(Outcome::Threw(value)))),
        Frame::Unblock(awaited) => Ok(Move::Then(
            0,
            Focus::Unblock(awaited, Outcome::Threw(value)),
        )),
        _ => Ok(Move::Then(0, Focus::Ended(Outcome::Threw(value)))),
    }
}

/// A return passes by.
#[tactic(auto, using(crate::proofs::Weights::frame_weighs))]
fn on_return(frame: Frame, value: Value) -> Mem<Move>
    ensures moves { IfOk result (λ m. (calls : Calls) → handed calls (frame_of frame) (returned (tree_of value)) ≡ move_run calls m) }
    ensures less { IfOk result (LeavesLess (frame_weight frame + 8)) }
{
    match frame {
        Frame::Leave => Ok(Move::Then(0, Focus::Leave(Outcome::Returned(value)))),
        Frame::Commit => Ok(Move::Then(0, Focus::Commit(Outcome::Returned(value)))),
        Frame::Unblock(awaited) => Ok(Move::Then(
            0,
            Focus::Unblock(awaited, Outcome::Returned(value)),
        )),
        _ => Ok(Move::Then(0, Focus::Ended(Outcome::Returned(value)))),
    }
}

/// A `break` ends the innermost loop.
#[tactic(auto, using(crate::proofs::Weights::frame_weighs))]
fn on_break(frame: Frame) -> Mem<Move>
    ensures moves { IfOk result (λ m. (calls : Calls) → handed calls (frame_of frame) broke ≡ move_run calls m) }
    ensures less { IfOk result (LeavesLess (frame_weight frame + 8)) }
{
    match frame {
        Frame::Turn(..) | Frame::Next(..) => Ok(Move::Then(
            0,
            Focus::Ended(Outcome::Gave(Value::Undefined)),
        )),
        Frame::Leave => Ok(Move::Then(0, Focus::Leave(Outcome::Broke))),
        Frame::Commit => Ok(Move::Then(0, Focus::Commit(Outcome::Broke))),
        Frame::Unblock(awaited) => Ok(Move::Then(0, Focus::Unblock(awaited, Outcome::Broke))),
        _ => Ok(Move::Then(0, Focus::Ended(Outcome::Broke))),
    }
}

/// After a `continue` the innermost loop goes on.
#[tactic(auto, using(crate::proofs::Weights::frame_weighs))]
fn on_continue(frame: Frame) -> Mem<Move>
    ensures moves { IfOk result (λ m. (calls : Calls) → handed calls (frame_of frame) continued ≡ move_run calls m) }
    ensures less { IfOk result (LeavesLess (frame_weight frame + 8)) }
{
    match frame {
        Frame::Turn(test, body, between) => turned(test, body, between),
        Frame::Next(node, items, next) => visit_from(node, items, next),
        Frame::Leave => Ok(Move::Then(0, Focus::Leave(Outcome::Continued))),
        Frame::Commit => Ok(Move::Then(0, Focus::Commit(Outcome::Continued))),
        Frame::Unblock(awaited) => Ok(Move::Then(0, Focus::Unblock(awaited, Outcome::Continued))),
        _ => Ok(Move::Then(0, Focus::Ended(Outcome::Continued))),
    }
}
