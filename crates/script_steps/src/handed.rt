//! What a frame does with the value of the part inside it.
ghost use Rattle.std.specs.Prelude.{◌≡◌, ◌+◌, ◌<◌, false, IfOk};
ghost use Rattle.do_tree.specs.Seen.{expr_of};
ghost use Rattle.do_value.specs.Seen.{tree_of};
ghost use Rattle.script_mean.specs.Answers.{gave};
ghost use Rattle.script_mean.specs.Calls.{Calls};
ghost use Rattle.script_mean.specs.Meaning.{goes_on, lazy, strict, value};
ghost use Rattle.script_steps.specs.Parts.{chain_of, exprs_from, exprs_of, operands_from, operands_of};
ghost use Rattle.script_steps.specs.Seen.{applied, choice_run, focus_run, frame_of, handed, move_run};
ghost use Rattle.script_steps.specs.Weight.{LeavesLess, focus_weight, frame_weight};

use crate::block::{begin_body, branch, declared, tested, turned, visit_from, visited};
use crate::focus::{Focus, Move, Outcome};
use crate::frame::Frame;
use crate::lists::{list_from, put, put_pair, record_from};
use crate::node::{NextExpr, NextOperand, chain_of, expr_at, operand_at};
use crate::operators::{before, error_of};
use crate::path::Await;
use do_tree::{Chain, Expr};
use do_value::{BinOp, Mem, NoMemory, Value};
use script_ops::{OpFault, binary, truth};
use std::alloc::Global;
use std::sync::Arc;

/// What a frame does with the value of the part inside it.
pub fn hand(alloc: Global, frame: Frame, value: Value) -> Mem<Move>
    ensures moves { IfOk result (λ m. (calls : Calls) → handed calls (frame_of frame) (gave (tree_of value)) ≡ move_run calls m) }
    ensures less { IfOk result (LeavesLess (frame_weight frame + 8)) }
{
    match frame {
        Frame::Choose(yes, no) => Ok(Move::Then(0, chosen(yes, no, &value))),
        Frame::Chain(node, place) => chain_on(node, place, value),
        Frame::Operate(node, place) => operate_on(node, place, value),
        Frame::Apply(left, op, node, place) => apply_on(alloc, left, op, value, node, place),
        Frame::Prefix(op) => Ok(Move::Then(0, Focus::Ended(before(alloc, op, &value)?))),
        Frame::List(got, node, place) => {
            let mut got = got;
            put(&mut got, value)?;
            list_from(alloc, 0, got, node, place)
        }
        Frame::Record(got, key, node, place) => {
            let mut got = got;
            put_pair(&mut got, key, value)?;
            record_from(alloc, 0, got, node, place)
        }
        Frame::Error => Ok(Move::Then(0, Focus::Ended(error_of(alloc, &[value])?))),
        Frame::Declare(block, place, next) => declared(block, place, next, value),
        Frame::GoOn(block, next) => begin_body(block, next),
        Frame::Branch(yes, other) => Ok(Move::Then(0, branch(yes, other, &value))),
        Frame::Test(test, body, between) => tested(test, body, between, &value),
        Frame::Turn(test, body, between) => turned(test, body, between),
        Frame::Loop(test, body, between) => Ok(Move::Then(0, Focus::Loop(test, body, between))),
        Frame::Count(node) => Ok(Move::Then(0, Focus::Count(node, value))),
        Frame::Visit(node) => visited(alloc, node, value),
        Frame::Next(node, items, next) => visit_from(node, items, next),
        Frame::Throw => Ok(Move::Then(0, Focus::Ended(Outcome::Threw(value)))),
        Frame::Return => Ok(Move::Then(0, Focus::Ended(Outcome::Returned(value)))),
        Frame::Pass => Ok(Move::Then(0, Focus::Ended(Outcome::Gave(Value::Undefined)))),
        Frame::Leave => Ok(Move::Then(0, Focus::Leave(Outcome::Gave(value)))),
        Frame::Catch(_) => Ok(Move::Then(0, Focus::Ended(Outcome::Gave(value)))),
        Frame::Path(part) => Ok(Move::Then(0, Focus::Handed(part, value))),
        Frame::Commit => Ok(Move::Then(0, Focus::Commit(Outcome::Gave(value)))),
        Frame::Unblock(awaited) => Ok(Move::Then(0, Focus::Unblock(awaited, Outcome::Gave(value)))),
    }
}

/// The branch of a choice.
fn chosen(yes: Arc<Expr>, no: Arc<Expr>, test: &Value) -> Focus
    ensures begins { (calls : Calls) → choice_run calls (tree_of test.now) (expr_of yes.value) (expr_of no.value) ≡ focus_run calls result }
    ensures less { focus_weight result < 9 }
{
    if truth(test) {
        Focus::Value(Await::Absent, yes)
    } else {
        Focus::Value(Await::Absent, no)
    }
}

/// A chain of `&&`, `||` or `??` after the value of an operand, from that place on.
fn chain_on(node: Arc<Expr>, place: usize, value: Value) -> Mem<Move>
    ensures moves { IfOk result (λ m. (calls : Calls)
        → lazy calls (chain_of (expr_of node.value)) (tree_of value) (exprs_from place (exprs_of (expr_of node.value))) ≡ move_run calls m) }
    ensures less { IfOk result (LeavesLess 9) }
{
    match expr_at(&node, place)? {
        None => Ok(Move::Then(0, Focus::Ended(Outcome::Gave(value)))),
        Some(NextExpr { expr, next }) => {
            if goes_on(chain_of(&node), &value) {
                Ok(Move::Inside(
                    0,
                    Frame::Chain(node, next),
                    Focus::Value(Await::Absent, expr),
                ))
            } else {
                Ok(Move::Then(0, Focus::Ended(Outcome::Gave(value))))
            }
        }
    }
}

/// Whether a chain goes on to its next operand after this value.
fn goes_on(chain: Chain, value: &Value) -> bool
    ensures { result ≡ goes_on chain (tree_of value.now) }
{
    match chain {
        Chain::And => truth(value),
        Chain::Or => !truth(value),
        Chain::Coalesce => matches!(value, Value::Undefined | Value::Null),
    }
}

/// A chain of operators after the value of an operand, from that place on.
fn operate_on(node: Arc<Expr>, place: usize, value: Value) -> Mem<Move>
    ensures moves { IfOk result (λ m. (calls : Calls)
        → strict calls (tree_of value) (operands_from place (operands_of (expr_of node.value))) ≡ move_run calls m) }
    ensures less { IfOk result (LeavesLess 9) }
{
    match operand_at(&node, place)? {
        None => Ok(Move::Then(0, Focus::Ended(Outcome::Gave(value)))),
        Some(NextOperand { op, expr, next }) => Ok(Move::Inside(
            0,
            Frame::Apply(value, op, node, next),
            Focus::Value(Await::Absent, expr),
        )),
    }
}

/// An operator of a chain between two values, and the rest of the chain.
#[tactic(auto, using(crate::proofs::Begun::applied_ok, crate::proofs::Begun::applied_err))]
fn apply_on(
    alloc: Global,
    left: Value,
    op: BinOp,
    right: Value,
    node: Arc<Expr>,
    place: usize,
) -> Mem<Move>
    ensures moves { IfOk result (λ m. (calls : Calls)
        → applied calls op (tree_of left) (tree_of right) (operands_from place (operands_of (expr_of node.value))) ≡ move_run calls m) }
    ensures less { IfOk result (LeavesLess 9) }
{
    match binary(alloc, op, &left, &right) {
        Ok(value) => operate_on(node, place, value),
        Err(OpFault::Throw(error)) => Ok(Move::Then(0, Focus::Ended(Outcome::Threw(error)))),
        Err(OpFault::NoMemory) => Err(NoMemory),
    }
}
