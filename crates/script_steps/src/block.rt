//! Blocks, item by item, and loops, turn by turn.
ghost use Rattle.std.specs.Prelude.{◌≡◌, ◌<◌, IfOk, drop, false};
ghost use Rattle.do_tree.specs.Nodes.{block_in, option_expr_in, option_stmt_in};
ghost use Rattle.do_tree.specs.Seen.{expr_of, stmt_of};
ghost use Rattle.do_value.specs.Seen.{tree_of};
ghost use Rattle.script_mean.specs.Answers.{gave};
ghost use Rattle.script_mean.specs.Calls.{Calls};
ghost use Rattle.script_mean.specs.Frames.{between as what_stands, to_test};
ghost use Rattle.script_mean.specs.Law.{unfolded};
ghost use Rattle.script_mean.specs.Meaning.{body, each, each_of, run, value, value_or_undefined};
ghost use Rattle.script_steps.specs.Parts.{body_in, items_from, name_in, with_item};
ghost use Rattle.script_steps.specs.Seen.{between_of, branch_run, focus_run, frame_of, handed, move_run, over};
ghost use Rattle.script_steps.specs.Weight.{LeavesLess, focus_weight};

use crate::focus::{Focus, Move, Outcome};
use crate::frame::{Between, Frame};
use crate::node::again;
use crate::operators::of_wrong_type;
use crate::path::Await;
use do_tree::{Block, Expr, Item, Stmt};
use do_value::{Items, Mem, Value};
use script_ops::truth;
use std::alloc::Global;
use std::sync::Arc;

/// The items of a block from that place on.
pub fn begin_body(block: Arc<Block>, place: usize) -> Mem<Move>
    ensures moves { IfOk result (λ m. (calls : Calls) → body calls (items_from place (block_in block.value)) ≡ move_run calls m) }
    ensures less { IfOk result (LeavesLess 9) }
{
    if place >= block.items.len() {
        return Ok(Move::Then(0, Focus::Ended(Outcome::Gave(Value::Undefined))));
    }
    match &block.items[place] {
        Item::Declare { value, .. } => {
            let focus = first_focus(value)?;
            Ok(Move::Inside(1, Frame::Declare(block, place, place + 1), focus))
        }
        Item::Stmt(stmt) => {
            let stmt = again(stmt)?;
            Ok(Move::Inside(0, Frame::GoOn(block, place + 1), Focus::Run(stmt)))
        }
    }
}

/// The value of a declaration, which is `undefined` where there is none.
fn first_focus(value: &Option<Arc<Expr>>) -> Mem<Focus>
    ensures begins { IfOk result (λ f. (calls : Calls) → value_or_undefined calls (option_expr_in value.now) ≡ focus_run calls f) }
    ensures less { IfOk result (λ f. focus_weight f < 9) }
{
    match value {
        Some(value) => Ok(Focus::Value(Await::Absent, again(value)?)),
        None => Ok(Focus::Ended(Outcome::Gave(Value::Undefined))),
    }
}

/// A declaration whose value is there, and the rest of its block.
pub(crate) fn declared(block: Arc<Block>, place: usize, next: usize, value: Value) -> Mem<Move>
    ensures moves { IfOk result (λ m. (calls : Calls)
        → handed calls (frame_of (Frame.Declare block place next)) (gave (tree_of value)) ≡ move_run calls m) }
    ensures less { IfOk result (LeavesLess 12) }
{
    let rest = again(&block)?;
    Ok(Move::Inside(
        0,
        Frame::GoOn(rest, next),
        Focus::Declare(block, place, value),
    ))
}

/// The branch of an `if`.
pub(crate) fn branch(yes: Arc<Stmt>, other: Option<Arc<Stmt>>, test: &Value) -> Focus
    ensures begins { (calls : Calls) → branch_run calls (tree_of test.now) (stmt_of yes.value) (option_stmt_in other) ≡ focus_run calls result }
    ensures less { focus_weight result < 9 }
{
    if truth(test) {
        return Focus::Run(yes);
    }
    match other {
        Some(other) => Focus::Run(other),
        None => Focus::Ended(Outcome::Gave(Value::Undefined)),
    }
}

/// How a loop begins, where it is its test, and its body and itself again where the test is true.
pub fn begin_loop(test: Arc<Expr>, body: Arc<Stmt>, between: Between) -> Mem<Move>
    ensures moves { IfOk result (λ m. (calls : Calls)
        → unfolded (value false calls (expr_of test.value)) (run calls (stmt_of body.value)) (what_stands calls (between_of between)) ≡ move_run calls m) }
    ensures less { IfOk result (LeavesLess 4) }
{
    let inner = again(&test)?;
    Ok(Move::Inside(
        0,
        Frame::Test(test, body, between),
        Focus::Value(Await::Absent, inner),
    ))
}

/// A loop after its test.
pub(crate) fn tested(test: Arc<Expr>, body: Arc<Stmt>, between: Between, value: &Value) -> Mem<Move>
    ensures moves { IfOk result (λ m. (calls : Calls)
        → handed calls (to_test (expr_of test.value) (stmt_of body.value) (between_of between)) (gave (tree_of value.now)) ≡ move_run calls m) }
    ensures less { IfOk result (LeavesLess 9) }
{
    if truth(value) {
        let inner = again(&body)?;
        Ok(Move::Inside(0, Frame::Turn(test, body, between), Focus::Run(inner)))
    } else {
        Ok(Move::Then(0, Focus::Ended(Outcome::Gave(Value::Undefined))))
    }
}

/// A loop after its body.
pub(crate) fn turned(test: Arc<Expr>, body: Arc<Stmt>, between: Between) -> Mem<Move>
    ensures moves { IfOk result (λ m. (calls : Calls) → over calls (expr_of test.value) (stmt_of body.value) (between_of between) ≡ move_run calls m) }
    ensures less { IfOk result (LeavesLess 9) }
{
    match between {
        Between::AtOnce => Ok(Move::Then(0, Focus::Loop(test, body, Between::AtOnce))),
        Between::Stepped(step) => {
            let inner = again(&step)?;
            Ok(Move::Inside(
                0,
                Frame::Loop(test, body, Between::Stepped(step)),
                Focus::Simple(inner),
            ))
        }
    }
}

/// A loop over a list, which is there.
pub(crate) fn visited(alloc: Global, node: Arc<Stmt>, list: Value) -> Mem<Move>
    ensures moves { IfOk result (λ m. (calls : Calls)
        → each_of (name_in (stmt_of node.value)) (run calls (body_in (stmt_of node.value))) (tree_of list) ≡ move_run calls m) }
    ensures less { IfOk result (LeavesLess 9) }
{
    match list {
        Value::List(items) => visit_from(node, items, 0),
        _ => Ok(Move::Then(0, Focus::Ended(of_wrong_type(alloc)?))),
    }
}

/// A loop over a list, from the item at that place on.
pub(crate) fn visit_from(node: Arc<Stmt>, items: Items, place: usize) -> Mem<Move>
    ensures moves { IfOk result (λ m. (calls : Calls)
        → each (name_in (stmt_of node.value)) (run calls (body_in (stmt_of node.value))) (drop place items) ≡ move_run calls m) }
    ensures less { IfOk result (LeavesLess 9) }
{
    match item_at(&items, place)? {
        None => Ok(Move::Then(0, Focus::Ended(Outcome::Gave(Value::Undefined)))),
        Some((value, next)) => {
            let inner = again(&node)?;
            Ok(Move::Inside(
                0,
                Frame::Next(node, items, next),
                Focus::Visit(inner, value),
            ))
        }
    }
}

/// The item at that place of a list, and the place behind it.
#[tactic(auto, using(crate::proofs::Parts::values_past, crate::proofs::Parts::values_at))]
fn item_at(items: &Items, place: usize) -> Mem<Option<(Value, usize)>>
    ensures { IfOk result (λ found. drop place items.now ≡ with_item found items.now) }
{
    let values = items.as_slice();
    if place >= values.len() {
        return Ok(None);
    }
    Ok(Some((values[place].copy()?, place + 1)))
}
