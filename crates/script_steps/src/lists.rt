//! Lists and records, part by part.
ghost use Rattle.std.specs.Prelude.{◌≡◌, ◌<◌, ◌∷◌, [], ◌++◌, IfOk, OnOk};
ghost use Rattle.do_tree.specs.Nodes.{option_expr_in};
ghost use Rattle.do_tree.specs.Seen.{expr_of};
ghost use Rattle.do_value.specs.Seen.{pairs_in, tree_of, trees_in};
ghost use Rattle.script_mean.specs.Calls.{Calls};
ghost use Rattle.script_mean.specs.Meaning.{exprs, pair_value, pairs};
ghost use Rattle.script_steps.specs.Parts.{exprs_from, exprs_of, pairs_from, pairs_of};
ghost use Rattle.script_steps.specs.Seen.{charged, focus_run, move_run};
ghost use Rattle.script_steps.specs.Weight.{focus_weight, move_cost, move_weight};

use crate::focus::{Focus, Move};
use crate::frame::Frame;
use crate::node::{NextExpr, NextPair, expr_at, pair_at};
use crate::operators::{made_list, made_record};
use crate::path::Await;
use do_tree::Expr;
use do_value::{Mem, NoMemory, Text, Value};
use std::alloc::Global;
use std::sync::Arc;

/// The rest of a list from that place on, after its first items.
#[tactic(auto, using(crate::proofs::Begun::list_none, crate::proofs::Begun::list_some))]
pub(crate) fn list_from(
    alloc: Global,
    cost: usize,
    got: Vec<Value>,
    node: Arc<Expr>,
    place: usize,
) -> Mem<Move>
    ensures moves { IfOk result (λ m. (calls : Calls)
        → charged cost (exprs calls (exprs_from place (exprs_of (expr_of node.value))) (trees_in got.items)) ≡ move_run calls m) }
    ensures less { IfOk result (λ m. (move_weight m < 9) × (move_cost m ≡ cost)) }
{
    match expr_at(&node, place)? {
        None => Ok(Move::Then(cost, Focus::Ended(made_list(alloc, got)?))),
        Some(NextExpr { expr, next }) => Ok(Move::Inside(
            cost,
            Frame::List(got, node, next),
            Focus::Value(Await::Absent, expr),
        )),
    }
}

/// The rest of a record from that place on, after its first pairs.
#[tactic(auto, using(crate::proofs::Begun::record_none, crate::proofs::Begun::record_some))]
pub(crate) fn record_from(
    alloc: Global,
    cost: usize,
    got: Vec<(Text, Value)>,
    node: Arc<Expr>,
    place: usize,
) -> Mem<Move>
    ensures moves { IfOk result (λ m. (calls : Calls)
        → charged cost (pairs calls (pairs_from place (pairs_of (expr_of node.value))) (pairs_in got.items)) ≡ move_run calls m) }
    ensures less { IfOk result (λ m. (move_weight m < 9) × (move_cost m ≡ cost)) }
{
    match pair_at(&node, place)? {
        None => Ok(Move::Then(cost, Focus::Ended(made_record(alloc, got)?))),
        Some(NextPair { key, value, next }) => {
            let focus = pair_focus(&key.text, value)?;
            Ok(Move::Inside(cost, Frame::Record(got, key.text, node, next), focus))
        }
    }
}

/// The value of a pair. A name alone stands for the variable's value.
fn pair_focus(name: &Text, value: Option<Arc<Expr>>) -> Mem<Focus>
    ensures begins { IfOk result (λ f. (calls : Calls) → pair_value calls name.now (option_expr_in value) ≡ focus_run calls f) }
    ensures less { IfOk result (λ f. focus_weight f < 4) }
{
    match value {
        Some(value) => Ok(Focus::Value(Await::Absent, value)),
        None => Ok(Focus::Named(name.copy()?)),
    }
}

/// One item more.
pub(crate) fn put(got: &mut Vec<Value>, value: Value) -> Mem<()>
    ensures { OnOk result (trees_in got.new.items ≡ trees_in got.old.items ++ tree_of value ∷ []) }
{
    match got.push(value) {
        Ok(()) => Ok(()),
        Err(_) => Err(NoMemory),
    }
}

/// One pair more.
pub(crate) fn put_pair(got: &mut Vec<(Text, Value)>, key: Text, value: Value) -> Mem<()>
    ensures { OnOk result (pairs_in got.new.items ≡ pairs_in got.old.items ++ (key, tree_of value) ∷ []) }
{
    match got.push((key, value)) {
        Ok(()) => Ok(()),
        Err(_) => Err(NoMemory),
    }
}
