//! Paths from values and from words of the language on.
ghost use Rattle.std.specs.Prelude.{◌≡◌, ◌+◌, ◌*◌, ◌^◌, ◌<◌, [], ◌∷◌, IfOk};
ghost use Rattle.do_tree.specs.Seen.{expr_of};
ghost use Rattle.do_value.specs.Seen.{tree_of, trees_in};
ghost use Rattle.script_mean.specs.Calls.{Calls};
ghost use Rattle.script_mean.specs.Meaning.{links};
ghost use Rattle.script_mean.specs.Paths.{holds, parts, parts_behind_call, word as of_word};
ghost use Rattle.script_mean.specs.Places.{property};
ghost use Rattle.script_paths.specs.Ahead.{front_of, links_seen};
ghost use Rattle.script_paths.specs.Onward.{called_parts_on, goes_on, part_on, parts_on, value_on, word_from};
ghost use Rattle.script_steps.specs.Parts.{links_in};
ghost use Rattle.script_steps.specs.Paths.{is_present};
ghost use Rattle.script_steps.specs.Seen.{move_run};
ghost use Rattle.script_steps.specs.Weight.{LeavesLess};

use crate::link::{Ahead, ahead_at};
use crate::walked::{call_at, call_from, nowhere};
use do_tree::Expr;
use do_value::{Mem, NoMemory, Text, Value};
use script_ops::OpFault;
use script_places::property;
use script_steps::{Await, Callee, Focus, Move, Outcome, PathFrame, Point, path_frame};
use std::alloc::Global;
use std::sync::Arc;

/// A path from a value on: its parts, and calls of its methods.
pub(crate) fn from_value(
    alloc: Global,
    awaited: Await,
    value: Value,
    node: Arc<Expr>,
    place: usize,
) -> Mem<Move>
    ensures same { IfOk result (λ m. (calls : Calls)
        → links (is_present awaited) calls (holds (tree_of value)) (links_in (expr_of node.value) place) ≡ move_run calls m) }
    ensures less { IfOk result (LeavesLess (10 + 10 * parts (links_in (expr_of node.value) place))) }
{
    let ahead = ahead_at(&node, place)?;
    value_goes_on(alloc, awaited, value, ahead, node, place)
}

/// The same, by what is next.
fn value_goes_on(
    alloc: Global,
    awaited: Await,
    value: Value,
    ahead: Ahead,
    node: Arc<Expr>,
    place: usize,
) -> Mem<Move>
    requires { place + links_seen ahead < 2 ^ 64 }
    ensures same { IfOk result (λ m. (calls : Calls)
        → goes_on (value_on (is_present awaited) calls (tree_of value)) ahead (expr_of node.value) place ≡ move_run calls m) }
    ensures less { IfOk result (LeavesLess (10 + 10 * goes_on parts_on ahead (expr_of node.value) place)) }
{
    match ahead {
        Ahead::End => Ok(Move::Then(0, Focus::Ended(Outcome::Gave(value)))),
        Ahead::Field(name) => part_of(alloc, awaited, &value, &name, node, place + 1),
        Ahead::Method(name) => {
            let got = one(alloc, value)?;
            call_at(alloc, awaited, Callee::Value(name), got, node, place + 1, 0)
        }
        Ahead::Index(index) => {
            let part = PathFrame::Index(awaited, value, node, place + 1);
            let frame = path_frame(alloc, part)?;
            Ok(Move::Inside(0, frame, Focus::Value(Await::Absent, index)))
        }
        Ahead::Call => Ok(nowhere()),
    }
}

/// A path from the field of this name of a value on.
#[tactic(auto, using(crate::proofs::Properties::part_is, crate::proofs::Properties::part_throws))]
fn part_of(
    alloc: Global,
    awaited: Await,
    value: &Value,
    name: &Text,
    node: Arc<Expr>,
    next: usize,
) -> Mem<Move>
    ensures same { IfOk result (λ m. (calls : Calls)
        → part_on (is_present awaited) calls (property (tree_of value.now) name.now) (links_in (expr_of node.value) next) ≡ move_run calls m) }
    ensures less { IfOk result (LeavesLess (20 + 10 * parts (links_in (expr_of node.value) next))) }
{
    match property(alloc, value, name.as_str()) {
        Ok(part) => Ok(Move::Then(0, Focus::Walk(awaited, Point::Holds(part), node, next))),
        Err(OpFault::Throw(error)) => Ok(Move::Then(0, Focus::Ended(Outcome::Threw(error)))),
        Err(OpFault::NoMemory) => Err(NoMemory),
    }
}

/// A list of this value alone.
fn one(alloc: Global, value: Value) -> Mem<Vec<Value>>
    ensures { IfOk result (λ got. trees_in got.items ≡ tree_of value ∷ []) }
{
    let mut got = Vec::new(alloc);
    match got.push(value) {
        Ok(()) => Ok(got),
        Err(_) => Err(NoMemory),
    }
}

/// A path from a word of the language on: its call, or the call of a part of it.
pub(crate) fn from_word(
    alloc: Global,
    awaited: Await,
    word: Text,
    node: Arc<Expr>,
    place: usize,
) -> Mem<Move>
    ensures same { IfOk result (λ m. (calls : Calls)
        → links (is_present awaited) calls (of_word word) (links_in (expr_of node.value) place) ≡ move_run calls m) }
    ensures less { IfOk result (LeavesLess (20 + 10 * parts_behind_call (links_in (expr_of node.value) place))) }
{
    let ahead = ahead_at(&node, place)?;
    word_goes_on(alloc, awaited, word, ahead, node, place)
}

/// The same, by what is next.
fn word_goes_on(
    alloc: Global,
    awaited: Await,
    word: Text,
    ahead: Ahead,
    node: Arc<Expr>,
    place: usize,
) -> Mem<Move>
    requires { place + links_seen ahead < 2 ^ 64 }
    ensures same { IfOk result (λ m. (calls : Calls)
        → word_from (is_present awaited) calls word (front_of ahead) (links_in (expr_of node.value) place)
        (links_in (expr_of node.value) (place + 1)) (links_in (expr_of node.value) (place + 1 + 1)) ≡ move_run calls m) }
    ensures less { IfOk result (LeavesLess (20 + 10 * goes_on called_parts_on ahead (expr_of node.value) place)) }
{
    match ahead {
        Ahead::Call => call_from(alloc, awaited, Callee::Word(word), node, place, 0),
        Ahead::Method(name) => {
            let callee = Callee::Owner(word, name);
            call_from(alloc, awaited, callee, node, place + 1, 0)
        }
        _ => Ok(nowhere()),
    }
}
