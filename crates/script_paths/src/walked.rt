//! Paths, link by link.
ghost use Rattle.std.specs.Prelude.{◌≡◌, ◌+◌, ◌*◌, ◌^◌, ◌<◌, [], IfOk};
ghost use Rattle.do_tree.specs.Seen.{expr_of};
ghost use Rattle.do_value.specs.Seen.{tree_of, trees_in};
ghost use Rattle.script_mean.specs.Calls.{Calls};
ghost use Rattle.script_mean.specs.Frames.{called};
ghost use Rattle.script_mean.specs.Meaning.{arguments, links};
ghost use Rattle.script_mean.specs.Paths.{parts};
ghost use Rattle.script_paths.specs.Onward.{calling};
ghost use Rattle.script_paths.specs.Reading.{UnfoldsOn};
ghost use Rattle.script_steps.specs.Parts.{args_in, links_in};
ghost use Rattle.script_steps.specs.Paths.{callee_of, is_present, point_of};
ghost use Rattle.script_steps.specs.Seen.{move_run};
ghost use Rattle.script_steps.specs.Weight.{LeavesLess, callee_weight, walk_weight};

use crate::classes::{from_class, from_environment};
use crate::itself::from_itself;
use crate::storing::{from_context, from_handle, from_storage};
use crate::values::{from_value, from_word};
use do_tree::Expr;
use do_value::{Fields, Mem, Value};
use script_steps::{Await, Callee, Focus, Move, Outcome, PathFrame, Point, again, path_frame};
use std::alloc::Global;
use std::sync::Arc;

/// A path from this point and this link on, with these fields of the object.
pub fn walk(
    alloc: Global,
    awaited: Await,
    point: Point,
    node: Arc<Expr>,
    place: usize,
    fields: &Fields,
) -> Mem<Move>
    ensures same { IfOk result (UnfoldsOn fields.now
        (λ calls. links (is_present awaited) calls (point_of point) (links_in (expr_of node.value) place))) }
    ensures less { IfOk result (LeavesLess (walk_weight point (links_in (expr_of node.value) place))) }
{
    match point {
        Point::Itself => from_itself(alloc, awaited, node, place, fields),
        Point::Context => from_context(alloc, awaited, node, place),
        Point::Storage => from_storage(alloc, awaited, node, place),
        Point::Environment => from_environment(awaited, node, place),
        Point::Class(class) => from_class(alloc, awaited, class, node, place),
        Point::Handle => from_handle(alloc, awaited, node, place),
        Point::Word(word) => from_word(alloc, awaited, word, node, place),
        Point::Holds(value) => from_value(alloc, awaited, value, node, place),
    }
}

/// The call at that link, whose arguments are evaluated from that one on behind those that are there, and then the path from
/// its value on.
pub(crate) fn call_at(
    alloc: Global,
    awaited: Await,
    callee: Callee,
    got: Vec<Value>,
    node: Arc<Expr>,
    link: usize,
    first: usize,
) -> Mem<Move>
    requires { link + 1 < 2 ^ 64 }
    ensures same { IfOk result (λ m. (calls : Calls)
        → calling (is_present awaited) calls (links_in (expr_of node.value) (link + 1))
        (arguments calls (args_in (expr_of node.value) link first) (trees_in got.items) (called calls (callee_of callee))) ≡ move_run calls m) }
    ensures less { IfOk result (LeavesLess (20 + 10 * parts (links_in (expr_of node.value) (link + 1)) + callee_weight callee)) }
{
    let rest = again(&node)?;
    let frame = path_frame(alloc, PathFrame::Walk(awaited, rest, link + 1))?;
    Ok(Move::Inside(0, frame, Focus::Arguments(callee, got, node, link, first)))
}

/// The same where no argument is there yet.
pub(crate) fn call_from(
    alloc: Global,
    awaited: Await,
    callee: Callee,
    node: Arc<Expr>,
    link: usize,
    first: usize,
) -> Mem<Move>
    requires { link + 1 < 2 ^ 64 }
    ensures same { IfOk result (λ m. (calls : Calls)
        → calling (is_present awaited) calls (links_in (expr_of node.value) (link + 1))
        (arguments calls (args_in (expr_of node.value) link first) [] (called calls (callee_of callee))) ≡ move_run calls m) }
    ensures less { IfOk result (LeavesLess (20 + 10 * parts (links_in (expr_of node.value) (link + 1)) + callee_weight callee)) }
{
    call_at(alloc, awaited, callee, Vec::new(alloc), node, link, first)
}

/// What a checked script doesn't have.
pub(crate) fn nowhere() -> Move
    ensures { result ≡ Move.Then 0 (Focus.Ended (Outcome.Threw Value.Undefined)) }
{
    Move::Then(0, Focus::Ended(Outcome::Threw(Value::Undefined)))
}
