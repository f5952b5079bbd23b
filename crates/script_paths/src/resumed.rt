//! What the frames of paths and of writes do with the value of the part inside them.
ghost use Rattle.std.specs.Prelude.{◌≡◌, ◌+◌, ◌++◌, ◌<◌, ◌∷◌, [], IfOk, OnOk};
ghost use Rattle.do_tree.specs.Seen.{expr_of};
ghost use Rattle.do_value.specs.Seen.{tree_of, trees_in};
ghost use Rattle.script_mean.specs.Answers.{gave};
ghost use Rattle.script_mean.specs.Calls.{Calls};
ghost use Rattle.script_mean.specs.Frames.{to_index, to_update};
ghost use Rattle.script_places.specs.Steps.{step_of, steps_in};
ghost use Rattle.script_steps.specs.Parts.{links_in};
ghost use Rattle.script_steps.specs.Paths.{is_present, path_frame_of, root_of};
ghost use Rattle.script_steps.specs.Seen.{focus_run, handed, move_run};
ghost use Rattle.script_steps.specs.Weight.{LeavesLess, focus_weight, path_frame_weight};

use do_tree::Expr;
use do_value::{BinOp, Mem, NoMemory, Value};
use script_ops::{OpFault, binary};
use script_places::{Step, element};
use script_steps::{Await, Focus, Move, Outcome, PathFrame, Point, Root};
use std::alloc::Global;
use std::sync::Arc;

/// What a part of a path or of a write does with the value of the part inside it.
pub fn hand_path(alloc: Global, frame: PathFrame, value: Value) -> Mem<Move>
    ensures same { IfOk result (λ m. (calls : Calls) → handed calls (path_frame_of frame) (gave (tree_of value)) ≡ move_run calls m) }
    ensures less { IfOk result (LeavesLess (7 + path_frame_weight frame)) }
{
    match frame {
        PathFrame::Walk(awaited, node, place) => Ok(Move::Then(
            0,
            Focus::Walk(awaited, Point::Holds(value), node, place),
        )),
        PathFrame::Index(awaited, whole, node, place) => {
            part_on(alloc, awaited, &whole, &value, node, place)
        }
        PathFrame::Call(callee, got, node, link, place) => {
            let mut got = got;
            add(&mut got, value)?;
            Ok(Move::Then(0, Focus::Arguments(callee, got, node, link, place)))
        }
        PathFrame::PushIndex(root, steps, node, place) => {
            let mut steps = steps;
            add_step(&mut steps, Step::Indexed(value))?;
            Ok(Move::Then(0, Focus::Push(root, steps, node, place)))
        }
        PathFrame::PlaceIndex(writing, root, steps, node, place) => {
            let mut steps = steps;
            add_step(&mut steps, Step::Indexed(value))?;
            Ok(Move::Then(0, Focus::Place(writing, root, steps, node, place)))
        }
        PathFrame::Assign(root, steps) => Ok(Move::Then(0, Focus::Assign(root, steps, value))),
        PathFrame::Update(root, steps, op, old) => {
            Ok(Move::Then(0, update_on(alloc, root, steps, op, &old, &value)?))
        }
    }
}

/// A path goes on from the part of a value that an index names.
#[tactic(auto, using(crate::proofs::Handed::index_goes, crate::proofs::Handed::index_throws))]
fn part_on(
    alloc: Global,
    awaited: Await,
    whole: &Value,
    index: &Value,
    node: Arc<Expr>,
    place: usize,
) -> Mem<Move>
    ensures same { IfOk result (λ m. (calls : Calls)
        → handed calls (to_index (is_present awaited) (tree_of whole.now) (links_in (expr_of node.value) place)) (gave (tree_of index.now))
        ≡ move_run calls m) }
    ensures less { IfOk result (LeavesLess (7 + path_frame_weight (PathFrame.Index awaited whole.now node place))) }
{
    match element(alloc, whole, index) {
        Ok(part) => Ok(Move::Then(0, Focus::Walk(awaited, Point::Holds(part), node, place))),
        Err(OpFault::Throw(error)) => Ok(Move::Then(0, Focus::Ended(Outcome::Threw(error)))),
        Err(OpFault::NoMemory) => Err(NoMemory),
    }
}

/// What an operator makes of the old value of a place and of a right side is to be written there.
#[tactic(auto, using(crate::proofs::Handed::update_writes, crate::proofs::Handed::update_fails))]
pub(crate) fn update_on(
    alloc: Global,
    root: Root,
    steps: Vec<Step>,
    op: BinOp,
    old: &Value,
    right: &Value,
) -> Mem<Focus>
    ensures same { IfOk result (λ f. (calls : Calls)
        → handed calls (to_update (root_of root) (steps_in steps.items) op (tree_of old.now)) (gave (tree_of right.now)) ≡ focus_run calls f) }
    ensures less { IfOk result (λ f. focus_weight f < 10) }
{
    match binary(alloc, op, old, right) {
        Ok(new) => Ok(Focus::Assign(root, steps, new)),
        Err(OpFault::Throw(error)) => Ok(Focus::Ended(Outcome::Threw(error))),
        Err(OpFault::NoMemory) => Err(NoMemory),
    }
}

/// One argument more.
fn add(got: &mut Vec<Value>, value: Value) -> Mem<()>
    ensures { OnOk result (trees_in got.new.items ≡ trees_in got.old.items ++ tree_of value ∷ []) }
{
    match got.push(value) {
        Ok(()) => Ok(()),
        Err(_) => Err(NoMemory),
    }
}

/// One step more.
pub(crate) fn add_step(steps: &mut Vec<Step>, step: Step) -> Mem<()>
    ensures { OnOk result (steps_in steps.new.items ≡ steps_in steps.old.items ++ step_of step ∷ []) }
{
    match steps.push(step) {
        Ok(()) => Ok(()),
        Err(_) => Err(NoMemory),
    }
}
