//! Places of writes.
ghost use Rattle.std.specs.Prelude.{◌≡◌, ℕ, false, option_map, IfOk};
ghost use Rattle.do_value.specs.Keyed.{value_at};
ghost use Rattle.do_value.specs.Seen.{tree_of};
ghost use Rattle.do_tree.specs.Nodes.{simple_of};
ghost use Rattle.do_tree.specs.Seen.{expr_of};
ghost use Rattle.do_tree.specs.Tree.{path, this};
ghost use Rattle.script_mean.specs.Calls.{Calls};
ghost use Rattle.script_mean.specs.Frames.{to_assign, to_update, written};
ghost use Rattle.script_mean.specs.Meaning.{moved_by, place, to_place, updated, value};
ghost use Rattle.script_mean.specs.Places.{moved, or_undefined, part_at, ◌then◌};
ghost use Rattle.script_mean.specs.Turn.{bound};
ghost use Rattle.script_ops.specs.Answers.{Answers};
ghost use Rattle.script_paths.specs.Bases.{base_of};
ghost use Rattle.script_paths.specs.Reading.{UnfoldsIn, UnfoldsWith};
ghost use Rattle.script_paths.specs.Standing.{or_nowhere, place_in};
ghost use Rattle.script_places.specs.Steps.{steps_in};
ghost use Rattle.script_steps.specs.Parts.{links_in};
ghost use Rattle.script_steps.specs.Paths.{root_of, writing_of};
ghost use Rattle.script_steps.specs.Seen.{framed, move_run, writing};
ghost use Rattle.script_steps.specs.Weight.{LeavesLess};
ghost use Rattle.script_vars.specs.Seen.{env_of, value_of};

use crate::leaf::leaf;
use crate::resumed::{add_step, update_on};
use crate::walked::nowhere;
use do_tree::{Expr, Link, Simple, Write};
use do_value::{BinOp, Fields, Mem, NoMemory, Value};
use script_ops::OpFault;
use script_places::{Step, moved, part_at};
use script_steps::{
    Await, Focus, Move, Outcome, PathFrame, Root, Writing, again, link_at, path_frame,
};
use script_vars::{Bound, Vars};
use std::alloc::Global;
use std::sync::Arc;

/// A write begins with its place, once its step is charged.
pub fn begin_write(alloc: Global, inner: &Arc<Simple>) -> Mem<Move>
    ensures same { IfOk result (λ m. (calls : Calls) → writing calls (simple_of inner.now.value) ≡ move_run calls m) }
    ensures less { IfOk result (LeavesLess 12) }
{
    let at = &inner.place;
    match &inner.write {
        Write::Nothing => Ok(nowhere()),
        Write::Value(value) => begin_place(alloc, Writing::Assigns(again(value)?), at),
        Write::Sum(value) => begin_place(alloc, Writing::Updates(BinOp::Add, again(value)?), at),
        Write::Difference(value) => {
            begin_place(alloc, Writing::Updates(BinOp::Sub, again(value)?), at)
        }
        Write::OneMore => begin_place(alloc, Writing::Moves(1), at),
        Write::OneLess => begin_place(alloc, Writing::Moves(-1), at),
    }
}

/// The place of a write begins.
fn begin_place(alloc: Global, writing: Writing, node: &Arc<Expr>) -> Mem<Move>
    ensures same { IfOk result (λ m. (calls : Calls)
        → place calls (expr_of node.now.value) (written calls (writing_of writing)) ≡ move_run calls m) }
    ensures less { IfOk result (LeavesLess 12) }
{
    match &**node {
        Expr::Variable(name) => {
            let root = Root::Variable(name.text.copy()?);
            Ok(Move::Then(0, Focus::Written(writing, root, Vec::new(alloc))))
        }
        _ => match base_of(node) {
            Some(base) => begin_path(alloc, writing, base, node),
            None => Ok(nowhere()),
        },
    }
}

/// What a path begins with.
fn base_of(node: &Expr) -> Option<&Arc<Expr>>
    ensures { base_of (expr_of node.now) ≡ option_map (λ base. expr_of base.now.value) result }
{
    match node {
        Expr::Path { base, .. } => Some(base),
        _ => None,
    }
}

/// The place of a write begins that is a path with this base.
fn begin_path(alloc: Global, writing: Writing, base: &Arc<Expr>, node: &Arc<Expr>) -> Mem<Move>
    ensures same { IfOk result (λ m. (calls : Calls) (at : ℕ)
        → place calls (path at (expr_of base.now.value) (links_in (expr_of node.now.value) 0)) (written calls (writing_of writing)) ≡ move_run calls m) }
    ensures less { IfOk result (LeavesLess 12) }
{
    match &**base {
        Expr::Variable(name) => {
            let root = Root::Variable(name.text.copy()?);
            let node = again(node)?;
            Ok(Move::Then(0, Focus::Place(writing, root, Vec::new(alloc), node, 0)))
        }
        Expr::This { .. } => begin_own(alloc, writing, node),
        _ => Ok(nowhere()),
    }
}

/// The place of a write begins that is a path of the object itself.
fn begin_own(alloc: Global, writing: Writing, node: &Arc<Expr>) -> Mem<Move>
    ensures same { IfOk result (λ m. (calls : Calls) (at own_at : ℕ)
        → place calls (path at (this own_at) (links_in (expr_of node.now.value) 0)) (written calls (writing_of writing)) ≡ move_run calls m) }
    ensures less { IfOk result (LeavesLess 12) }
{
    match link_at(node, 0) {
        Some(Link::Field(name)) => {
            let root = Root::Own(name.text.copy()?);
            let node = again(node)?;
            Ok(Move::Then(0, Focus::Place(writing, root, Vec::new(alloc), node, 1)))
        }
        Some(Link::Index { .. }) | Some(Link::Call { .. }) | None => Ok(nowhere()),
    }
}

/// The rest of the place of a write from that link on, whose indexes are evaluated, and then the write.
pub fn place(
    alloc: Global,
    writing: Writing,
    root: Root,
    steps: Vec<Step>,
    node: Arc<Expr>,
    place: usize,
) -> Mem<Move>
    ensures same { IfOk result (λ m. (calls : Calls)
        → to_place calls (root_of root) (steps_in steps.items) (links_in (expr_of node.value) place)
        (written calls (writing_of writing) (root_of root)) ≡ move_run calls m) }
    ensures less { IfOk result (LeavesLess 11) }
{
    let mut steps = steps;
    let mut place = place;
    'fields: loop {
        match link_at(&node, place) {
            Some(Link::Field(name)) => {
                add_step(&mut steps, Step::Named(name.text.copy()?))?;
                place += 1;
            }
            Some(Link::Index { index, .. }) => {
                let index = again(index)?;
                let part = PathFrame::PlaceIndex(writing, root, steps, node, place + 1);
                let frame = path_frame(alloc, part)?;
                return Ok(Move::Inside(0, frame, Focus::Value(Await::Absent, index)));
            }
            Some(Link::Call { .. }) => return Ok(nowhere()),
            None => return Ok(Move::Then(0, Focus::Written(writing, root, steps))),
        }
    }
}

/// The write to a place that is found. One that reads the place first reads it now, from these variables and these fields
/// of the object.
pub fn written(
    alloc: Global,
    writing: Writing,
    root: Root,
    steps: Vec<Step>,
    vars: &Vars,
    fields: &Fields,
) -> Mem<Move>
    ensures same { IfOk result (UnfoldsWith (env_of vars.now) fields.now (λ calls. written calls (writing_of writing) (root_of root) (steps_in steps.items))) }
    ensures less { IfOk result (LeavesLess 10) }
{
    match writing {
        Writing::Assigns(value) => assigned(alloc, root, steps, value, vars),
        Writing::Updates(op, right) => update(alloc, root, steps, op, right, vars, fields),
        Writing::Moves(by) => move_by(alloc, root, steps, by, vars, fields),
    }
}

/// `+=` and `-=`: the place is read, and then the right side is evaluated.
#[tactic(auto, using(crate::proofs::Writes::update_reads, crate::proofs::Writes::update_throws))]
fn update(
    alloc: Global,
    root: Root,
    steps: Vec<Step>,
    op: BinOp,
    right: Arc<Expr>,
    vars: &Vars,
    fields: &Fields,
) -> Mem<Move>
    ensures same { IfOk result (UnfoldsWith (env_of vars.now) fields.now
        (λ calls. updated (root_of root) (steps_in steps.items) op (value false calls (expr_of right.value)))) }
    ensures less { IfOk result (LeavesLess 10) }
{
    match place_value(alloc, &root, &steps, vars, fields) {
        Ok(old) => update_from(alloc, root, steps, op, old, right, vars),
        Err(OpFault::Throw(error)) => Ok(Move::Then(0, Focus::Ended(Outcome::Threw(error)))),
        Err(OpFault::NoMemory) => Err(NoMemory),
    }
}

/// The same, whose place has been read.
fn update_from(
    alloc: Global,
    root: Root,
    steps: Vec<Step>,
    op: BinOp,
    old: Value,
    right: Arc<Expr>,
    vars: &Vars,
) -> Mem<Move>
    ensures same { IfOk result (UnfoldsIn (env_of vars.now)
        (λ calls. framed calls (to_update (root_of root) (steps_in steps.items) op (tree_of old)) (value false calls (expr_of right.value)))) }
    ensures less { IfOk result (LeavesLess 10) }
{
    match leaf(&right, vars)? {
        Some(value) => Ok(Move::Then(1, update_on(alloc, root, steps, op, &old, &value)?)),
        None => {
            let frame = path_frame(alloc, PathFrame::Update(root, steps, op, old))?;
            Ok(Move::Inside(0, frame, Focus::Value(Await::Absent, right)))
        }
    }
}

/// `=`: the right side is evaluated.
fn assigned(alloc: Global, root: Root, steps: Vec<Step>, right: Arc<Expr>, vars: &Vars) -> Mem<Move>
    ensures same { IfOk result (UnfoldsIn (env_of vars.now)
        (λ calls. framed calls (to_assign (root_of root) (steps_in steps.items)) (value false calls (expr_of right.value)))) }
    ensures less { IfOk result (LeavesLess 10) }
{
    match leaf(&right, vars)? {
        Some(value) => Ok(Move::Then(1, Focus::Assign(root, steps, value))),
        None => {
            let frame = path_frame(alloc, PathFrame::Assign(root, steps))?;
            Ok(Move::Inside(0, frame, Focus::Value(Await::Absent, right)))
        }
    }
}

/// `++` and `--`: the place is read, and the number that comes next is to be written there.
#[tactic(auto, using(crate::proofs::Writes::move_writes, crate::proofs::Writes::move_throws))]
fn move_by(
    alloc: Global,
    root: Root,
    steps: Vec<Step>,
    by: i64,
    vars: &Vars,
    fields: &Fields,
) -> Mem<Move>
    ensures same { IfOk result (UnfoldsWith (env_of vars.now) fields.now (λ calls. moved_by by (root_of root) (steps_in steps.items))) }
    ensures less { IfOk result (LeavesLess 10) }
{
    match next_number(alloc, &root, &steps, by, vars, fields) {
        Ok(new) => Ok(Move::Then(0, Focus::Assign(root, steps, new))),
        Err(OpFault::Throw(error)) => Ok(Move::Then(0, Focus::Ended(Outcome::Threw(error)))),
        Err(OpFault::NoMemory) => Err(NoMemory),
    }
}

/// The number that a place has, with so much added.
fn next_number(
    alloc: Global,
    root: &Root,
    steps: &[Step],
    by: i64,
    vars: &Vars,
    fields: &Fields,
) -> Result<Value, OpFault>
    ensures { Answers (place_in (env_of vars.now) fields.now (root_of root.now) (steps_in steps.now) then moved by) result }
{
    let old = place_value(alloc, root, steps, vars, fields)?;
    moved(alloc, &old, by)
}

/// The value of a place as it stands. A name that stands for no value throws `undefined`.
fn place_value(
    alloc: Global,
    root: &Root,
    steps: &[Step],
    vars: &Vars,
    fields: &Fields,
) -> Result<Value, OpFault>
    ensures { Answers (place_in (env_of vars.now) fields.now (root_of root.now) (steps_in steps.now)) result }
{
    match root {
        Root::Variable(name) => variable_value(alloc, name.as_str(), steps, vars),
        Root::Own(name) => own_value(alloc, name.as_str(), steps, fields),
    }
}

/// The same of a place that begins with a variable.
fn variable_value(alloc: Global, name: &str, steps: &[Step], vars: &Vars) -> Result<Value, OpFault>
    ensures { Answers (or_nowhere (value_of (bound name.now (env_of vars.now))) then part_at (steps_in steps.now)) result }
{
    match vars.get(name) {
        Some(Bound::Value(value)) => part_at(alloc, value, steps),
        _ => Err(OpFault::Throw(Value::Undefined)),
    }
}

/// The same of a place that begins with a field of the object itself.
fn own_value(alloc: Global, name: &str, steps: &[Step], fields: &Fields) -> Result<Value, OpFault>
    ensures { Answers (part_at (steps_in steps.now) (or_undefined (value_at name.now fields.now))) result }
{
    match fields.get(name) {
        Some(value) => part_at(alloc, value, steps),
        None => part_at(alloc, &Value::Undefined, steps),
    }
}
