//! How an expression begins, paths included.
ghost use Rattle.std.specs.Prelude.{◌≡◌, List, ℕ, Some, false, IfOk};
ghost use Rattle.do_tree.specs.Nodes.{links_in as list_in};
ghost use Rattle.do_tree.specs.Seen.{expr_of};
ghost use Rattle.script_mean.specs.Calls.{Calls};
ghost use Rattle.script_mean.specs.Meaning.{value};
ghost use Rattle.script_mean.specs.Paths.{begun_by};
ghost use Rattle.script_mean.specs.Turn.{bound};
ghost use Rattle.script_paths.specs.Onward.{is_path, named_path, path_value, point_path, push_path, value_path};
ghost use Rattle.script_paths.specs.Reading.{UnfoldsIn};
ghost use Rattle.script_steps.specs.Parts.{IsBare, links_of};
ghost use Rattle.script_steps.specs.Paths.{is_present, point_of};
ghost use Rattle.script_steps.specs.Seen.{move_run};
ghost use Rattle.script_steps.specs.Weight.{LeavesLess};
ghost use Rattle.script_vars.specs.Seen.{bound_of, env_of};

use crate::counts::{parts_from, parts_of_push, parts_of_value, pushes};
use crate::leaf::begin_chain;
use do_tree::{Expr, Link};
use do_value::{Mem, Text};
use script_steps::{
    Await, Focus, Move, PathFrame, Point, Root, again, bare, begin_value, path_frame,
};
use script_vars::{Bound, Vars};
use std::alloc::Global;
use std::sync::Arc;

/// How an expression begins, with these variables.
pub fn begin(alloc: Global, awaited: Await, expr: Arc<Expr>, vars: &Vars) -> Mem<Move>
    ensures same { IfOk result (UnfoldsIn (env_of vars.now) (λ calls. value (is_present awaited) calls (expr_of expr.value))) }
    ensures less { IfOk result (LeavesLess 2) }
{
    let (awaited, expr) = bare(awaited, expr)?;
    begin_bare(alloc, awaited, expr, vars)
}

/// The same where the expression has something of its own.
#[tactic(auto, using(crate::proofs::Links::path_links, script_steps::proofs::Parts::strict_operands))]
fn begin_bare(alloc: Global, awaited: Await, expr: Arc<Expr>, vars: &Vars) -> Mem<Move>
    requires { IsBare (expr_of expr.value) }
    ensures same { IfOk result (UnfoldsIn (env_of vars.now) (λ calls. value (is_present awaited) calls (expr_of expr.value))) }
    ensures less { IfOk result (LeavesLess 2) }
{
    match &*expr {
        Expr::Path { base, links, .. } => begin_path(alloc, awaited, &expr, base, links, vars),
        Expr::Strict { first, rest, .. } => begin_chain(alloc, &expr, first, rest, vars),
        _ => begin_plain(alloc, awaited, &expr),
    }
}

/// The same where it is no path.
fn begin_plain(alloc: Global, awaited: Await, expr: &Arc<Expr>) -> Mem<Move>
    requires plain { is_path (expr_of expr.now.value) ≡ false }
    requires bare { IsBare (expr_of expr.now.value) }
    ensures same { IfOk result (λ m. (calls : Calls) → value (is_present awaited) calls (expr_of expr.now.value) ≡ move_run calls m) }
    ensures less { IfOk result (LeavesLess 2) }
{
    begin_value(alloc, awaited, expr)
}

/// How a path begins that has this base and these links.
fn begin_path(
    alloc: Global,
    awaited: Await,
    node: &Arc<Expr>,
    base: &Arc<Expr>,
    links: &[Link],
    vars: &Vars,
) -> Mem<Move>
    requires { links_of (expr_of node.now.value) ≡ list_in links.now }
    ensures same { IfOk result (UnfoldsIn (env_of vars.now) (λ calls. path_value (is_present awaited) calls (expr_of base.now.value) (list_in links.now))) }
    ensures less { IfOk result (LeavesLess 2) }
{
    match &**base {
        Expr::This { .. } => begin_at(awaited, node, Point::Itself, links),
        Expr::Variable(name) => begin_named(alloc, awaited, node, &name.text, links, vars),
        _ => begin_value_path(alloc, awaited, node, base, links),
    }
}

/// How a path begins that another expression begins.
fn begin_value_path(
    alloc: Global,
    awaited: Await,
    node: &Arc<Expr>,
    base: &Arc<Expr>,
    links: &[Link],
) -> Mem<Move>
    requires { links_of (expr_of node.now.value) ≡ list_in links.now }
    ensures same { IfOk result (λ m. (calls : Calls) → value_path (is_present awaited) calls (expr_of base.now.value) (list_in links.now) ≡ move_run calls m) }
    ensures less { IfOk result (LeavesLess 2) }
{
    let node = again(node)?;
    let base = again(base)?;
    let cost = parts_of_value(links);
    let frame = path_frame(alloc, PathFrame::Walk(awaited, node, 0))?;
    Ok(Move::Inside(cost, frame, Focus::Value(Await::Absent, base)))
}

/// How a path begins that a name begins: with a push to a place, or with what the name stands for.
fn begin_named(
    alloc: Global,
    awaited: Await,
    node: &Arc<Expr>,
    name: &Text,
    links: &[Link],
    vars: &Vars,
) -> Mem<Move>
    requires { links_of (expr_of node.now.value) ≡ list_in links.now }
    ensures same { IfOk result (UnfoldsIn (env_of vars.now) (λ calls. named_path (is_present awaited) calls name.now (list_in links.now))) }
    ensures less { IfOk result (LeavesLess 2) }
{
    if pushes(links) {
        return begin_push(alloc, node, name, links);
    }
    let point = point_named(name, vars)?;
    begin_at(awaited, node, point, links)
}

/// What a path begins with that this name begins. A name that isn't in sight is a word of the language.
fn point_named(name: &Text, vars: &Vars) -> Mem<Point>
    ensures { IfOk result (λ point. begun_by name.now (bound name.now (env_of vars.now)) ≡ point_of point) }
{
    match vars.get(name.as_str()) {
        Some(bound) => point_standing(bound),
        None => Ok(Point::Word(name.copy()?)),
    }
}

/// What a path begins with whose name stands for this. A value is shared.
fn point_standing(bound: &Bound) -> Mem<Point>
    ensures { IfOk result (λ point. (name : List ℕ) → begun_by name (Some (bound_of bound.now)) ≡ point_of point) }
{
    match bound {
        Bound::Value(value) => Ok(Point::Holds(value.copy()?)),
        Bound::Handle => Ok(Point::Handle),
        Bound::Context => Ok(Point::Context),
        Bound::Environment => Ok(Point::Environment),
    }
}

/// How a push to a place begins that this name begins.
fn begin_push(alloc: Global, node: &Arc<Expr>, name: &Text, links: &[Link]) -> Mem<Move>
    requires { links_of (expr_of node.now.value) ≡ list_in links.now }
    ensures same { IfOk result (λ m. (calls : Calls) → push_path calls name.now (list_in links.now) ≡ move_run calls m) }
    ensures less { IfOk result (LeavesLess 2) }
{
    let node = again(node)?;
    let name = name.copy()?;
    let cost = parts_of_push(links);
    let focus = Focus::Push(Root::Variable(name), Vec::new(alloc), node, 0);
    Ok(Move::Then(cost, focus))
}

/// How a path begins from this point on.
fn begin_at(awaited: Await, node: &Arc<Expr>, point: Point, links: &[Link]) -> Mem<Move>
    requires { links_of (expr_of node.now.value) ≡ list_in links.now }
    ensures same { IfOk result (λ m. (calls : Calls) → point_path (is_present awaited) calls (point_of point) (list_in links.now) ≡ move_run calls m) }
    ensures less { IfOk result (LeavesLess 2) }
{
    let node = again(node)?;
    let cost = parts_from(&point, links);
    Ok(Move::Then(cost, Focus::Walk(awaited, point, node, 0)))
}
