//! Paths from the environment and from its classes on.
ghost use Rattle.std.specs.Prelude.{◌≡◌, ◌+◌, ◌*◌, ◌^◌, ◌<◌, List, IfOk, Some};
ghost use Rattle.do_tree.specs.Nodes.{links_in as list_in};
ghost use Rattle.do_tree.specs.Seen.{expr_of};
ghost use Rattle.do_value.specs.Tree.{Tree};
ghost use Rattle.script_mean.specs.Calls.{Calls};
ghost use Rattle.script_mean.specs.Meaning.{identified, links};
ghost use Rattle.script_mean.specs.Paths.{environment, of_class, parts_behind_call, parts_behind_two_calls};
ghost use Rattle.script_mean.specs.Turn.{Run};
ghost use Rattle.script_paths.specs.Ahead.{first_value, links_seen};
ghost use Rattle.script_paths.specs.Onward.{class_on, class_parts_on, environment_on, first_call, goes_on, named_by, opened_by, opened_parts_on};
ghost use Rattle.script_steps.specs.Parts.{args_in, links_in};
ghost use Rattle.script_steps.specs.Paths.{is_present};
ghost use Rattle.script_steps.specs.Seen.{move_run};
ghost use Rattle.script_steps.specs.Weight.{LeavesLess};

use crate::argument::value_at;
use crate::link::{Ahead, ahead_at, links_after};
use crate::walked::nowhere;
use do_tree::{Expr, Link};
use do_value::{Mem, Text};
use script_steps::{Await, Callee, Focus, Move, Point};
use std::alloc::Global;
use std::sync::Arc;

/// A path from the environment on: its classes.
pub(crate) fn from_environment(awaited: Await, node: Arc<Expr>, place: usize) -> Mem<Move>
    ensures same { IfOk result (λ m. (calls : Calls)
        → links (is_present awaited) calls environment (links_in (expr_of node.value) place) ≡ move_run calls m) }
    ensures less { IfOk result (LeavesLess (25 + 10 * parts_behind_two_calls (links_in (expr_of node.value) place))) }
{
    let ahead = ahead_at(&node, place)?;
    Ok(environment_goes_on(awaited, ahead, node, place))
}

/// The same, by what is next.
fn environment_goes_on(awaited: Await, ahead: Ahead, node: Arc<Expr>, place: usize) -> Move
    requires { place + links_seen ahead < 2 ^ 64 }
    ensures same { (calls : Calls)
        → goes_on (environment_on (is_present awaited) calls) ahead (expr_of node.value) place ≡ move_run calls result }
    ensures less { LeavesLess (25 + 10 * goes_on class_parts_on ahead (expr_of node.value) place) result }
{
    match ahead {
        Ahead::Field(name) => Move::Then(
            0,
            Focus::Walk(awaited, Point::Class(name), node, place + 1),
        ),
        Ahead::Method(name) => Move::Then(
            0,
            Focus::Walk(awaited, Point::Class(name), node, place + 1),
        ),
        _ => nowhere(),
    }
}

/// A path from a class on: an identifier, an object of the class, and the call of a method of it.
pub(crate) fn from_class(
    alloc: Global,
    awaited: Await,
    class: Text,
    node: Arc<Expr>,
    place: usize,
) -> Mem<Move>
    ensures same { IfOk result (λ m. (calls : Calls)
        → links (is_present awaited) calls (of_class class) (links_in (expr_of node.value) place) ≡ move_run calls m) }
    ensures less { IfOk result (LeavesLess (24 + 10 * parts_behind_two_calls (links_in (expr_of node.value) place))) }
{
    let ahead = ahead_at(&node, place)?;
    class_goes_on(alloc, awaited, class, ahead, node, place)
}

/// The same, by what is next.
fn class_goes_on(
    alloc: Global,
    awaited: Await,
    class: Text,
    ahead: Ahead,
    node: Arc<Expr>,
    place: usize,
) -> Mem<Move>
    requires { place + links_seen ahead < 2 ^ 64 }
    ensures same { IfOk result (λ m. (calls : Calls)
        → goes_on (class_on (is_present awaited) calls class) ahead (expr_of node.value) place ≡ move_run calls m) }
    ensures less { IfOk result (LeavesLess (24 + 10 * goes_on opened_parts_on ahead (expr_of node.value) place)) }
{
    match ahead {
        Ahead::Method(_) => object_at(alloc, awaited, class, node, place + 1),
        _ => Ok(nowhere()),
    }
}

/// An object of this class, by the call at that link, and then the path from it on.
fn object_at(alloc: Global, awaited: Await, class: Text, node: Arc<Expr>, link: usize) -> Mem<Move>
    requires { link + 1 < 2 ^ 64 }
    ensures same { IfOk result (λ m. (calls : Calls)
        → opened_by (is_present awaited) calls class (first_value (args_in (expr_of node.value) link 0))
        (args_in (expr_of node.value) link 0) (links_in (expr_of node.value) (link + 1)) ≡ move_run calls m) }
    ensures less { IfOk result (LeavesLess (24 + 10 * parts_behind_call (links_in (expr_of node.value) (link + 1)))) }
{
    match value_at(&node, link)? {
        Some(name) => Ok(named_at(alloc, awaited, class, name, node, link)),
        None => Ok(nowhere()),
    }
}

/// The same, by the expression that the object is identified by.
fn named_at(
    alloc: Global,
    awaited: Await,
    class: Text,
    name: Arc<Expr>,
    node: Arc<Expr>,
    link: usize,
) -> Move
    requires { link + 1 < 2 ^ 64 }
    ensures same { (calls : Calls)
        → opened_by (is_present awaited) calls class (Some (expr_of name.value))
        (args_in (expr_of node.value) link 0) (links_in (expr_of node.value) (link + 1)) ≡ move_run calls result }
    ensures less { LeavesLess (24 + 10 * parts_behind_call (links_in (expr_of node.value) (link + 1))) result }
{
    match call_in(&name) {
        Some(call) => {
            let callee = Callee::Identifier(awaited, class, node, link, link + 1);
            Move::Then(0, Focus::Arguments(callee, Vec::new(alloc), name, call, 0))
        }
        None => nowhere(),
    }
}

/// The link of a path that is its first call, if only fields stand before it.
fn call_in(node: &Expr) -> Option<usize>
    ensures { (calls : Calls) (call : List Tree → Run) → identified calls (expr_of node.now) call ≡ named_by calls (expr_of node.now) result call }
{
    first_call(links_after(node, 0))
}

/// The place of the first call among the links, if only fields stand before it.
#[tactic(auto, using(crate::proofs::Onward::first_here, crate::proofs::Onward::first_never, crate::proofs::Onward::first_later, crate::proofs::Onward::later_place))]
fn first_call(links: &[Link]) -> Option<usize>
    ensures { result ≡ first_call (list_in links.now) }
{
    let mut place = 0;
    let mut rest = links;
    while let [link, after @ ..] = rest {
        match link {
            Link::Field(_) => {}
            Link::Index { .. } => return None,
            Link::Call { .. } => return Some(place),
        }
        place += 1;
        rest = after;
    }
    None
}
