//! Paths from the object itself on.
ghost use Rattle.std.specs.Prelude.{◌≡◌, ◌+◌, ◌*◌, ◌^◌, ◌<◌, false, codes, IfOk};
ghost use Rattle.std.specs.Str.{bytes_eq};
ghost use Rattle.do_tree.specs.Nodes.{links_in as list_in};
ghost use Rattle.do_tree.specs.Seen.{expr_of};
ghost use Rattle.do_value.specs.Keyed.{value_at};
ghost use Rattle.do_value.specs.Seen.{tree_of};
ghost use Rattle.script_mean.specs.Meaning.{links};
ghost use Rattle.script_mean.specs.Paths.{itself, parts_of_itself, parts_of_own, pushes};
ghost use Rattle.script_mean.specs.Places.{or_undefined};
ghost use Rattle.script_paths.specs.Ahead.{links_seen};
ghost use Rattle.script_paths.specs.Onward.{field_on, goes_on, itself_on, itself_parts_on};
ghost use Rattle.script_paths.specs.Reading.{UnfoldsOn};
ghost use Rattle.script_steps.specs.Parts.{links_in};
ghost use Rattle.script_steps.specs.Paths.{is_present};
ghost use Rattle.script_steps.specs.Weight.{LeavesLess};

use crate::counts::pushes;
use crate::link::{Ahead, ahead_at, links_after};
use crate::values::from_value;
use crate::walked::{call_from, nowhere};
use do_tree::Expr;
use do_value::{Fields, Mem, Text, Value};
use script_steps::{Await, Callee, Focus, Move, Point, Root};
use std::alloc::Global;
use std::sync::Arc;

/// A path from the object itself on: its helpers, its context, its environment and its fields.
pub(crate) fn from_itself(
    alloc: Global,
    awaited: Await,
    node: Arc<Expr>,
    place: usize,
    fields: &Fields,
) -> Mem<Move>
    ensures same { IfOk result (UnfoldsOn fields.now (λ calls. links (is_present awaited) calls itself (links_in (expr_of node.value) place))) }
    ensures less { IfOk result (LeavesLess (20 + 10 * parts_of_itself (links_in (expr_of node.value) place))) }
{
    let ahead = ahead_at(&node, place)?;
    itself_goes_on(alloc, awaited, ahead, node, place, fields)
}

/// The same, by what is next.
fn itself_goes_on(
    alloc: Global,
    awaited: Await,
    ahead: Ahead,
    node: Arc<Expr>,
    place: usize,
    fields: &Fields,
) -> Mem<Move>
    requires { place + links_seen ahead < 2 ^ 64 }
    ensures same { IfOk result (UnfoldsOn fields.now
        (λ calls. goes_on (itself_on (is_present awaited) calls) ahead (expr_of node.value) place)) }
    ensures less { IfOk result (LeavesLess (20 + 10 * goes_on itself_parts_on ahead (expr_of node.value) place)) }
{
    match ahead {
        Ahead::Field(name) => from_field(alloc, awaited, name, node, place + 1, fields),
        Ahead::Method(name) => {
            let callee = Callee::Object(awaited, name);
            call_from(alloc, awaited, callee, node, place + 1, 0)
        }
        _ => Ok(nowhere()),
    }
}

/// A path from a field of the object itself on, which isn't called.
fn from_field(
    alloc: Global,
    awaited: Await,
    name: Text,
    node: Arc<Expr>,
    next: usize,
    fields: &Fields,
) -> Mem<Move>
    ensures same { IfOk result (UnfoldsOn fields.now (λ calls. field_on (is_present awaited) calls name (links_in (expr_of node.value) next))) }
    ensures less { IfOk result (LeavesLess (20 + 10 * parts_of_own name (links_in (expr_of node.value) next))) }
{
    if "ctx" == name.as_str() {
        return Ok(Move::Then(0, Focus::Walk(awaited, Point::Context, node, next)));
    }
    if "env" == name.as_str() {
        return Ok(Move::Then(0, Focus::Walk(awaited, Point::Environment, node, next)));
    }
    from_own(alloc, awaited, name, node, next, fields)
}

/// A path from a field of the object's own on.
fn from_own(
    alloc: Global,
    awaited: Await,
    name: Text,
    node: Arc<Expr>,
    next: usize,
    fields: &Fields,
) -> Mem<Move>
    requires not_context { bytes_eq (codes "ctx") name ≡ false }
    requires not_environment { bytes_eq (codes "env") name ≡ false }
    ensures same { IfOk result (UnfoldsOn fields.now (λ calls. field_on (is_present awaited) calls name (links_in (expr_of node.value) next))) }
    ensures less { IfOk result (LeavesLess (20 + 10 * parts_of_own name (links_in (expr_of node.value) next))) }
{
    if pushes_at(&node, next) {
        return Ok(Move::Then(0, Focus::Push(Root::Own(name), Vec::new(alloc), node, next)));
    }
    let value = own_value(name.as_str(), fields)?;
    from_value(alloc, awaited, value, node, next)
}

/// Whether the first call of a path from that place on is one of `push`.
fn pushes_at(node: &Arc<Expr>, place: usize) -> bool
    ensures { result ≡ pushes (links_in (expr_of node.now.value) place) }
{
    pushes(links_after(node, place))
}

/// The value of a field of the object, shared; `undefined` where there is none.
fn own_value(name: &str, fields: &Fields) -> Mem<Value>
    ensures { IfOk result (λ value. tree_of value ≡ or_undefined (value_at name.now fields.now)) }
{
    match fields.get(name) {
        Some(value) => value.copy(),
        None => Ok(Value::Undefined),
    }
}
