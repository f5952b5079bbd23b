//! Calls of the environment, whose arguments are there: the identifier of an object, and the object itself.
ghost use Rattle.std.specs.Prelude.{◌≡◌, ◌+◌, ◌*◌, ◌^◌, ◌<◌, IfOk};
ghost use Rattle.do_tree.specs.Seen.{expr_of};
ghost use Rattle.do_value.specs.Seen.{tree_of, trees_in};
ghost use Rattle.script_mean.specs.Calls.{Calls};
ghost use Rattle.script_mean.specs.Frames.{called};
ghost use Rattle.script_mean.specs.Meaning.{first};
ghost use Rattle.script_mean.specs.Paths.{parts_behind_call};
ghost use Rattle.script_paths.specs.Ahead.{links_seen};
ghost use Rattle.script_paths.specs.Onward.{called_parts_on, goes_on, object_on};
ghost use Rattle.script_steps.specs.Parts.{links_in};
ghost use Rattle.script_steps.specs.Paths.{callee_of, is_present};
ghost use Rattle.script_steps.specs.Seen.{move_run};
ghost use Rattle.script_steps.specs.Weight.{LeavesLess, callee_weight};

use crate::link::{Ahead, ahead_at};
use crate::walked::{call_from, nowhere};
use do_tree::Expr;
use do_value::{Mem, NoMemory, Text, Value};
use script_steps::{Await, Callee, Focus, Move, again};
use std::alloc::Global;
use std::sync::Arc;

/// The object of this class whose identifier was made of these arguments, and then the call of its method: the path, the
/// link whose call takes the identifier, and the link that comes next.
pub fn identified(
    alloc: Global,
    awaited: Await,
    class: Text,
    node: Arc<Expr>,
    link: usize,
    next: usize,
    got: Vec<Value>,
) -> Mem<Move>
    ensures same { IfOk result (λ m. (calls : Calls)
        → called calls (callee_of (Callee.Identifier awaited class node link next)) (trees_in got.items) ≡ move_run calls m) }
    ensures less { IfOk result (LeavesLess (14 + callee_weight (Callee.Identifier awaited class node link next))) }
{
    let name = first(&got)?;
    let path = again(&node)?;
    let callee = Callee::Instance(awaited, class, name, path, next);
    Ok(Move::Then(0, Focus::Arguments(callee, Vec::new(alloc), node, link, 1)))
}

/// The first of the values, or `undefined` where there is none.
fn first(values: &[Value]) -> Mem<Value>
    ensures { IfOk result (λ v. tree_of v ≡ first (trees_in values.now)) }
{
    match values.split_first() {
        Some((value, _)) => value.copy(),
        None => Ok(Value::Undefined),
    }
}

/// The call of a method of the object of this class and name: the path, and the link that names the method. The arguments
/// that the object was got with are dropped.
pub fn instance(
    alloc: Global,
    awaited: Await,
    class: Text,
    name: Value,
    node: Arc<Expr>,
    place: usize,
    dropped: Vec<Value>,
) -> Mem<Move>
    ensures same { IfOk result (λ m. (calls : Calls)
        → called calls (callee_of (Callee.Instance awaited class name node place)) (trees_in dropped.items) ≡ move_run calls m) }
    ensures less { IfOk result (LeavesLess (14 + callee_weight (Callee.Instance awaited class name node place))) }
{
    drop(dropped);
    let ahead = ahead_at(&node, place)?;
    object_goes_on(alloc, awaited, class, name, ahead, node, place)
}

/// The same, by what is next.
fn object_goes_on(
    alloc: Global,
    awaited: Await,
    class: Text,
    name: Value,
    ahead: Ahead,
    node: Arc<Expr>,
    place: usize,
) -> Mem<Move>
    requires { place + links_seen ahead < 2 ^ 64 }
    ensures same { IfOk result (λ m. (calls : Calls)
        → goes_on (object_on (is_present awaited) calls class (tree_of name)) ahead (expr_of node.value) place ≡ move_run calls m) }
    ensures less { IfOk result (LeavesLess (20 + 10 * goes_on called_parts_on ahead (expr_of node.value) place)) }
{
    match ahead {
        Ahead::Method(method) => {
            let callee = Callee::Method(class, method, name);
            call_from(alloc, awaited, callee, node, place + 1, 0)
        }
        _ => Ok(nowhere()),
    }
}
