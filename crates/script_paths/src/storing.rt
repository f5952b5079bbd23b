//! Paths from the object's context, its storage and a transaction's handle on.
ghost use Rattle.std.specs.Prelude.{◌≡◌, ◌+◌, ◌*◌, ◌^◌, ◌<◌, IfOk};
ghost use Rattle.do_tree.specs.Seen.{expr_of};
ghost use Rattle.script_mean.specs.Calls.{Calls};
ghost use Rattle.script_mean.specs.Meaning.{blocked, links, stored};
ghost use Rattle.script_mean.specs.Paths.{context, handle, parts, parts_behind_call, storage};
ghost use Rattle.script_paths.specs.Ahead.{links_seen};
ghost use Rattle.script_paths.specs.Onward.{called_parts_on, calling, context_on, goes_on, handle_on, storage_on};
ghost use Rattle.script_steps.specs.Parts.{args_in, links_in};
ghost use Rattle.script_steps.specs.Paths.{is_present};
ghost use Rattle.script_steps.specs.Seen.{move_run};
ghost use Rattle.script_steps.specs.Weight.{LeavesLess};

use crate::argument::callback_at;
use crate::link::{Ahead, ahead_at};
use crate::walked::{call_from, nowhere};
use do_tree::Expr;
use do_value::{Mem, Text};
use script_steps::{Await, Callee, Focus, Move, Point};
use std::alloc::Global;
use std::sync::Arc;

/// A path from the context on: a block, or the storage.
pub(crate) fn from_context(
    alloc: Global,
    awaited: Await,
    node: Arc<Expr>,
    place: usize,
) -> Mem<Move>
    ensures same { IfOk result (λ m. (calls : Calls)
        → links (is_present awaited) calls context (links_in (expr_of node.value) place) ≡ move_run calls m) }
    ensures less { IfOk result (LeavesLess (21 + 10 * parts_behind_call (links_in (expr_of node.value) place))) }
{
    let ahead = ahead_at(&node, place)?;
    context_goes_on(alloc, awaited, ahead, node, place)
}

/// The same, by what is next.
fn context_goes_on(
    alloc: Global,
    awaited: Await,
    ahead: Ahead,
    node: Arc<Expr>,
    place: usize,
) -> Mem<Move>
    requires { place + links_seen ahead < 2 ^ 64 }
    ensures same { IfOk result (λ m. (calls : Calls)
        → goes_on (context_on (is_present awaited) calls) ahead (expr_of node.value) place ≡ move_run calls m) }
    ensures less { IfOk result (LeavesLess (21 + 10 * goes_on called_parts_on ahead (expr_of node.value) place)) }
{
    match ahead {
        Ahead::Field(_) => Ok(Move::Then(0, Focus::Walk(awaited, Point::Storage, node, place + 1))),
        Ahead::Method(_) => block_at(alloc, awaited, node, place + 1),
        _ => Ok(nowhere()),
    }
}

/// The block that is called at that link, and then the path from its value on.
fn block_at(alloc: Global, awaited: Await, node: Arc<Expr>, link: usize) -> Mem<Move>
    requires { link + 1 < 2 ^ 64 }
    ensures same { IfOk result (λ m. (calls : Calls)
        → calling (is_present awaited) calls (links_in (expr_of node.value) (link + 1))
        (blocked (is_present awaited) calls (args_in (expr_of node.value) link 0)) ≡ move_run calls m) }
    ensures less { IfOk result (LeavesLess (20 + 10 * parts (links_in (expr_of node.value) (link + 1)))) }
{
    match callback_at(&node, link)? {
        Some(callback) => {
            let callee = Callee::Block(awaited, callback);
            call_from(alloc, awaited, callee, node, link, 1)
        }
        None => Ok(nowhere()),
    }
}

/// A path from the storage on: its calls.
pub(crate) fn from_storage(
    alloc: Global,
    awaited: Await,
    node: Arc<Expr>,
    place: usize,
) -> Mem<Move>
    ensures same { IfOk result (λ m. (calls : Calls)
        → links (is_present awaited) calls storage (links_in (expr_of node.value) place) ≡ move_run calls m) }
    ensures less { IfOk result (LeavesLess (20 + 10 * parts_behind_call (links_in (expr_of node.value) place))) }
{
    let ahead = ahead_at(&node, place)?;
    storage_goes_on(alloc, awaited, ahead, node, place)
}

/// The same, by what is next.
fn storage_goes_on(
    alloc: Global,
    awaited: Await,
    ahead: Ahead,
    node: Arc<Expr>,
    place: usize,
) -> Mem<Move>
    requires { place + links_seen ahead < 2 ^ 64 }
    ensures same { IfOk result (λ m. (calls : Calls)
        → goes_on (storage_on (is_present awaited) calls) ahead (expr_of node.value) place ≡ move_run calls m) }
    ensures less { IfOk result (LeavesLess (20 + 10 * goes_on called_parts_on ahead (expr_of node.value) place)) }
{
    match ahead {
        Ahead::Method(name) => store_at(alloc, awaited, name, node, place + 1),
        _ => Ok(nowhere()),
    }
}

/// The call of the storage at that link, and then the path from its value on.
fn store_at(alloc: Global, awaited: Await, name: Text, node: Arc<Expr>, link: usize) -> Mem<Move>
    requires { link + 1 < 2 ^ 64 }
    ensures same { IfOk result (λ m. (calls : Calls)
        → calling (is_present awaited) calls (links_in (expr_of node.value) (link + 1))
        (stored (is_present awaited) calls name (args_in (expr_of node.value) link 0)) ≡ move_run calls m) }
    ensures less { IfOk result (LeavesLess (20 + 10 * parts (links_in (expr_of node.value) (link + 1)))) }
{
    match callback_at(&node, link)? {
        Some(callback) => {
            let callee = Callee::Transaction(callback);
            call_from(alloc, awaited, callee, node, link, 1)
        }
        None => {
            let callee = Callee::Storage(awaited, name);
            call_from(alloc, awaited, callee, node, link, 0)
        }
    }
}

/// A path from a transaction's handle on: its calls.
pub(crate) fn from_handle(alloc: Global, awaited: Await, node: Arc<Expr>, place: usize) -> Mem<Move>
    ensures same { IfOk result (λ m. (calls : Calls)
        → links (is_present awaited) calls handle (links_in (expr_of node.value) place) ≡ move_run calls m) }
    ensures less { IfOk result (LeavesLess (20 + 10 * parts_behind_call (links_in (expr_of node.value) place))) }
{
    let ahead = ahead_at(&node, place)?;
    handle_goes_on(alloc, awaited, ahead, node, place)
}

/// The same, by what is next.
fn handle_goes_on(
    alloc: Global,
    awaited: Await,
    ahead: Ahead,
    node: Arc<Expr>,
    place: usize,
) -> Mem<Move>
    requires { place + links_seen ahead < 2 ^ 64 }
    ensures same { IfOk result (λ m. (calls : Calls)
        → goes_on (handle_on (is_present awaited) calls) ahead (expr_of node.value) place ≡ move_run calls m) }
    ensures less { IfOk result (LeavesLess (20 + 10 * goes_on called_parts_on ahead (expr_of node.value) place)) }
{
    match ahead {
        Ahead::Method(name) => {
            let callee = Callee::Handle(awaited, name);
            call_from(alloc, awaited, callee, node, place + 1, 0)
        }
        _ => Ok(nowhere()),
    }
}
