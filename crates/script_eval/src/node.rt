//! The parts of statements that blocks are entered for.
ghost use Rattle.std.specs.Prelude.{◌≡◌, IfOk};
ghost use Rattle.do_tree.specs.Nodes.{block_in, simple_of};
ghost use Rattle.do_tree.specs.Seen.{expr_of, stmt_of};
ghost use Rattle.do_tree.specs.Tree.{run, undefined};
ghost use Rattle.script_steps.specs.Parts.{body_in, handler_in, step_in, test_in};

use do_tree::{Block, Expr, Simple, Stmt, Write};
use do_value::{Mem, NoMemory};
use std::alloc::Global;
use std::sync::Arc;

/// The same node again.
pub(crate) fn again<T: Drop>(node: &Arc<T>) -> Mem<Arc<T>>
    ensures { IfOk result (λ again. again.value ≡ node.now.value) }
{
    match node.clone() {
        Ok(again) => Ok(again),
        Err(_) => Err(NoMemory),
    }
}

/// A node of its own.
fn node<T: Drop>(alloc: Global, value: T) -> Mem<Arc<T>>
    ensures { IfOk result (λ node. node.value ≡ value) }
{
    match Arc::new(alloc, value) {
        Ok(node) => Ok(node),
        Err(_) => Err(NoMemory),
    }
}

/// The test of a counting loop. Another statement has `undefined` for one, and so no turn.
pub(crate) fn test_of(alloc: Global, stmt: &Stmt) -> Mem<Arc<Expr>>
    ensures { IfOk result (λ test. expr_of test.value ≡ test_in (stmt_of stmt.now)) }
{
    match stmt {
        Stmt::For { test, .. } => again(test),
        _ => node(alloc, Expr::Undefined { at: 0 }),
    }
}

/// The step of a counting loop. Another statement has `undefined` for one.
pub(crate) fn step_of(alloc: Global, stmt: &Stmt) -> Mem<Arc<Simple>>
    ensures { IfOk result (λ step. simple_of step.value ≡ step_in (stmt_of stmt.now)) }
{
    match stmt {
        Stmt::For { step, .. } => again(step),
        _ => no_step(alloc),
    }
}

/// A step that gives `undefined`.
fn no_step(alloc: Global) -> Mem<Arc<Simple>>
    ensures { IfOk result (λ step. simple_of step.value ≡ run 0 (undefined 0)) }
{
    let place = node(alloc, Expr::Undefined { at: 0 })?;
    let write = Write::Nothing;
    node(
        alloc,
        Simple {
            at: 0,
            place,
            write,
        },
    )
}

/// The body of a loop. Another statement has `break` for one.
pub(crate) fn body_of(alloc: Global, stmt: &Stmt) -> Mem<Arc<Stmt>>
    ensures { IfOk result (λ body. stmt_of body.value ≡ body_in (stmt_of stmt.now)) }
{
    match stmt {
        Stmt::For { body, .. } => again(body),
        Stmt::ForOf { body, .. } => again(body),
        _ => node(alloc, Stmt::Break { at: 0 }),
    }
}

/// The handler of a `try`. Another statement has none, and so nothing is run.
#[tactic(auto, using(crate::proofs::Nodes::try_handler))]
pub(crate) fn handler_of(alloc: Global, stmt: &Stmt) -> Mem<Arc<Block>>
    ensures { IfOk result (λ block. block_in block.value ≡ handler_in (stmt_of stmt.now)) }
{
    match stmt {
        Stmt::Try { handler, .. } => again(handler),
        _ => node(
            alloc,
            Block {
                at: 0,
                items: Vec::new(alloc),
            },
        ),
    }
}
