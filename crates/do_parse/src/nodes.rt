//! Nodes of statements and of callbacks, in memory of their own.
ghost use Rattle.std.specs.Prelude.{◌≡◌};
ghost use Rattle.do_parse.specs.Lists.{args_from};
ghost use Rattle.do_parse.specs.Pieces.{simple_from};
ghost use Rattle.do_parse.specs.Then.{IsMade};
ghost use Rattle.do_parse.specs.Trees.{arg_of, block_at, expr_at, head_of, items_at, simple_at, stmt_at, written_of};
ghost use Rattle.do_parse.specs.Lists as lists;
ghost use Rattle.do_tree.specs.Tree as tree;
ghost use Rattle.do_tree.specs.Seen.{named_of, option_named_of, stmt_of};

use crate::stop::Stop;
use crate::unary::CallbackHead;
use do_tree::{Arg, Block, Callback, Expr, Item, Name, Simple, Stmt, Write};
use std::alloc::Global;
use std::sync::Arc;

/// A statement, to be shared.
pub(crate) fn share_stmt(alloc: Global, stmt: Stmt) -> Result<Arc<Stmt>, Stop>
    ensures { IsMade stmt_at (stmt_of stmt) result }
{
    match Arc::new(alloc, stmt) {
        Ok(shared) => Ok(shared),
        Err(_) => Err(Stop::NoMemory),
    }
}

/// A block.
pub(crate) fn share_block(alloc: Global, at: u32, items: Vec<Item>) -> Result<Arc<Block>, Stop>
    ensures { IsMade block_at (record { at = at; items = lists.items_from (items_at items.items) }) result }
{
    match Arc::new(alloc, Block { at, items }) {
        Ok(shared) => Ok(shared),
        Err(_) => Err(Stop::NoMemory),
    }
}

/// A block as a statement.
pub(crate) fn block_of(alloc: Global, block: Arc<Block>) -> Result<Arc<Stmt>, Stop>
    ensures { IsMade stmt_at (tree.block (block_at block).at (block_at block).items) result }
{
    share_stmt(alloc, Stmt::Block(block))
}

/// An expression that is run, or a write to a place.
pub(crate) fn share_simple(
    alloc: Global,
    at: u32,
    place: Arc<Expr>,
    write: Write,
) -> Result<Arc<Simple>, Stop>
    ensures { IsMade simple_at (simple_from (written_of write) at (expr_at place)) result }
{
    match Arc::new(alloc, Simple { at, place, write }) {
        Ok(shared) => Ok(shared),
        Err(_) => Err(Stop::NoMemory),
    }
}

/// The same as a statement.
pub(crate) fn simple_of(alloc: Global, simple: Arc<Simple>) -> Result<Arc<Stmt>, Stop>
    ensures { IsMade stmt_at (tree.simple (simple_at simple)) result }
{
    share_stmt(alloc, Stmt::Simple(simple))
}

/// A loop over steps.
pub(crate) fn for_of_steps(
    alloc: Global,
    at: u32,
    name: Name,
    first: Arc<Expr>,
    test: Arc<Expr>,
    step: Arc<Simple>,
    body: Arc<Stmt>,
) -> Result<Arc<Stmt>, Stop>
    ensures { IsMade stmt_at (tree.for at (named_of name) (expr_at first) (expr_at test) (simple_at step) (stmt_at body)) result }
{
    share_stmt(
        alloc,
        Stmt::For {
            at,
            name,
            first,
            test,
            step,
            body,
        },
    )
}

/// A callback as an argument.
pub(crate) fn callback_of(alloc: Global, head: CallbackHead, body: Arc<Block>) -> Result<Arg, Stop>
    ensures { IsMade arg_of (lists.callback head.at (option_named_of head.parameter) (block_at body).items) result }
{
    let CallbackHead { at, parameter } = head;
    match Arc::new(
        alloc,
        Callback {
            at,
            parameter,
            body,
        },
    ) {
        Ok(callback) => Ok(Arg::Callback(callback)),
        Err(_) => Err(Stop::NoMemory),
    }
}
