//! Nodes of expressions, in memory of their own.
ghost use Rattle.std.specs.Prelude.{◌≡◌, ◌≢◌, ◌<◌, List, [], length};
ghost use Rattle.do_parse.specs.Lists.{exprs_from, links_from, operands_from, pairs_from};
ghost use Rattle.do_parse.specs.Then.{IsMade};
ghost use Rattle.do_parse.specs.Trees.{expr_at, exprs_at, links_at, operands_at, option_expr_at, pairs_at};
ghost use Rattle.do_tree.specs.Tree as tree;
ghost use Rattle.do_tree.specs.Seen.{expr_of, named_of};

use crate::stop::Stop;
use do_tree::{Chain, Expr, Link, Name, Operand, Pair};
use do_value::{Num, UnOp};
use std::alloc::Global;
use std::sync::Arc;

/// An expression, to be shared.
pub(crate) fn share(alloc: Global, expr: Expr) -> Result<Arc<Expr>, Stop>
    ensures { IsMade expr_at (expr_of expr) result }
{
    match Arc::new(alloc, expr) {
        Ok(shared) => Ok(shared),
        Err(_) => Err(Stop::NoMemory),
    }
}

pub(crate) fn choice(
    alloc: Global,
    at: u32,
    test: Arc<Expr>,
    yes: Arc<Expr>,
    no: Arc<Expr>,
) -> Result<Arc<Expr>, Stop>
    ensures { IsMade expr_at (tree.choice at (expr_at test) (expr_at yes) (expr_at no)) result }
{
    share(alloc, Expr::Choice { at, test, yes, no })
}

pub(crate) fn lazy(
    alloc: Global,
    at: u32,
    chain: Chain,
    first: Arc<Expr>,
    rest: Vec<Arc<Expr>>,
) -> Result<Arc<Expr>, Stop>
    ensures { IsMade expr_at (tree.lazy at chain (expr_at first) (exprs_from (exprs_at rest.items))) result }
{
    share(
        alloc,
        Expr::Lazy {
            at,
            chain,
            first,
            rest,
        },
    )
}

pub(crate) fn strict(
    alloc: Global,
    at: u32,
    first: Arc<Expr>,
    rest: Vec<Operand>,
) -> Result<Arc<Expr>, Stop>
    ensures { IsMade expr_at (tree.strict at (expr_at first) (operands_from (operands_at rest.items))) result }
{
    share(alloc, Expr::Strict { at, first, rest })
}

pub(crate) fn unary(alloc: Global, at: u32, op: UnOp, value: Arc<Expr>) -> Result<Arc<Expr>, Stop>
    ensures { IsMade expr_at (tree.unary at op (expr_at value)) result }
{
    share(alloc, Expr::Unary { at, op, value })
}

pub(crate) fn awaited(alloc: Global, at: u32, value: Arc<Expr>) -> Result<Arc<Expr>, Stop>
    ensures { IsMade expr_at (tree.await at (expr_at value)) result }
{
    share(alloc, Expr::Await { at, value })
}

pub(crate) fn path(
    alloc: Global,
    at: u32,
    base: Arc<Expr>,
    links: Vec<Link>,
) -> Result<Arc<Expr>, Stop>
    ensures { IsMade expr_at (tree.path at (expr_at base) (links_from (links_at links.items))) result }
{
    share(alloc, Expr::Path { at, base, links })
}

pub(crate) fn number(alloc: Global, at: u32, value: Num) -> Result<Arc<Expr>, Stop>
    ensures { IsMade expr_at (tree.number at value) result }
{
    share(alloc, Expr::Number { at, value })
}

pub(crate) fn text(alloc: Global, text: Name) -> Result<Arc<Expr>, Stop>
    ensures { IsMade expr_at (tree.text text.at text.text) result }
{
    share(
        alloc,
        Expr::Text {
            at: text.at,
            value: text.text,
        },
    )
}

pub(crate) fn boolean(alloc: Global, at: u32, value: bool) -> Result<Arc<Expr>, Stop>
    ensures { IsMade expr_at (tree.boolean at value) result }
{
    share(alloc, Expr::Bool { at, value })
}

pub(crate) fn null(alloc: Global, at: u32) -> Result<Arc<Expr>, Stop>
    ensures { IsMade expr_at (tree.null at) result }
{
    share(alloc, Expr::Null { at })
}

pub(crate) fn undefined(alloc: Global, at: u32) -> Result<Arc<Expr>, Stop>
    ensures { IsMade expr_at (tree.undefined at) result }
{
    share(alloc, Expr::Undefined { at })
}

pub(crate) fn this(alloc: Global, at: u32) -> Result<Arc<Expr>, Stop>
    ensures { IsMade expr_at (tree.this at) result }
{
    share(alloc, Expr::This { at })
}

pub(crate) fn variable(alloc: Global, name: Name) -> Result<Arc<Expr>, Stop>
    ensures { IsMade expr_at (tree.variable (named_of name)) result }
{
    share(alloc, Expr::Variable(name))
}

pub(crate) fn group(alloc: Global, at: u32, inside: Arc<Expr>) -> Result<Arc<Expr>, Stop>
    ensures { IsMade expr_at (tree.group at (expr_at inside)) result }
{
    share(alloc, Expr::Group { at, inside })
}

pub(crate) fn list(alloc: Global, at: u32, items: Vec<Arc<Expr>>) -> Result<Arc<Expr>, Stop>
    ensures { IsMade expr_at (tree.list at (exprs_from (exprs_at items.items))) result }
{
    share(alloc, Expr::List { at, items })
}

pub(crate) fn record(alloc: Global, at: u32, pairs: Vec<Pair>) -> Result<Arc<Expr>, Stop>
    ensures { IsMade expr_at (tree.rec at (pairs_from (pairs_at pairs.items))) result }
{
    share(alloc, Expr::Record { at, pairs })
}

pub(crate) fn new_error(
    alloc: Global,
    at: u32,
    message: Option<Arc<Expr>>,
) -> Result<Arc<Expr>, Stop>
    ensures { IsMade expr_at (tree.new_error at (option_expr_at message)) result }
{
    share(alloc, Expr::NewError { at, message })
}
