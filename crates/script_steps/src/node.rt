//! The parts of nodes that keep lists.
ghost use Rattle.std.specs.Prelude.{◌≡◌, IfOk};
ghost use Rattle.do_tree.specs.Nodes.{exprs_in, operands_in, option_expr_in, option_stmt_in, pairs_in};
ghost use Rattle.do_tree.specs.Seen.{expr_of, named_of};
ghost use Rattle.script_steps.specs.Parts.{chain_of, exprs_from, exprs_of, operands_from, operands_of, pairs_from, pairs_of, with_expr, with_operand, with_pair};

use do_tree::{Chain, Expr, Name, Operand, Pair, Stmt};
use do_value::{BinOp, Mem, NoMemory};
use std::sync::Arc;

/// The same node again.
pub fn again<T: Drop>(node: &Arc<T>) -> Mem<Arc<T>>
    ensures { IfOk result (λ again. again.value ≡ node.now.value) }
{
    match node.clone() {
        Ok(again) => Ok(again),
        Err(_) => Err(NoMemory),
    }
}

/// An expression of a list, and the place behind it.
#[derive(Drop)]
pub(crate) struct NextExpr {
    pub expr: Arc<Expr>,
    pub next: usize,
}

/// The expression at that place of a chain or of a list.
#[tactic(auto, using(crate::proofs::Parts::lazy_exprs, crate::proofs::Parts::list_exprs, crate::proofs::Parts::exprs_from_none))]
pub(crate) fn expr_at(node: &Expr, place: usize) -> Mem<Option<NextExpr>>
    ensures { IfOk result (λ found. exprs_from place (exprs_of (expr_of node.now)) ≡ with_expr found (exprs_of (expr_of node.now))) }
{
    match node {
        Expr::Lazy { rest, .. } => expr_in(rest, place),
        Expr::List { items, .. } => expr_in(items, place),
        _ => Ok(None),
    }
}

#[tactic(auto, using(crate::proofs::Parts::exprs_past, crate::proofs::Parts::exprs_at))]
fn expr_in(exprs: &[Arc<Expr>], place: usize) -> Mem<Option<NextExpr>>
    ensures { IfOk result (λ found. exprs_from place (exprs_in exprs.now) ≡ with_expr found (exprs_in exprs.now)) }
{
    if place >= exprs.len() {
        return Ok(None);
    }
    let expr = again(&exprs[place])?;
    Ok(Some(NextExpr {
        expr,
        next: place + 1,
    }))
}

/// An operator and what stands on its right, and the place behind them.
#[derive(Drop)]
pub(crate) struct NextOperand {
    pub op: BinOp,
    pub expr: Arc<Expr>,
    pub next: usize,
}

/// The operator and the operand at that place of a chain.
#[tactic(auto, using(crate::proofs::Parts::strict_operands, crate::proofs::Parts::operands_from_none))]
pub(crate) fn operand_at(node: &Expr, place: usize) -> Mem<Option<NextOperand>>
    ensures { IfOk result (λ found. operands_from place (operands_of (expr_of node.now)) ≡ with_operand found (operands_of (expr_of node.now))) }
{
    match node {
        Expr::Strict { rest, .. } => operand_in(rest, place),
        _ => Ok(None),
    }
}

#[tactic(auto, using(crate::proofs::Parts::operands_past, crate::proofs::Parts::operands_at))]
fn operand_in(operands: &[Operand], place: usize) -> Mem<Option<NextOperand>>
    ensures { IfOk result (λ found. operands_from place (operands_in operands.now) ≡ with_operand found (operands_in operands.now)) }
{
    if place >= operands.len() {
        return Ok(None);
    }
    let expr = again(&operands[place].value)?;
    Ok(Some(NextOperand {
        op: operands[place].op,
        expr,
        next: place + 1,
    }))
}

/// A pair of a record, and the place behind it.
#[derive(Drop)]
pub(crate) struct NextPair {
    pub key: Name,
    pub value: Option<Arc<Expr>>,
    pub next: usize,
}

/// The pair at that place of a record.
#[tactic(auto, using(crate::proofs::Parts::record_pairs, crate::proofs::Parts::pairs_from_none))]
pub(crate) fn pair_at(node: &Expr, place: usize) -> Mem<Option<NextPair>>
    ensures { IfOk result (λ found. pairs_from place (pairs_of (expr_of node.now)) ≡ with_pair found (pairs_of (expr_of node.now))) }
{
    match node {
        Expr::Record { pairs, .. } => pair_in(pairs, place),
        _ => Ok(None),
    }
}

#[tactic(auto, using(crate::proofs::Parts::pairs_past, crate::proofs::Parts::pairs_at))]
fn pair_in(pairs: &[Pair], place: usize) -> Mem<Option<NextPair>>
    ensures { IfOk result (λ found. pairs_from place (pairs_in pairs.now) ≡ with_pair found (pairs_in pairs.now)) }
{
    if place >= pairs.len() {
        return Ok(None);
    }
    let pair = &pairs[place];
    let value = again_option(&pair.value)?;
    let key = Name {
        at: pair.key.at,
        text: pair.key.text.copy()?,
    };
    Ok(Some(NextPair {
        key,
        value,
        next: place + 1,
    }))
}

/// The same node again, if there is one.
fn again_option(expr: &Option<Arc<Expr>>) -> Mem<Option<Arc<Expr>>>
    ensures { IfOk result (λ o. option_expr_in o ≡ option_expr_in expr.now) }
{
    match expr {
        Some(expr) => Ok(Some(again(expr)?)),
        None => Ok(None),
    }
}

/// Which chain an expression is.
pub(crate) fn chain_of(node: &Expr) -> Chain
    ensures { result ≡ chain_of (expr_of node.now) }
{
    match node {
        Expr::Lazy { chain, .. } => *chain,
        _ => Chain::And,
    }
}

/// The same statement again, if there is one.
pub(crate) fn again_stmt(stmt: &Option<Arc<Stmt>>) -> Mem<Option<Arc<Stmt>>>
    ensures { IfOk result (λ o. option_stmt_in o ≡ option_stmt_in stmt.now) }
{
    match stmt {
        Some(stmt) => Ok(Some(again(stmt)?)),
        None => Ok(None),
    }
}
