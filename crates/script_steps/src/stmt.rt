//! How statements begin.
ghost use Rattle.std.specs.Prelude.{◌≡◌, IfOk};
ghost use Rattle.do_tree.specs.Nodes.{option_expr_in, simple_of};
ghost use Rattle.do_tree.specs.Seen.{stmt_of};
ghost use Rattle.script_mean.specs.Calls.{Calls};
ghost use Rattle.script_mean.specs.Meaning.{run, simple};
ghost use Rattle.script_steps.specs.Seen.{charged, move_run, returning};
ghost use Rattle.script_steps.specs.Weight.{LeavesLess};

use crate::focus::{Focus, Move, Outcome};
use crate::frame::{Between, Frame};
use crate::node::{again, again_stmt};
use crate::path::Await;
use do_tree::{Expr, Simple, Stmt, Write};
use do_value::{Mem, Value};
use std::sync::Arc;

/// How a statement begins.
pub fn begin_run(stmt: &Arc<Stmt>) -> Mem<Move>
    ensures moves { IfOk result (λ m. (calls : Calls) → run calls (stmt_of stmt.now.value) ≡ move_run calls m) }
    ensures less { IfOk result (LeavesLess 2) }
{
    match &**stmt {
        Stmt::Block(block) => Ok(Move::Then(1, Focus::Block(again(block)?))),
        Stmt::If {
            test,
            then: yes,
            other,
            ..
        } => {
            let (test, yes, other) = (again(test)?, again(yes)?, again_stmt(other)?);
            Ok(Move::Inside(
                1,
                Frame::Branch(yes, other),
                Focus::Value(Await::Absent, test),
            ))
        }
        Stmt::While { test, body, .. } => {
            let (test, body) = (again(test)?, again(body)?);
            Ok(Move::Then(1, Focus::Loop(test, body, Between::AtOnce)))
        }
        Stmt::For { first, .. } => {
            let (node, first) = (again(stmt)?, again(first)?);
            Ok(Move::Inside(1, Frame::Count(node), Focus::Value(Await::Absent, first)))
        }
        Stmt::ForOf { list, .. } => {
            let (node, list) = (again(stmt)?, again(list)?);
            Ok(Move::Inside(1, Frame::Visit(node), Focus::Value(Await::Absent, list)))
        }
        Stmt::Try { body, .. } => {
            let (node, body) = (again(stmt)?, again(body)?);
            Ok(Move::Inside(1, Frame::Catch(node), Focus::Block(body)))
        }
        Stmt::Throw { value, .. } => {
            let value = again(value)?;
            Ok(Move::Inside(1, Frame::Throw, Focus::Value(Await::Absent, value)))
        }
        Stmt::Return { value, .. } => begin_return(value),
        Stmt::Break { .. } => Ok(Move::Then(1, Focus::Ended(Outcome::Broke))),
        Stmt::Continue { .. } => Ok(Move::Then(1, Focus::Ended(Outcome::Continued))),
        Stmt::Simple(inner) => begin_simple(inner),
    }
}

/// A return, for which a step is charged.
fn begin_return(value: &Option<Arc<Expr>>) -> Mem<Move>
    ensures moves { IfOk result (λ m. (calls : Calls) → charged 1 (returning calls (option_expr_in value.now)) ≡ move_run calls m) }
    ensures less { IfOk result (LeavesLess 2) }
{
    match value {
        Some(value) => {
            let value = again(value)?;
            Ok(Move::Inside(1, Frame::Return, Focus::Value(Await::Absent, value)))
        }
        None => Ok(Move::Then(1, Focus::Ended(Outcome::Returned(Value::Undefined)))),
    }
}

/// How an expression that is run for itself begins, or a write to a place.
pub fn begin_simple(inner: &Arc<Simple>) -> Mem<Move>
    ensures moves { IfOk result (λ m. (calls : Calls) → simple calls (simple_of inner.now.value) ≡ move_run calls m) }
    ensures less { IfOk result (LeavesLess 1) }
{
    match &inner.write {
        Write::Nothing => {
            let expr = again(&inner.place)?;
            Ok(Move::Inside(1, Frame::Pass, Focus::Value(Await::Absent, expr)))
        }
        _ => Ok(Move::Then(1, Focus::Write(again(inner)?))),
    }
}
