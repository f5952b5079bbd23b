//! How an expression begins.
ghost use Rattle.std.specs.Prelude.{◌≡◌, IfOk};
ghost use Rattle.do_tree.specs.Nodes.{option_expr_in};
ghost use Rattle.do_tree.specs.Seen.{expr_of};
ghost use Rattle.script_mean.specs.Calls.{Calls};
ghost use Rattle.script_mean.specs.Meaning.{message, value};
ghost use Rattle.script_steps.specs.Parts.{IsPlain};
ghost use Rattle.script_steps.specs.Paths.{is_present};
ghost use Rattle.script_steps.specs.Seen.{charged, move_run};
ghost use Rattle.script_steps.specs.Weight.{LeavesLess};

use crate::focus::{Focus, Move, Outcome};
use crate::frame::Frame;
use crate::lists::{list_from, record_from};
use crate::node::again;
use crate::operators::error_of;
use crate::path::Await;
use do_tree::Expr;
use do_value::{Mem, Value};
use std::alloc::Global;
use std::sync::Arc;

/// How an expression begins. Paths begin elsewhere, and [`crate::bare`] takes off what has nothing of its own.
pub fn begin_value(alloc: Global, awaited: Await, expr: &Arc<Expr>) -> Mem<Move>
    requires { IsPlain (expr_of expr.now.value) }
    ensures moves { IfOk result (λ m. (calls : Calls) → value (is_present awaited) calls (expr_of expr.now.value) ≡ move_run calls m) }
    ensures less { IfOk result (LeavesLess 2) }
{
    match &**expr {
        Expr::Choice { test, yes, no, .. } => {
            let (test, yes, no) = (again(test)?, again(yes)?, again(no)?);
            Ok(Move::Inside(1, Frame::Choose(yes, no), Focus::Value(Await::Absent, test)))
        }
        Expr::Lazy { first, rest, .. } => {
            let (node, first) = (again(expr)?, again(first)?);
            Ok(Move::Inside(
                rest.len(),
                Frame::Chain(node, 0),
                Focus::Value(Await::Absent, first),
            ))
        }
        Expr::Strict { first, rest, .. } => {
            let (node, first) = (again(expr)?, again(first)?);
            Ok(Move::Inside(
                rest.len(),
                Frame::Operate(node, 0),
                Focus::Value(Await::Absent, first),
            ))
        }
        Expr::Unary { op, value, .. } => {
            let value = again(value)?;
            Ok(Move::Inside(1, Frame::Prefix(*op), Focus::Value(Await::Absent, value)))
        }
        Expr::Await { value, .. } => Ok(Move::Then(1, Focus::Value(Await::Present, again(value)?))),
        Expr::List { .. } => list_from(alloc, 1, Vec::new(alloc), again(expr)?, 0),
        Expr::Record { .. } => record_from(alloc, 1, Vec::new(alloc), again(expr)?, 0),
        Expr::NewError { message, .. } => begin_error(alloc, message),
        Expr::Number { value, .. } => Ok(gives(Value::Num(*value))),
        Expr::Text { value, .. } => Ok(gives(Value::Text(value.copy()?))),
        Expr::Bool { value, .. } => Ok(gives(Value::Bool(*value))),
        Expr::Null { .. } => Ok(gives(Value::Null)),
        Expr::Undefined { .. } => Ok(gives(Value::Undefined)),
        Expr::This { .. } => Ok(Move::Then(1, Focus::Ended(Outcome::Threw(Value::Undefined)))),
        Expr::Variable(_) => Ok(Move::Then(1, Focus::Variable(again(expr)?))),
        Expr::Path { .. } | Expr::Group { .. } => unreachable!(),
    }
}

/// The message of an error begins, for which a step is charged.
fn begin_error(alloc: Global, text: &Option<Arc<Expr>>) -> Mem<Move>
    ensures moves { IfOk result (λ m. (calls : Calls) → charged 1 (message calls (option_expr_in text.now)) ≡ move_run calls m) }
    ensures less { IfOk result (LeavesLess 2) }
{
    match text {
        Some(text) => {
            let text = again(text)?;
            Ok(Move::Inside(1, Frame::Error, Focus::Value(Await::Absent, text)))
        }
        None => Ok(Move::Then(1, Focus::Ended(error_of(alloc, &[])?))),
    }
}

/// A step is charged, and the part gives this value.
fn gives(value: Value) -> Move
    ensures { result ≡ Move.Then 1 (Focus.Ended (Outcome.Gave value)) }
{
    Move::Then(1, Focus::Ended(Outcome::Gave(value)))
}
