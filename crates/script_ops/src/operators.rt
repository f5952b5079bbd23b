//! The operators.
ghost use Rattle.std.specs.Prelude.{◌≡◌, None};
ghost use Rattle.do_value.specs.Seen.{tree_of};
ghost use Rattle.do_value.specs.Tree.{number};
ghost use Rattle.script_ops.specs.Answers.{Answers, Gives};
ghost use Rattle.script_ops.specs.Binary.{binary, is_text};
ghost use Rattle.script_ops.specs.Numbers.{numbers};
ghost use Rattle.script_ops.specs.Unary.{unary};

use crate::compare::{equals, truth};
use crate::errors::finish;
use crate::fault::{OpFault, Stop};
use crate::numbers::{add, divide, multiply, negative, remain, subtract};
use crate::refusal::Refusal;
use crate::texts::join;
use do_value::{BinOp, Num, UnOp, Value};
use std::alloc::Global;

/// The value of an operator between two values, or the error that it throws.
pub fn binary(alloc: Global, op: BinOp, a: &Value, b: &Value) -> Result<Value, OpFault>
    ensures { Answers (binary op (tree_of a.now) (tree_of b.now)) result }
{
    finish(alloc, between_values(alloc, op, a, b))
}

/// The value of an operator before a value, or the error that it throws.
pub fn unary(alloc: Global, op: UnOp, a: &Value) -> Result<Value, OpFault>
    ensures { Answers (unary op (tree_of a.now)) result }
{
    finish(alloc, before_value(op, a))
}

// The value of an operator before a value.
#[tactic(auto, unfolding(crate::specs::Unary::unary))]
fn before_value(op: UnOp, a: &Value) -> Result<Value, Stop>
    ensures { Gives (unary op (tree_of a.now)) result }
{
    match (op, a) {
        (UnOp::Neg, Value::Num(n)) => negative(*n),
        (UnOp::Neg, _) => Err(Stop::Throws(Refusal::WrongType)),
        (UnOp::Not, _) => Ok(Value::Bool(!truth(a))),
    }
}

// The value of an operator between two values.
fn between_values(alloc: Global, op: BinOp, a: &Value, b: &Value) -> Result<Value, Stop>
    ensures { Gives (binary op (tree_of a.now) (tree_of b.now)) result }
{
    match both_numbers(a, b) {
        Some((a, b)) => with_numbers(op, a, b),
        None => with_others(alloc, op, a, b),
    }
}

// The numbers, where both values are.
fn both_numbers(a: &Value, b: &Value) -> Option<(Num, Num)>
    ensures { result ≡ numbers (tree_of a.now) (tree_of b.now) }
{
    match (a, b) {
        (Value::Num(a), Value::Num(b)) => Some((*a, *b)),
        _ => None,
    }
}

// The value of an operator between two numbers.
#[tactic(auto, unfolding(crate::specs::Binary::binary))]
fn with_numbers(op: BinOp, a: Num, b: Num) -> Result<Value, Stop>
    ensures { Gives (binary op (number a) (number b)) result }
{
    match op {
        BinOp::Add => add(a, b),
        BinOp::Sub => subtract(a, b),
        BinOp::Mul => multiply(a, b),
        BinOp::Div => divide(a, b),
        BinOp::Rem => remain(a, b),
        BinOp::Less => Ok(Value::Bool(a.get() < b.get())),
        BinOp::LessEq => Ok(Value::Bool(a.get() <= b.get())),
        BinOp::Greater => Ok(Value::Bool(a.get() > b.get())),
        BinOp::GreaterEq => Ok(Value::Bool(a.get() >= b.get())),
        BinOp::Same => Ok(Value::Bool(a.get() == b.get())),
        BinOp::Differs => Ok(Value::Bool(a.get() != b.get())),
    }
}

// The value of an operator between two values that aren't both numbers.
#[tactic(auto, unfolding(crate::specs::Binary::binary))]
fn with_others(alloc: Global, op: BinOp, a: &Value, b: &Value) -> Result<Value, Stop>
    requires { numbers (tree_of a.now) (tree_of b.now) ≡ None }
    ensures { Gives (binary op (tree_of a.now) (tree_of b.now)) result }
{
    match op {
        BinOp::Same => Ok(Value::Bool(equals(a, b))),
        BinOp::Differs => Ok(Value::Bool(!equals(a, b))),
        BinOp::Add if is_text(a) || is_text(b) => join(alloc, a, b),
        _ => Err(Stop::Throws(Refusal::WrongType)),
    }
}

fn is_text(value: &Value) -> bool
    ensures { result ≡ is_text (tree_of value.now) }
{
    matches!(value, Value::Text(_))
}
