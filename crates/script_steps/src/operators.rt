//! What operators come to, as outcomes.
ghost use Rattle.std.specs.Prelude.{◌≡◌, IfOk, Result};
ghost use Rattle.do_value.specs.Keyed.{gathered};
ghost use Rattle.do_value.specs.Tree.{Tree, fields, items};
ghost use Rattle.do_value.specs.Seen.{pairs_in, tree_of, trees_in};
ghost use Rattle.do_value.specs.declared.operator.Builtin.TheVariants.{MakeError};
ghost use Rattle.script_mean.specs.Answers.{outcome_of as answer_of, threw};
ghost use Rattle.script_ops.specs.Answers.{Answers};
ghost use Rattle.script_ops.specs.Calls.{builtin};
ghost use Rattle.script_ops.specs.Errors.{within_limits, wrong_type};
ghost use Rattle.script_ops.specs.Unary.{unary};
ghost use Rattle.script_steps.specs.Seen.{outcome_of};

use crate::focus::Outcome;
use do_value::{Builtin, Mem, NoMemory, Text, UnOp, Value};
use script_ops::{OpFault, builtin, list_of, record_of, unary, wrong_type};
use std::alloc::Global;

/// An operator before one value.
pub(crate) fn before(alloc: Global, op: UnOp, value: &Value) -> Mem<Outcome>
    ensures { IfOk result (λ o. answer_of (unary op (tree_of value.now)) ≡ outcome_of o) }
{
    ended(unary(alloc, op, value))
}

/// An error with this message, if there is one.
pub(crate) fn error_of(alloc: Global, message: &[Value]) -> Mem<Outcome>
    ensures { IfOk result (λ o. answer_of (builtin MakeError (trees_in message.now)) ≡ outcome_of o) }
{
    ended(builtin(alloc, Builtin::MakeError, message))
}

/// A list of these items, which has its limits.
pub(crate) fn made_list(alloc: Global, values: Vec<Value>) -> Mem<Outcome>
    ensures { IfOk result (λ o. answer_of (within_limits (items (trees_in values.items))) ≡ outcome_of o) }
{
    ended(list_of(alloc, values))
}

/// A record of these pairs, which has its limits.
pub(crate) fn made_record(alloc: Global, pairs: Vec<(Text, Value)>) -> Mem<Outcome>
    ensures { IfOk result (λ o. answer_of (within_limits (fields (gathered (pairs_in pairs.items)))) ≡ outcome_of o) }
{
    ended(record_of(alloc, pairs))
}

/// What is thrown where a value is of a kind that isn't taken.
pub(crate) fn of_wrong_type(alloc: Global) -> Mem<Outcome>
    ensures { IfOk result (λ o. threw wrong_type ≡ outcome_of o) }
{
    ended(Err(wrong_type(alloc)))
}

// The outcome of an operator.
fn ended(answer: Result<Value, OpFault>) -> Mem<Outcome>
    ensures { (meant : Result Tree Tree) → Answers meant answer → IfOk result (λ o. answer_of meant ≡ outcome_of o) }
{
    match answer {
        Ok(value) => Ok(Outcome::Gave(value)),
        Err(OpFault::Throw(value)) => Ok(Outcome::Threw(value)),
        Err(OpFault::NoMemory) => Err(NoMemory),
    }
}
