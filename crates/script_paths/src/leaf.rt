//! Chains of operators, whose operands are had at once where they are names or constants.
ghost use Rattle.std.specs.Prelude.{◌≡◌, ◌+◌, ◌<◌, false, length, Some, IfOk, IfSome};
ghost use Rattle.do_tree.specs.Nodes.{operands_in};
ghost use Rattle.do_tree.specs.Seen.{expr_of};
ghost use Rattle.do_value.specs.Seen.{tree_of};
ghost use Rattle.script_mean.specs.Frames.{to_operate};
ghost use Rattle.script_mean.specs.Meaning.{strict, value};
ghost use Rattle.script_mean.specs.Task as task;
ghost use Rattle.script_mean.specs.Turn.{bound};
ghost use Rattle.script_paths.specs.Reading.{GivesIn, UnfoldsIn};
ghost use Rattle.script_steps.specs.Parts.{operands_of};
ghost use Rattle.script_steps.specs.Seen.{charged, framed};
ghost use Rattle.script_steps.specs.Weight.{LeavesLess};
ghost use Rattle.script_vars.specs.Seen.{env_of};

use do_tree::{Expr, Operand};
use do_value::{Mem, NoMemory, Text, Value};
use script_ops::{OpFault, binary};
use script_steps::{Await, Focus, Frame, Move, Outcome, again};
use script_vars::{Bound, Vars};
use std::alloc::Global;
use std::sync::Arc;

/// The value of a constant, or of a name that stands for one, for which a step is to be charged. `None` of what is still to
/// be evaluated.
pub(crate) fn leaf(expr: &Expr, vars: &Vars) -> Mem<Option<Value>>
    ensures { IfOk result (λ found. IfSome found (λ v. GivesIn (env_of vars.now) (expr_of expr.now) (tree_of v))) }
{
    match expr {
        Expr::Variable(name) => standing(&name.text, vars),
        Expr::Number { value, .. } => Ok(Some(Value::Num(*value))),
        Expr::Text { value, .. } => Ok(Some(Value::Text(value.copy()?))),
        Expr::Bool { value, .. } => Ok(Some(Value::Bool(*value))),
        Expr::Null { .. } => Ok(Some(Value::Null)),
        Expr::Undefined { .. } => Ok(Some(Value::Undefined)),
        _ => Ok(None),
    }
}

/// The value that a name stands for, if it stands for one.
fn standing(name: &Text, vars: &Vars) -> Mem<Option<Value>>
    ensures { IfOk result (λ found. IfSome found (λ v. bound name.now (env_of vars.now) ≡ Some (task.value (tree_of v)))) }
{
    match vars.get(name.as_str()) {
        Some(Bound::Value(value)) => Ok(Some(value.copy()?)),
        _ => Ok(None),
    }
}

/// How a chain of operators begins.
pub(crate) fn begin_chain(
    alloc: Global,
    node: &Arc<Expr>,
    first: &Arc<Expr>,
    rest: &[Operand],
    vars: &Vars,
) -> Mem<Move>
    requires these { operands_of (expr_of node.now.value) ≡ operands_in rest.now }
    requires some { 0 < length rest.now }
    ensures same { IfOk result (UnfoldsIn (env_of vars.now)
        (λ calls. charged (length rest.now) (framed calls (to_operate (operands_in rest.now)) (value false calls (expr_of first.now.value))))) }
    ensures less { IfOk result (LeavesLess 2) }
{
    match leaf(first, vars)? {
        Some(value) => chain_from(alloc, node, value, rest, vars),
        None => {
            let (node, first) = (again(node)?, again(first)?);
            Ok(Move::Inside(
                rest.len(),
                Frame::Operate(node, 0),
                Focus::Value(Await::Absent, first),
            ))
        }
    }
}

/// The same after its first value, for which a step is charged too, as far as the operands are names and constants.
fn chain_from(
    alloc: Global,
    node: &Arc<Expr>,
    first: Value,
    rest: &[Operand],
    vars: &Vars,
) -> Mem<Move>
    requires { operands_of (expr_of node.now.value) ≡ operands_in rest.now }
    ensures same { IfOk result (UnfoldsIn (env_of vars.now)
        (λ calls. charged (length rest.now + 1) (strict calls (tree_of first) (operands_in rest.now)))) }
    ensures less { IfOk result (LeavesLess 2) }
{
    let mut left = first;
    let mut cost = rest.len() + 1;
    for place in 0..rest.len() {
        let Operand { op, value } = &rest[place];
        let Some(right) = leaf(value, vars)? else {
            let (node, operand) = (again(node)?, again(value)?);
            let frame = Frame::Apply(left, *op, node, place + 1);
            return Ok(Move::Inside(cost, frame, Focus::Value(Await::Absent, operand)));
        };
        cost += 1;
        match binary(alloc, *op, &left, &right) {
            Ok(value) => left = value,
            Err(OpFault::Throw(error)) => {
                return Ok(Move::Then(cost, Focus::Ended(Outcome::Threw(error))));
            }
            Err(OpFault::NoMemory) => return Err(NoMemory),
        }
    }
    Ok(Move::Then(cost, Focus::Ended(Outcome::Gave(left))))
}
