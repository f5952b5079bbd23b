//! What calls that ask nothing come to.
ghost use Rattle.std.specs.Prelude.{◌≡◌, IfOk, Result};
ghost use Rattle.do_value.specs.Tree.{Tree, undefined};
ghost use Rattle.script_calls.specs.Faults.{IsThrown};
ghost use Rattle.script_mean.specs.Answers.{threw};
ghost use Rattle.script_mean.specs.Turn.{ends, of};
ghost use Rattle.script_ops.specs.Answers.{Answers};
ghost use Rattle.script_steps.specs.Seen.{outcome_of};

use do_value::{Mem, NoMemory, Value};
use script_ops::OpFault;
use script_steps::Outcome;

/// What an operator comes to.
pub(crate) fn ended(answer: Result<Value, OpFault>) -> Mem<Outcome>
    ensures { (meant : Result Tree Tree) → Answers meant answer → IfOk result (λ o. of meant ≡ ends (outcome_of o)) }
{
    match answer {
        Ok(value) => Ok(Outcome::Gave(value)),
        Err(OpFault::Throw(value)) => Ok(Outcome::Threw(value)),
        Err(OpFault::NoMemory) => Err(NoMemory),
    }
}

/// What a fault throws.
pub(crate) fn thrown(fault: OpFault) -> Mem<Outcome>
    ensures { IfOk result (IsThrown fault) }
{
    match fault {
        OpFault::Throw(value) => Ok(Outcome::Threw(value)),
        OpFault::NoMemory => Err(NoMemory),
    }
}

/// What a call comes to that no checked script has.
pub(crate) fn nowhere() -> Outcome
    ensures { outcome_of result ≡ threw undefined }
{
    Outcome::Threw(Value::Undefined)
}
