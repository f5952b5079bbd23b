//! Errors that are thrown.
ghost use Rattle.std.specs.Prelude.{◌≡◌, ◌≤◌, IfOk, length};
ghost use Rattle.script_mean.specs.Answers.{threw};
ghost use Rattle.script_ops.specs.Errors.{error_record};
ghost use Rattle.script_steps.specs.Seen.{outcome_of};

use do_value::{Mem, NoMemory};
use script_ops::{OpFault, throw};
use script_steps::Outcome;
use std::alloc::Global;

/// The error with this name and message is thrown.
pub(crate) fn thrown(alloc: Global, name: &str, message: &str) -> Mem<Outcome>
    requires name { length name.now ≤ 16 }
    requires message { length message.now ≤ 16 }
    ensures { IfOk result (λ o. outcome_of o ≡ threw (error_record name.now message.now)) }
{
    match throw(alloc, name, message) {
        OpFault::Throw(value) => Ok(Outcome::Threw(value)),
        OpFault::NoMemory => Err(NoMemory),
    }
}
