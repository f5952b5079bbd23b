//! Calls of values.
ghost use Rattle.std.specs.Prelude.{◌≡◌, IfOk};
ghost use Rattle.do_value.specs.Seen.{trees_in};
ghost use Rattle.script_mean.specs.Meaning.{value_named};
ghost use Rattle.script_mean.specs.Turn.{ends};
ghost use Rattle.script_steps.specs.Seen.{outcome_of};

use crate::ending::{ended, nowhere};
use do_value::{Mem, Value};
use script_asks::value_call;
use script_ops::builtin;
use script_steps::Outcome;
use std::alloc::Global;

/// A call of the method of a value with this name. The value is the first argument.
pub fn call_value(alloc: Global, name: &str, args: &[Value]) -> Mem<Outcome>
    ensures { IfOk result (λ o. value_named name.now (trees_in args.now) ≡ ends (outcome_of o)) }
{
    match value_call(name) {
        Some(which) => ended(builtin(alloc, which, args)),
        None => Ok(nowhere()),
    }
}
