//! Numbers that are moved by `++` and `--`.
ghost use Rattle.std.specs.Prelude.{◌+ℤ◌};
ghost use Rattle.do_value.specs.Seen.{tree_of};
ghost use Rattle.script_ops.specs.Answers.{Answers};
ghost use Rattle.script_ops.specs.Numbers.{in_range};
ghost use Rattle.script_mean.specs.Places.{moved};
ghost use Rattle.script_places.specs.Reads.{Gives};

use do_value::{Num, RangeNum, Value};
use script_ops::{OpFault, Refusal, thrown};
use std::alloc::Global;

/// The number with so much added: 1 for `++`, -1 for `--`. What is no number throws (`TypeError` `type`), and so does a
/// number that leaves the range (`RangeError` `number`).
pub fn moved(alloc: Global, value: &Value, by: i64) -> Result<Value, OpFault>
    ensures { Answers (moved by (tree_of value.now)) result }
{
    match moved_value(value, by) {
        Ok(value) => Ok(value),
        Err(refusal) => Err(thrown(alloc, refusal)),
    }
}

// The number with so much added, or why there is none.
fn moved_value(value: &Value, by: i64) -> Result<Value, Refusal>
    ensures { Gives (moved by (tree_of value.now)) result }
{
    match value {
        Value::Num(n) => sum(*n, by),
        _ => Err(Refusal::WrongType),
    }
}

// The sum, where it is in the range.
fn sum(n: Num, by: i64) -> Result<Value, Refusal>
    ensures { Gives (in_range (n +ℤ by)) result }
{
    match n.get().checked_add(by) {
        Some(sum) => ranged(sum),
        None => Err(Refusal::NoNumber),
    }
}

// The number where it is in the range.
fn ranged(n: i64) -> Result<Value, Refusal>
    ensures { Gives (in_range n) result }
{
    match Num::new(n) {
        Ok(n) => Ok(Value::Num(n)),
        Err(RangeNum) => Err(Refusal::NoNumber),
    }
}
