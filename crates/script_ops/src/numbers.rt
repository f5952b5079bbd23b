//! The arithmetic of whole numbers.
ghost use Rattle.std.specs.Prelude.{◌≡◌, ◌*◌, ◌≤◌, ◌+ℤ◌, neg_ℤ, pos, Ok};
ghost use Rattle.do_value.specs.Limits.{most_bytes};
ghost use Rattle.do_value.specs.Tree.{number};
ghost use Rattle.script_ops.specs.Answers.{Gives};
ghost use Rattle.script_ops.specs.Numbers.{in_range, difference, product, quotient, remainder};

use crate::fault::Stop;
use crate::refusal::Refusal;
use do_value::{Num, RangeNum, Value};

/// The number where it is in the range.
pub(crate) fn ranged(n: i64) -> Result<Value, Stop>
    ensures { Gives (in_range n) result }
{
    match Num::new(n) {
        Ok(n) => Ok(Value::Num(n)),
        Err(RangeNum) => Err(Stop::Throws(Refusal::NoNumber)),
    }
}

/// A count of parts or bytes of a value.
pub(crate) fn counted(n: usize) -> Result<Value, Stop>
    requires { n ≤ 2 * most_bytes }
    ensures { Gives (Ok (number (pos n))) result }
{
    ranged(n as i64)
}

/// `a + b`
pub(crate) fn add(a: Num, b: Num) -> Result<Value, Stop>
    ensures { Gives (in_range (a +ℤ b)) result }
{
    ranged(a.get() + b.get())
}

/// `a - b`
pub(crate) fn subtract(a: Num, b: Num) -> Result<Value, Stop>
    ensures { Gives (difference a b) result }
{
    ranged(a.get() - b.get())
}

/// `a * b`
pub(crate) fn multiply(a: Num, b: Num) -> Result<Value, Stop>
    ensures { Gives (product a b) result }
{
    match a.get().checked_mul(b.get()) {
        Some(n) => ranged(n),
        None => Err(Stop::Throws(Refusal::NoNumber)),
    }
}

/// `a / b`
pub(crate) fn divide(a: Num, b: Num) -> Result<Value, Stop>
    ensures { Gives (quotient a b) result }
{
    let a = a.get();
    let b = b.get();
    if b == 0 || a % b != 0 {
        return Err(Stop::Throws(Refusal::NotWhole));
    }
    ranged(a / b)
}

/// `a % b`
pub(crate) fn remain(a: Num, b: Num) -> Result<Value, Stop>
    ensures { Gives (remainder a b) result }
{
    let b = b.get();
    if b == 0 {
        return Err(Stop::Throws(Refusal::NotWhole));
    }
    ranged(a.get() % b)
}

/// `-n`
pub(crate) fn negative(n: Num) -> Result<Value, Stop>
    ensures { Gives (Ok (number (neg_ℤ n))) result }
{
    ranged(-n.get())
}
