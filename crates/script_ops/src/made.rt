//! Lists, records and an error, made for those who evaluate them part by part.
ghost use Rattle.std.specs.Prelude.{Err};
ghost use Rattle.do_value.specs.Keyed.{gathered};
ghost use Rattle.do_value.specs.Seen.{trees_in, pairs_in};
ghost use Rattle.do_value.specs.Tree.{items, fields};
ghost use Rattle.script_ops.specs.Answers.{Answers, Gives};
ghost use Rattle.script_ops.specs.Errors.{within_limits, wrong_type};

use crate::errors::{finish, list_value, throw};
use crate::fault::{OpFault, Stop};
use do_value::{Text, Value};
use std::alloc::Global;

/// The list of the values: a list in brackets. It throws where the list is too deep or too large.
pub fn list_of(alloc: Global, values: Vec<Value>) -> Result<Value, OpFault>
    ensures { Answers (within_limits (items (trees_in values.items))) result }
{
    finish(alloc, list_value(values))
}

/// The record of the pairs: a record in braces. Of two pairs with one key the later stays, as in JavaScript. It throws
/// where the record is too deep or too large.
pub fn record_of(alloc: Global, pairs: Vec<(Text, Value)>) -> Result<Value, OpFault>
    ensures { Answers (within_limits (fields (gathered (pairs_in pairs.items)))) result }
{
    finish(alloc, record_value(pairs))
}

// The record of the pairs, where the limits allow it.
fn record_value(pairs: Vec<(Text, Value)>) -> Result<Value, Stop>
    ensures { Gives (within_limits (fields (gathered (pairs_in pairs.items)))) result }
{
    Ok(Value::fields(pairs)?)
}

/// The error that is thrown where a value is of a kind that isn't taken.
pub fn wrong_type(alloc: Global) -> OpFault
    ensures { Answers (Err wrong_type) (Err result) }
{
    throw(alloc, "TypeError", "type")
}
