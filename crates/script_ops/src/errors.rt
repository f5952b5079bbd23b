//! The errors that are thrown, and answers with them.
ghost use Rattle.std.specs.Prelude.{◌≡◌, ◌+◌, ◌≤◌, IfOk, OnOk, [], ◌∷◌, ◌++◌, length, Result, Err, codes};
ghost use Rattle.do_value.specs.Limits.{most_bytes};
ghost use Rattle.do_value.specs.Tree.{Tree, text, items};
ghost use Rattle.do_value.specs.Seen.{tree_of, trees_in, pairs_in};
ghost use Rattle.script_ops.specs.Errors.{error_record, within_limits};
ghost use Rattle.script_ops.specs.Answers.{Answers, Gives, IsFaultOf, error_of};

use crate::fault::{OpFault, Stop};
use crate::refusal::{Refusal, parts_of};
use do_value::{Mem, NoMemory, Text, Value};
use std::alloc::Global;

/// The answer, with the error built that is thrown.
pub(crate) fn finish(alloc: Global, answer: Result<Value, Stop>) -> Result<Value, OpFault>
    ensures { (meant : Result Tree Tree) → Gives meant answer → Answers meant result }
{
    match answer {
        Ok(value) => Ok(value),
        Err(stop) => Err(fault_of(alloc, stop)),
    }
}

/// The fault that a stop comes to: its error, built and thrown, or want of memory, where that may come of building it too.
pub fn fault_of(alloc: Global, stop: Stop) -> OpFault
    ensures { IsFaultOf stop result }
{
    match stop {
        Stop::Throws(refusal) => thrown(alloc, refusal),
        Stop::NoRoom => OpFault::NoMemory,
    }
}

/// The error of the refusal, thrown. It is `NoMemory` only for want of memory.
pub fn thrown(alloc: Global, refusal: Refusal) -> OpFault
    ensures { IsFaultOf (Stop.Throws refusal) result }
{
    let (name, message) = parts_of(refusal);
    throw(alloc, name, message)
}

/// The error of the refusal: a record of its name and its message. It takes memory.
pub fn build_error(alloc: Global, refusal: Refusal) -> Mem<Value>
    ensures { IfOk result (λ value. tree_of value ≡ error_of refusal) }
{
    let (name, message) = parts_of(refusal);
    match named_error(alloc, name, message) {
        Ok(error) => Ok(error),
        Err(_) => Err(NoMemory),
    }
}

/// The error with this name and message, thrown: a record of both. It is `NoMemory` only for want of memory.
pub fn throw(alloc: Global, name: &str, message: &str) -> OpFault
    requires name { length name.now ≤ 16 }
    requires message { length message.now ≤ 16 }
    ensures { Answers (Err (error_record name.now message.now)) (Err result) }
{
    match named_error(alloc, name, message) {
        Ok(value) => OpFault::Throw(value),
        Err(_) => OpFault::NoMemory,
    }
}

// The error with this name and message.
fn named_error(alloc: Global, name: &str, message: &str) -> Result<Value, Stop>
    requires name { length name.now ≤ 16 }
    requires message { length message.now ≤ 16 }
    ensures { IfOk result (λ value. tree_of value ≡ error_record name.now message.now) }
{
    let name = word(alloc, name)?;
    let message = word(alloc, message)?;
    error_value(alloc, name, message)
}

/// The error with this name and message.
pub(crate) fn error_value(alloc: Global, name: Text, message: Text) -> Result<Value, Stop>
    ensures { Gives (within_limits (error_record name message)) result }
{
    let pairs = error_pairs(alloc, name, message)?;
    Ok(Value::fields(pairs)?)
}

// The pairs of an error.
fn error_pairs(alloc: Global, name: Text, message: Text) -> Mem<Vec<(Text, Value)>>
    ensures { IfOk result (λ pairs. pairs_in pairs.items
        ≡ (codes "message", text message) ∷ (codes "name", text name) ∷ []) }
{
    let mut pairs = Vec::new(alloc);
    put(&mut pairs, word(alloc, "message")?, message)?;
    put(&mut pairs, word(alloc, "name")?, name)?;
    Ok(pairs)
}

// One pair more.
fn put(pairs: &mut Vec<(Text, Value)>, key: Text, part: Text) -> Mem<()>
    ensures { OnOk result (pairs_in pairs.new.items ≡ pairs_in pairs.old.items ++ (key, text part) ∷ []) }
{
    match pairs.push((key, Value::Text(part))) {
        Ok(()) => Ok(()),
        Err(_) => Err(NoMemory),
    }
}

/// The text, where it is within the limit.
pub(crate) fn word(alloc: Global, s: &str) -> Mem<Text>
    requires { 5 + length s.now ≤ most_bytes }
    ensures { IfOk result (λ text. text ≡ s.now) }
{
    match Text::new(alloc, s) {
        Ok(text) => Ok(text),
        Err(_) => Err(NoMemory),
    }
}

/// The value of the text, where the limits allow it.
pub(crate) fn text_value(alloc: Global, s: &str) -> Result<Value, Stop>
    ensures { Gives (within_limits (text s.now)) result }
{
    Ok(Value::Text(Text::new(alloc, s)?))
}

/// The list of the values, where the limits allow it.
pub(crate) fn list_value(values: Vec<Value>) -> Result<Value, Stop>
    ensures { Gives (within_limits (items (trees_in values.items))) result }
{
    Ok(Value::list(values)?)
}
