//! The calls that read their arguments alone.
ghost use Rattle.std.specs.Prelude.{◌≡◌, ◌+◌, ◌*◌, ◌≤◌, nat_eq, false, [], codes, length, Ok};
ghost use Rattle.std.specs.List.{starts_with, ends_with};
ghost use Rattle.do_value.specs.Limits.{most_bytes};
ghost use Rattle.do_value.specs.Seen.{tree_of, trees_in};
ghost use Rattle.script_ops.specs.Answers.{Answers, Gives};
ghost use Rattle.script_ops.specs.Calls.{argument, builtin, length_of, includes, index_of, slice, split};
ghost use Rattle.script_ops.specs.Calls.{keys, is_array, to_number, make_error, on_texts, on_text};
ghost use Rattle.script_ops.specs.Errors.{error_record, within_limits};
ghost use Rattle.script_ops.specs.Binary.{is_text};
ghost use Rattle.script_ops.specs.Texts.{printed, unit_count};
ghost use Rattle.do_value.specs.Tree.{text as text_tree};

use crate::errors::{error_value, finish, text_value, word};
use crate::fault::{OpFault, Stop};
use crate::lists::{count_items, find_item, has_item, length_field, list_keys, slice_list};
use crate::numbers::counted;
use crate::refusal::Refusal;
use crate::texts::{begins, contains, count_units, ends, parse, print, split as split_text};
use do_value::{Builtin, Text, Value};
use std::alloc::Global;

/// The value of a call that reads its arguments alone, or the error that it throws. Missing arguments are `undefined`;
/// those past the named ones are dropped.
pub fn builtin(alloc: Global, which: Builtin, args: &[Value]) -> Result<Value, OpFault>
    ensures { Answers (builtin which (trees_in args.now)) result }
{
    finish(alloc, call(alloc, which, args))
}

// The value of a call, or what it throws.
#[tactic(auto, unfolding(crate::specs::Calls::builtin))]
fn call(alloc: Global, which: Builtin, args: &[Value]) -> Result<Value, Stop>
    ensures { Gives (builtin which (trees_in args.now)) result }
{
    let undefined = Value::Undefined;
    let of = argument(args, 0, &undefined);
    let with = argument(args, 1, &undefined);
    match which {
        Builtin::Length => length(of),
        Builtin::Includes => include(of, with),
        Builtin::IndexOf => index(of, with),
        Builtin::Slice => slice(alloc, of, with, argument(args, 2, &undefined)),
        Builtin::StartsWith => test_start(of, with),
        Builtin::EndsWith => test_end(of, with),
        Builtin::Split => split(alloc, of, with),
        Builtin::Keys => keys(alloc, of),
        Builtin::IsArray => Ok(Value::Bool(is_array(of))),
        Builtin::ToText => to_text(alloc, of),
        Builtin::ToNumber => to_number(of),
        Builtin::MakeError => make_error(alloc, args),
    }
}

// The argument at that place, or the value that stands for a missing one.
fn argument<'a>(args: &'a [Value], place: usize, missing: &'a Value) -> &'a Value
    requires { missing.now ≡ Value.Undefined }
    ensures { tree_of result.now ≡ argument place (trees_in args.now) }
{
    match args.get(place) {
        Some(value) => value,
        None => missing,
    }
}

// `x.length`
fn length(of: &Value) -> Result<Value, Stop>
    ensures { Gives (length_of (tree_of of.now)) result }
{
    match of {
        Value::Undefined | Value::Null => Err(Stop::Throws(Refusal::NoProperty)),
        Value::Bool(_) | Value::Num(_) => Ok(Value::Undefined),
        Value::Text(text) => text_length(text),
        Value::List(list) => count_items(list),
        Value::Rec(record) => length_field(record),
    }
}

// How many units of UTF-16 the text has.
fn text_length(text: &Text) -> Result<Value, Stop>
    ensures { Gives (length_of (text_tree text.now)) result }
{
    counted(unit_count(text))
}

/// How many units of UTF-16 the text has: `length` in JavaScript. All its bytes are visited.
pub fn unit_count(text: &Text) -> usize
    ensures units { result ≡ unit_count text.now }
    ensures limit { result ≤ 2 * most_bytes }
{
    count_units(limited(text))
}

// The text as Rust has it, with the limit that its length tells of.
fn limited(text: &Text) -> &str
    ensures value { result.now ≡ text.now }
    ensures limit { 5 + length result.now ≤ most_bytes }
{
    let _ = text.len();
    text.as_str()
}

// `x.includes(part)`
fn include(of: &Value, with: &Value) -> Result<Value, Stop>
    ensures { Gives (includes (tree_of of.now) (tree_of with.now)) result }
{
    match (of, with) {
        (Value::List(list), _) => has_item(list, with),
        (Value::Text(text), Value::Text(part)) => {
            Ok(Value::Bool(contains(text.as_str(), part.as_str())))
        }
        _ => Err(Stop::Throws(Refusal::WrongType)),
    }
}

// `x.indexOf(part)`
fn index(of: &Value, with: &Value) -> Result<Value, Stop>
    ensures { Gives (index_of (tree_of of.now) (tree_of with.now)) result }
{
    match of {
        Value::List(list) => find_item(list, with),
        _ => Err(Stop::Throws(Refusal::WrongType)),
    }
}

// `x.slice(start, end)`
fn slice(alloc: Global, of: &Value, start: &Value, end: &Value) -> Result<Value, Stop>
    ensures { Gives (slice (tree_of of.now) (tree_of start.now) (tree_of end.now)) result }
{
    match of {
        Value::List(list) => slice_list(alloc, list, start, end),
        _ => Err(Stop::Throws(Refusal::WrongType)),
    }
}

// `x.startsWith(part)`
fn test_start(of: &Value, with: &Value) -> Result<Value, Stop>
    ensures { Gives (on_texts (starts_with nat_eq) (tree_of of.now) (tree_of with.now)) result }
{
    match (of, with) {
        (Value::Text(text), Value::Text(part)) => {
            Ok(Value::Bool(begins(text.as_str(), part.as_str())))
        }
        _ => Err(Stop::Throws(Refusal::WrongType)),
    }
}

// `x.endsWith(part)`
fn test_end(of: &Value, with: &Value) -> Result<Value, Stop>
    ensures { Gives (on_texts (ends_with nat_eq) (tree_of of.now) (tree_of with.now)) result }
{
    match (of, with) {
        (Value::Text(text), Value::Text(part)) => {
            Ok(Value::Bool(ends(text.as_str(), part.as_str())))
        }
        _ => Err(Stop::Throws(Refusal::WrongType)),
    }
}

// `x.split(separator)`
fn split(alloc: Global, of: &Value, with: &Value) -> Result<Value, Stop>
    ensures { Gives (split (tree_of of.now) (tree_of with.now)) result }
{
    match (of, with) {
        (Value::Text(text), Value::Text(separator)) => split_by(alloc, text, separator),
        _ => Err(Stop::Throws(Refusal::WrongType)),
    }
}

// The same of two texts.
fn split_by(alloc: Global, text: &Text, separator: &Text) -> Result<Value, Stop>
    ensures { Gives (split (text_tree text.now) (text_tree separator.now)) result }
{
    if separator.is_empty() {
        return Err(Stop::Throws(Refusal::NoSeparator));
    }
    split_text(alloc, limited(text), separator.as_str())
}

// `Object.keys(x)`
fn keys(alloc: Global, of: &Value) -> Result<Value, Stop>
    ensures { Gives (keys (tree_of of.now)) result }
{
    match of {
        Value::Rec(record) => list_keys(alloc, record),
        _ => Err(Stop::Throws(Refusal::WrongType)),
    }
}

// `Array.isArray(x)`
fn is_array(of: &Value) -> bool
    ensures { result ≡ is_array (tree_of of.now) }
{
    matches!(of, Value::List(_))
}

// `String(x)`
fn to_text(alloc: Global, of: &Value) -> Result<Value, Stop>
    ensures { Gives (on_text (λ bytes. Ok (text_tree bytes)) (printed (tree_of of.now))) result }
{
    match of {
        Value::Text(text) => Ok(Value::Text(text.copy()?)),
        _ => short_text(alloc, of),
    }
}

// The text of a value that is no text itself.
fn short_text(alloc: Global, of: &Value) -> Result<Value, Stop>
    requires { is_text (tree_of of.now) ≡ false }
    ensures { Gives (on_text (λ bytes. Ok (text_tree bytes)) (printed (tree_of of.now))) result }
{
    let text = print(alloc, of)?;
    text_value(alloc, text.as_str())
}

// `Number(x)`
fn to_number(of: &Value) -> Result<Value, Stop>
    ensures { Gives (to_number (tree_of of.now)) result }
{
    match of {
        Value::Text(text) => parse(text.as_str()),
        _ => Err(Stop::Throws(Refusal::WrongType)),
    }
}

// `new Error(message)`, or `new Error()`
fn make_error(alloc: Global, args: &[Value]) -> Result<Value, Stop>
    ensures { Gives (make_error (trees_in args.now)) result }
{
    match args.first() {
        Some(message) => error_with(alloc, message),
        None => empty_error(alloc),
    }
}

// `new Error(message)`
fn error_with(alloc: Global, message: &Value) -> Result<Value, Stop>
    ensures { Gives (on_text (λ m. within_limits (error_record (codes "Error") m))
        (printed (tree_of message.now))) result }
{
    let message = print(alloc, message)?;
    let name = word(alloc, "Error")?;
    error_value(alloc, name, Text::new(alloc, message.as_str())?)
}

// `new Error()`
fn empty_error(alloc: Global) -> Result<Value, Stop>
    ensures { Gives (make_error []) result }
{
    let name = word(alloc, "Error")?;
    error_value(alloc, name, word(alloc, "")?)
}
