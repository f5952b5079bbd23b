//! How values print, how long texts are, and what stands in them.
ghost use Rattle.std.specs.Prelude.{◌≡◌, ◌+◌, ◌*◌, ◌<◌, ◌≤◌, nat_eq, [], ◌∷◌, ◌++◌, map, length, false, string_bytes, IfOk, OnOk};
ghost use Rattle.std.specs.List.{starts_with, ends_with};
ghost use Rattle.do_value.specs.Limits.{most_bytes};
ghost use Rattle.do_value.specs.Seen.{tree_of, trees_in};
ghost use Rattle.do_value.specs.Tree.{text as text_tree, items};
ghost use Rattle.script_ops.specs.Answers.{Gives, Prints};
ghost use Rattle.script_ops.specs.Binary.{is_text, joined};
ghost use Rattle.script_ops.specs.Errors.{within_limits};
ghost use Rattle.script_ops.specs.Texts.{printed, units, unit_count, occurs, pieces, number_in};

use crate::errors::{list_value, text_value, word};
use crate::fault::Stop;
use crate::numbers::ranged;
use crate::refusal::Refusal;
use do_value::{MOST_BYTES, Mem, NoMemory, Text, Value};
use std::alloc::Global;

/// The text of a value that has one.
pub(crate) fn print(alloc: Global, value: &Value) -> Result<String, Stop>
    ensures text { Prints (printed (tree_of value.now)) result }
    ensures short { IfOk result (λ s. is_text (tree_of value.now) ≡ false → length (string_bytes s) ≤ 32) }
{
    match value {
        Value::Undefined => Ok(String::from_str(alloc, "undefined")?),
        Value::Null => Ok(String::from_str(alloc, "null")?),
        Value::Bool(false) => Ok(String::from_str(alloc, "false")?),
        Value::Bool(true) => Ok(String::from_str(alloc, "true")?),
        Value::Num(n) => Ok(n.get().to_string(alloc)?),
        Value::Text(text) => Ok(String::from_str(alloc, text.as_str())?),
        Value::List(_) | Value::Rec(_) => Err(Stop::Throws(Refusal::WrongType)),
    }
}

/// The texts of two values, joined.
pub(crate) fn join(alloc: Global, a: &Value, b: &Value) -> Result<Value, Stop>
    ensures { Gives (joined (printed (tree_of a.now)) (printed (tree_of b.now))) result }
{
    let mut text = print(alloc, a)?;
    let more = print(alloc, b)?;
    text.push_str(more.as_str())?;
    text_value(alloc, text.as_str())
}

/// How many units of UTF-16 the text has.
pub(crate) fn count_units(text: &str) -> usize
    requires { length text.now ≤ most_bytes }
    ensures units { result ≡ unit_count text.now }
    ensures limit { result ≤ 2 * length text.now }
{
    let mut count = 0;
    for byte in text.as_bytes() {
        count += units_of(*byte);
    }
    count
}

// How many units of UTF-16 the character has that begins with the byte.
fn units_of(byte: u8) -> usize
    ensures units { result ≡ units byte }
    ensures limit { result ≤ 2 }
{
    match byte {
        0..128 => 1,
        128..192 => 0,
        192..240 => 1,
        240.. => 2,
    }
}

/// Whether the part stands in the text.
pub(crate) fn contains(text: &str, part: &str) -> bool
    ensures { result ≡ occurs part.now text.now }
{
    text.contains(part)
}

/// Whether the text begins with the part.
pub(crate) fn begins(text: &str, part: &str) -> bool
    ensures { result ≡ starts_with nat_eq text.now part.now }
{
    text.starts_with(part)
}

/// Whether the text ends with the part.
pub(crate) fn ends(text: &str, part: &str) -> bool
    ensures { result ≡ ends_with nat_eq text.now part.now }
{
    text.ends_with(part)
}

/// The pieces of the text between the places of the separator.
pub(crate) fn split(alloc: Global, text: &str, separator: &str) -> Result<Value, Stop>
    requires some { 0 < length separator.now }
    requires limit { 5 + length text.now ≤ most_bytes }
    ensures { Gives (within_limits (items (map text_tree (pieces separator.now text.now)))) result }
{
    let mut parts = Vec::new(alloc);
    let mut size = 5;
    let mut rest = text;
    while let Some((piece, after)) = rest.split_once(separator) {
        push_text(&mut parts, word(alloc, piece)?)?;
        size += 5 + piece.len() as u64;
        if size > MOST_BYTES {
            return Err(Stop::Throws(Refusal::TooLarge));
        }
        rest = after;
    }
    push_text(&mut parts, word(alloc, rest)?)?;
    list_value(parts)
}

/// One text more.
pub(crate) fn push_text(texts: &mut Vec<Value>, text: Text) -> Mem<()>
    ensures { OnOk result (trees_in texts.new.items ≡ trees_in texts.old.items ++ text_tree text ∷ []) }
{
    match texts.push(Value::Text(text)) {
        Ok(()) => Ok(()),
        Err(_) => Err(NoMemory),
    }
}

/// The number that the text writes.
pub(crate) fn parse(text: &str) -> Result<Value, Stop>
    ensures { Gives (number_in text.now) result }
{
    if text.starts_with('+') {
        return Err(Stop::Throws(Refusal::NoNumber));
    }
    match text.parse::<i64>() {
        Ok(n) => ranged(n),
        Err(_) => Err(Stop::Throws(Refusal::NoNumber)),
    }
}
