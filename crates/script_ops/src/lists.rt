//! Lists and records: their parts, and lists made of them.
ghost use Rattle.std.specs.Prelude.{◌≡◌, ◌≤◌, length, slice_range, IfSome, IfOk};
ghost use Rattle.std.specs.List.{position_from};
ghost use Rattle.do_value.specs.Seen.{tree_of, trees_in};
ghost use Rattle.do_value.specs.Tree.{items, fields};
ghost use Rattle.script_ops.specs.Answers.{Gives};
ghost use Rattle.script_ops.specs.Calls.{slice, keys, index_of, includes, length_of};
ghost use Rattle.script_ops.specs.Errors.{within_limits};
ghost use Rattle.script_ops.specs.Lists.{place_in, bound};
ghost use Rattle.script_ops.specs.Same.{same};

use crate::compare::equals;
use crate::errors::list_value;
use crate::fault::Stop;
use crate::numbers::{counted, ranged};
use crate::refusal::Refusal;
use crate::texts::push_text;
use do_value::{Fields, Items, Mem, NoMemory, Num, Value};
use std::alloc::Global;

/// How many items the list has.
pub(crate) fn count_items(list: &Items) -> Result<Value, Stop>
    ensures { Gives (length_of (items list.now)) result }
{
    counted(list.as_slice().len())
}

/// The record's field `length`.
pub(crate) fn length_field(of: &Fields) -> Result<Value, Stop>
    ensures { Gives (length_of (fields of.now)) result }
{
    match of.get("length") {
        Some(value) => Ok(value.copy()?),
        None => Ok(Value::Undefined),
    }
}

/// The place of the first item that is the same.
pub(crate) fn place_of(values: &[Value], part: &Value) -> Option<usize>
    ensures place { result ≡ position_from (same (tree_of part.now)) 0 (trees_in values.now) }
    ensures limit { IfSome result (λ i. i ≤ length values.now) }
{
    for (i, value) in values.iter().enumerate() {
        if equals(part, value) {
            return Some(i);
        }
    }
    None
}

/// The place of the first item that is the same, or -1.
pub(crate) fn find_item(list: &Items, part: &Value) -> Result<Value, Stop>
    ensures { Gives (index_of (items list.now) (tree_of part.now)) result }
{
    match place_of(list.as_slice(), part) {
        Some(i) => counted(i),
        None => ranged(-1),
    }
}

/// Whether an item is the same.
pub(crate) fn has_item(list: &Items, part: &Value) -> Result<Value, Stop>
    ensures { Gives (includes (items list.now) (tree_of part.now)) result }
{
    Ok(Value::Bool(place_of(list.as_slice(), part).is_some()))
}

/// The items from the start up to the end.
pub(crate) fn slice_list(
    alloc: Global,
    list: &Items,
    start: &Value,
    end: &Value,
) -> Result<Value, Stop>
    ensures { Gives (slice (items list.now) (tree_of start.now) (tree_of end.now)) result }
{
    let values = list.as_slice();
    let count = values.len();
    match (bound_of(count, 0, start), bound_of(count, count, end)) {
        (Some(from), Some(to)) => copy_part(alloc, values, from, to),
        _ => Err(Stop::Throws(Refusal::WrongType)),
    }
}

// The list of the items from one place up to another, none where they run backwards.
fn copy_part(alloc: Global, values: &[Value], from: usize, to: usize) -> Result<Value, Stop>
    requires from { from ≤ length values.now }
    requires to { to ≤ length values.now }
    ensures { Gives (within_limits (items (slice_range (trees_in values.now) from to))) result }
{
    if from < to {
        list_value(copy_all(alloc, &values[from..to])?)
    } else {
        list_value(Vec::new(alloc))
    }
}

// The same values again, in memory of their own.
fn copy_all(alloc: Global, values: &[Value]) -> Mem<Vec<Value>>
    ensures { IfOk result (λ copies. copies.items ≡ values.now) }
{
    let mut copies = Vec::new(alloc);
    for value in values {
        if copies.push(value.copy()?).is_err() {
            return Err(NoMemory);
        }
    }
    Ok(copies)
}

// An end of a slice of so many items.
fn bound_of(count: usize, standard: usize, end: &Value) -> Option<usize>
    requires { standard ≤ count }
    ensures bound { result ≡ bound count standard (tree_of end.now) }
    ensures limit { IfSome result (λ i. i ≤ count) }
{
    match end {
        Value::Undefined => Some(standard),
        Value::Num(n) => Some(cut_place(count, *n)),
        _ => None,
    }
}

// The place within so many items.
fn cut_place(count: usize, place: Num) -> usize
    ensures place { result ≡ place_in count place }
    ensures limit { result ≤ count }
{
    let place = place.get();
    if place < 0 {
        count.saturating_sub(place.unsigned_abs() as usize)
    } else {
        count.min(place as usize)
    }
}

/// The list of the record's keys.
pub(crate) fn list_keys(alloc: Global, of: &Fields) -> Result<Value, Stop>
    ensures { Gives (keys (fields of.now)) result }
{
    let mut texts = Vec::new(alloc);
    for (key, _) in of.as_slice() {
        push_text(&mut texts, key.copy()?)?;
    }
    list_value(texts)
}
