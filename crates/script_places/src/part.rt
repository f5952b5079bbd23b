//! The part of a value that a step leads to.
ghost use Rattle.std.specs.Prelude.{◌≡◌, ◌==◌, ◌*◌, ◌≤◌, Ok, pos, length, option_map, slice_get};
ghost use Rattle.do_value.specs.Keyed.{value_at};
ghost use Rattle.do_value.specs.Limits.{most_bytes};
ghost use Rattle.do_value.specs.Seen.{tree_of};
ghost use Rattle.do_value.specs.Tree.{text as text_tree, items as list_tree};
ghost use Rattle.script_mean.specs.Places.{item, element, part, property, or_undefined};
ghost use Rattle.script_places.specs.Reads.{is_length, tree_in, Reads};
ghost use Rattle.script_places.specs.Steps.{step_of};

use crate::step::{Step, place_of};
use do_value::{Fields, Items, Num, RangeNum, Text, Value};
use script_ops::{Refusal, unit_count};

/// A part of a value.
#[derive(Debug, Drop)]
pub(crate) enum Part<'a> {
    /// One that the value holds.
    Held(&'a Value),
    /// One that it doesn't hold: `undefined` for what is absent, or a length.
    Made(Value),
}

/// The part as a value.
pub(crate) fn value_of<'a>(part: &'a Part<'_>) -> &'a Value
    ensures { tree_of result.now ≡ tree_in part.now }
{
    match part {
        Part::Held(value) => value,
        Part::Made(value) => value,
    }
}

/// The part that the step leads to.
pub(crate) fn part_of<'a>(value: &'a Value, step: &Step) -> Result<Part<'a>, Refusal>
    ensures { Reads (part (tree_of value.now) (step_of step.now)) result }
{
    match step {
        Step::Named(name) => named(value, name.as_str()),
        Step::Indexed(index) => indexed(value, index),
    }
}

/// `x.name`
pub(crate) fn named<'a>(value: &'a Value, name: &str) -> Result<Part<'a>, Refusal>
    ensures { Reads (property (tree_of value.now) name.now) result }
{
    match value {
        Value::Undefined | Value::Null => Err(Refusal::NoProperty),
        Value::Bool(_) | Value::Num(_) => Ok(Part::Made(Value::Undefined)),
        Value::Text(text) => Ok(Part::Made(of_text(text, name))),
        Value::List(items) => Ok(Part::Made(of_list(items, name))),
        Value::Rec(fields) => Ok(field(fields, name)),
    }
}

/// `x[index]`
pub(crate) fn indexed<'a>(value: &'a Value, index: &Value) -> Result<Part<'a>, Refusal>
    ensures { Reads (element (tree_of value.now) (tree_of index.now)) result }
{
    match (value, index) {
        (Value::List(items), Value::Num(n)) => Ok(item(items, *n)),
        (Value::Rec(fields), Value::Text(name)) => Ok(field(fields, name.as_str())),
        _ => Err(Refusal::WrongIndex),
    }
}

/// The field of the name, or `undefined`.
pub(crate) fn field<'a>(fields: &'a Fields, name: &str) -> Part<'a>
    ensures { tree_in result ≡ or_undefined (value_at name.now fields.now) }
{
    match fields.get(name) {
        Some(value) => Part::Held(value),
        None => Part::Made(Value::Undefined),
    }
}

// The item that the number names, or `undefined`.
fn item<'a>(items: &'a Items, n: Num) -> Part<'a>
    ensures { tree_in result ≡ item items.now n }
{
    match place_of(n) {
        Some(place) => item_at(items, place),
        None => Part::Made(Value::Undefined),
    }
}

// The item at the place, or `undefined`.
fn item_at<'a>(items: &'a Items, place: usize) -> Part<'a>
    ensures { tree_in result ≡ item items.now (pos place) }
{
    match held(items, place) {
        Some(value) => Part::Held(value),
        None => Part::Made(Value::Undefined),
    }
}

/// The item at the place.
pub(crate) fn held<'a>(items: &'a Items, place: usize) -> Option<&'a Value>
    ensures { option_map (λ value. tree_of value.now) result ≡ slice_get items.now place }
{
    items.as_slice().get(place)
}

// `x.name` of a text
fn of_text(text: &Text, name: &str) -> Value
    ensures { property (text_tree text.now) name.now ≡ Ok (tree_of result) }
{
    if is_length(name) {
        Value::Num(count(unit_count(text)))
    } else {
        Value::Undefined
    }
}

// `x.name` of a list
fn of_list(items: &Items, name: &str) -> Value
    ensures { property (list_tree items.now) name.now ≡ Ok (tree_of result) }
{
    if is_length(name) {
        Value::Num(count_items(items))
    } else {
        Value::Undefined
    }
}

// Whether the name is `length`.
fn is_length(name: &str) -> bool
    ensures { result ≡ is_length name.now }
{
    name == "length"
}

/// How many items the list has.
pub(crate) fn count_items(items: &Items) -> Num
    ensures { result ≡ pos (length items.now) }
{
    count(items.as_slice().len())
}

/// Whether the place is the one behind the last item of the list.
pub(crate) fn is_end(items: &Items, place: usize) -> bool
    ensures { result ≡ (place == length items.now) }
{
    place == items.len()
}

// A count of parts or of units of a value.
fn count(n: usize) -> Num
    requires { n ≤ 2 * most_bytes }
    ensures { result ≡ pos n }
{
    match Num::new(n as i64) {
        Ok(n) => n,
        Err(RangeNum) => unreachable!(),
    }
}
