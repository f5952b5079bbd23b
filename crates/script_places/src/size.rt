//! How large a value is after a write, found before anything is changed. Sizes are at hand, so that only the pairs of the
//! records on the way are walked, to the one of the name.
ghost use Rattle.std.specs.Prelude.{◌≡◌, ◌≤◌, pos, length};
ghost use Rattle.do_value.specs.Limits.{told};
ghost use Rattle.do_value.specs.Seen.{tree_of};
ghost use Rattle.do_value.specs.Sound.{IsValue};
ghost use Rattle.do_value.specs.Tree.{Tree, size_of, items as list_tree, fields as record_tree};
ghost use Rattle.script_mean.specs.Places.{at_part, with_part, with_item, with_field, named, indexed};
ghost use Rattle.script_places.specs.Steps.{step_of, steps_in, change_of};
ghost use Rattle.script_places.specs.Changes.{Sizes, whole_of};

use crate::part::{held, is_end, part_of, value_of};
use crate::step::{Step, Write, place_of};
use do_value::{Fields, Items, Num, Text, Value};
use script_ops::Refusal;

/// How many bytes the value has after the write, or u64's greatest value where they pass it, or why the write makes
/// nothing. The limits aren't tested. It calls itself for each step, as `part_at` does.
pub(crate) fn size_after(value: &Value, steps: &[Step], write: &Write) -> Result<u64, Refusal>
    ensures { Sizes (whole_of (at_part (steps_in steps.now) (change_of write.now) (tree_of value.now))) result }
{
    match steps.split_first() {
        None => size_written(value, write),
        Some((step, rest)) => {
            let part = part_of(value, step)?;
            let size = size_after(value_of(&part), rest, write)?;
            size_with(value, step, size)
        }
    }
}

// How many bytes the value has that the write puts at the end of its steps.
fn size_written(value: &Value, write: &Write) -> Result<u64, Refusal>
    ensures { Sizes (whole_of (change_of write.now (tree_of value.now))) result }
{
    match write {
        Write::Put(new) => Ok(new.size()),
        Write::Push(new) => match value {
            Value::List(items) => Ok(items.size() + new.size()),
            _ => Err(Refusal::WrongType),
        },
    }
}

// How many bytes the value has with a part of this size in place of its own.
fn size_with(value: &Value, step: &Step, size: u64) -> Result<u64, Refusal>
    ensures { (t : Tree) → size ≡ told (size_of t)
        → Sizes (with_part (tree_of value.now) (step_of step.now) t) result }
{
    match step {
        Step::Named(name) => size_named(value, name, size),
        Step::Indexed(index) => size_indexed(value, index, size),
    }
}

// The same of a field by its name.
fn size_named(value: &Value, name: &Text, size: u64) -> Result<u64, Refusal>
    ensures { (t : Tree) → size ≡ told (size_of t) → Sizes (with_part (tree_of value.now) (named name.now) t) result }
{
    match value {
        Value::Rec(fields) => Ok(size_with_field(fields, name, size)),
        _ => Err(Refusal::NoProperty),
    }
}

// The same of what an index names.
fn size_indexed(value: &Value, index: &Value, size: u64) -> Result<u64, Refusal>
    ensures { (t : Tree) → size ≡ told (size_of t)
        → Sizes (with_part (tree_of value.now) (indexed (tree_of index.now)) t) result }
{
    match (value, index) {
        (Value::List(items), Value::Num(n)) => size_with_item(items, *n, size),
        (Value::Rec(fields), Value::Text(name)) => Ok(size_with_field(fields, name, size)),
        _ => Err(Refusal::WrongIndex),
    }
}

// How many bytes the list has with an item of this size at the place, or behind the last.
fn size_with_item(items: &Items, n: Num, size: u64) -> Result<u64, Refusal>
    ensures { (t : Tree) → size ≡ told (size_of t) → Sizes (with_item items.now n t) result }
{
    match place_of(n) {
        Some(place) => size_with_place(items, place, size),
        None => Err(Refusal::NoIndex),
    }
}

// The same by its place.
fn size_with_place(items: &Items, place: usize, size: u64) -> Result<u64, Refusal>
    ensures { (t : Tree) → size ≡ told (size_of t) → Sizes (with_item items.now (pos place) t) result }
{
    match held(items, place) {
        Some(old) => Ok((items.size() - old.size()).saturating_add(size)),
        None => size_with_more(items, place, size),
    }
}

// The same where the list has no item at the place.
fn size_with_more(items: &Items, place: usize, size: u64) -> Result<u64, Refusal>
    requires { length items.now ≤ place }
    ensures { (t : Tree) → size ≡ told (size_of t) → Sizes (with_item items.now (pos place) t) result }
{
    if is_end(items, place) {
        Ok(items.size().saturating_add(size))
    } else {
        Err(Refusal::NoIndex)
    }
}

/// How many bytes the record has with a field of this size in place of the one of the name, if there is one.
pub(crate) fn size_with_field(fields: &Fields, name: &Text, size: u64) -> u64
    ensures size { (t : Tree) → size ≡ told (size_of t)
        → result ≡ told (size_of (record_tree (with_field name.now t fields.now))) }
    ensures within { IsValue (record_tree fields.now) }
{
    match fields.get(name.as_str()) {
        Some(old) => (fields.size() - old.size()).saturating_add(size),
        None => (fields.size() + 4 + name.len()).saturating_add(size),
    }
}
