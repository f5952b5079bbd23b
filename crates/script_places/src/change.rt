//! Values that are changed in place: the part is taken out, changed, and put back. All items of a list on the way are
//! visited only where the part is deeper than each other item, and so are the pairs of a record; a new field moves the
//! pairs behind it; the name of each field on the way is copied.
ghost use Rattle.std.specs.Prelude.{◌≡◌, pos, Ok, IfOk, OnOk, IfErr};
ghost use Rattle.do_value.specs.Keyed.{value_at};
ghost use Rattle.do_value.specs.Seen.{tree_of};
ghost use Rattle.do_value.specs.Tree.{Tree, items as list_tree, fields as record_tree};
ghost use Rattle.script_mean.specs.Places.{at_part, with_part, with_item, with_field, named, indexed, item, or_undefined, push};
ghost use Rattle.script_places.specs.Steps.{step_of, steps_in, change_of};
ghost use Rattle.script_places.specs.Changes.{Changes, Puts, IsTaken};

use crate::part::{count_items, is_end};
use crate::step::{Step, Write, place_of};
use do_value::{Fields, Items, Num, Text, Value};
use script_ops::{Refusal, Stop};

/// Changes the part at the end of the steps, and gives what the write gives. Where that is refused, or memory is wanted,
/// the value may have lost parts: whether it is refused is found before. It calls itself for each step, as `part_at` does.
pub(crate) fn change(value: &mut Value, steps: &[Step], write: Write) -> Result<Value, Stop>
    ensures { Changes (at_part (steps_in steps.now) (change_of write) (tree_of value.old)) (tree_of value.new) result }
{
    match steps.split_first() {
        None => change_here(value, write),
        Some((step, rest)) => {
            let mut part = take_part(value, step)?;
            let given = change(&mut part, rest, write)?;
            put_part(value, step, part)?;
            Ok(given)
        }
    }
}

// Changes the value itself.
fn change_here(value: &mut Value, write: Write) -> Result<Value, Stop>
    ensures { Changes (change_of write (tree_of value.old)) (tree_of value.new) result }
{
    match write {
        Write::Put(new) => {
            *value = new;
            Ok(Value::Undefined)
        }
        Write::Push(new) => push_here(value, new),
    }
}

// Puts the value behind the last item of a list, and gives how many there are.
fn push_here(value: &mut Value, new: Value) -> Result<Value, Stop>
    ensures { Changes (push (tree_of new) (tree_of value.old)) (tree_of value.new) result }
{
    match value {
        Value::List(items) => push_item(items, new),
        _ => Err(Stop::Throws(Refusal::WrongType)),
    }
}

// The same of the list.
fn push_item(items: &mut Items, new: Value) -> Result<Value, Stop>
    ensures { Changes (push (tree_of new) (list_tree items.old)) (list_tree items.new) result }
{
    items.push(new)?;
    let count = count_items(items);
    Ok(Value::Num(count))
}

// Takes out the part that the step leads to, and leaves `undefined` in its place, if it has one.
fn take_part(value: &mut Value, step: &Step) -> Result<Value, Stop>
    ensures { IsTaken (tree_of value.old) (tree_of value.new) (step_of step.now) result }
{
    match step {
        Step::Named(name) => take_named(value, name),
        Step::Indexed(index) => take_indexed(value, index),
    }
}

// The same of a field by its name.
fn take_named(value: &mut Value, name: &Text) -> Result<Value, Stop>
    ensures { IsTaken (tree_of value.old) (tree_of value.new) (named name.now) result }
{
    match value {
        Value::Rec(fields) => take_field(fields, name),
        _ => Err(Stop::Throws(Refusal::NoProperty)),
    }
}

// The same of what an index names.
fn take_indexed(value: &mut Value, index: &Value) -> Result<Value, Stop>
    ensures { IsTaken (tree_of value.old) (tree_of value.new) (indexed (tree_of index.now)) result }
{
    match value {
        Value::List(items) => take_from_list(items, index),
        Value::Rec(fields) => take_from_record(fields, index),
        _ => Err(Stop::Throws(Refusal::WrongIndex)),
    }
}

// The same of a list.
fn take_from_list(items: &mut Items, index: &Value) -> Result<Value, Stop>
    ensures { IsTaken (list_tree items.old) (list_tree items.new) (indexed (tree_of index.now)) result }
{
    match index {
        Value::Num(n) => take_item(items, *n),
        _ => Err(Stop::Throws(Refusal::WrongIndex)),
    }
}

// The same of a record.
fn take_from_record(fields: &mut Fields, index: &Value) -> Result<Value, Stop>
    ensures { IsTaken (record_tree fields.old) (record_tree fields.new) (indexed (tree_of index.now)) result }
{
    match index {
        Value::Text(name) => take_field(fields, name),
        _ => Err(Stop::Throws(Refusal::WrongIndex)),
    }
}

/// Takes out the field, `undefined` where there is none.
pub(crate) fn take_field(fields: &mut Fields, name: &Text) -> Result<Value, Stop>
    ensures taken { IfOk result (λ v. tree_of v ≡ or_undefined (value_at name.now fields.old)) }
    ensures rest { OnOk result ((t : Tree) → with_field name.now t fields.new ≡ with_field name.now t fields.old) }
    ensures no_room { IfErr result (λ stop. stop ≡ Stop.NoRoom) }
{
    let taken = fields.take(name.as_str())?;
    match taken {
        Some(value) => Ok(value),
        None => Ok(Value::Undefined),
    }
}

// Takes out the item, `undefined` where there is none.
fn take_item(items: &mut Items, n: Num) -> Result<Value, Stop>
    ensures taken { IfOk result (λ v. tree_of v ≡ item items.old n) }
    ensures rest { OnOk result ((t : Tree) → with_item items.new n t ≡ with_item items.old n t) }
    ensures no_room { IfErr result (λ stop. stop ≡ Stop.NoRoom) }
{
    match place_of(n) {
        Some(place) => take_place(items, place),
        None => Ok(Value::Undefined),
    }
}

// The same by its place.
fn take_place(items: &mut Items, place: usize) -> Result<Value, Stop>
    ensures taken { IfOk result (λ v. tree_of v ≡ item items.old (pos place)) }
    ensures rest { OnOk result ((t : Tree) → with_item items.new (pos place) t ≡ with_item items.old (pos place) t) }
    ensures no_room { IfErr result (λ stop. stop ≡ Stop.NoRoom) }
{
    let taken = items.take(place)?;
    match taken {
        Some(value) => Ok(value),
        None => Ok(Value::Undefined),
    }
}

// Puts the part where the step leads to.
fn put_part(value: &mut Value, step: &Step, part: Value) -> Result<(), Stop>
    ensures { Puts (with_part (tree_of value.old) (step_of step.now) (tree_of part)) (tree_of value.new) result }
{
    match step {
        Step::Named(name) => put_named(value, name, part),
        Step::Indexed(index) => put_indexed(value, index, part),
    }
}

// Puts the field.
fn put_named(value: &mut Value, name: &Text, part: Value) -> Result<(), Stop>
    ensures { Puts (with_part (tree_of value.old) (named name.now) (tree_of part)) (tree_of value.new) result }
{
    match value {
        Value::Rec(fields) => put_field(fields, name, part),
        _ => Err(Stop::Throws(Refusal::NoProperty)),
    }
}

// Puts what an index names.
fn put_indexed(value: &mut Value, index: &Value, part: Value) -> Result<(), Stop>
    ensures { Puts (with_part (tree_of value.old) (indexed (tree_of index.now)) (tree_of part)) (tree_of value.new) result }
{
    match value {
        Value::List(items) => put_into_list(items, index, part),
        Value::Rec(fields) => put_into_record(fields, index, part),
        _ => Err(Stop::Throws(Refusal::WrongIndex)),
    }
}

// The same of a list.
fn put_into_list(items: &mut Items, index: &Value, part: Value) -> Result<(), Stop>
    ensures { Puts (with_part (list_tree items.old) (indexed (tree_of index.now)) (tree_of part)) (list_tree items.new) result }
{
    match index {
        Value::Num(n) => put_item(items, *n, part),
        _ => Err(Stop::Throws(Refusal::WrongIndex)),
    }
}

// The same of a record.
fn put_into_record(fields: &mut Fields, index: &Value, part: Value) -> Result<(), Stop>
    ensures { Puts (with_part (record_tree fields.old) (indexed (tree_of index.now)) (tree_of part)) (record_tree fields.new) result }
{
    match index {
        Value::Text(name) => put_field(fields, name, part),
        _ => Err(Stop::Throws(Refusal::WrongIndex)),
    }
}

/// Puts the field in place of the one of its name, if there is one.
pub(crate) fn put_field(fields: &mut Fields, name: &Text, part: Value) -> Result<(), Stop>
    ensures { Puts (Ok (record_tree (with_field name.now (tree_of part) fields.old))) (record_tree fields.new) result }
{
    let name = name.copy()?;
    fields.put(name, part)?;
    Ok(())
}

// Puts the item in place of the one that the number names, or behind the last.
fn put_item(items: &mut Items, n: Num, part: Value) -> Result<(), Stop>
    ensures { Puts (with_item items.old n (tree_of part)) (list_tree items.new) result }
{
    match place_of(n) {
        Some(place) => put_place(items, place, part),
        None => Err(Stop::Throws(Refusal::NoIndex)),
    }
}

// The same by its place.
fn put_place(items: &mut Items, place: usize, part: Value) -> Result<(), Stop>
    ensures { Puts (with_item items.old (pos place) (tree_of part)) (list_tree items.new) result }
{
    if place < items.len() {
        items.put(place, part)?;
        Ok(())
    } else if is_end(items, place) {
        items.push(part)?;
        Ok(())
    } else {
        Err(Stop::Throws(Refusal::NoIndex))
    }
}
