//! Writes into the fields of an object itself.
ghost use Rattle.std.specs.Prelude.{◌≡◌, IfOk, IfErr, OnOk, Ok};
ghost use Rattle.do_value.specs.Keyed.{value_at};
ghost use Rattle.do_value.specs.Seen.{tree_of};
ghost use Rattle.do_value.specs.Tree.{undefined};
ghost use Rattle.script_mean.specs.Places.{at_part, put, push, or_undefined};
ghost use Rattle.script_places.specs.Steps.{steps_in, change_of};
ghost use Rattle.script_places.specs.Changes.{Writes, Allows, OwnChanges};
ghost use Rattle.script_places.specs.Writes.{own_written, IsThrown, Keeps};

use crate::change::{change, put_field, take_field};
use crate::part::{field, value_of};
use crate::size::{size_after, size_with_field};
use crate::step::{Step, Write, levels};
use crate::writes::within_limits;
use do_value::{Fields, Text, Value};
use script_ops::{OpFault, Refusal, Stop, fault_of};
use std::alloc::Global;

/// `=` to a field of the object itself, or to a part of it at the end of the steps. It throws as
/// [`assign`](crate::assign) does; the limits are tested of all fields as one record.
pub fn assign_own(
    alloc: Global,
    fields: &mut Fields,
    name: &Text,
    steps: &[Step],
    value: Value,
) -> Result<(), OpFault>
    ensures value { OnOk result (own_written name.now (steps_in steps.now) (put (tree_of value)) fields.old
        ≡ Ok (fields.new, undefined)) }
    ensures thrown { IfErr result (IsThrown (own_written name.now (steps_in steps.now) (put (tree_of value)) fields.old)) }
    ensures kept { IfErr result (Keeps fields.old fields.new) }
{
    match write_own(fields, name, steps, Write::Put(value)) {
        Ok(_) => Ok(()),
        Err(stop) => Err(fault_of(alloc, stop)),
    }
}

/// `push` to a field of the object itself, or to a part of it at the end of the steps, as [`push`](crate::push).
pub fn push_own(
    alloc: Global,
    fields: &mut Fields,
    name: &Text,
    steps: &[Step],
    value: Value,
) -> Result<Value, OpFault>
    ensures value { IfOk result (λ count. own_written name.now (steps_in steps.now) (push (tree_of value)) fields.old
        ≡ Ok (fields.new, tree_of count)) }
    ensures thrown { IfErr result (IsThrown (own_written name.now (steps_in steps.now) (push (tree_of value)) fields.old)) }
    ensures kept { IfErr result (Keeps fields.old fields.new) }
{
    match write_own(fields, name, steps, Write::Push(value)) {
        Ok(count) => Ok(count),
        Err(stop) => Err(fault_of(alloc, stop)),
    }
}

// Writes, once it is known that the write isn't refused.
fn write_own(fields: &mut Fields, name: &Text, steps: &[Step], write: Write) -> Result<Value, Stop>
    ensures { Writes (λ ps. ps) (own_written name.now (steps_in steps.now) (change_of write) fields.old) fields.old fields.new result }
{
    allow_own(fields, name, steps, &write)?;
    change_own(fields, name, steps, write)
}

// Whether the write makes fields within the limits, or why not.
fn allow_own(fields: &Fields, name: &Text, steps: &[Step], write: &Write) -> Result<(), Refusal>
    ensures { Allows (own_written name.now (steps_in steps.now) (change_of write.now) fields.now) result }
{
    let part = field(fields, name.as_str());
    let size = size_after(value_of(&part), steps, write)?;
    let depth = steps.len().saturating_add(1 + levels(write) as usize);
    within_limits(size_with_field(fields, name, size), depth)
}

// Takes the field out, changes it and puts it back.
fn change_own(fields: &mut Fields, name: &Text, steps: &[Step], write: Write) -> Result<Value, Stop>
    ensures { OwnChanges (at_part (steps_in steps.now) (change_of write) (or_undefined (value_at name.now fields.old)))
        name.now fields.old fields.new result }
{
    let mut part = take_field(fields, name)?;
    let given = change(&mut part, steps, write)?;
    put_field(fields, name, part)?;
    Ok(given)
}
