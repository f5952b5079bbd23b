//! Writes into the value of a variable.
ghost use Rattle.std.specs.Prelude.{◌≡◌, IfOk, IfErr, OnOk, Ok};
ghost use Rattle.do_value.specs.Seen.{tree_of};
ghost use Rattle.do_value.specs.Tree.{undefined};
ghost use Rattle.script_mean.specs.Places.{put, push};
ghost use Rattle.script_places.specs.Steps.{steps_in, change_of};
ghost use Rattle.script_places.specs.Changes.{Writes, Allows, limits_of};
ghost use Rattle.script_places.specs.Writes.{written, IsThrown, Keeps};

use crate::change::change;
use crate::size::size_after;
use crate::step::{Step, Write, levels};
use do_value::{MOST_BYTES, MOST_LEVELS, Value};
use script_ops::{OpFault, Refusal, Stop, fault_of};
use std::alloc::Global;

/// `=` puts the value in place of the part at the end of the steps, or as a new field, or as a new item behind the last.
/// It throws what the first step throws that can't be read (`TypeError` `property` or `index`); then, from the last step
/// back, that of a step to what can't be written (`TypeError` `property` or `index`, `RangeError` `index` before the first
/// item and past the place behind the last); then `RangeError` `depth`, or else `size`, where the whole would pass the
/// limits of values. No list or record is copied that is changed. After want of memory the whole may have lost parts.
pub fn assign(alloc: Global, whole: &mut Value, steps: &[Step], value: Value) -> Result<(), OpFault>
    ensures value { OnOk result (written (steps_in steps.now) (put (tree_of value)) (tree_of whole.old)
        ≡ Ok (tree_of whole.new, undefined)) }
    ensures thrown { IfErr result (IsThrown (written (steps_in steps.now) (put (tree_of value)) (tree_of whole.old))) }
    ensures kept { IfErr result (Keeps whole.old whole.new) }
{
    match write(whole, steps, Write::Put(value)) {
        Ok(_) => Ok(()),
        Err(stop) => Err(fault_of(alloc, stop)),
    }
}

/// `push` puts the value behind the last item of the list at the end of the steps, and gives how many items there are
/// then. It throws as [`assign`] does, and `TypeError` `type` where the steps can be read and lead to no list.
pub fn push(
    alloc: Global,
    whole: &mut Value,
    steps: &[Step],
    value: Value,
) -> Result<Value, OpFault>
    ensures value { IfOk result (λ count. written (steps_in steps.now) (push (tree_of value)) (tree_of whole.old)
        ≡ Ok (tree_of whole.new, tree_of count)) }
    ensures thrown { IfErr result (IsThrown (written (steps_in steps.now) (push (tree_of value)) (tree_of whole.old))) }
    ensures kept { IfErr result (Keeps whole.old whole.new) }
{
    match write(whole, steps, Write::Push(value)) {
        Ok(count) => Ok(count),
        Err(stop) => Err(fault_of(alloc, stop)),
    }
}

// Writes, once it is known that the write isn't refused.
fn write(whole: &mut Value, steps: &[Step], write: Write) -> Result<Value, Stop>
    ensures { Writes tree_of (written (steps_in steps.now) (change_of write) (tree_of whole.old)) whole.old whole.new result }
{
    allow(whole, steps, &write)?;
    change(whole, steps, write)
}

// Whether the write makes something within the limits, or why not.
fn allow(whole: &Value, steps: &[Step], write: &Write) -> Result<(), Refusal>
    ensures { Allows (written (steps_in steps.now) (change_of write.now) (tree_of whole.now)) result }
{
    let size = size_after(whole, steps, write)?;
    let depth = steps.len().saturating_add(levels(write) as usize);
    // What isn't along the steps is as deep as before, within the limit.
    let _ = whole.depth();
    within_limits(size, depth)
}

/// Whether what has this size, and has this depth along the changed part, is within the limits of values.
pub(crate) fn within_limits(size: u64, depth: usize) -> Result<(), Refusal>
    ensures { result ≡ limits_of size depth }
{
    if depth > MOST_LEVELS as usize {
        Err(Refusal::TooDeep)
    } else if size > MOST_BYTES {
        Err(Refusal::TooLarge)
    } else {
        Ok(())
    }
}
