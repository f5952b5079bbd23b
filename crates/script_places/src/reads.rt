//! Reads of parts of values.
ghost use Rattle.std.specs.Prelude.{Result, Ok};
ghost use Rattle.do_value.specs.Seen.{tree_of};
ghost use Rattle.do_value.specs.Tree.{Tree};
ghost use Rattle.script_ops.specs.Answers.{Answers};
ghost use Rattle.script_mean.specs.Places.{property, element, part_at};
ghost use Rattle.script_places.specs.Reads.{Reads};
ghost use Rattle.script_places.specs.Steps.{steps_in};

use crate::part::{Part, indexed, named, part_of, value_of};
use crate::step::Step;
use do_value::{NoMemory, Value};
use script_ops::{OpFault, Refusal, thrown};
use std::alloc::Global;

/// `x.name`: a copy of a record's field, the length of a text or a list, or `undefined`. `null` and `undefined` have no
/// properties (`TypeError` `property`).
pub fn property(alloc: Global, value: &Value, name: &str) -> Result<Value, OpFault>
    ensures { Answers (property (tree_of value.now) name.now) result }
{
    finish(alloc, named(value, name))
}

/// `x[index]`: a copy of an item of a list by its place, or of a record's field by its name, or `undefined`. Any other
/// value or index throws (`TypeError` `index`).
pub fn element(alloc: Global, value: &Value, index: &Value) -> Result<Value, OpFault>
    ensures { Answers (element (tree_of value.now) (tree_of index.now)) result }
{
    finish(alloc, indexed(value, index))
}

/// A copy of the part at the end of the steps, or what the first step throws that throws. Nothing else is copied. It calls
/// itself for each step, and ends with the first step that throws: behind the last list or record three steps more, so no
/// deeper than the levels of values and 3.
pub fn part_at(alloc: Global, value: &Value, steps: &[Step]) -> Result<Value, OpFault>
    ensures { Answers (part_at (steps_in steps.now) (tree_of value.now)) result }
{
    match steps.split_first() {
        None => copied(value),
        Some((step, rest)) => match part_of(value, step) {
            Ok(part) => part_at(alloc, value_of(&part), rest),
            Err(refusal) => Err(thrown(alloc, refusal)),
        },
    }
}

// A copy of the part, or the error that is thrown.
fn finish(alloc: Global, part: Result<Part<'_>, Refusal>) -> Result<Value, OpFault>
    ensures { (meant : Result Tree Tree) → Reads meant part.entry → Answers meant result }
{
    match part {
        Ok(Part::Held(value)) => copied(value),
        Ok(Part::Made(value)) => Ok(value),
        Err(refusal) => Err(thrown(alloc, refusal)),
    }
}

// A copy of the value.
fn copied(value: &Value) -> Result<Value, OpFault>
    ensures { Answers (Ok (tree_of value.now)) result }
{
    match value.copy() {
        Ok(value) => Ok(value),
        Err(NoMemory) => Err(OpFault::NoMemory),
    }
}
