//! Writes to places.
ghost use Rattle.std.specs.Prelude.{◌≡◌, IfOk};
ghost use Rattle.do_value.specs.Seen.{tree_of, trees_in};
ghost use Rattle.script_mean.specs.Calls.{push_to};
ghost use Rattle.script_mean.specs.Places.{own, push as pushed, put, variable, write};
ghost use Rattle.script_ops.specs.Calls.{argument};
ghost use Rattle.script_places.specs.Steps.{steps_in};
ghost use Rattle.script_places.specs.Writes.{own_written, written};
ghost use Rattle.script_state.specs.Ends.{Goes};
ghost use Rattle.script_state.specs.Places.{GoesOn, GoesWith, IsEnd, Wrote};
ghost use Rattle.script_steps.specs.Paths.{root_of};
ghost use Rattle.script_vars.specs.Seen.{env_of};

use crate::state::State;
use do_value::{Fields, Mem, NoMemory, Text, Value};
use script_ops::OpFault;
use script_places::{Step, assign, assign_own, push, push_own};
use script_steps::{Outcome, Root};
use script_vars::Vars;
use std::alloc::Global;

impl State {
    /// The place has this value, or its write throws and nothing changes.
    pub fn assign(
        &mut self,
        alloc: Global,
        root: &Root,
        steps: &[Step],
        value: Value,
    ) -> Mem<Outcome>
        ensures { IfOk result (Goes (write (root_of root.now) (steps_in steps.now) (put (tree_of value))) self.old self.new) }
    {
        match root {
            Root::Variable(name) => assign_variable(alloc, &mut self.vars, name, steps, value),
            Root::Own(name) => assign_field(alloc, &mut self.fields, name, steps, value),
        }
    }

    /// The first of these values is pushed to the place, or the push throws and nothing changes.
    pub fn push(
        &mut self,
        alloc: Global,
        root: &Root,
        steps: &[Step],
        args: Vec<Value>,
    ) -> Mem<Outcome>
        ensures { IfOk result (Goes (push_to (root_of root.now) (steps_in steps.now) (trees_in args.items)) self.old self.new) }
    {
        let value = first(args);
        match root {
            Root::Variable(name) => push_variable(alloc, &mut self.vars, name, steps, value),
            Root::Own(name) => push_field(alloc, &mut self.fields, name, steps, value),
        }
    }
}

// The first of the values, `undefined` where there is none.
#[tactic(auto, using(crate::proofs::Written::first_is, crate::proofs::Written::first_none))]
fn first(values: Vec<Value>) -> Value
    ensures { tree_of result ≡ argument 0 (trees_in values.items) }
{
    if values.is_empty() {
        return Value::Undefined;
    }
    let mut left = values;
    left.swap_remove(0)
}

// How a write ends.
pub(crate) fn ended(written: Result<Value, OpFault>) -> Mem<Outcome>
    ensures { IfOk result (IsEnd written) }
{
    match written {
        Ok(value) => Ok(Outcome::Gave(value)),
        Err(OpFault::Throw(value)) => Ok(Outcome::Threw(value)),
        Err(OpFault::NoMemory) => Err(NoMemory),
    }
}

// `=` to a value, or to a part of it, which gives `undefined`.
fn assign_value(
    alloc: Global,
    whole: &mut Value,
    steps: &[Step],
    value: Value,
) -> Result<Value, OpFault>
    ensures { Wrote tree_of (written (steps_in steps.now) (put (tree_of value)) (tree_of whole.old)) whole.old whole.new result }
{
    assign(alloc, whole, steps, value)?;
    Ok(Value::Undefined)
}

// `push` to a value, or to a part of it.
fn push_value(
    alloc: Global,
    whole: &mut Value,
    steps: &[Step],
    value: Value,
) -> Result<Value, OpFault>
    ensures { Wrote tree_of (written (steps_in steps.now) (pushed (tree_of value)) (tree_of whole.old)) whole.old whole.new result }
{
    push(alloc, whole, steps, value)
}

// `=` to a variable, or to a part of its value.
#[tactic(auto, using(crate::proofs::Written::variable_wrote, crate::proofs::Written::variable_nowhere))]
fn assign_variable(
    alloc: Global,
    vars: &mut Vars,
    name: &Text,
    steps: &[Step],
    value: Value,
) -> Mem<Outcome>
    ensures { IfOk result (GoesWith (write (variable name.now) (steps_in steps.now) (put (tree_of value))) (env_of vars.old) (env_of vars.new)) }
{
    let Some(mut whole) = vars.take(name.as_str()) else {
        return Ok(Outcome::Threw(Value::Undefined));
    };
    let written = assign_value(alloc, &mut whole, steps, value);
    vars.set(name.as_str(), whole);
    ended(written)
}

// `push` to a variable, or to a part of its value.
#[tactic(auto, using(crate::proofs::Written::variable_wrote, crate::proofs::Written::variable_nowhere))]
fn push_variable(
    alloc: Global,
    vars: &mut Vars,
    name: &Text,
    steps: &[Step],
    value: Value,
) -> Mem<Outcome>
    ensures { IfOk result (GoesWith (write (variable name.now) (steps_in steps.now) (pushed (tree_of value))) (env_of vars.old) (env_of vars.new)) }
{
    let Some(mut whole) = vars.take(name.as_str()) else {
        return Ok(Outcome::Threw(Value::Undefined));
    };
    let written = push_value(alloc, &mut whole, steps, value);
    vars.set(name.as_str(), whole);
    ended(written)
}

// `=` to a field of the object itself, or to a part of it.
fn assign_fields(
    alloc: Global,
    fields: &mut Fields,
    name: &Text,
    steps: &[Step],
    value: Value,
) -> Result<Value, OpFault>
    ensures { Wrote (λ ps. ps) (own_written name.now (steps_in steps.now) (put (tree_of value)) fields.old) fields.old fields.new result }
{
    assign_own(alloc, fields, name, steps, value)?;
    Ok(Value::Undefined)
}

// `push` to a field of the object itself, or to a part of it.
fn push_fields(
    alloc: Global,
    fields: &mut Fields,
    name: &Text,
    steps: &[Step],
    value: Value,
) -> Result<Value, OpFault>
    ensures { Wrote (λ ps. ps) (own_written name.now (steps_in steps.now) (pushed (tree_of value)) fields.old) fields.old fields.new result }
{
    push_own(alloc, fields, name, steps, value)
}

// How `=` to a field of the object itself ends.
#[tactic(auto, using(crate::proofs::Written::own_wrote))]
fn assign_field(
    alloc: Global,
    fields: &mut Fields,
    name: &Text,
    steps: &[Step],
    value: Value,
) -> Mem<Outcome>
    ensures { IfOk result (GoesOn (write (own name.now) (steps_in steps.now) (put (tree_of value))) fields.old fields.new) }
{
    ended(assign_fields(alloc, fields, name, steps, value))
}

// How `push` to a field of the object itself ends.
#[tactic(auto, using(crate::proofs::Written::own_wrote))]
fn push_field(
    alloc: Global,
    fields: &mut Fields,
    name: &Text,
    steps: &[Step],
    value: Value,
) -> Mem<Outcome>
    ensures { IfOk result (GoesOn (write (own name.now) (steps_in steps.now) (pushed (tree_of value))) fields.old fields.new) }
{
    ended(push_fields(alloc, fields, name, steps, value))
}
