//! Reads and writes of places in a value.
use do_value::{Fields, Text, Value};
use script_ops::OpFault;
use script_places::{Step, assign, assign_own, element, moved, part_at, property, push, push_own};
use serde_json::Value as Json;
use std::alloc::Global;
use std::test::Fail;
use test_rows::{Telling, number, tell_record, tell_value, value, word};

// A text is a name, a number an index, and a record `{"key": ..}` an index that is a text.
fn step(alloc: Global, json: &Json) -> Result<Step, Fail> {
    if let Some(name) = json.as_str() {
        return Ok(Step::Named(Text::new(alloc, name)?));
    }
    match json.get("key").and_then(Json::as_str) {
        Some(key) => Ok(Step::Indexed(Value::Text(Text::new(alloc, key)?))),
        None => Ok(Step::Indexed(do_wire::from_json(alloc, json)?)),
    }
}

// The steps from this place of the case on.
fn steps(alloc: Global, row: &Json, from: usize) -> Result<Vec<Step>, Fail> {
    let mut steps = Vec::new(alloc);
    for at in from..from.saturating_add(3) {
        if let Some(json) = row.get(at) {
            steps.push(step(alloc, json)?)?;
        }
    }
    Ok(steps)
}

fn tell(line: &mut Telling, answer: &Result<Value, OpFault>) {
    match answer {
        Ok(value) => tell_value(line, value),
        Err(OpFault::Throw(value)) => {
            line.say("throws ");
            tell_value(line, value);
        }
        Err(OpFault::NoMemory) => line.refuse(),
    }
}

fn done(written: Result<(), OpFault>) -> Result<Value, OpFault> {
    match written {
        Ok(()) => Ok(Value::Undefined),
        Err(fault) => Err(fault),
    }
}

// The fields of an object after the write, whose first step is a name.
fn write_own(
    alloc: Global,
    own: &mut Fields,
    path: &[Step],
    row: &Json,
    line: &mut Telling,
) -> Result<(), Fail> {
    let Some((Step::Named(name), rest)) = path.split_first() else {
        return Err("no name")?;
    };
    let written = value(alloc, row, 1)?;
    let answer = match word(row, 0) {
        "put" => done(assign_own(alloc, own, name, rest, written)),
        _ => push_own(alloc, own, name, rest, written),
    };
    tell(line, &answer);
    line.say(" in ");
    tell_record(line, own);
    Ok(())
}

/// `put VALUE RECORD STEPS`, `push VALUE RECORD STEPS`: what the write gives, and what it leaves; in a value, and in the fields of
/// an object.
pub(crate) fn answer_write(alloc: Global, row: &Json, line: &mut Telling) -> Result<(), Fail> {
    let path = steps(alloc, row, 3)?;
    let mut whole = value(alloc, row, 2)?;
    let written = value(alloc, row, 1)?;
    let answer = match word(row, 0) {
        "put" => done(assign(alloc, &mut whole, path.as_slice(), written)),
        _ => push(alloc, &mut whole, path.as_slice(), written),
    };
    tell(line, &answer);
    line.say(" in ");
    tell_value(line, &whole);
    line.say(", ");
    let Value::Rec(mut own) = value(alloc, row, 2)? else {
        return Err("no record")?;
    };
    write_own(alloc, &mut own, path.as_slice(), row, line)
}

/// `read VALUE STEPS`, by each step alone where it is one; `moved VALUE BY`.
pub(crate) fn answer_read(alloc: Global, row: &Json, line: &mut Telling) -> Result<(), Fail> {
    let whole = value(alloc, row, 1)?;
    if word(row, 0) == "moved" {
        tell(line, &moved(alloc, &whole, number(row, 2)));
        return Ok(());
    }
    let path = steps(alloc, row, 2)?;
    tell(line, &part_at(alloc, &whole, path.as_slice()));
    match path.as_slice() {
        [Step::Named(name)] => {
            line.say(", ");
            tell(line, &property(alloc, &whole, name.as_str()));
        }
        [Step::Indexed(index)] => {
            line.say(", ");
            tell(line, &element(alloc, &whole, index));
        }
        _ => {}
    }
    Ok(())
}
