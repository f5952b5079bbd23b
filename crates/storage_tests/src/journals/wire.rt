//! JSON in both directions.
use do_value::{Text, Value};
use do_wire::{from_json, to_json};
use serde_json::{Map, Value as Json};
use std::alloc::Global;
use std::test::Fail;
use test_rows::{Telling, count};

// An object whose one key has so many letters.
fn long_key(alloc: Global, letters: u64) -> Result<Json, Fail> {
    let mut key = String::new(alloc);
    for _ in 0..letters {
        key.push('a')?;
    }
    let mut members = Map::new(alloc);
    members.insert(key, Json::Null)?;
    Ok(Json::Object(members))
}

fn tell(alloc: Global, json: &Json, line: &mut Telling) -> Result<(), Fail> {
    match from_json(alloc, json) {
        Ok(value) => tell_printed(alloc, &value, line)?,
        Err(fault) => line.tell(format!(in alloc; "{fault:?}")),
    }
    Ok(())
}

// The value as it is printed, or how many bytes that has.
fn tell_printed(alloc: Global, value: &Value, line: &mut Telling) -> Result<(), Fail> {
    let printed = to_json(alloc, value)?.to_string(alloc)?;
    if printed.len() > 1000 {
        line.tell(format!(in alloc; "{} bytes", printed.len()));
    } else {
        line.say(printed.as_str());
    }
    Ok(())
}

/// `json JSON`: what it prints as once it has been read, or why it is refused. `json 0 LETTERS` is an object of one long key.
pub(crate) fn answer(alloc: Global, row: &Json, line: &mut Telling) -> Result<(), Fail> {
    let nothing = Json::Null;
    if row.get(2).is_some() {
        return tell(alloc, &long_key(alloc, count(row, 2))?, line);
    }
    tell(alloc, row.get(1).unwrap_or(&nothing), line)
}

/// `undefined`: how it prints, alone, in a list, and as a field of a record.
pub(crate) fn answer_undefined(alloc: Global, line: &mut Telling) -> Result<(), Fail> {
    let mut values = Vec::new(alloc);
    values.push(Value::Undefined)?;
    let mut pairs = Vec::new(alloc);
    pairs.push((Text::new(alloc, "k")?, Value::Undefined))?;
    tell_printed(alloc, &Value::Undefined, line)?;
    line.say(" ");
    tell_printed(alloc, &Value::list(values)?, line)?;
    line.say(" ");
    tell_printed(alloc, &Value::fields(pairs)?, line)
}
