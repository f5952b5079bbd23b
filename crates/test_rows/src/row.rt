//! A case and its parts.
use do_value::{Text, Value};
use do_wire::from_json;
use serde_json::Value as Json;
use std::alloc::Global;
use std::test::Fail;

/// The case of a line, nothing where the line is a heading.
pub fn row_of(alloc: Global, line: &str) -> Option<Json> {
    Json::from_str(alloc, line).ok()
}

/// The text at this place of the case, the empty one where none is there.
pub fn word(row: &Json, at: usize) -> &str {
    row.get(at).and_then(Json::as_str).unwrap_or("")
}

/// The count at this place of the case, 0 where none is there.
pub fn count(row: &Json, at: usize) -> u64 {
    row.get(at).and_then(Json::as_u64).unwrap_or(0)
}

/// The number at this place of the case, 0 where none is there.
pub fn number(row: &Json, at: usize) -> i64 {
    row.get(at).and_then(Json::as_i64).unwrap_or(0)
}

/// Whether `true` stands at this place of the case.
pub fn flag(row: &Json, at: usize) -> bool {
    row.get(at).and_then(Json::as_bool).unwrap_or(false)
}

/// The value at this place of the case, `undefined` where none is there. `{"undefined": 0}` is `undefined` too,
/// `{"letters": 3}` is the text `aaa`, and `{"record": ["b", 1, "a", 2]}` is made of these pairs.
pub fn value(alloc: Global, row: &Json, at: usize) -> Result<Value, Fail> {
    let Some(json) = row.get(at) else {
        return Ok(Value::Undefined);
    };
    match json.get("record") {
        Some(pairs) => record(alloc, pairs),
        None => plain(alloc, json),
    }
}

fn record(alloc: Global, given: &Json) -> Result<Value, Fail> {
    let mut pairs = Vec::new(alloc);
    for pair in 0..8 {
        let Some(json) = given.get(2 * pair + 1) else {
            break;
        };
        let name = Text::new(alloc, word(given, 2 * pair))?;
        pairs.push((name, plain(alloc, json)?))?;
    }
    Ok(Value::fields(pairs)?)
}

fn plain(alloc: Global, json: &Json) -> Result<Value, Fail> {
    if json.get("undefined").is_some() {
        return Ok(Value::Undefined);
    }
    match json.get("letters").and_then(Json::as_u64) {
        Some(count) => letters(alloc, count),
        None => Ok(from_json(alloc, json)?),
    }
}

fn letters(alloc: Global, count: u64) -> Result<Value, Fail> {
    let mut text = String::new(alloc);
    for _ in 0..count {
        text.push('a')?;
    }
    Ok(Value::Text(Text::new(alloc, text.as_str())?))
}
