//! From values to JSON.
ghost use Rattle.std.specs.Prelude.{◌≡◌, ◌↔◌, IsTrue, IfOk, OnOk};
ghost use Rattle.do_value.specs.Seen.{tree_of};
ghost use Rattle.do_value.specs.Tree.{items, fields, undefined};
ghost use Rattle.serde_json.specs.Data.{put};
ghost use Rattle.serde_json.specs.View.{view, members_view};
ghost use Rattle.do_wire.specs.Json.{json_of};

use do_value::{Fields, Items, Mem, NoMemory, Value};
use serde_json::{Map, Value as Json};
use std::alloc::Global;

/// The JSON of the value: `undefined` is `null` at the top and in lists, a record's pair whose value is
/// `undefined` is left out, and a record's keys stand in the order of their bytes.
#[cycle(print)]
pub fn to_json(alloc: Global, value: &Value) -> Mem<Json>
    ensures { IfOk result (λ j. view j ≡ json_of (tree_of value.now)) }
{
    match value {
        Value::Undefined | Value::Null => Ok(Json::Null),
        Value::Bool(b) => Ok(Json::Bool(*b)),
        Value::Num(n) => Ok(Json::from(n.get())),
        Value::Text(text) => Json::try_from_str(alloc, text.as_str()).map_err(|_| NoMemory),
        Value::List(items) => list_to_json(alloc, items),
        Value::Rec(fields) => record_to_json(alloc, fields),
    }
}

#[cycle(print)]
fn list_to_json(alloc: Global, list: &Items) -> Mem<Json>
    ensures { IfOk result (λ j. view j ≡ json_of (items list.now)) }
{
    let mut values = Vec::new(alloc);
    for part in list.as_slice() {
        values.push(to_json(alloc, part)?).map_err(|_| NoMemory)?;
    }
    Ok(Json::Array(values))
}

#[cycle(print)]
fn record_to_json(alloc: Global, of: &Fields) -> Mem<Json>
    ensures { IfOk result (λ j. view j ≡ json_of (fields of.now)) }
{
    let mut members = Map::new(alloc);
    for (key, part) in of.as_slice() {
        if !is_undefined(part) {
            let json = to_json(alloc, part)?;
            put_member(&mut members, alloc, key.as_str(), json)?;
        }
    }
    Ok(Json::Object(members))
}

fn is_undefined(value: &Value) -> bool
    ensures { IsTrue result ↔ (tree_of value.now ≡ undefined) }
{
    matches!(value, Value::Undefined)
}

/// Puts the value at the key.
fn put_member(members: &mut Map<String, Json>, alloc: Global, key: &str, value: Json) -> Mem<()>
    ensures { OnOk result (members_view members.new.entries
        ≡ put key.now (view value) (members_view members.old.entries)) }
{
    match serde_json::put(members, alloc, key, value) {
        Ok(()) => Ok(()),
        Err(_) => Err(NoMemory),
    }
}
