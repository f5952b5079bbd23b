//! From JSON to values.
ghost use Rattle.std.specs.Prelude.{◌≡◌, ◌≢◌, ◌<◌, ◌≤◌, None, Ok, Err, IfOk, IfErr, OnOk};
ghost use Rattle.serde_json.specs.View.{view, items_view, members_view};
ghost use Rattle.do_value.specs.Limits.{most_bytes, most_levels};
ghost use Rattle.do_value.specs.Seen.{tree_of};
ghost use Rattle.do_value.specs.Tree.{size_of, depth_of, list, rec};
ghost use Rattle.do_wire.specs.Json.{json_of};
ghost use Rattle.do_wire.specs.Numbers.{numbers, item_numbers, member_numbers, first_fault};
ghost use Rattle.do_wire.specs.Reading.{tree_in, trees_in_items, pairs_in_members, reading_of};
ghost use Rattle.do_wire.specs.declared.fault.WireFault.{WireFault};

use crate::depth::nests_within;
use crate::fault::WireFault;
use crate::numbers::{first_fault_in, whole_number};
use do_value::{MOST_LEVELS, Text, Value};
use serde_json::{Map, Value as Json};
use std::alloc::Global;

/// The value of the JSON. The first number that is no number of a value, with records walked in the order of
/// their keys, is the fault `Float` or `RangeNum`. Else the fault is `TooDeep` exactly where lists and records
/// nest deeper than [`MOST_LEVELS`], else `TooLarge` exactly where the encoding passes
/// [`MOST_BYTES`](do_value::MOST_BYTES). Want of memory may come in place of a value or of `TooLarge`.
pub fn from_json(alloc: Global, json: &Json) -> Result<Value, WireFault>
    ensures value { IfOk result (λ v. reading_of (view json.now) ≡ Ok (tree_of v)) }
    ensures same { IfOk result (λ v. json_of (tree_of v) ≡ view json.now) }
    ensures fault { IfErr result
        (λ e. e ≢ WireFault.NoMemory → reading_of (view json.now) ≡ Err e) }
    ensures certain { (e : WireFault) → e ≢ WireFault.TooLarge
        → reading_of (view json.now) ≡ Err e → result ≡ Err e }
{
    if let Some(fault) = first_fault_in(json) {
        return Err(fault);
    }
    if !nests_within(MOST_LEVELS, json) {
        return Err(WireFault::TooDeep);
    }
    build(alloc, json)
}

/// The value of JSON whose numbers are good and that nests no deeper than a value.
#[cycle(build)]
fn build(alloc: Global, json: &Json) -> Result<Value, WireFault>
    requires whole { first_fault (numbers (view json.now)) ≡ None }
    requires shallow { depth_of (tree_in (view json.now)) ≤ most_levels }
    ensures value { IfOk result (λ v. tree_of v ≡ tree_in (view json.now)) }
    ensures small { OnOk result (size_of (tree_in (view json.now)) ≤ most_bytes) }
    ensures fault { IfErr result (λ e. e ≢ WireFault.NoMemory
        → (e ≡ WireFault.TooLarge) × (most_bytes < size_of (tree_in (view json.now)))) }
{
    match json {
        Json::Null => Ok(Value::Null),
        Json::Bool(b) => Ok(Value::Bool(*b)),
        Json::Number(number) => Ok(Value::Num(whole_number(number)?)),
        Json::String(text) => Ok(Value::Text(Text::new(alloc, text.as_str())?)),
        Json::Array(items) => build_list(alloc, items),
        Json::Object(members) => build_record(alloc, members),
    }
}

#[cycle(build)]
fn build_list(alloc: Global, items: &Vec<Json>) -> Result<Value, WireFault>
    requires whole { first_fault (item_numbers (items_view items.now.items)) ≡ None }
    requires shallow { depth_of (list (trees_in_items (items_view items.now.items))) ≤ most_levels }
    ensures value { IfOk result (λ v. tree_of v ≡ list (trees_in_items (items_view items.now.items))) }
    ensures small { OnOk result
        (size_of (list (trees_in_items (items_view items.now.items))) ≤ most_bytes) }
    ensures fault { IfErr result (λ e. e ≢ WireFault.NoMemory → (e ≡ WireFault.TooLarge)
        × (most_bytes < size_of (list (trees_in_items (items_view items.now.items))))) }
{
    let mut values = Vec::new(alloc);
    for item in items {
        let value = build(alloc, item)?;
        values.push(value).map_err(|_| WireFault::NoMemory)?;
    }
    Ok(Value::list(values)?)
}

#[cycle(build)]
fn build_record(alloc: Global, members: &Map<String, Json>) -> Result<Value, WireFault>
    requires whole { first_fault (member_numbers (members_view members.now.entries)) ≡ None }
    requires shallow { depth_of (rec (pairs_in_members (members_view members.now.entries))) ≤ most_levels }
    ensures value { IfOk result
        (λ v. tree_of v ≡ rec (pairs_in_members (members_view members.now.entries))) }
    ensures small { OnOk result
        (size_of (rec (pairs_in_members (members_view members.now.entries))) ≤ most_bytes) }
    ensures fault { IfErr result (λ e. e ≢ WireFault.NoMemory → (e ≡ WireFault.TooLarge)
        × (most_bytes < size_of (rec (pairs_in_members (members_view members.now.entries))))) }
{
    let mut pairs = Vec::new(alloc);
    for (name, part) in members.iter() {
        let key = Text::new(alloc, name.as_str())?;
        let value = build(alloc, part)?;
        pairs.push((key, value)).map_err(|_| WireFault::NoMemory)?;
    }
    Ok(Value::fields(pairs)?)
}
