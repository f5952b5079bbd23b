// The parts of a request, read from JSON. `None` says that the part is of another form.
ghost use Rattle.std.specs.Prelude.{◌≡◌, ◌<◌, ◌^◌, ◌++◌, ◌∷◌, [], IfOk, IfSome, OnOk, option_map};
ghost use Rattle.serde_json.specs.View.{view, items_view};
ghost use Rattle.do_value.specs.Seen.{tree_of, trees_in};
ghost use Rattle.line_server.specs.Asked.{whole_in, text_in, object_in, value_in, values_in};
ghost use Rattle.line_server.specs.Asked.{is_word as has_word, values_of as all_values};

use do_value::{Args, BuildFault, Mem, NoMemory, Num, Text, Value};
use do_wire::{WireFault, from_json};
use serde_json::Value as Json;
use std::alloc::Global;
use storage_map::Identity;

pub(crate) fn is_word(json: &Json, word: &str) -> bool
    ensures { result ≡ has_word word.now (view json.now) }
{
    match json.as_str() {
        Some(text) => text == word,
        None => false,
    }
}

pub(crate) fn whole(json: &Json) -> Option<u64>
    ensures value { result ≡ whole_in (view json.now) }
    ensures range { IfSome result (λ n. n < 2 ^ 53) }
{
    match json.as_u64() {
        Some(n) if n <= Num::MAX as u64 => Some(n),
        _ => None,
    }
}

pub(crate) fn text(alloc: Global, json: &Json) -> Mem<Option<Text>>
    ensures { IfOk result (λ o. o ≡ text_in (view json.now)) }
{
    let Some(text) = json.as_str() else {
        return Ok(None);
    };
    match Text::new(alloc, text) {
        Ok(text) => Ok(Some(text)),
        Err(BuildFault::NoMemory) => Err(NoMemory),
        Err(_) => Ok(None),
    }
}

pub(crate) fn object(alloc: Global, class: &Json, name: &Json) -> Mem<Option<Identity>>
    ensures { IfOk result (λ o. o ≡ object_in (view class.now) (view name.now)) }
{
    let Some(class) = text(alloc, class)? else {
        return Ok(None);
    };
    let Some(name) = text(alloc, name)? else {
        return Ok(None);
    };
    Ok(Identity::new(class, name))
}

pub(crate) fn value(alloc: Global, json: &Json) -> Mem<Option<Value>>
    ensures { IfOk result (λ o. option_map tree_of o ≡ value_in (view json.now)) }
{
    match from_json(alloc, json) {
        Ok(value) => Ok(Some(value)),
        Err(WireFault::NoMemory) => Err(NoMemory),
        Err(_) => Ok(None),
    }
}

pub(crate) fn values(alloc: Global, json: &Json) -> Mem<Option<Args>>
    ensures { IfOk result (λ o. option_map trees_in o ≡ values_in (view json.now)) }
{
    match json {
        Json::Array(items) => values_of(alloc, items.as_slice()),
        _ => Ok(None),
    }
}

fn values_of(alloc: Global, items: &[Json]) -> Mem<Option<Args>>
    ensures { IfOk result (λ o. option_map trees_in o ≡ all_values (items_view items.now)) }
{
    let mut values = Vec::new(alloc);
    for item in items {
        let Some(value) = value(alloc, item)? else {
            return Ok(None);
        };
        add(&mut values, value)?;
    }
    Ok(Some(Args::new(values)))
}

fn add(values: &mut Vec<Value>, value: Value) -> Mem<()>
    ensures { OnOk result (values.new.items ≡ values.old.items ++ value ∷ []) }
{
    match values.push(value) {
        Ok(()) => Ok(()),
        Err(_) => Err(NoMemory),
    }
}
