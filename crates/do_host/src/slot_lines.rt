//! The lines that tell of slots. Slots are counted from 0, places in bytes from 0.
ghost use Rattle.std.specs.Prelude.{◌≡◌, IfOk, Ok};
ghost use Rattle.serde_json.specs.View.{view};
ghost use Rattle.do_host.specs.SlotLines as spec;

use do_value::{Mem, NoMemory, Value};
use do_wire::to_json;
use line_server::json_text;
use serde_json::{Value as Json, json};
use std::alloc::{AllocError, Global};
use storage_map::{Alarm, Identity};

// `["object",slot,class,name]` and an LF.
pub(crate) fn object_line(alloc: Global, slot: u32, object: &Identity) -> Mem<Vec<u8>>
    ensures { IfOk result (λ bytes. bytes.items ≡ spec.object_line slot object.now) }
{
    let json = made(object_json(alloc, slot, object))?;
    made(json_text(alloc, &json))
}

fn object_json(alloc: Global, slot: u32, object: &Identity) -> Result<Json, AllocError>
    ensures { IfOk result (λ json. view json ≡ spec.object_json slot object.now) }
{
    json!(in alloc; ["object", slot, object.class(), object.name()])
}

// `["pair",slot,key,value]` and an LF.
pub(crate) fn pair_line(alloc: Global, slot: u32, key: &str, value: &Value) -> Mem<Vec<u8>>
    ensures { IfOk result (λ bytes. bytes.items ≡ spec.pair_line slot (key.now, value.now)) }
{
    let json = pair_json(alloc, slot, key, value)?;
    made(json_text(alloc, &json))
}

fn pair_json(alloc: Global, slot: u32, key: &str, value: &Value) -> Mem<Json>
    ensures { IfOk result (λ json. view json ≡ spec.pair_json slot key.now value.now) }
{
    let value = to_json(alloc, value)?;
    match json!(in alloc; ["pair", slot, key, value]) {
        Ok(json) => Ok(json),
        Err(_) => Err(NoMemory),
    }
}

// `["alarm",slot,time,retry]` and an LF.
pub(crate) fn alarm_line(alloc: Global, slot: u32, alarm: Alarm) -> Mem<Vec<u8>>
    ensures { IfOk result (λ bytes. bytes.items ≡ spec.alarm_line slot alarm) }
{
    let json = made(alarm_json(alloc, slot, alarm))?;
    made(json_text(alloc, &json))
}

fn alarm_json(alloc: Global, slot: u32, alarm: Alarm) -> Result<Json, AllocError>
    ensures { IfOk result (λ json. view json ≡ spec.alarm_json slot alarm) }
{
    json!(in alloc; ["alarm", slot, alarm.time(), alarm.retry()])
}

// `[word,slot,place]` and an LF.
pub(crate) fn place_line(alloc: Global, word: &str, slot: u32, place: u64) -> Mem<Vec<u8>>
    ensures { IfOk result (λ bytes. bytes.items ≡ spec.place_line word.now slot place) }
{
    let json = made(place_json(alloc, word, slot, place))?;
    made(json_text(alloc, &json))
}

fn place_json(alloc: Global, word: &str, slot: u32, place: u64) -> Result<Json, AllocError>
    ensures { IfOk result (λ json. view json ≡ spec.place_json word.now slot place) }
{
    json!(in alloc; [word, slot, place])
}

// `["mixed",slot,class,name,class,name]` and an LF.
pub(crate) fn mixed_line(
    alloc: Global,
    slot: u32,
    first: &Identity,
    other: &Identity,
) -> Mem<Vec<u8>>
    ensures { IfOk result (λ bytes. bytes.items ≡ spec.mixed_line slot first.now other.now) }
{
    let json = made(mixed_json(alloc, slot, first, other))?;
    made(json_text(alloc, &json))
}

fn mixed_json(
    alloc: Global,
    slot: u32,
    first: &Identity,
    other: &Identity,
) -> Result<Json, AllocError>
    ensures { IfOk result (λ json. view json ≡ spec.mixed_json slot first.now other.now) }
{
    json!(in alloc; ["mixed", slot, first.class(), first.name(), other.class(), other.name()])
}

// `["twice",a,b]` and an LF.
pub(crate) fn twice_line(alloc: Global, a: u32, b: u32) -> Mem<Vec<u8>>
    ensures { IfOk result (λ bytes. bytes.items ≡ spec.twice_line a b) }
{
    let json = made(twice_json(alloc, a, b))?;
    made(json_text(alloc, &json))
}

fn twice_json(alloc: Global, a: u32, b: u32) -> Result<Json, AllocError>
    ensures { IfOk result (λ json. view json ≡ spec.twice_json a b) }
{
    json!(in alloc; ["twice", a, b])
}

// What was made, or want of memory.
fn made<T>(answer: Result<T, AllocError>) -> Mem<T>
    ensures { IfOk result (λ value. answer ≡ Ok value) }
{
    match answer {
        Ok(value) => Ok(value),
        Err(_) => Err(NoMemory),
    }
}
