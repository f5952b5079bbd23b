//! A cache of an object whose values stay on the disk: what it gives as a value, and what as a place.
ghost use Rattle.std.specs.Prelude.{◌≡◌, ◌∷◌, [], IfOk, length};
ghost use Rattle.storage_map.specs.Ops.{IsOp};
ghost use Rattle.storage_map.specs.Indexed.{values_put};

use crate::stores::options_of;
use crate::tell::{tell_held, tell_lent};
use do_value::Value;
use serde_json::Value as Json;
use std::alloc::Global;
use std::test::Fail;
use storage_cache::{Cache, Look};
use storage_map::{Batch, Key, Op, Options, Place, StoreAsk, laws};
use test_rows::{Telling, count, tell_number, value, word};

/// `kept WORD ..`: one call of the cache, and what it gives.
pub(crate) fn answer(
    alloc: Global,
    cache: &mut Cache,
    row: &Json,
    line: &mut Telling,
) -> Result<(), Fail> {
    match word(row, 1) {
        "put" => put(alloc, cache, row, line),
        "delete" => {
            let key = Key::new(alloc, word(row, 2))?;
            take(alloc, cache, Op::Delete { key }, 0, line)
        }
        "arm" => {
            take(alloc, cache, Op::SetAlarm { time: 7, retry: 2 }, 0, line)?;
            tell_alarm(cache, line);
            Ok(())
        }
        "flushed" => {
            cache.flushed();
            line.say("flushed");
            Ok(())
        }
        "keep" => keep(alloc, cache, row, line),
        "others" => {
            keep_others(cache, count(row, 2));
            line.say("given");
            Ok(())
        }
        "get" => {
            let key = Key::new(alloc, word(row, 2))?;
            look(cache, &StoreAsk::Get(key), line)
        }
        _ => list(alloc, cache, row, line),
    }
}

fn place_of(value: &Value, at: u64) -> Place {
    Place {
        at,
        size: u32::try_from(value.size()).unwrap_or(0),
    }
}

// This place, where the operation puts a value.
fn places_of(alloc: Global, op: &Op, at: u64) -> Result<Vec<Place>, Fail>
    ensures { IfOk result (λ places. length places.items ≡ length (values_put (op.now ∷ []))) }
{
    match op {
        Op::Put { key: _, value } => Ok(vec![in alloc; place_of(value, at)]?),
        Op::Delete { .. } | Op::DeleteAll | Op::SetAlarm { .. } | Op::ClearAlarm => {
            Ok(Vec::new(alloc))
        }
    }
}

/// The cache takes a batch of the operation alone, and counts whether it deleted a key, if its last operation counts. A value that it
/// puts is to stand at this place.
pub(crate) fn take_one(
    alloc: Global,
    cache: &mut Cache,
    op: Op,
    at: u64,
    tail: u32,
) -> Result<u64, Fail>
    requires { IsOp op }
{
    laws::one_op_is_a_batch();
    let places = places_of(alloc, &op, at)?;
    let batch = Batch::new(vec![in alloc; op]?);
    Ok(cache.take(&batch, &places, tail)?)
}

fn take(alloc: Global, cache: &mut Cache, op: Op, at: u64, line: &mut Telling) -> Result<(), Fail>
    requires { IsOp op }
{
    let deleted = take_one(alloc, cache, op, at, 1)?;
    line.tell(format!(in alloc; "{deleted} deleted"));
    Ok(())
}

// `kept put KEY VALUE AT`
fn put(alloc: Global, cache: &mut Cache, row: &Json, line: &mut Telling) -> Result<(), Fail> {
    let key = Key::new(alloc, word(row, 2))?;
    match value(alloc, row, 3)? {
        Value::Undefined => Err("no value")?,
        value => take(alloc, cache, Op::put(key, value)?, count(row, 4), line),
    }
}

// `kept keep VALUE AT`
fn keep(alloc: Global, cache: &mut Cache, row: &Json, line: &mut Telling) -> Result<(), Fail> {
    let value = value(alloc, row, 2)?;
    cache.keep(place_of(&value, count(row, 3)), value);
    line.say("given");
    Ok(())
}

// So many values of other places are given to be kept.
fn keep_others(cache: &mut Cache, many: u64) {
    for at in 0..many {
        cache.keep(Place { at, size: 1 }, Value::Null);
    }
}

fn look(cache: &mut Cache, ask: &StoreAsk, line: &mut Telling) -> Result<(), Fail> {
    line.say("look");
    match cache.look(ask)? {
        Look::Alarm(_) => line.say(" an alarm"),
        Look::Pairs(pairs) => {
            for (key, held) in &pairs {
                tell_held(line, key.as_str(), held);
            }
        }
    }
    Ok(())
}

// `kept list OPTIONS`: what is looked up, and what is lent.
fn list(alloc: Global, cache: &mut Cache, row: &Json, line: &mut Telling) -> Result<(), Fail> {
    let Some(named) = row.get(2) else {
        return Err("no options")?;
    };
    let options = options_of(alloc, named)?;
    tell_range(cache, &options, line);
    line.say("; ");
    look(cache, &StoreAsk::List(options), line)
}

/// The pairs that the cache lends.
pub(crate) fn tell_range(cache: &Cache, options: &Options, line: &mut Telling) {
    line.say("range");
    let mut range = cache.range(options);
    for _ in 0..100 {
        let Some((key, held)) = range.next() else {
            break;
        };
        tell_lent(line, key, held);
    }
}

fn tell_alarm(cache: &Cache, line: &mut Telling) {
    match cache.alarm() {
        None => line.say(", no alarm"),
        Some(alarm) => {
            line.say(", alarm ");
            tell_number(line, alarm.time());
        }
    }
}
