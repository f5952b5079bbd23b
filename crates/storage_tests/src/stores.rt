//! A map, a cache that took the same writes, and a transaction with them over an empty map. Each answers each ask.
ghost use Rattle.std.specs.Prelude.{IfOk};
ghost use Rattle.storage_map.specs.Ops.{IsOp};
ghost use Rattle.storage_txn.specs.Writes.{IsOpen};

use crate::kept::{take_one, tell_range};
use crate::tell::{tell_look, tell_pair, tell_reading};
use do_value::{Num, Text, Value};
use serde_json::Value as Json;
use std::alloc::Global;
use std::mem;
use std::test::Fail;
use storage_cache::Cache;
use storage_map::{
    Batch, Identity, Index, Key, Keys, Map, Op, Options, Pairs, Reading, StoreAsk, laws,
};
use storage_txn::{Txn, TxnFault, laws as txn_laws};
use test_rows::{Telling, count, tell_number, word};

pub(crate) struct Stores {
    map: Map,
    cache: Cache,
    txn: Txn,
}

// Written out, so that letting one go is proved once.
impl Drop for Stores {
    fn drop(self) {
        let Stores { map, cache, txn } = self;
        drop(map);
        drop(cache);
        drop(txn);
    }
}

impl Stores {
    pub(crate) fn new(alloc: Global) -> Result<Stores, Fail> {
        Ok(Stores {
            map: Map::new(alloc),
            cache: Cache::new(alloc, Index::new(alloc))?,
            txn: Txn::new(alloc),
        })
    }
}

pub(crate) fn answer(
    alloc: Global,
    stores: &mut Stores,
    row: &Json,
    line: &mut Telling,
) -> Result<(), Fail> {
    match word(row, 1) {
        "keys" => {
            *stores = numbered(alloc, row)?;
            Ok(())
        }
        "list" => list(alloc, stores, row, line),
        "many" => ask(
            alloc,
            stores,
            &StoreAsk::GetMany(keys_of(alloc, row)?),
            line,
        ),
        "get" => {
            let key = Key::new(alloc, word(row, 2))?;
            ask(alloc, stores, &StoreAsk::Get(key), line)
        }
        "alarm" => ask(alloc, stores, &StoreAsk::Alarm, line),
        "wipe" => wipe(alloc, &mut stores.map),
        "delete" => delete(alloc, &mut stores.cache, row, line),
        "copies" => tell_copies(alloc, &stores.map, line),
        "merged" => merged(alloc, stores, row, line),
        _ => write(alloc, &mut stores.txn, row, line),
    }
}

fn put(alloc: Global, key: &str, number: i64) -> Result<Op, Fail>
    ensures { IfOk result IsOp }
{
    let key = Key::new(alloc, key)?;
    let number = Num::new(number)?;
    Ok(Op::put(key, Value::Num(number))?)
}

fn one(alloc: Global, op: Op) -> Result<Batch, Fail>
    requires { IsOp op }
{
    laws::one_op_is_a_batch();
    Ok(Batch::new(vec![in alloc; op]?))
}

fn add(alloc: Global, map: &mut Map, key: &str, number: i64) -> Result<(), Fail> {
    let op = put(alloc, key, number)?;
    map.apply_op(&op)?;
    Ok(())
}

// The map of these keys, in this order, with the values 1, 2, 3 and on.
fn map_of(alloc: Global, row: &Json) -> Result<Map, Fail> {
    let mut map = Map::new(alloc);
    for at in 2..100 {
        let Some(key) = row.get(at).and_then(Json::as_str) else {
            break;
        };
        add(alloc, &mut map, key, at as i64 - 1)?;
    }
    Ok(map)
}

// The cache that took the same writes, each at a place of its own. None is flushed.
fn cache_of(alloc: Global, row: &Json) -> Result<Cache, Fail> {
    let mut cache = Cache::new(alloc, Index::new(alloc))?;
    for at in 2..100 {
        let Some(key) = row.get(at).and_then(Json::as_str) else {
            break;
        };
        let op = put(alloc, key, at as i64 - 1)?;
        take_one(alloc, &mut cache, op, 100 * at as u64, 0)?;
    }
    Ok(cache)
}

fn add_write(alloc: Global, txn: &mut Txn, key: &str, number: i64) -> Result<(), Fail> {
    let number = Num::new(number)?;
    let key = Key::new(alloc, key)?;
    txn.put(key, Value::Num(number))?;
    Ok(())
}

// The transaction of the same writes.
fn txn_of(alloc: Global, row: &Json) -> Result<Txn, Fail> {
    let mut txn = Txn::new(alloc);
    for at in 2..100 {
        let Some(key) = row.get(at).and_then(Json::as_str) else {
            break;
        };
        add_write(alloc, &mut txn, key, at as i64 - 1)?;
    }
    Ok(txn)
}

fn numbered(alloc: Global, row: &Json) -> Result<Stores, Fail> {
    let map = map_of(alloc, row)?;
    let cache = cache_of(alloc, row)?;
    let txn = txn_of(alloc, row)?;
    Ok(Stores { map, cache, txn })
}

fn bound(alloc: Global, options: &Json, name: &str) -> Result<Option<Text>, Fail> {
    match options.get(name).and_then(Json::as_str) {
        Some(text) => Ok(Some(Text::new(alloc, text)?)),
        None => Ok(None),
    }
}

/// The options that are named.
pub(crate) fn options_of(alloc: Global, named: &Json) -> Result<Options, Fail> {
    let mut options = Options {
        start: None,
        after: None,
        end: None,
        prefix: None,
        reverse: named.get("reverse").is_some(),
        limit: named.get("limit").and_then(Json::as_u64),
    };
    options.start = bound(alloc, named, "start")?;
    options.after = bound(alloc, named, "after")?;
    options.end = bound(alloc, named, "end")?;
    options.prefix = bound(alloc, named, "prefix")?;
    Ok(options)
}

fn keys_of(alloc: Global, row: &Json) -> Result<Keys, Fail> {
    let mut keys = Vec::new(alloc);
    for at in 2..100 {
        let Some(key) = row.get(at).and_then(Json::as_str) else {
            break;
        };
        keys.push(Key::new(alloc, key)?)?;
    }
    Ok(Keys::new(keys))
}

// What the transaction sees of the ask over an empty map.
fn seen(alloc: Global, txn: &Txn, ask: &StoreAsk) -> Result<Reading, Fail> {
    txn_laws::overlay_is_map_after();
    let below = Map::new(alloc).reading(&txn.below(ask)?)?;
    Ok(txn.view(ask, below)?)
}

fn ask(alloc: Global, stores: &mut Stores, ask: &StoreAsk, line: &mut Telling) -> Result<(), Fail> {
    let ask = ask.copy()?;
    line.say("map");
    tell_reading(line, &stores.map.reading(&ask)?);
    line.say("; cache");
    tell_look(line, &ask, &stores.cache.look(&ask)?);
    line.say("; overlay");
    tell_reading(line, &seen(alloc, &stores.txn, &ask)?);
    Ok(())
}

fn list(alloc: Global, stores: &mut Stores, row: &Json, line: &mut Telling) -> Result<(), Fail> {
    let Some(named) = row.get(2) else {
        return Err("no options")?;
    };
    let options = options_of(alloc, named)?;
    tell_range(&stores.cache, &options, line);
    line.say("; ");
    ask(alloc, stores, &StoreAsk::List(options), line)
}

// The pairs that the transaction lends over the map.
fn merged(alloc: Global, stores: &Stores, row: &Json, line: &mut Telling) -> Result<(), Fail> {
    let Some(named) = row.get(2) else {
        return Err("no options")?;
    };
    let options = options_of(alloc, named)?;
    if stores.txn.is_rolled_back() {
        return Err("a rollback")?;
    }
    let Reading::Pairs(below) = stores.map.reading(&StoreAsk::List(Options::every()))? else {
        return Err("no pairs")?;
    };
    line.say("merged");
    tell_merged(&stores.txn, &below, &options, line);
    Ok(())
}

fn tell_merged(txn: &Txn, below: &Pairs, options: &Options, line: &mut Telling)
    requires { IsOpen txn.now }
{
    let mut merged = txn.merged(below, options);
    for _ in 0..100 {
        let Some((key, value)) = merged.next() else {
            break;
        };
        tell_pair(line, key, value);
    }
}

// The map has an alarm, and then loses all its keys.
fn wipe(alloc: Global, map: &mut Map) -> Result<(), Fail> {
    map.apply(&one(alloc, Op::SetAlarm { time: 7, retry: 2 })?)?;
    map.apply(&one(alloc, Op::DeleteAll)?)?;
    Ok(())
}

// The cache takes a delete, of which so many operations count.
fn delete(alloc: Global, cache: &mut Cache, row: &Json, line: &mut Telling) -> Result<(), Fail> {
    let key = Key::new(alloc, word(row, 2))?;
    let tail = if count(row, 3) == 0 { 0 } else { 1 };
    let counted = take_one(alloc, cache, Op::Delete { key }, 0, tail)?;
    line.tell(format!(in alloc; "{counted} of the last {tail}"));
    Ok(())
}

fn tell_copies(alloc: Global, map: &Map, line: &mut Telling) -> Result<(), Fail> {
    line.say(if copies_object(alloc)? {
        "true, "
    } else {
        "false, "
    });
    line.tell(format!(in alloc; "{} operation,", copied_ops(alloc)?));
    let reading = map.reading(&StoreAsk::Alarm)?;
    tell_reading(line, &reading.copy()?);
    Ok(())
}

fn copies_object(alloc: Global) -> Result<bool, Fail> {
    let class = Text::new(alloc, "C")?;
    let name = Text::new(alloc, "a")?;
    let object = Identity::new(class, name).ok_or("a long name")?;
    let again = object.copy()?;
    Ok(again.equal(&object))
}

fn copied_ops(alloc: Global) -> Result<usize, Fail> {
    let batch = one(alloc, put(alloc, "k", 5)?)?;
    let again = batch.copy()?;
    Ok(again.as_slice().len())
}

// A write of the transaction, under the key a where the row names none.
fn write(alloc: Global, txn: &mut Txn, row: &Json, line: &mut Telling) -> Result<(), Fail> {
    match word(row, 1) {
        "writes" => *txn = txn_of(alloc, row)?,
        "erase" => tell_done(line, erase(alloc, txn, "a")?),
        "without" => tell_done(line, erase(alloc, txn, word(row, 2))?),
        "write" => tell_done(line, put_letters(alloc, txn, count(row, 2))?),
        "rollback" => tell_done(line, txn.rollback()),
        _ => commit(alloc, txn, line),
    }
    Ok(())
}

fn erase(alloc: Global, txn: &mut Txn, key: &str) -> Result<Result<(), TxnFault>, Fail> {
    let key = Key::new(alloc, key)?;
    Ok(txn.delete(key))
}

fn put_letters(alloc: Global, txn: &mut Txn, letters: u64) -> Result<Result<(), TxnFault>, Fail> {
    let key = Key::new(alloc, "a")?;
    let text = text_of(alloc, letters)?;
    Ok(txn.put(key, Value::Text(text)))
}

fn tell_done(line: &mut Telling, done: Result<(), TxnFault>) {
    match done {
        Ok(()) => line.say("done"),
        Err(fault) => line.tell(format!(in line.alloc(); "{fault}")),
    }
}

/// A text of so many letters.
pub(crate) fn text_of(alloc: Global, letters: u64) -> Result<Text, Fail> {
    let mut text = String::new(alloc);
    for _ in 0..letters {
        text.push('a')?;
    }
    Ok(Text::new(alloc, text.as_str())?)
}

fn commit(alloc: Global, txn: &mut Txn, line: &mut Telling) {
    let txn = mem::replace(txn, Txn::new(alloc));
    line.tell(format!(in alloc; "{} bytes, ", txn.size()));
    tell_batch(line, txn.commit())
}

/// How many operations the batch has.
pub(crate) fn tell_batch(line: &mut Telling, batch: Option<Batch>) {
    match batch {
        Some(batch) => {
            line.tell(format!(in line.alloc(); "{} operations", batch.as_slice().len()))
        }
        None => line.say("no batch"),
    }
}
