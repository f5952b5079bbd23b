//! What has a limit: keys, values and batches. Their letters are counted.
ghost use Rattle.std.specs.Prelude.{IfOk};
ghost use Rattle.storage_map.specs.Ops.{IsOp};

use crate::stores::{tell_batch, text_of};
use do_value::Value;
use serde_json::Value as Json;
use std::alloc::Global;
use std::test::Fail;
use storage_map::{Batch, Key, Op, ValueLong};
use test_rows::{Telling, count, word};
use write_batcher::{Batcher, Made};

// A put of a text of so many letters, whose encoding has 5 bytes more.
fn put_letters(alloc: Global, key: &str, letters: u64) -> Result<Result<Op, ValueLong>, Fail>
    ensures { IfOk result (λ put. IfOk put IsOp) }
{
    let text = text_of(alloc, letters)?;
    let key = Key::new(alloc, key)?;
    Ok(Op::put(key, Value::Text(text)))
}

// The fault of a key or of the put of a text with so many letters.
pub(crate) fn answer(alloc: Global, row: &Json, line: &mut Telling) -> Result<(), Fail> {
    if word(row, 0) == "key" {
        let letters = text_of(alloc, count(row, 1))?;
        let key = Key::new(alloc, letters.as_str());
        line.tell(format!(in alloc; "{:?}", key.err()));
    } else {
        let put = put_letters(alloc, "k", count(row, 1))?;
        line.tell(format!(in alloc; "{:?}", put.err()));
    }
    Ok(())
}

// The batch that was cut, without its mark.
fn batch_in(made: Option<Made>) -> Option<Batch> {
    match made {
        Some(made) => Some(made.into_batch()),
        None => None,
    }
}

pub(crate) fn answer_batch(
    alloc: Global,
    batcher: &mut Batcher,
    row: &Json,
    line: &mut Telling,
) -> Result<(), Fail> {
    if word(row, 1) == "close" {
        tell_batch(line, batch_in(batcher.close()));
    } else {
        let put = put_letters(alloc, word(row, 1), count(row, 2))??;
        match batcher.add(put, true) {
            Ok(()) => line.say("added"),
            Err(fault) => line.tell(format!(in alloc; "{fault}")),
        }
    }
    line.tell(format!(in alloc; ", {} bytes", batcher.size()));
    Ok(())
}
