//! What the cases write: operations on k, for the object a of class C.
ghost use Rattle.std.specs.Prelude.{IfOk};
ghost use Rattle.storage_map.specs.Ops.{IsOp};

use do_value::{Num, Text, Value};
use serde_json::Value as Json;
use std::alloc::Global;
use std::test::Fail;
use storage_map::{Batch, Identity, Key, Op};
use test_rows::{Telling, word};

/// The bytes at this place of the case, in hexadecimal.
pub(crate) fn bytes_at(alloc: Global, row: &Json, at: usize) -> Result<Vec<u8>, Fail> {
    Ok(hex::decode(alloc, word(row, at).as_bytes())?)
}

/// Adds the bytes to the line, in hexadecimal.
pub(crate) fn tell_bytes(alloc: Global, line: &mut Telling, bytes: &[u8]) {
    line.tell(hex::encode(alloc, bytes));
}

/// The object a of class C.
pub(crate) fn object(alloc: Global) -> Result<Identity, Fail> {
    let class = Text::new(alloc, "C")?;
    let name = Text::new(alloc, "a")?;
    Ok(Identity::new(class, name).ok_or("a long name")?)
}

/// The batch of one operation.
pub(crate) fn one(alloc: Global, op: Op) -> Result<Batch, Fail>
    requires { IsOp op }
{
    storage_map::laws::one_op_is_a_batch();
    Ok(Batch::new(vec![in alloc; op]?))
}

/// A put of 5, or of a text of so many letters.
pub(crate) fn put(alloc: Global, letters: u64) -> Result<Op, Fail>
    ensures { IfOk result IsOp }
{
    let key = Key::new(alloc, "k")?;
    let value = if letters == 0 {
        Value::Num(Num::new(5)?)
    } else {
        Value::Text(text_of(alloc, letters)?)
    };
    Ok(Op::put(key, value)?)
}

fn text_of(alloc: Global, letters: u64) -> Result<Text, Fail> {
    let mut text = String::new(alloc);
    for _ in 0..letters {
        text.push('a')?;
    }
    Ok(Text::new(alloc, text.as_str())?)
}

/// A delete.
pub(crate) fn delete(alloc: Global) -> Result<Op, Fail>
    ensures { IfOk result IsOp }
{
    let key = Key::new(alloc, "k")?;
    Ok(Op::Delete { key })
}
