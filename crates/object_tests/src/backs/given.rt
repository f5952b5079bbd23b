//! What the cases have an object say: `[incarnation, number, word, ..]`. It is the object a of class C. A batch is confirmed unless the
//! step ends with `unconfirmed`.
ghost use Rattle.std.specs.Prelude.{IfOk};
ghost use Rattle.storage_map.specs.Ops.{IsOp};

use do_value::{Num, Text, Value};
use serde_json::Value as Json;
use std::alloc::Global;
use std::test::Fail;
use storage_map::{Batch, Identity, Key, Op, StoreAsk};
use test_rows::{count, number, word};
use timeline::{Body, Caller, Cause, Entry, Failure, Message};

fn object(alloc: Global) -> Result<Identity, Fail> {
    let class = Text::new(alloc, "C")?;
    let name = Text::new(alloc, "a")?;
    Ok(Identity::new(class, name).ok_or("a long name")?)
}

fn put(alloc: Global, step: &Json) -> Result<Op, Fail>
    ensures { IfOk result IsOp }
{
    let key = Key::new(alloc, word(step, 3))?;
    let value = Value::Num(Num::new(number(step, 4))?);
    Ok(Op::put(key, value)?)
}

// A put of a text of so many letters.
fn long(alloc: Global, step: &Json) -> Result<Op, Fail>
    ensures { IfOk result IsOp }
{
    let key = Key::new(alloc, word(step, 3))?;
    let mut text = String::new(alloc);
    for _ in 0..count(step, 4) {
        text.push('a')?;
    }
    let value = Value::Text(Text::new(alloc, text.as_str())?);
    Ok(Op::put(key, value)?)
}

fn delete(alloc: Global, step: &Json) -> Result<Op, Fail>
    ensures { IfOk result IsOp }
{
    let key = Key::new(alloc, word(step, 3))?;
    Ok(Op::Delete { key })
}

// The batch of one operation.
fn one(alloc: Global, op: Op) -> Result<Batch, Fail>
    requires { IsOp op }
{
    storage_map::laws::one_op_is_a_batch();
    Ok(Batch::new(vec![in alloc; op]?))
}

fn reply(step: &Json) -> Result<Message, Fail> {
    let to = Caller::Request {
        line: 1,
        number: number(step, 3),
    };
    let value = Num::new(number(step, 4))?;
    Ok(Message::Reply {
        to,
        result: Ok(Value::Num(value)),
    })
}

fn down(step: &Json) -> Message {
    let to = Caller::Request {
        line: 1,
        number: number(step, 3),
    };
    Message::Reply {
        to,
        result: Err(Failure::Down {
            before: count(step, 4),
            after: count(step, 5),
        }),
    }
}

fn fetch(step: &Json) -> Message {
    Message::Fetch {
        incarnation: count(step, 0),
        number: count(step, 3),
        value: Value::Null,
    }
}

// The batch of one operation, which is confirmed unless the word says `unconfirmed`.
fn batch(alloc: Global, op: Op, tail: Option<u32>, mark: &str) -> Result<Body, Fail>
    requires { IsOp op }
{
    let batch = one(alloc, op)?;
    let confirmed = mark != "unconfirmed";
    Ok(Body::Batch {
        batch,
        tail,
        confirmed,
    })
}

// A read that is not free.
fn get(alloc: Global, step: &Json) -> Result<Body, Fail> {
    let key = Key::new(alloc, word(step, 3))?;
    Ok(Body::Ask {
        ask: StoreAsk::Get(key),
        free: false,
    })
}

fn body_of(alloc: Global, step: &Json) -> Result<Body, Fail> {
    match word(step, 2) {
        "bind" => Ok(Body::Bind(object(alloc)?)),
        "put" => batch(alloc, put(alloc, step)?, None, word(step, 5)),
        "long" => batch(alloc, long(alloc, step)?, None, word(step, 5)),
        "delete" => batch(alloc, delete(alloc, step)?, Some(1), word(step, 4)),
        "get" => get(alloc, step),
        "sync" => Ok(Body::Sync),
        "reply" => Ok(Body::Message(reply(step)?)),
        "down" => Ok(Body::Message(down(step))),
        "fetch" => Ok(Body::Message(fetch(step))),
        "halt" => Ok(Body::Halt(Cause::Exceeded)),
        _ => Ok(Body::Mend),
    }
}

/// What the step has the object say.
pub(crate) fn entry_of(alloc: Global, step: &Json) -> Result<Entry, Fail> {
    Ok(Entry {
        incarnation: count(step, 0),
        number: count(step, 1),
        body: body_of(alloc, step)?,
    })
}
