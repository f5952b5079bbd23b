//! What the cases give a switch.
use do_check::check;
use do_parse::parse;
use do_tree::Checked;
use do_value::{Args, Text, Value};
use serde_json::Value as Json;
use std::alloc::Global;
use std::test::Fail;
use storage_map::Identity;
use test_rows::{count, number, value, word};
use timeline::{Caller, Message, Waits};

/// The script of a text that is right.
pub(crate) fn script(alloc: Global, text: &str) -> Result<Checked, Fail> {
    match parse(alloc, text.as_bytes()) {
        Ok(script) => match check(alloc, script) {
            Ok(checked) => Ok(checked),
            Err(_) => Err("refused by the check")?,
        },
        Err(_) => Err("refused by the parser")?,
    }
}

/// The number at this place of the step, 0 where none is there.
pub(crate) fn small(step: &Json, at: usize) -> u32 {
    u32::try_from(count(step, at)).unwrap_or(0)
}

fn called(alloc: Global, step: &Json) -> Result<Message, Fail> {
    let class = Text::new(alloc, word(step, 4))?;
    let name = Text::new(alloc, word(step, 5))?;
    let args = match value(alloc, step, 7)? {
        Value::List(items) => items.into_values()?,
        _ => Vec::new(alloc),
    };
    Ok(Message::Call {
        incarnation: count(step, 2),
        number: count(step, 3),
        to: Identity::new(class, name).ok_or("a long name")?,
        method: Text::new(alloc, word(step, 6))?,
        args: Args::new(args),
        depth: 1,
    })
}

/// What the object says: `[SLOT, "reply", LINE, NUMBER, VALUE]` to a request, `[SLOT, "answer", SLOT, INCARNATION, NUMBER, VALUE]` to an
/// object, `[SLOT, "call", INCARNATION, NUMBER, CLASS, NAME, METHOD, ARGUMENTS]`, `[SLOT, "fetch", INCARNATION, NUMBER, VALUE]`.
pub(crate) fn message(alloc: Global, step: &Json) -> Result<Message, Fail> {
    Ok(match word(step, 1) {
        "reply" => Message::Reply {
            to: Caller::Request {
                line: count(step, 2),
                number: number(step, 3),
            },
            result: Ok(value(alloc, step, 4)?),
        },
        "answer" => Message::Reply {
            to: Caller::Object {
                slot: small(step, 2),
                incarnation: count(step, 3),
                number: count(step, 4),
            },
            result: Ok(value(alloc, step, 5)?),
        },
        "call" => called(alloc, step)?,
        _ => Message::Fetch {
            incarnation: count(step, 2),
            number: count(step, 3),
            value: value(alloc, step, 4)?,
        },
    })
}

// What a request waits for: `"fetch", INCARNATION, NUMBER`, `"call", CLASS, NAME`, `"block"`.
fn waits(alloc: Global, step: &Json) -> Result<Waits, Fail> {
    Ok(match word(step, 3) {
        "fetch" => Waits::Fetch {
            incarnation: count(step, 4),
            number: count(step, 5),
        },
        "call" => Waits::Call {
            class: Text::new(alloc, word(step, 4))?,
            name: Text::new(alloc, word(step, 5))?,
        },
        _ => Waits::Block,
    })
}

/// What is left at the end: behind the word, `[SLOT, LINE, NUMBER, WHAT ..]` for each request.
pub(crate) fn left(alloc: Global, step: &Json) -> Result<Vec<(u32, Caller, Waits)>, Fail> {
    let mut left = Vec::new(alloc);
    for at in 1..8 {
        if let Some(each) = step.get(at) {
            let caller = Caller::Request {
                line: count(each, 1),
                number: number(each, 2),
            };
            left.push((small(each, 0), caller, waits(alloc, each)?))?;
        }
    }
    Ok(left)
}

/// The bytes of the case's lines of the input: the steps that are a text, as it is, and those that begin with a word but `left`.
pub(crate) fn input(alloc: Global, row: &Json) -> Result<Vec<u8>, Fail> {
    let mut bytes = Vec::new(alloc);
    for at in 3..64 {
        if let Some(step) = row.get(at) {
            add_line(alloc, &mut bytes, step)?;
        }
    }
    Ok(bytes)
}

fn add_line(alloc: Global, bytes: &mut Vec<u8>, step: &Json) -> Result<(), Fail> {
    if !is_line(step) {
        return Ok(());
    }
    match step.as_str() {
        Some(text) => bytes.extend_from_slice(text.as_bytes())?,
        None => bytes.extend_from_slice(step.to_string(alloc)?.as_bytes())?,
    }
    bytes.push(b'\n')?;
    Ok(())
}

/// Whether the step is a line of the input.
pub(crate) fn is_line(step: &Json) -> bool {
    match word(step, 0) {
        "left" => false,
        "" => step.as_str().is_some(),
        _ => true,
    }
}
