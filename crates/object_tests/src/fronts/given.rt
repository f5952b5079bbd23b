//! What the cases give a front: events at moment 0, and notices.
use do_check::check;
use do_parse::parse;
use do_tree::Checked;
use do_value::{Args, Text, Value};
use serde_json::Value as Json;
use std::alloc::Global;
use std::test::Fail;
use storage_map::{Identity, Reading};
use test_rows::{count, named, number, value, word};
use timeline::{Caller, Cause, Event, Failure, Notice};

/// The script of this name.
pub(crate) fn script(alloc: Global, name: &str) -> Result<Checked, Fail> {
    let text = named(name).unwrap_or("");
    let Ok(script) = parse(alloc, text.as_bytes()) else {
        return Err("refused by the parser")?;
    };
    match check(alloc, script) {
        Ok(checked) => Ok(checked),
        Err(_) => Err("refused by the check")?,
    }
}

// `bind CLASS`: the object a of the class.
fn bind(alloc: Global, step: &Json) -> Result<Event, Fail> {
    let class = Text::new(alloc, word(step, 1))?;
    let name = Text::new(alloc, "a")?;
    Ok(Event::Bind(Identity::new(class, name).ok_or("a long name")?))
}

// `call LINE METHOD ARGUMENT`, of a method of the script's first class. A name that it hasn't is no method's number.
fn call(alloc: Global, checked: &Checked, step: &Json) -> Result<Event, Fail> {
    let method = checked.method(0, word(step, 2)).unwrap_or(1_000);
    let args = vec![in alloc; value(alloc, step, 3)?]?;
    Ok(Event::Call {
        from: Caller::Request {
            line: count(step, 1),
            number: 0,
        },
        method,
        args: Args::new(args),
        depth: 0,
        at: 0,
    })
}

/// The answer of this value to what an incarnation numbered so.
pub(crate) fn answer(incarnation: u64, number: u64, value: Value) -> Event {
    Event::Answer {
        incarnation,
        number,
        result: Ok(value),
        at: 0,
    }
}

fn failed(step: &Json) -> Event {
    Event::Answer {
        incarnation: count(step, 1),
        number: count(step, 2),
        result: Err(Failure::NoFetch),
        at: 0,
    }
}

/// `bind`, `call`, `answer INCARNATION NUMBER VALUE`, `failed INCARNATION NUMBER`, `tick MOMENT`, `evict`.
pub(crate) fn event(alloc: Global, checked: &Checked, step: &Json) -> Result<Event, Fail> {
    match word(step, 0) {
        "bind" => bind(alloc, step),
        "call" => call(alloc, checked, step),
        "answer" => Ok(answer(count(step, 1), count(step, 2), value(alloc, step, 3)?)),
        "failed" => Ok(failed(step)),
        "tick" => Ok(Event::Tick {
            at: number(step, 1),
        }),
        _ => Ok(Event::Evict { at: 0 }),
    }
}

// The disk's faults before and after, at this place and the next.
fn disk(step: &Json, at: usize) -> (u64, u64) {
    (count(step, at), count(step, at.wrapping_add(1)))
}

fn fresh(step: &Json) -> Notice {
    let (before, after) = disk(step, 2);
    Notice::Fresh {
        incarnation: count(step, 1),
        alarm: None,
        cause: Cause::Disk { before, after },
    }
}

fn down(step: &Json) -> Notice {
    let (before, after) = disk(step, 1);
    Notice::Down {
        cause: Cause::Disk {
            before: 0,
            after: 1,
        },
        before,
        after,
    }
}

/// `read NUMBER VALUE`, `taken NUMBER COUNT`, `synced NUMBER`, `fresh INCARNATION BEFORE AFTER`, `down BEFORE AFTER`; nothing where it
/// is none of these.
pub(crate) fn notice(alloc: Global, step: &Json) -> Result<Option<Notice>, Fail> {
    let of = count(step, 1);
    match word(step, 0) {
        "read" => {
            let reading = Reading::One(value(alloc, step, 2)?);
            Ok(Some(Notice::Read {
                number: of,
                reading,
            }))
        }
        "taken" => Ok(Some(Notice::Taken {
            number: of,
            count: count(step, 2),
        })),
        "synced" => Ok(Some(Notice::Synced { number: of })),
        "fresh" => Ok(Some(fresh(step))),
        "down" => Ok(Some(down(step))),
        _ => Ok(None),
    }
}
