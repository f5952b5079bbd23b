//! What is printed of entries, and of what is left.
ghost use Rattle.do_tree.specs.Checked.{tree_of};
ghost use Rattle.object_front.specs.Evaluated.{seen};
ghost use Rattle.front_half.specs.Turning.{CanTurn};

use do_tree::Checked;
use object_front::Front;
use std::alloc::Global;
use std::test::Fail;
use storage_map::{Batch, Op, StoreAsk};
use test_rows::{Telling, tell_text, tell_value};
use timeline::{Body, Caller, Entry, Failure, Message, Waits};

/// A word and a number behind it.
fn tell_number(line: &mut Telling, word: &str, number: u64) {
    line.tell(format!(in line.alloc(); "{word}{number}"));
}

/// `1.2 reply 7: 5`: the incarnation, the number in it, and what it says.
pub(crate) fn tell_entry(line: &mut Telling, entry: &Entry) {
    tell_number(line, ", ", entry.incarnation);
    tell_number(line, ".", entry.number);
    match &entry.body {
        Body::Bind(_) => line.say(" bind"),
        Body::Batch {
            batch,
            tail,
            confirmed,
        } => tell_batch(line, batch, *tail, *confirmed),
        Body::Ask { ask, free: _ } => tell_ask(line, ask),
        Body::Sync => line.say(" sync"),
        Body::Message(message) => tell_message(line, message),
        Body::Halt(_) => line.say(" halt"),
        Body::Mend => line.say(" mend"),
    }
}

// An unconfirmed one has that word behind it.
fn tell_batch(line: &mut Telling, batch: &Batch, tail: Option<u32>, confirmed: bool) {
    for op in batch.as_slice() {
        tell_op(line, op);
    }
    if let Some(tail) = tail {
        tell_number(line, " awaited ", u64::from(tail));
    }
    if !confirmed {
        line.say(" unconfirmed");
    }
}

fn tell_op(line: &mut Telling, op: &Op) {
    match op {
        Op::Put { key, value } => {
            line.say(" put ");
            line.say(key.as_str());
            line.say(" ");
            tell_value(line, value);
        }
        Op::Delete { key } => {
            line.say(" delete ");
            line.say(key.as_str());
        }
        Op::DeleteAll => line.say(" delete all"),
        Op::SetAlarm { time, retry } => {
            line.tell(format!(in line.alloc(); " alarm {time} {retry}"))
        }
        Op::ClearAlarm => line.say(" no alarm"),
    }
}

fn tell_ask(line: &mut Telling, ask: &StoreAsk) {
    line.say(" get ");
    if let StoreAsk::Get(key) = ask {
        tell_text(line, key.as_str());
    }
}

fn line_of(caller: &Caller) -> u64 {
    match caller {
        Caller::Request { line, number: _ } => *line,
        Caller::Object { .. } => 0,
    }
}

fn tell_message(line: &mut Telling, message: &Message) {
    match message {
        Message::Reply {
            to,
            result: Ok(value),
        } => {
            tell_number(line, " reply ", line_of(to));
            line.say(": ");
            tell_value(line, value)
        }
        Message::Reply {
            to,
            result: Err(failure),
        } => {
            tell_number(line, " reply ", line_of(to));
            tell_failure(line, failure)
        }
        Message::Call { number, .. } => tell_number(line, " call ", *number),
        Message::Fetch { number, .. } => tell_number(line, " fetch ", *number),
    }
}

fn tell_failure(line: &mut Telling, failure: &Failure) {
    match failure {
        Failure::Thrown(value) => {
            line.say(" thrown ");
            tell_value(line, value)
        }
        other => line.tell(format!(in line.alloc(); " {other:?}")),
    }
}

fn tell_waits(line: &mut Telling, waits: &Waits) {
    match waits {
        Waits::Fetch {
            incarnation: _,
            number,
        } => tell_number(line, " fetch ", *number),
        Waits::Call { class: _, name } => {
            line.say(" call of ");
            line.say(name.as_str());
        }
        Waits::Block => line.say(" block"),
    }
}

/// The lines of the requests that are left, with what each waits for.
pub(crate) fn tell_left(
    alloc: Global,
    checked: &Checked,
    front: &Front,
    line: &mut Telling,
) -> Result<(), Fail>
    requires { CanTurn seen (tree_of checked.now) front.now.half }
{
    let _ = checked;
    line.say("left");
    let left = front.left(alloc)?;
    for (from, waits) in &left {
        tell_number(line, ", ", line_of(from));
        tell_waits(line, waits);
    }
    line.say("; ");
    Ok(())
}
