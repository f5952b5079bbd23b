//! How a turn is told: the batches that it closed, how it ended, and the object's fields where it has any.
use do_value::{Fields, Text, Value};
use script_eval::{Ask, Outcome};
use std::alloc::Global;
use std::test::Fail;
use storage_map::{Op, Options, StoreAsk};
use test_rows::{Telling, tell_number, tell_record, tell_text, tell_value};
use write_batcher::Made;

/// A turn as it is told.
pub(crate) fn told(alloc: Global, outcome: &Outcome) -> Result<String, Fail> {
    let mut line = Telling::new(alloc);
    match outcome {
        Outcome::Paused {
            task,
            batches,
            ask,
            fields,
        } => {
            tell_batches(&mut line, batches);
            tell_ask(&mut line, ask);
            if task.block() {
                line.say(" in a block");
            }
            tell_fields(&mut line, fields);
        }
        Outcome::Done {
            batches,
            value,
            fields,
        } => tell_end(&mut line, batches, "done ", value, fields),
        Outcome::Threw {
            batches,
            value,
            fields,
            reset,
        } => {
            let word = if *reset { "threw and reset " } else { "threw " };
            tell_end(&mut line, batches, word, value, fields);
        }
        Outcome::Exceeded { batches } => {
            tell_batches(&mut line, batches);
            line.say("exceeded");
        }
    }
    line.into_text()
}

// The end of a task.
fn tell_end(line: &mut Telling, batches: &[Made], word: &str, value: &Value, fields: &Fields) {
    tell_batches(line, batches);
    line.say(word);
    tell_value(line, value);
    tell_fields(line, fields)
}

// `[put 'k' 1, delete 'j'] `, and `unconfirmed [put 'k' 1] `.
fn tell_batches(line: &mut Telling, batches: &[Made]) {
    for made in batches {
        line.say(if made.confirmed { "[" } else { "unconfirmed [" });
        let mut first = true;
        for op in made.batch.as_slice() {
            if !first {
                line.say(", ");
            }
            first = false;
            tell_op(line, op);
        }
        line.say("] ");
    }
}

fn tell_op(line: &mut Telling, op: &Op) {
    match op {
        Op::Put { key, value } => {
            line.say("put ");
            tell_text(line, key.as_str());
            line.say(" ");
            tell_value(line, value);
        }
        Op::Delete { key } => {
            line.say("delete ");
            tell_text(line, key.as_str());
        }
        Op::DeleteAll => line.say("delete all"),
        Op::SetAlarm { time, retry } => {
            line.say("alarm ");
            tell_number(line, *time);
            line.say(" retry ");
            tell_number(line, i64::from(*retry));
        }
        Op::ClearAlarm => line.say("no alarm"),
    }
}

fn tell_ask(line: &mut Telling, ask: &Ask) {
    line.say("asks ");
    match ask {
        Ask::Store(ask) => tell_read(line, ask),
        Ask::Open(ask) => {
            line.say("open ");
            tell_read(line, ask);
        }
        Ask::Written { tail } => {
            line.say("written ");
            tell_number(line, i64::from(*tail));
        }
        Ask::Sync => line.say("sync"),
        Ask::Call { to, method, args } => {
            line.say("call");
            for word in [to.class(), to.name(), method.as_str()] {
                line.say(" ");
                line.say(word);
            }
            line.say(" ");
            tell_args(line, args.values());
        }
        Ask::Fetch(value) => {
            line.say("fetch ");
            tell_value(line, value);
        }
    }
}

fn tell_read(line: &mut Telling, ask: &StoreAsk) {
    match ask {
        StoreAsk::Get(key) => {
            line.say("get ");
            tell_text(line, key.as_str());
        }
        StoreAsk::GetMany(keys) => {
            line.say("get many");
            for key in keys.as_slice() {
                line.say(" ");
                tell_text(line, key.as_str());
            }
        }
        StoreAsk::List(options) => {
            line.say("list");
            tell_options(line, options);
        }
        StoreAsk::Alarm => line.say("alarm"),
    }
}

fn tell_options(line: &mut Telling, options: &Options) {
    tell_bound(line, " start ", &options.start);
    tell_bound(line, " after ", &options.after);
    tell_bound(line, " end ", &options.end);
    tell_bound(line, " prefix ", &options.prefix);
    if options.reverse {
        line.say(" reverse");
    }
    if let Some(limit) = options.limit {
        line.tell(format!(in line.alloc(); " limit {limit}"));
    }
}

fn tell_bound(line: &mut Telling, word: &str, bound: &Option<Text>) {
    if let Some(text) = bound {
        line.say(word);
        tell_text(line, text.as_str());
    }
}

// Nothing for an object without fields.
fn tell_fields(line: &mut Telling, fields: &Fields) {
    if !fields.as_slice().is_empty() {
        line.say(" with ");
        tell_record(line, fields);
    }
}

// The arguments of a call.
fn tell_args(line: &mut Telling, values: &[Value]) {
    line.say("[");
    let mut first = true;
    for value in values {
        if !first {
            line.say(",");
        }
        first = false;
        tell_value(line, value);
    }
    line.say("]");
}
