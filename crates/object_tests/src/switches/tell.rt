//! What is printed of events.
use do_value::Value;
use std::alloc::Global;
use test_rows::{Telling, tell_value};
use timeline::{Caller, Event, Failure};

fn tell_caller(alloc: Global, telling: &mut Telling, from: &Caller) {
    match from {
        Caller::Request { line, number } => {
            telling.tell(format!(in alloc; "request {number} of line {line}"))
        }
        Caller::Object {
            slot,
            incarnation,
            number,
        } => telling.tell(format!(in alloc;
            "slot {slot}, incarnation {incarnation}, number {number}"
        )),
    }
}

fn tell_values(line: &mut Telling, values: &[Value]) {
    line.say(":");
    for value in values {
        line.say(" ");
        tell_value(line, value);
    }
}

fn tell_result(alloc: Global, line: &mut Telling, outcome: &Result<Value, Failure>) {
    match outcome {
        Ok(value) => tell_value(line, value),
        Err(failure) => line.tell(format!(in alloc; "{failure:?}")),
    }
}

/// What an object gets.
pub(crate) fn tell_event(alloc: Global, line: &mut Telling, event: &Event) {
    match event {
        Event::Bind(to) => line.tell(format!(in alloc; "bind {} {}", to.class(), to.name())),
        Event::Call {
            from,
            method,
            args,
            depth,
            at,
        } => {
            line.tell(format!(in alloc; "call of method {method} at {at}, depth {depth}, for "));
            tell_caller(alloc, line, from);
            tell_values(line, args.values());
        }
        Event::Answer {
            incarnation,
            number,
            result,
            at,
        } => {
            line.tell(format!(in alloc;
                "answer to incarnation {incarnation}, number {number} at {at}: "
            ));
            tell_result(alloc, line, result);
        }
        Event::Tick { at } => line.tell(format!(in alloc; "tick {at}")),
        Event::Evict { at } => line.tell(format!(in alloc; "evict at {at}")),
    }
}
