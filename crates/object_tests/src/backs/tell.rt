//! What is printed of notices, messages and logs.
use std::alloc::Global;
use storage_map::Reading;
use test_rows::{Telling, tell_value};
use timeline::{BackLog, Caller, Message, Notice, Stepped};

/// Whether a step did something.
pub(crate) fn tell_step(line: &mut Telling, stepped: Stepped) {
    match stepped {
        Stepped::Did => line.say("did"),
        Stepped::Nothing => line.say("nothing"),
    }
}

fn tell_reading(line: &mut Telling, reading: &Reading) {
    line.say(" read ");
    if let Reading::One(value) = reading {
        tell_value(line, value);
    }
}

/// What the front is told.
pub(crate) fn tell_notice(alloc: Global, line: &mut Telling, notice: &Notice) {
    match notice {
        Notice::Read { number: _, reading } => tell_reading(line, reading),
        Notice::Taken { number, count } => line.tell(format!(in alloc; " taken {number}: {count}")),
        Notice::Synced { number } => line.tell(format!(in alloc; " synced {number}")),
        Notice::Fresh {
            incarnation,
            cause,
            ..
        } => line.tell(format!(in alloc; " fresh {incarnation} by {cause:?}")),
        Notice::Down { before, after, .. } => {
            line.tell(format!(in alloc; " down {before} {after}"))
        }
    }
}

fn number_of(caller: &Caller) -> i64 {
    match caller {
        Caller::Request { line: _, number } => *number,
        Caller::Object { .. } => 0,
    }
}

/// What leaves.
pub(crate) fn tell_message(alloc: Global, line: &mut Telling, message: &Message) {
    match message {
        Message::Reply {
            to,
            result: Ok(value),
        } => {
            line.tell(format!(in alloc; " reply {}: ", number_of(to)));
            tell_value(line, value);
        }
        Message::Reply {
            to,
            result: Err(failure),
        } => line.tell(format!(in alloc; " reply {}: {failure:?}", number_of(to))),
        Message::Call { number, .. } => line.tell(format!(in alloc; " call {number}")),
        Message::Fetch { number, .. } => line.tell(format!(in alloc; " fetch {number}")),
    }
}

fn tell_flights(alloc: Global, line: &mut Telling, log: &BackLog) {
    line.say("; flights");
    for flight in log.flights.as_slice() {
        line.tell(format!(in alloc; " {flight}"));
    }
}

fn tell_stops(alloc: Global, line: &mut Telling, log: &BackLog) {
    line.say("; stops");
    for stop in log.stops.as_slice() {
        line.tell(format!(in alloc; " {} {}", stop.flights, stop.batches));
    }
}

fn tell_ends(alloc: Global, line: &mut Telling, log: &BackLog) {
    line.say("; kept");
    for end in log.ends.as_slice() {
        line.tell(format!(in alloc; " {}", end.kept));
    }
}

fn tell_releases(alloc: Global, line: &mut Telling, log: &BackLog) {
    line.say("; released");
    for release in log.released.as_slice() {
        line.tell(format!(in alloc; " {}", release.needs));
    }
}

/// The log: how many entries were taken, the batches of each flight, the flights and batches of each end, what was kept, and what
/// each message needed.
pub(crate) fn tell_log(alloc: Global, line: &mut Telling, log: &BackLog) {
    let taken = log.taken.as_slice().len();
    line.tell(format!(in alloc; "taken {taken}"));
    tell_flights(alloc, line, log);
    tell_stops(alloc, line, log);
    tell_ends(alloc, line, log);
    tell_releases(alloc, line, log)
}

/// The pairs of a listing.
pub(crate) fn tell_pairs(line: &mut Telling, reading: &Reading) {
    if let Reading::Pairs(pairs) = reading {
        for (key, value) in pairs.as_slice() {
            line.say(" ");
            line.say(key.as_str());
            line.say("=");
            tell_value(line, value);
        }
    }
}
