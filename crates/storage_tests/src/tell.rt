//! Answers of stores as the cases tell them.
use do_value::Value;
use storage_cache::{Held, HeldRef, Look};
use storage_map::{Alarm, Key, Pairs, Place, Reading, StoreAsk};
use test_rows::{Telling, tell_number, tell_value};

pub(crate) fn tell_reading(line: &mut Telling, reading: &Reading) {
    match reading {
        Reading::One(value) => {
            line.say(" ");
            tell_value(line, value);
        }
        Reading::Pairs(pairs) => tell_pairs(line, pairs),
        Reading::Alarm(alarm) => tell_alarm(line, *alarm),
        Reading::Count(_) => line.say(" a count"),
    }
}

fn tell_alarm(line: &mut Telling, alarm: Option<Alarm>) {
    match alarm {
        None => line.say(" no alarm"),
        Some(alarm) => {
            line.say(" alarm ");
            tell_number(line, alarm.time());
            line.say(", retry ");
            tell_number(line, i64::from(alarm.retry()));
        }
    }
}

/// What a look for the ask gives, as a reading is told: what is held of one key alone, `undefined` where that isn't there.
pub(crate) fn tell_look(line: &mut Telling, ask: &StoreAsk, look: &Look) {
    match look {
        Look::Alarm(alarm) => tell_alarm(line, *alarm),
        Look::Pairs(pairs) => match ask {
            StoreAsk::Get(_) => tell_one(line, pairs.as_slice()),
            _ => tell_all(line, pairs.as_slice()),
        },
    }
}

fn tell_one(line: &mut Telling, pairs: &[(Key, Held)]) {
    match pairs {
        [(_, Held::Value(value))] => {
            line.say(" ");
            tell_value(line, value);
        }
        [] => line.say(" undefined"),
        _ => tell_all(line, pairs),
    }
}

fn tell_all(line: &mut Telling, pairs: &[(Key, Held)]) {
    for (key, held) in pairs {
        tell_held(line, key.as_str(), held);
    }
}

pub(crate) fn tell_held(line: &mut Telling, key: &str, held: &Held) {
    match held {
        Held::Value(value) => tell_pair(line, key, value),
        Held::At(place) => tell_place(line, key, *place),
    }
}

pub(crate) fn tell_lent(line: &mut Telling, key: &str, held: HeldRef<'_>) {
    match held {
        HeldRef::Value(value) => tell_pair(line, key, value),
        HeldRef::At(place) => tell_place(line, key, place),
    }
}

fn tell_place(line: &mut Telling, key: &str, place: Place) {
    line.tell(format!(in line.alloc(); " {key}: {} bytes at {}", place.size, place.at));
}

pub(crate) fn tell_pairs(line: &mut Telling, pairs: &Pairs) {
    for (key, value) in pairs.as_slice() {
        tell_pair(line, key.as_str(), value);
    }
}

pub(crate) fn tell_pair(line: &mut Telling, key: &str, value: &Value) {
    line.say(" ");
    line.say(key);
    line.say("=");
    tell_value(line, value)
}
