//! Whether a notice of the storage is the one that a task waits for, and what it answers.
ghost use Rattle.std.specs.Prelude.{◌≡◌};
ghost use Rattle.script_mean.specs.Answers as answers;
ghost use Rattle.front_turns.specs.declared.object.Asked.TheVariants as an_ask;
ghost use Rattle.front_half.specs.Noticing as noticing;

use do_value::Value;
use front_turns::Asked;
use script_mean::Answer;
use storage_map::{Reading, StoreAsk};
use timeline::Notice;

// Whether the reading is of the kind that the ask has.
fn is_answer(ask: &StoreAsk, reading: &Reading) -> bool
    ensures { result ≡ answers.is_answer ask.now reading.now }
{
    match ask {
        StoreAsk::Get(_) => matches!(reading, Reading::One(_)),
        StoreAsk::GetMany(_) | StoreAsk::List(_) => matches!(reading, Reading::Pairs(_)),
        StoreAsk::Alarm => matches!(reading, Reading::Alarm(_)),
    }
}

// The answer to a read.
fn answer_to_read(ask: &StoreAsk, count: u64, notice: Notice) -> Option<Answer>
    ensures { result ≡ noticing.answer_to count (an_ask.Read ask.now) notice }
{
    match notice {
        Notice::Read { number, reading } => {
            if number == count && is_answer(ask, &reading) {
                Some(Answer::Read(reading))
            } else {
                None
            }
        }
        Notice::Taken { .. } | Notice::Synced { .. } | Notice::Fresh { .. } | Notice::Down { .. } =>
            None,
    }
}

// The answer to a batch whose completion is awaited.
fn answer_to_batch(count: u64, notice: Notice) -> Option<Answer>
    ensures { result ≡ noticing.answer_to count an_ask.Taken notice }
{
    match notice {
        Notice::Taken {
            number,
            count: deleted,
        } => {
            if number == count {
                Some(Answer::Read(Reading::Count(deleted)))
            } else {
                None
            }
        }
        Notice::Read { .. } | Notice::Synced { .. } | Notice::Fresh { .. } | Notice::Down { .. } =>
            None,
    }
}

// The answer to a sync.
fn answer_to_sync(count: u64, notice: Notice) -> Option<Answer>
    ensures { result ≡ noticing.answer_to count an_ask.Synced notice }
{
    match notice {
        Notice::Synced { number } => {
            if number == count {
                Some(Answer::Value(Value::Undefined))
            } else {
                None
            }
        }
        Notice::Read { .. } | Notice::Taken { .. } | Notice::Fresh { .. } | Notice::Down { .. } =>
            None,
    }
}

// The answer that a notice brings to a task that asked so, where so many entries were sent; none where it isn't the one that is
// waited for.
pub(crate) fn answer_to(asked: &Asked, count: u64, notice: Notice) -> Option<Answer>
    ensures { result ≡ noticing.answer_to count asked.now notice }
{
    match asked {
        Asked::Read(ask) => answer_to_read(ask, count, notice),
        Asked::Taken => answer_to_batch(count, notice),
        Asked::Synced => answer_to_sync(count, notice),
    }
}
