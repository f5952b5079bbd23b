//! What batches make of the alarm that an object keeps.
ghost use Rattle.std.specs.Prelude.{◌≡◌, ◌||◌, ◌++◌, ◌∷◌, [], IsTrue};
ghost use Rattle.std.specs.List.{All, flat_map, list_any};
ghost use Rattle.storage_map.specs.Ops.{IsOp};
ghost use Rattle.storage_map.specs.Stored.{alarm_after, alarm_step};
ghost use Rattle.alarm_core.specs.AlarmRule.{touches};

use storage_map::{Alarm, Op};
use write_batcher::Made;

// What one operation makes of the alarm.
fn step(alarm: Option<Alarm>, op: &Op) -> Option<Alarm>
    requires { IsOp op.now }
    ensures { result ≡ alarm_step alarm op.now }
{
    match op {
        Op::SetAlarm { time, retry } => Some(Alarm::new(*time, *retry)),
        Op::ClearAlarm => None,
        Op::Put { .. } | Op::Delete { .. } | Op::DeleteAll => alarm,
    }
}

// Whether it sets or clears the alarm.
fn touches(op: &Op) -> bool
    ensures { result ≡ touches op.now }
{
    match op {
        Op::SetAlarm { .. } | Op::ClearAlarm => true,
        Op::Put { .. } | Op::Delete { .. } | Op::DeleteAll => false,
    }
}

pub(crate) fn after_ops(alarm: Option<Alarm>, ops: &[Op]) -> Option<Alarm>
    requires { All IsOp ops.now }
    ensures { result ≡ alarm_after alarm ops.now }
{
    let mut after = alarm;
    for op in ops {
        after = step(after, op);
    }
    after
}

pub(crate) fn any_touches(ops: &[Op]) -> bool
    ensures { result ≡ list_any touches ops.now }
{
    for op in ops {
        if touches(op) {
            return true;
        }
    }
    false
}

// What the batches make of the alarm.
#[tactic(auto, using(crate::proofs::Alarms::next_alarm))]
pub(crate) fn after_batches(alarm: Option<Alarm>, batches: &[Made]) -> Option<Alarm>
    ensures { result ≡ alarm_after alarm (flat_map (λ made. made.batch) batches.now) }
{
    let mut after = alarm;
    for made in batches {
        after = after_ops(after, made.batch.as_slice());
    }
    after
}

// Whether one of them touches it.
#[tactic(auto, using(crate::proofs::Alarms::next_any))]
pub(crate) fn any_batch_touches(batches: &[Made]) -> bool
    ensures { result ≡ list_any touches (flat_map (λ made. made.batch) batches.now) }
{
    for made in batches {
        if any_touches(made.batch.as_slice()) {
            return true;
        }
    }
    false
}
