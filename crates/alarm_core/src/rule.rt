//! The rule of alarms.
ghost use Rattle.std.specs.Prelude.{◌≡◌, ◌≤◌, ◌≤ℤ◌, pos, IfSome};
ghost use Rattle.storage_map.specs.Ops.{IsOp};
ghost use Rattle.alarm_core.specs.AlarmRule as alarms;

use storage_map::{Alarm, MOST_RETRY, MOST_TIME, Op};

// The delay before the first retry, in milliseconds. Each further one is twice the one before it.
const FIRST_DELAY: i64 = 2_000;

/// Whether a tick of this moment, in milliseconds, starts the alarm's handler. While one runs none is due.
pub fn due(alarm: Option<Alarm>, running: bool, moment: i64) -> bool
    ensures { result ≡ alarms.is_due alarm running moment }
{
    match alarm {
        Some(alarm) => !running && alarm.time() <= moment,
        None => false,
    }
}

/// What is written when a handler has ended well. The alarm was touched where it was set or cleared while the handler ran.
pub fn after_success(touched: bool) -> Option<Op>
    ensures written { result ≡ alarms.after_success touched }
    ensures op { IfSome result IsOp }
{
    if touched { None } else { Some(Op::ClearAlarm) }
}

/// What is written when a handler has thrown, which was tried again this many times before, at the object's clock in milliseconds.
pub fn after_failure(retry: u8, touched: bool, clock: i64) -> Option<Op>
    requires retry { retry ≤ alarms.most_retry }
    requires clock { (pos 0 ≤ℤ clock) × (clock ≤ℤ alarms.most_time) }
    ensures written { result ≡ alarms.after_failure retry touched clock }
    ensures op { IfSome result IsOp }
{
    if touched {
        None
    } else if retry < MOST_RETRY {
        let delay = FIRST_DELAY * (1 << retry);
        Some(Op::SetAlarm {
            time: (clock + delay).min(MOST_TIME),
            retry: retry + 1,
        })
    } else {
        Some(Op::ClearAlarm)
    }
}
