//! When an alarm is due, and what is written of it when its handler has ended. After the alarms documentation; how often and
//! after which delays a handler is tried again is this project's profile. No call takes memory.
#![tactic(auto)]

mod rule;

pub use rule::{after_failure, after_success, due};
