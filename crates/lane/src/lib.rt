//! Lanes: queues without a bound, each with one end that sends and one that takes. What stands over a lane is generic over its
//! ends, so that one thread runs it over plain queues, and many over lanes.
#![tactic(auto)]

mod ends;
mod plain;
mod rule;
mod trail;
mod traits;

pub use ends::{Note, SendEnd, TakeEnd, close, make, no_two};
pub use plain::Plain;
pub use traits::{Inlet, Outlet, SendFault};
