//! The switch between lines and objects: what a line of the input asks is posted to objects, and what objects say is posted to
//! others or printed.
#![tactic(auto)]

mod accepting;
mod calling;
mod fault;
mod fitting;
mod given;
mod posting;
mod printing;
mod routing;
mod state;
mod switch;
mod switch_log;
mod taking;
mod ticking;
mod waiting;

pub use fault::SwitchFault;
pub use fitting::Routed;
pub use switch::Switch;
pub use switch_log::SwitchLog;
