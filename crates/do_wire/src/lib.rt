//! Values as JSON, in both directions: RFC 8259 as `serde_json` keeps it, and this project's profile for
//! what JSON hasn't (`undefined`) and values haven't (numbers that aren't whole or lie out of range).
#![tactic(auto)]

mod depth;
mod fault;
pub mod laws;
mod numbers;
mod print;
mod read;

pub use fault::WireFault;
pub use print::to_json;
pub use read::from_json;
