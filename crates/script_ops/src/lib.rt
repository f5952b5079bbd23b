//! The operators of scripts, and the calls that read their arguments alone: JavaScript's, in this project's profile.
#![tactic(auto)]

mod calls;
mod compare;
mod errors;
mod fault;
pub mod laws;
mod lists;
mod made;
mod numbers;
mod operators;
mod refusal;
mod texts;

pub use calls::{builtin, unit_count};
pub use compare::truth;
pub use errors::{build_error, fault_of, throw, thrown};
pub use fault::{OpFault, Stop};
pub use made::{list_of, record_of, wrong_type};
pub use operators::{binary, unary};
pub use refusal::{CallFailure, Refusal};
