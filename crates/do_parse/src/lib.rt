//! From the text of a script to its tree.
#![tactic(auto)]

mod answer;
mod cursor;
mod cut;
mod expr;
mod fault;
mod items;
pub mod laws;
mod level;
mod loops;
mod made;
mod nodes;
pub mod one_fault;
mod script;
mod starts;
mod stop;
mod text;
mod unary;
mod value;

pub use answer::parse;
pub use fault::{ParseFault, ParseKind};
