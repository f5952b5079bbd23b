//! The check of a script: names, writes, awaits, and the forms of calls.
//!
//! `check` walks over the tree of a script and keeps the first fault, by its place and then by the order of the
//! kinds. The names in sight are those of the blocks around, each block with a sorted map of what it has declared.
#![tactic(auto)]

mod arguments;
mod asking;
mod declared;
mod doubled;
mod fault;
mod found;
mod known;
mod methods;
mod named;
mod path;
mod scope;
mod script;
mod sort;
mod stage;
mod step;
mod walk;
mod words;

pub use do_tree::CheckKind;
pub use fault::CheckFault;
pub use script::check;
