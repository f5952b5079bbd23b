//! The tree of a script: what its text says, each node with its place.
//!
//! The tree follows the grammar rule by rule. Chains of operators and of member accesses are lists, and
//! parentheses are nodes, so a tree has one spelling but for separators, quotes and trailing commas.
//!
//! A part that is run by itself, as an operand or the body of a loop, is behind an [`Arc`]: a suspended
//! task holds the nodes at which it goes on, and copies none.
//!
//! [`Arc`]: std::sync::Arc
#![tactic(auto)]

mod checked;
mod expr;
mod kind;
pub mod laws;
mod print;
mod print_expr;
mod print_stmt;
mod print_word;
mod script;
mod stmt;

pub use checked::Checked;
pub use expr::{Arg, Callback, Chain, Expr, Link, Operand, Pair};
pub use kind::CheckKind;
pub use script::{Class, Method, MethodKind, Name, Script};
pub use stmt::{Binding, Block, Item, Simple, Stmt, Write};
