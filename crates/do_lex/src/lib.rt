//! The tokens of the script language: slices of the text, one after another, without memory.
//!
//! The lexical grammar is that of JavaScript (ECMA-262, section 12) in this project's profile:
//! ASCII words, whole numbers, texts in one line with six escapes, and no regular expressions.
//! `specs/` states it over the bytes of the text.
#![tactic(auto)]

mod bytes;
mod fault;
mod inside;
mod kind;
pub mod laws;
mod pieces;
mod tokens;

pub use fault::LexFault;
pub use kind::{Keyword, Kind, Mark, is_keyword};
pub use pieces::{LONGEST_SCRIPT, Span, end_of_text};
pub use tokens::{Token, Tokens};
