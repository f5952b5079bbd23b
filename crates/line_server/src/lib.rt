//! The lines of a run: the numbered requests of the input, and the printed lines of the output.
#![tactic(auto)]

mod buffer;
mod bytes;
mod cut;
mod error_text;
mod fault;
mod front;
mod line;
mod lines;
mod out_line;
mod parts;
mod raw_line;
mod read_line;
mod refusal;
mod request;
mod text;
mod write;

pub use fault::LineFault;
pub use line::Line;
pub use lines::Lines;
pub use out_line::{OutLine, WaitLine, Why};
pub use refusal::Refusal;
pub use request::Request;
pub use text::{json_text, print};
pub use write::put;

/// The most bytes of a line before its LF that is read. A longer one is refused as `Long`.
pub const MOST_LINE_BYTES: u64 = 1_048_576;

/// Where a line's first so many bytes have no LF, the next line begins after these.
pub const MOST_CUT_BYTES: u64 = 4_294_967_296;

/// The most lines of a run.
pub const MOST_LINES: u64 = 1_048_576;
