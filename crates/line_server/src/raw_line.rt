// A line as it is read, of which no more is kept than the limit allows.
ghost use Rattle.std.specs.Prelude.{◌≡◌, ◌+◌, ◌<◌, ◌≤◌, ◌^◌, ◌++◌, [], List, ℕ, OnOk, IfOk, IsTrue, length, take, vec_len};
ghost use Rattle.line_server.specs.Cut as spec;
ghost use Rattle.line_server.specs.Limits.{most_line_bytes};

use crate::MOST_LINE_BYTES;
use crate::front::fitting;
use crate::read_line::read_body;
use crate::refusal::Refusal;
use crate::request::Request;
use do_value::Mem;
use std::alloc::{AllocError, Global};

#[derive(Drop)]
pub(crate) struct RawLine {
    // The line's first bytes, at most as many as are read.
    pub(crate) kept: Vec<u8>,
    // How many bytes it has.
    pub(crate) length: u64,
    // Whether it has only spaces, tabs and CR.
    pub(crate) blank: bool,
    ghost bounded: { vec_len kept ≤ most_line_bytes },
}

impl RawLine {
    ghost use Rattle.line_server.specs.Raw.{IsRaw};
    ghost use Rattle.line_server.specs.Requests.{body_of};
    ghost use Rattle.line_server.specs.Bodies.{body_seen, is_body};

    pub(crate) fn new(alloc: Global) -> RawLine
        ensures { IsRaw [] result }
    {
        RawLine {
            kept: Vec::new(alloc),
            length: 0,
            blank: true,
        }
    }

    // It has no byte any more. Its memory stays.
    pub(crate) fn clear(&mut self)
        ensures raw { IsRaw [] self.new }
        ensures length { self.new.length ≡ 0 }
    {
        self.kept.clear();
        self.length = 0;
        self.blank = true;
    }

    // It has these bytes too. Where memory is wanting it stays.
    pub(crate) fn add(&mut self, bytes: &[u8]) -> Result<(), AllocError>
        requires { self.old.length + length bytes.now < 2 ^ 64 }
        ensures more { OnOk result ((line : List ℕ) → IsRaw line self.old → IsRaw (line ++ bytes.now) self.new) }
        ensures length { OnOk result (self.new.length ≡ self.old.length + length bytes.now) }
    {
        keep(&mut self.kept, bytes)?;
        self.length += bytes.len() as u64;
        self.blank &= are_blank(bytes);
        Ok(())
    }

    // What the line asks, or why it is refused.
    pub(crate) fn body(&self, alloc: Global) -> Mem<Result<Request, Refusal>>
        ensures body { IfOk result (λ body. (line : List ℕ) → IsRaw line self.now → body_seen body ≡ body_of line) }
        ensures range { IfOk result (λ body. IsTrue (is_body body)) }
    {
        if self.length > MOST_LINE_BYTES {
            return Ok(Err(Refusal::Long));
        }
        read_body(alloc, &self.kept)
    }
}

// Adds the bytes, but for those past as many as are read.
fn keep(kept: &mut Vec<u8>, bytes: &[u8]) -> Result<(), AllocError>
    requires { vec_len kept.old ≤ most_line_bytes }
    ensures kept { OnOk result (kept.new.items ≡ take most_line_bytes (kept.old.items ++ bytes.now)) }
    ensures bounded { vec_len kept.new ≤ most_line_bytes }
{
    let room = MOST_LINE_BYTES as usize - kept.len();
    kept.extend_from_slice(fitting(bytes, room))?;
    Ok(())
}

// Whether a line of these bytes is blank.
fn are_blank(bytes: &[u8]) -> bool
    ensures { result ≡ spec.is_blank bytes.now }
{
    bytes.iter().all(|byte| is_blank(*byte))
}

// Whether a line with this byte may still be blank.
pub(crate) fn is_blank(byte: u8) -> bool
    ensures { result ≡ spec.is_blank_byte byte }
{
    matches!(byte, b' ' | b'\t' | b'\r')
}
