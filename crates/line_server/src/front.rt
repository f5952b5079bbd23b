// What of some bytes belongs to one line.
ghost use Rattle.std.specs.Prelude.{◌≡◌, ◌<◌, length, take};
ghost use Rattle.line_server.specs.Ends as spec;
ghost use Rattle.line_server.specs.Front.{IsFront};

use crate::raw_line::is_blank;
use memchr::memchr;

// The first bytes of a line that were found: so many, with the LF behind them or before it.
pub(crate) enum Front {
    // An LF comes behind these.
    Whole(usize),
    // None of the bytes that were looked at is an LF.
    Part(usize),
}

// The front of the line that begins with these bytes, of which at most so many belong to it.
pub(crate) fn front_of(bytes: &[u8], most: u64) -> Front
    requires some { 0 < length bytes.now }
    requires room { 0 < most }
    ensures { IsFront bytes.now most result }
{
    let looked = fitting(bytes, most as usize);
    match memchr(b'\n', looked) {
        Some(at) => Front::Whole(at),
        None => Front::Part(looked.len()),
    }
}

// The first of the bytes, at most so many.
pub(crate) fn fitting(bytes: &[u8], most: usize) -> &[u8]
    ensures { result.now ≡ take most bytes.now }
{
    if most < bytes.len() {
        &bytes[..most]
    } else {
        bytes
    }
}

// Whether an LF of these bytes ends a line that isn't blank.
pub(crate) fn has_line(bytes: &[u8]) -> bool
    ensures { result ≡ spec.has_line bytes.now }
{
    has_end(begun(bytes))
}

// The bytes from the first one on that is neither blank nor an LF.
fn begun(bytes: &[u8]) -> &[u8]
    ensures { result.now ≡ spec.begun bytes.now }
{
    let mut at = 0;
    while at < bytes.len() && is_between(bytes[at]) {
        at += 1;
    }
    &bytes[at..]
}

// Whether the byte may stand before a line that isn't blank.
fn is_between(byte: u8) -> bool
    ensures { result ≡ spec.is_between byte }
{
    is_blank(byte) || byte == b'\n'
}

fn has_end(bytes: &[u8]) -> bool
    ensures { result ≡ spec.has_end bytes.now }
{
    memchr(b'\n', bytes).is_some()
}
