//! Lines in and lines out.
use crate::given::{sink_of, source_of, tell_bytes};
use do_disk::MemSource;
use line_server::{LineFault, Lines, OutLine, Refusal, Request, print, put};
use serde_json::Value as Json;
use std::alloc::Global;
use std::test::Fail;
use test_rows::{Telling, number, value};

// The word of a request, or why it is refused.
fn word_of(body: &Result<Request, Refusal>) -> &'static str {
    match body {
        Ok(Request::Call { .. }) => "call",
        Ok(Request::Tick(_)) => "tick",
        Ok(Request::Fetched { .. }) => "fetched",
        Ok(Request::FetchFailed { .. }) => "fetch-failed",
        Ok(Request::Evict(_)) => "evict",
        Err(Refusal::Long) => "long",
        Err(Refusal::Json) => "json",
        Err(Refusal::Shape) => "shape",
    }
}

// Tells the next line, or the end: whether there may be one more.
fn tell_next(
    alloc: Global,
    lines: &mut Lines<MemSource>,
    line: &mut Telling,
) -> Result<bool, Fail> {
    match lines.next() {
        Ok(Some(read)) => {
            let read = read.copy()?;
            line.tell(format!(in alloc; "{} {}, ", read.number, word_of(&read.body)));
            return Ok(true);
        }
        Ok(None) => line.tell(format!(in alloc; "end after {}", lines.count())),
        Err(LineFault::ReadFailed) => line.say("failed"),
        Err(LineFault::NoMemory) => line.say("no memory"),
    }
    Ok(false)
}

/// `lines GIVEN`: the lines that a source gives, each by its number and its word, then the end. With `once` the source is
/// taken back after the first line, and read by other lines.
pub(crate) fn answer(alloc: Global, row: &Json, line: &mut Telling) -> Result<(), Fail> {
    let nothing = Json::Null;
    let given = row.get(1).unwrap_or(&nothing);
    let mut lines = Lines::new(alloc, source_of(alloc, given)?);
    if given.get("once").is_some() {
        tell_next(alloc, &mut lines, line)?;
        lines = Lines::new(alloc, lines.into_source());
    }
    for _ in 0..64 {
        if !tell_next(alloc, &mut lines, line)? {
            break;
        }
    }
    Ok(())
}

/// `print NUMBER VALUE`: the text of that reply, in pieces of five bytes.
pub(crate) fn answer_print(alloc: Global, row: &Json, line: &mut Telling) -> Result<(), Fail> {
    let reply = OutLine::Reply {
        number: number(row, 1),
        value: value(alloc, row, 2)?,
    };
    let bytes = print(alloc, &reply.copy()?)?;
    let mut sink = sink_of(alloc, &Json::Null);
    put(&mut sink, &bytes)?;
    tell_bytes(line, sink.taken());
    Ok(())
}
