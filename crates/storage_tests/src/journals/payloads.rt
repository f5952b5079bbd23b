//! The payloads of frames.
use crate::journals::given::{bytes_at, delete, object, one, put, tell_bytes};
use batch_codec::{BadFrame, FrameView, OpView, encode};
use do_value::Mem;
use serde_json::Value as Json;
use std::alloc::Global;
use std::test::Fail;
use storage_map::{Batch, Identity};
use test_rows::{Telling, count};

// The payload as one of format 1 where the case says so at this place, and else of format 2.
fn read<'a>(bytes: &'a [u8], row: &Json, at: usize) -> Result<FrameView<'a>, BadFrame> {
    if bytes.len() > 5_000_000 {
        return Err(BadFrame);
    }
    let format = if count(row, at) == 1 { 1 } else { 2 };
    FrameView::read(bytes, format)
}

// An operation as it is lent, with the place of a value's first byte.
fn tell_op(alloc: Global, line: &mut Telling, op: &OpView) {
    match op {
        OpView::Put { key, value, at } => {
            line.tell(format!(in alloc; "put {key} of {} bytes at {at}", value.len()));
        }
        OpView::Delete { key } => {
            line.say("delete ");
            line.say(*key);
        }
        OpView::DeleteAll => line.say("delete all"),
        OpView::SetAlarm { time, retry } => {
            line.tell(format!(in alloc; "alarm {time} retry {retry}"));
        }
        OpView::ClearAlarm => line.say("no alarm"),
    }
}

fn tell(alloc: Global, bytes: &[u8], row: &Json, line: &mut Telling) {
    let Ok(frame) = read(bytes, row, 2) else {
        line.say("bad");
        return;
    };
    let (class, name) = frame.identity();
    line.say(class);
    line.say(" ");
    line.say(name);
    for batch in frame.batches() {
        line.say(":");
        for op in batch.ops() {
            line.say(" ");
            tell_op(alloc, line, &op);
        }
    }
}

/// `payload HEX FORMAT`
pub(crate) fn answer(alloc: Global, row: &Json, line: &mut Telling) -> Result<(), Fail> {
    tell(alloc, &bytes_at(alloc, row, 1)?, row, line);
    Ok(())
}

/// `large HEAD PUT PUTS LETTERS FORMAT`: the payload of one batch that has so many puts of a text of so many letters, whether it is
/// read.
pub(crate) fn answer_large(alloc: Global, row: &Json, line: &mut Telling) -> Result<(), Fail> {
    let puts = u32::try_from(count(row, 3)).unwrap_or(0);
    let letters = u32::try_from(count(row, 4)).unwrap_or(0);
    let mut bytes = bytes_at(alloc, row, 1)?;
    let head = bytes_at(alloc, row, 2)?;
    bytes.extend_from_slice(&puts.to_be_bytes())?;
    for _ in 0..puts {
        bytes.extend_from_slice(&head)?;
        bytes.extend_from_slice(&letters.to_be_bytes())?;
        for _ in 0..letters {
            bytes.push(b'a')?;
        }
    }
    line.say(if read(&bytes, row, 5).is_ok() {
        "read"
    } else {
        "bad"
    });
    Ok(())
}

fn encode_both(alloc: Global, first: Batch, second: Batch, identity: &Identity) -> Mem<Vec<u8>> {
    let _ = identity.size();
    let _ = first.as_slice();
    let _ = second.as_slice();
    encode(alloc, &[first, second], identity)
}

/// `encode`: a put of 5 and then a delete, as two batches.
pub(crate) fn answer_encode(alloc: Global, line: &mut Telling) -> Result<(), Fail> {
    let put = one(alloc, put(alloc, 0)?)?;
    let delete = one(alloc, delete(alloc)?)?;
    let bytes = encode_both(alloc, put, delete, &object(alloc)?)?;
    tell_bytes(alloc, line, &bytes);
    Ok(())
}
