//! Cases of JSON, of the payloads of frames and of journals.
mod appends;
mod given;
mod mounts;
mod payloads;
mod places;
mod wire;

use serde_json::Value as Json;
use std::alloc::Global;
use std::test::Fail;
use test_rows::{Telling, word};

pub(crate) fn answer(alloc: Global, row: &Json) -> Result<String, Fail> {
    let mut line = Telling::new(alloc);
    let answered = match word(row, 0) {
        "json" => wire::answer(alloc, row, &mut line),
        "undefined" => wire::answer_undefined(alloc, &mut line),
        "payload" => payloads::answer(alloc, row, &mut line),
        "large" => payloads::answer_large(alloc, row, &mut line),
        "encode" => payloads::answer_encode(alloc, &mut line),
        "mount" => mounts::answer(alloc, row, &mut line),
        "place" => places::answer(alloc, row, &mut line),
        "append" => appends::answer(alloc, row, &mut line),
        _ => appends::answer_both(alloc, &mut line),
    };
    answered?;
    line.into_text()
}
