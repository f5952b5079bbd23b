//! Texts that are parsed, checked and printed.
use do_check::check;
use do_parse::parse;
use serde_json::Value as Json;
use std::alloc::Global;
use std::test::Fail;
use test_rows::{Telling, named, word};

/// The text of a case: the script of that name, the bytes of a record `{"hex": ..}`, or the text as it stands.
pub(crate) fn text_of(alloc: Global, row: &Json) -> Result<Vec<u8>, Fail> {
    let given = row.get(1);
    let hex = given
        .and_then(|given| given.get("hex"))
        .and_then(Json::as_str);
    let sample = given
        .and_then(|given| given.get("sample"))
        .and_then(Json::as_str);
    Ok(match (hex, sample.and_then(named)) {
        (Some(hex), _) => hex::decode(alloc, hex.as_bytes())?,
        (None, Some(text)) => text.as_bytes().to_vec(alloc)?,
        (None, None) => word(row, 1).as_bytes().to_vec(alloc)?,
    })
}

// The fault of a text by the grammar and the check, or that it is right.
fn tell_fault(alloc: Global, line: &mut Telling, text: &[u8], checked: bool) {
    let script = match parse(alloc, text) {
        Ok(script) => script,
        Err(fault) => return line.tell(format!(in alloc; "{:?} at {}", fault.kind, fault.place)),
    };
    if checked {
        if let Err(fault) = check(alloc, script) {
            return line.tell(format!(in alloc; "{:?} at {}", fault.kind, fault.place));
        }
    }
    line.say("right");
}

/// `parse TEXT`
pub(crate) fn answer_parse(alloc: Global, row: &Json, line: &mut Telling) -> Result<(), Fail> {
    let text = text_of(alloc, row)?;
    tell_fault(alloc, line, &text, false);
    Ok(())
}

/// `check INSIDE`: a class with this inside, which begins at place 39; or a whole script by its name.
pub(crate) fn answer_check(alloc: Global, row: &Json, line: &mut Telling) -> Result<(), Fail> {
    let text = match row.get(1).and_then(Json::as_str) {
        Some(inside) => {
            let text = format!(in alloc; "export class X extends DurableObject {{ {inside} }}")?;
            text.into_bytes()
        }
        None => text_of(alloc, row)?,
    };
    tell_fault(alloc, line, &text, true);
    Ok(())
}

fn printed(alloc: Global, text: &[u8]) -> Result<Vec<u8>, Fail> {
    Ok(parse(alloc, text)?.print()?)
}

/// `print TEXT`: how it is printed, or that what is printed of a named script is printed so again, and is no longer.
pub(crate) fn answer_print(alloc: Global, row: &Json, line: &mut Telling) -> Result<(), Fail> {
    let text = text_of(alloc, row)?;
    let first = printed(alloc, &text)?;
    let second = printed(alloc, &first)?;
    if second.as_slice() != first.as_slice() || first.len() > text.len() {
        return Err("printed otherwise")?;
    }
    match row.get(2) {
        Some(_) => line.say("again"),
        None => line.say(std::str::from_utf8(&first)?),
    }
    Ok(())
}
