//! Calls of the storage, and of a transaction's handle.
use do_value::Value;
use script_asks::{Request, handle_call, handle_wants, request, storage_call};
use script_ops::OpFault;
use serde_json::Value as Json;
use std::alloc::Global;
use std::test::Fail;
use test_rows::{Telling, flag, tell_value, value, word};

// The arguments from this place of the case on.
fn values(alloc: Global, row: &Json, from: usize) -> Result<Vec<Value>, Fail> {
    let mut values = Vec::new(alloc);
    for at in from..from.saturating_add(3) {
        if row.get(at).is_some() {
            values.push(value(alloc, row, at)?)?;
        }
    }
    Ok(values)
}

fn tell(alloc: Global, line: &mut Telling, found: &Result<Request, OpFault>) {
    match found {
        Ok(Request::Reads(_)) => line.say("reads"),
        Ok(Request::Syncs) => line.say("syncs"),
        Ok(Request::Writes { ops, .. }) => line.tell(format!(in alloc; "writes {}", ops.len())),
        Err(OpFault::Throw(error)) => {
            line.say("throws ");
            tell_value(line, error);
        }
        Err(OpFault::NoMemory) => line.refuse(),
    }
}

/// `storage CALL HANDLER ARGUMENTS`, in a class that has an alarm handler or not; `handle CALL ROLLED-BACK ARGUMENTS`, after a
/// rollback or before: what the call asks, or throws.
pub(crate) fn answer(alloc: Global, row: &Json, line: &mut Telling) -> Result<(), Fail> {
    let args = values(alloc, row, 3)?;
    if word(row, 0) == "handle" {
        let call = handle_call(word(row, 1)).ok_or("no call")?;
        let found = handle_wants(alloc, flag(row, 2), call, args.as_slice());
        tell(alloc, line, &found);
        return Ok(());
    }
    let call = storage_call(word(row, 1)).ok_or("no call")?;
    let found = request(alloc, flag(row, 2), call, args.as_slice());
    tell(alloc, line, &found);
    Ok(())
}
