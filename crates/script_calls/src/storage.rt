//! Calls of the storage.
ghost use Rattle.std.specs.Prelude.{◌≡◌, ◌≤◌, IfOk, length, true};
ghost use Rattle.std.specs.List.{All};
ghost use Rattle.do_value.specs.Seen.{trees_in};
ghost use Rattle.storage_map.specs.Ops.{IsOp};
ghost use Rattle.script_asks.specs.Requests.{AreWithin, completed_of, request_of};
ghost use Rattle.script_calls.specs.Requests.{IsShort};
ghost use Rattle.script_mean.specs.Calls as calls;
ghost use Rattle.script_mean.specs.Calls.{Calls};
ghost use Rattle.script_mean.specs.Meaning.{storage_named};
ghost use Rattle.script_mean.specs.Storing as storing;
ghost use Rattle.script_state.specs.Ends.{Does, IsReady};
ghost use Rattle.script_steps.specs.Paths.{is_present};

use crate::ending::{nowhere, thrown};
use do_value::{Mem, Value};
use script_asks::{Completed, Request, allowed, completed_by, request, storage_call};
use script_mean::{Allowed, Ask, StorageCall};
use script_state::{Done, Gives, State, Waiting};
use script_steps::{Await, Outcome};
use std::alloc::Global;
use storage_map::{Op, Reading, StoreAsk};

/// A call of the method of the storage with this name, in a class with an alarm handler or without.
pub fn call_storage(
    alloc: Global,
    state: &mut State,
    has_handler: bool,
    awaited: Await,
    name: &str,
    args: &[Value],
) -> Mem<Done>
    ensures same { IfOk result (λ d. (calls : Calls) → calls.has_handler ≡ has_handler
        → Does (storage_named calls (is_present awaited) name.now (trees_in args.now)) state.old state.new d) }
    ensures ready { IfOk result (IsReady state.new) }
{
    match storage_call(name) {
        Some(call) => store_call(alloc, state, has_handler, awaited, call, args),
        None => Ok(Done::Ended(nowhere())),
    }
}

// A call of this method of the storage, with what its options allow.
fn store_call(
    alloc: Global,
    state: &mut State,
    has_handler: bool,
    awaited: Await,
    call: StorageCall,
    args: &[Value],
) -> Mem<Done>
    ensures same { IfOk result (Does (calls.try_request (storing.allowed call (trees_in args.now)) (is_present awaited)
        (storing.request has_handler call (trees_in args.now))) state.old state.new) }
    ensures ready { IfOk result (IsReady state.new) }
{
    let may = allowed(call, args);
    match request(alloc, has_handler, call, args) {
        Ok(request) => do_request(alloc, state, may, awaited, request),
        Err(fault) => Ok(Done::Ended(thrown(fault)?)),
    }
}

// What the request says is done.
fn do_request(
    alloc: Global,
    state: &mut State,
    may: Allowed,
    awaited: Await,
    request: Request,
) -> Mem<Done>
    requires within { AreWithin request }
    requires short { IsShort (request_of request) }
    ensures same { IfOk result (Does (calls.do_request may (is_present awaited) (request_of request)) state.old state.new) }
    ensures ready { IfOk result (IsReady state.new) }
{
    match request {
        Request::Reads(ask) => state.ask_storage(read_ask(may, ask), Waiting::Reads),
        Request::Syncs => state.ask_storage(Ask::Sync, Waiting::Syncs),
        Request::Writes { ops, gives } => do_write(alloc, state, may, awaited, ops, gives),
    }
}

// A read, which is open where other events may be delivered meanwhile.
fn read_ask(may: Allowed, ask: StoreAsk) -> Ask
    ensures { result ≡ calls.read_ask may.concurrency ask }
{
    if may.concurrency {
        Ask::Open(ask)
    } else {
        Ask::Store(ask)
    }
}

// The operations join the open batch, and an awaited write waits for its completion.
fn do_write(
    alloc: Global,
    state: &mut State,
    may: Allowed,
    awaited: Await,
    ops: Vec<Op>,
    gives: Completed,
) -> Mem<Done>
    requires within { All IsOp ops.items }
    requires short { length ops.items ≤ 128 }
    ensures same { IfOk result (Does (calls.do_request may (is_present awaited) (storing.writes ops.items (completed_of gives))) state.old state.new) }
    ensures ready { IfOk result (IsReady state.new) }
{
    match awaited {
        Await::Present => write_awaited(alloc, state, may, ops, gives),
        Await::Absent => Ok(Done::Ended(state.join(alloc, ops, !may.unconfirmed)?)),
    }
}

// The same of an awaited write.
fn write_awaited(
    alloc: Global,
    state: &mut State,
    may: Allowed,
    ops: Vec<Op>,
    gives: Completed,
) -> Mem<Done>
    requires within { All IsOp ops.items }
    requires short { length ops.items ≤ 128 }
    ensures same { IfOk result (Does (calls.do_request may true (storing.writes ops.items (completed_of gives))) state.old state.new) }
    ensures ready { IfOk result (IsReady state.new) }
{
    let tail = count_of(&ops);
    let joined = state.join(alloc, ops, !may.unconfirmed)?;
    match joined {
        Outcome::Gave(_) => complete(state, tail, gives),
        _ => Ok(Done::Ended(joined)),
    }
}

// How many operations these are.
fn count_of(ops: &[Op]) -> u32
    requires { length ops.now ≤ 128 }
    ensures { result ≡ length ops.now }
{
    ops.len() as u32
}

// The completion of so many operations is awaited. Where there are none, and no open batch, it is complete.
fn complete(state: &mut State, tail: u32, gives: Completed) -> Mem<Done>
    ensures same { IfOk result (Does (calls.complete tail (completed_of gives)) state.old state.new) }
    ensures ready { IfOk result (IsReady state.new) }
{
    if is_idle(state, tail) {
        let value = completed_by(0, gives, &Reading::Count(0));
        return Ok(Done::Ended(Outcome::Gave(value)));
    }
    state.ask_storage(
        Ask::Written { tail },
        Waiting::Completes(tail, Gives::Call(gives)),
    )
}

// Whether there are no operations, and no open batch.
fn is_idle(state: &State, tail: u32) -> bool
    ensures { result ≡ calls.is_idle tail state.now.pending.ops }
{
    tail == 0 && state.pending.as_slice().is_empty()
}
