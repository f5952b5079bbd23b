//! Calls of a transaction's handle.
ghost use Rattle.std.specs.Prelude.{◌≡◌, ◌≢◌, ◌≤◌, ◌++◌, IfOk, length, true};
ghost use Rattle.std.specs.List.{All};
ghost use Rattle.do_value.specs.Seen.{trees_in};
ghost use Rattle.storage_map.specs.Ops.{IsOp};
ghost use Rattle.storage_txn.specs.Overlay.{below};
ghost use Rattle.storage_txn.specs.Writes.{IsOnKey};
ghost use Rattle.script_asks.specs.Requests.{AreWithin, completed_of, request_of};
ghost use Rattle.script_calls.specs.Requests.{AreKeyed, IsShort};
ghost use Rattle.script_mean.specs.Calls as calls;
ghost use Rattle.script_mean.specs.Calls.{writes_of};
ghost use Rattle.script_mean.specs.Meaning.{handle_named};
ghost use Rattle.script_mean.specs.Task as task;
ghost use Rattle.script_mean.specs.Turn as turn;
ghost use Rattle.script_mean.specs.declared.ask.Ask.TheVariants as asked;
ghost use Rattle.script_state.specs.Ends.{Does, Goes, IsMade, IsReady};
ghost use Rattle.script_steps.specs.Paths.{is_present};

use crate::ending::{nowhere, thrown};
use crate::keys::keys_ask;
use do_value::{Mem, NoMemory, Value};
use script_asks::{Completed, Request, handle_call, handle_wants};
use script_mean::{Ask, HandleCall};
use script_ops::throw;
use script_state::{Done, State, Waiting};
use script_steps::{Await, Outcome};
use std::alloc::Global;
use storage_map::{Op, StoreAsk};
use storage_txn::TxnFault;

/// A call of the method of a transaction's handle with this name.
pub fn call_handle(
    alloc: Global,
    state: &mut State,
    awaited: Await,
    name: &str,
    args: &[Value],
) -> Mem<Done>
    ensures same { IfOk result (Does (handle_named (is_present awaited) name.now (trees_in args.now)) state.old state.new) }
    ensures ready { IfOk result (IsReady state.new) }
{
    match handle_call(name) {
        Some(call) => do_call(alloc, state, awaited, call, args),
        None => Ok(Done::Ended(nowhere())),
    }
}

// A call of this method of the handle.
fn do_call(
    alloc: Global,
    state: &mut State,
    awaited: Await,
    call: HandleCall,
    args: &[Value],
) -> Mem<Done>
    ensures same { IfOk result (Does (calls.handle_call (is_present awaited) call (trees_in args.now)) state.old state.new) }
    ensures ready { IfOk result (IsReady state.new) }
{
    match call {
        HandleCall::Rollback => roll_back(alloc, state, awaited, args),
        _ => do_other(alloc, state, awaited, call, args),
    }
}

// The operations of the transaction are dropped, and none can be added.
fn roll_back(alloc: Global, state: &mut State, awaited: Await, args: &[Value]) -> Mem<Done>
    ensures same { IfOk result (Does (calls.handle_call (is_present awaited) HandleCall.Rollback (trees_in args.now)) state.old state.new) }
    ensures ready { IfOk result (IsReady state.new) }
{
    let Some(txn) = &mut state.transaction else {
        return Ok(Done::Ended(nowhere()));
    };
    match txn.rollback() {
        Ok(()) => Ok(Done::Ended(Outcome::Gave(Value::Undefined))),
        Err(_) => Ok(Done::Ended(thrown(throw(alloc, "Error", "rollback"))?)),
    }
}

// A call of a method that reads or writes.
fn do_other(
    alloc: Global,
    state: &mut State,
    awaited: Await,
    call: HandleCall,
    args: &[Value],
) -> Mem<Done>
    requires other { call ≢ HandleCall.Rollback }
    ensures same { IfOk result (Does (calls.handle_call (is_present awaited) call (trees_in args.now)) state.old state.new) }
    ensures ready { IfOk result (IsReady state.new) }
{
    let Some(txn) = &state.transaction else {
        return Ok(Done::Ended(nowhere()));
    };
    match handle_wants(alloc, txn.is_rolled_back(), call, args) {
        Ok(request) => do_request(alloc, state, awaited, request),
        Err(fault) => Ok(Done::Ended(thrown(fault)?)),
    }
}

// What the request says is done.
fn do_request(alloc: Global, state: &mut State, awaited: Await, request: Request) -> Mem<Done>
    requires within { AreWithin request }
    requires short { IsShort (request_of request) }
    requires keyed { AreKeyed (request_of request) }
    requires made { IsMade state.old.transaction }
    ensures same { IfOk result (Does (calls.handle_request (is_present awaited) (writes_of state.old.transaction) (request_of request)) state.old state.new) }
    ensures ready { IfOk result (IsReady state.new) }
{
    match request {
        Request::Reads(ask) => read(state, ask),
        Request::Syncs => Ok(Done::Ended(nowhere())),
        Request::Writes { ops, gives } => write(alloc, state, awaited, ops, gives),
    }
}

// A read through the operations of the transaction.
fn read(state: &mut State, ask: StoreAsk) -> Mem<Done>
    requires made { IsMade state.old.transaction }
    ensures same { IfOk result (Does (turn.ask_storage (asked.Store (below ask)) (task.views (writes_of state.old.transaction) ask)) state.old state.new) }
    ensures ready { IfOk result (IsReady state.new) }
{
    let Some(txn) = &state.transaction else {
        unreachable!()
    };
    match txn.below(&ask) {
        Ok(under) => state.ask_storage(Ask::Store(under), Waiting::Views(ask)),
        Err(_) => Err(NoMemory),
    }
}

// The operations of the transaction grow by these, and an awaited delete asks which keys it takes out.
fn write(
    alloc: Global,
    state: &mut State,
    awaited: Await,
    ops: Vec<Op>,
    gives: Completed,
) -> Mem<Done>
    requires within { All IsOp ops.items }
    requires keyed { All IsOnKey ops.items }
    requires short { length ops.items ≤ 128 }
    requires made { IsMade state.old.transaction }
    ensures same { IfOk result (Does
        (calls.handle_write (is_present awaited) (writes_of state.old.transaction) ops.items (completed_of gives)) state.old state.new) }
    ensures ready { IfOk result (IsReady state.new) }
{
    match awaited {
        Await::Present => write_awaited(alloc, state, ops, gives),
        Await::Absent => Ok(Done::Ended(extend(alloc, state, ops)?)),
    }
}

// The same of an awaited write.
fn write_awaited(alloc: Global, state: &mut State, ops: Vec<Op>, gives: Completed) -> Mem<Done>
    requires within { All IsOp ops.items }
    requires keyed { All IsOnKey ops.items }
    requires short { length ops.items ≤ 128 }
    requires made { IsMade state.old.transaction }
    ensures same { IfOk result (Does (calls.handle_write true (writes_of state.old.transaction) ops.items (completed_of gives)) state.old state.new) }
    ensures ready { IfOk result (IsReady state.new) }
{
    match gives {
        Completed::Nothing => Ok(Done::Ended(extend(alloc, state, ops)?)),
        _ => delete(alloc, state, ops, gives),
    }
}

// An awaited delete: the keys are asked through the operations before it.
fn delete(alloc: Global, state: &mut State, ops: Vec<Op>, gives: Completed) -> Mem<Done>
    requires within { All IsOp ops.items }
    requires keyed { All IsOnKey ops.items }
    requires short { length ops.items ≤ 128 }
    requires made { IsMade state.old.transaction }
    requires counts { gives ≢ Completed.Nothing }
    ensures same { IfOk result (Does (calls.handle_write true (writes_of state.old.transaction) ops.items (completed_of gives)) state.old state.new) }
    ensures ready { IfOk result (IsReady state.new) }
{
    let ask = keys_ask(alloc, gives, &ops)?;
    let again = ask.copy()?;
    let before = written(state);
    let extended = extend(alloc, state, ops)?;
    match extended {
        Outcome::Gave(_) => state.ask_storage(Ask::Store(ask), Waiting::Finds(again, before)),
        _ => Ok(Done::Ended(extended)),
    }
}

// How many operations the transaction has.
fn written(state: &State) -> usize
    ensures { result ≡ length (writes_of state.now.transaction) }
{
    match &state.transaction {
        Some(txn) => txn.ops().len(),
        None => 0,
    }
}

// The operations of the transaction grow by these, all of them or, where they would be too large, none.
fn extend(alloc: Global, state: &mut State, ops: Vec<Op>) -> Mem<Outcome>
    requires within { All IsOp ops.items }
    requires keyed { All IsOnKey ops.items }
    requires short { length ops.items ≤ 128 }
    requires made { IsMade state.old.transaction }
    ensures same { IfOk result (Goes (calls.extend (writes_of state.old.transaction) ops.items) state.old state.new) }
    ensures made { IfOk result (λ o. IsMade state.new.transaction) }
    ensures more { IfOk result (λ o. (v : Value) → o ≡ Outcome.Gave v → writes_of state.new.transaction ≡ writes_of state.old.transaction ++ ops.items) }
{
    let Some(txn) = &mut state.transaction else {
        unreachable!()
    };
    match txn.extend(ops) {
        Ok(()) => Ok(Outcome::Gave(Value::Undefined)),
        Err(TxnFault::BatchFull { .. }) => thrown(throw(alloc, "RangeError", "batch")),
        Err(TxnFault::NoMemory) => Err(NoMemory),
        Err(TxnFault::RolledBack | TxnFault::ValueLong { .. }) => unreachable!(),
    }
}
