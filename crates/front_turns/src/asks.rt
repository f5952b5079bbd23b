//! What follows an ask of a task.
ghost use Rattle.std.specs.Prelude.{◌≡◌, ◌+◌, ◌<◌, ◌≤◌, ◌++◌, ◌∷◌, ℕ, List, [], if◌then◌else◌, IfOk, IfSome, IfNone, Some, None, Err, option_map};
ghost use Rattle.script_ops.specs.Answers.{error_of};
ghost use Rattle.object_calls.specs.Admission.{thrown_for};
ghost use Rattle.timeline.specs.Limits.{most_depth, most_calls};
ghost use Rattle.script_mean.specs.declared.answer.Answer.TheVariants.{Thrown};
ghost use Rattle.script_mean.specs.declared.ask.Ask.TheVariants as wants;
ghost use Rattle.timeline.specs.Object.{Life, Object as SeenObject, OpenTask, Step};
ghost use Rattle.timeline.specs.Steps as steps;
ghost use Rattle.timeline.specs.declared.message.Message.{Message as SeenMessage};
ghost use Rattle.front_turns.specs.Held.{HasAsked, Holds, IsPaused, Says, WaitsFor, asked_in, object_of};
ghost use Rattle.front_turns.specs.Goes.{Goes};

use crate::answers::error;
use crate::evaluator::Task;
use crate::object::{Asked, Awaited, Held, Object, Running, State};
use crate::say::{say, say_batches};
use do_value::{Args, Mem, NoMemory, Text, Value};
use object_calls::{CallFault, MOST_DEPTH, admit};
use script_mean::Ask;
use script_ops::Refusal;
use std::alloc::Global;
use storage_map::{Identity, StoreAsk};
use timeline::{Body as Said, Message};
use write_batcher::Made;

/// Where a turn of a task leaves its object: it rests; or a call was refused, and the task goes on with what that throws.
#[derive(Drop)]
pub(crate) enum Went<T> {
    Rests(State<T>),
    Refused {
        object: Object<T>,
        running: Running,
        task: T,
        value: Value,
    },
}

// What a call that isn't admitted throws.
fn refusal_of(fault: CallFault) -> Refusal
    ensures { thrown_for {X = Unit {0}} (Err fault) ≡ Some (steps.throws (error_of result)) }
{
    match fault {
        CallFault::Depth => Refusal::CallTooDeep,
        CallFault::TooManyCalls => Refusal::TooManyCalls,
    }
}

// What a call of this depth throws, if it does, where so many of the task's calls and fetches were let through.
fn refusal(alloc: Global, depth: u32, made: u32) -> Mem<Option<Value>>
    ensures refusal { IfOk result (λ value. steps.refusal depth made ≡ option_map Thrown value) }
    ensures few { IfOk result (λ value. value ≡ None → (depth ≤ most_depth) × (made < most_calls)) }
{
    match admit(depth, made) {
        Ok(()) => Ok(None),
        Err(fault) => {
            let value = error(alloc, refusal_of(fault))?;
            Ok(Some(value))
        }
    }
}

// The task waits for the storage's answer to this entry.
fn asks<T: Task + Drop>(
    says: &mut Vec<Said>,
    object: Object<T>,
    running: Running,
    task: T,
    body: Said,
    asked: Asked,
) -> Mem<State<T>>
    requires { asked_in body ≡ Some asked }
    ensures { IfOk result (λ s. (l : Life) (ts : List OpenTask) (t : OpenTask) → Holds T.seen l object ts → IsPaused l (T.seen task) running t
        → Says T.seen l says.old.items says.new.items s (steps.asks (object_of object ts) t body)) }
{
    say(says, body)?;
    Ok(State::Waiting {
        object,
        running,
        task,
        asked,
    })
}

// One block more is open, or none.
fn more_blocks(blocks: u64, more: bool) -> Mem<u64>
    ensures { IfOk result (λ n. n ≡ (if more then 1 else 0) + blocks) }
{
    if !more {
        return Ok(blocks);
    }
    match blocks.checked_add(1) {
        Some(blocks) => Ok(blocks),
        None => Err(NoMemory),
    }
}

// One more task waits, under the next number.
fn hold<T: Task + Drop>(
    object: Object<T>,
    number: u64,
    running: Running,
    awaited: Awaited,
    task: T,
) -> Mem<Object<T>>
    requires { number ≡ object.made + 1 }
    ensures object { IfOk result (λ q. object_of q [] ≡ record (object_of object []) { made = number }) }
    ensures holds { IfOk result (λ q. (l : Life) (ts : List OpenTask) (t : OpenTask) → Holds T.seen l object ts → IsPaused l (T.seen task) running t
        → t.number ≡ number → WaitsFor l t awaited → Holds T.seen l q (ts ++ t ∷ [])) }
{
    let mut object = object;
    let blocks = more_blocks(object.blocks, task.block())?;
    let held = Held {
        running,
        awaited,
        task,
    };
    match object.tasks.insert(number, held) {
        Ok(_) => {
            object.blocks = blocks;
            object.made = number;
            Ok(object)
        }
        Err(_) => Err(NoMemory),
    }
}

// The message of a call or fetch that is let through leaves under the next number, and the task waits under it.
fn leaves<T: Task + Drop>(
    says: &mut Vec<Said>,
    object: Object<T>,
    running: Running,
    awaited: Awaited,
    task: T,
    number: u64,
    message: Message,
) -> Mem<State<T>>
    requires number { number ≡ object.made + 1 }
    requires few { running.made < most_calls }
    ensures { IfOk result (λ s. (l : Life) (ts : List OpenTask) (t : OpenTask) (again : OpenTask → Step) (messages : ℕ → SeenMessage)
        → Holds T.seen l object ts → IsPaused l (T.seen task) running t → ((made : ℕ) → WaitsFor l (record t { number = number; made = made }) awaited)
        → messages number ≡ message
        → Says T.seen l says.old.items says.new.items s (steps.outside again (object_of object ts) t None messages)) }
{
    let more = Running {
        made: running.made + 1,
        ..running
    };
    let object = hold(object, number, more, awaited, task)?;
    say(says, Said::Message(message))?;
    Ok(State::Idle { object })
}

// The number of the next call or fetch. Each has its entry in the log, so that there is no memory for a number past the range.
fn next_number<T: Task + Drop>(object: &Object<T>) -> Mem<u64>
    ensures { IfOk result (λ number. number ≡ object.now.made + 1) }
{
    match object.made.checked_add(1) {
        Some(number) => Ok(number),
        None => Err(NoMemory),
    }
}

// A task calls or fetches.
fn calls<T: Task + Drop>(
    alloc: Global,
    says: &mut Vec<Said>,
    object: Object<T>,
    running: Running,
    awaited: Awaited,
    task: T,
    message: Message,
    depth: u32,
    number: u64,
) -> Mem<Went<T>>
    requires number { number ≡ object.made + 1 }
    ensures { IfOk result (λ w. (l : Life) (ts : List OpenTask) (t : OpenTask) (again : SeenObject → OpenTask → Step) (deeper : ℕ) (messages : ℕ → SeenMessage)
        → Holds T.seen l object ts → IsPaused l (T.seen task) running t → ((made : ℕ) → WaitsFor l (record t { number = number; made = made }) awaited)
        → ((made : ℕ) → steps.refusal deeper made ≡ steps.refusal depth made)
        → (depth ≤ most_depth → messages number ≡ message)
        → Goes T.seen l says.old.items says.new.items w again
        (steps.outside (again (object_of object ts)) (object_of object ts) t (steps.refusal deeper t.made) messages)) }
{
    match refusal(alloc, depth, running.made)? {
        Some(value) => {
            drop(awaited);
            drop(message);
            Ok(Went::Refused {
                object,
                running,
                task,
                value,
            })
        }
        None => {
            let state = leaves(says, object, running, awaited, task, number, message)?;
            Ok(Went::Rests(state))
        }
    }
}

// The batches before the last one, and that one.
fn split_last(batches: Vec<Made>) -> Option<(Vec<Made>, Made)>
    ensures none { IfNone result (batches.items ≡ []) }
    ensures some { IfSome result (λ r. batches.items ≡ r.0.items ++ r.1 ∷ []) }
{
    let mut batches = batches;
    let last = batches.pop()?;
    Some((batches, last))
}

// The depth of a call that a task of this depth makes, as far as it is let through.
fn deeper(depth: u32) -> u32
    ensures same { (made : ℕ) → steps.refusal (depth + 1) made ≡ steps.refusal result made }
    ensures exact { result ≤ most_depth → result ≡ depth + 1 }
{
    if depth > MOST_DEPTH {
        return depth;
    }
    depth + 1
}

// The last batch is the one whose completion is awaited. Each is said with its mark.
fn asks_written<T: Task + Drop>(
    says: &mut Vec<Said>,
    object: Object<T>,
    running: Running,
    task: T,
    batches: Vec<Made>,
    tail: u32,
) -> Mem<State<T>>
    ensures { IfOk result (λ s. (l : Life) (ts : List OpenTask) (t : OpenTask) → Holds T.seen l object ts → IsPaused l (T.seen task) running t
        → Says T.seen l says.old.items says.new.items s (steps.asks_written (object_of object ts) t tail batches.items)) }
{
    match split_last(batches) {
        None => {
            drop(task);
            Ok(State::Idle { object })
        }
        Some((batches, made)) => {
            say_batches(says, batches)?;
            let confirmed = made.confirmed;
            let last = Said::Batch {
                batch: made.into_batch(),
                tail: Some(tail),
                confirmed,
            };
            let state = asks(says, object, running, task, last, Asked::Taken)?;
            Ok(state)
        }
    }
}

// A read is asked behind these batches, an open ask as another.
fn asks_store<T: Task + Drop>(
    says: &mut Vec<Said>,
    object: Object<T>,
    running: Running,
    task: T,
    batches: Vec<Made>,
    ask: StoreAsk,
) -> Mem<State<T>>
    ensures { IfOk result (λ s. (l : Life) (ts : List OpenTask) (t : OpenTask) (again : SeenObject → OpenTask → Step)
        → Holds T.seen l object ts → IsPaused l (T.seen task) running t
        → Says T.seen l says.old.items says.new.items s (steps.on_ask (again (object_of object ts)) l (object_of object ts) t batches.items
        (wants.Store ask))) }
{
    say_batches(says, batches)?;
    let kept = ask.copy()?;
    let state = asks(
        says,
        object,
        running,
        task,
        Said::Ask { ask, free: false },
        Asked::Read(kept),
    )?;
    Ok(state)
}

// That they are durable is asked behind these batches.
fn asks_sync<T: Task + Drop>(
    says: &mut Vec<Said>,
    object: Object<T>,
    running: Running,
    task: T,
    batches: Vec<Made>,
) -> Mem<State<T>>
    ensures { IfOk result (λ s. (l : Life) (ts : List OpenTask) (t : OpenTask) (again : SeenObject → OpenTask → Step)
        → Holds T.seen l object ts → IsPaused l (T.seen task) running t
        → Says T.seen l says.old.items says.new.items s (steps.on_ask (again (object_of object ts)) l (object_of object ts) t batches.items wants.Sync)) }
{
    say_batches(says, batches)?;
    let state = asks(says, object, running, task, Said::Sync, Asked::Synced)?;
    Ok(state)
}

// An object is called behind these batches.
fn asks_call<T: Task + Drop>(
    alloc: Global,
    says: &mut Vec<Said>,
    incarnation: u64,
    object: Object<T>,
    running: Running,
    task: T,
    batches: Vec<Made>,
    to: Identity,
    method: Text,
    args: Args,
) -> Mem<Went<T>>
    ensures { IfOk result (λ w. (l : Life) (ts : List OpenTask) (t : OpenTask) (again : SeenObject → OpenTask → Step)
        → l.incarnation ≡ incarnation → Holds T.seen l object ts → IsPaused l (T.seen task) running t → HasAsked l t (wants.Call to method args)
        → Goes T.seen l says.old.items says.new.items w again (steps.on_ask (again (object_of object ts)) l (object_of object ts) t batches.items
        (wants.Call to method args))) }
{
    say_batches(says, batches)?;
    let callee = to.copy()?;
    let number = next_number(&object)?;
    let depth = deeper(running.depth);
    let message = Message::Call {
        incarnation,
        number,
        to,
        method,
        args,
        depth,
    };
    let went = calls(
        alloc,
        says,
        object,
        running,
        Awaited::Call(callee),
        task,
        message,
        depth,
        number,
    )?;
    Ok(went)
}

// A fetch is made behind these batches.
fn asks_fetch<T: Task + Drop>(
    alloc: Global,
    says: &mut Vec<Said>,
    incarnation: u64,
    object: Object<T>,
    running: Running,
    task: T,
    batches: Vec<Made>,
    value: Value,
) -> Mem<Went<T>>
    ensures { IfOk result (λ w. (l : Life) (ts : List OpenTask) (t : OpenTask) (again : SeenObject → OpenTask → Step)
        → l.incarnation ≡ incarnation → Holds T.seen l object ts → IsPaused l (T.seen task) running t → HasAsked l t (wants.Fetch value)
        → Goes T.seen l says.old.items says.new.items w again (steps.on_ask (again (object_of object ts)) l (object_of object ts) t batches.items
        (wants.Fetch value))) }
{
    say_batches(says, batches)?;
    let number = next_number(&object)?;
    let message = Message::Fetch {
        incarnation,
        number,
        value,
    };
    let went = calls(
        alloc,
        says,
        object,
        running,
        Awaited::Fetch,
        task,
        message,
        0,
        number,
    )?;
    Ok(went)
}

// A turn ended with an ask, after these batches.
pub(crate) fn on_ask<T: Task + Drop>(
    alloc: Global,
    says: &mut Vec<Said>,
    incarnation: u64,
    object: Object<T>,
    running: Running,
    task: T,
    batches: Vec<Made>,
    ask: Ask,
) -> Mem<Went<T>>
    ensures { IfOk result (λ w. (l : Life) (ts : List OpenTask) (t : OpenTask) (again : SeenObject → OpenTask → Step)
        → l.incarnation ≡ incarnation → Holds T.seen l object ts → IsPaused l (T.seen task) running t → HasAsked l t ask
        → Goes T.seen l says.old.items says.new.items w again (steps.on_ask (again (object_of object ts)) l (object_of object ts) t batches.items ask)) }
{
    match ask {
        Ask::Store(ask) => {
            let state = asks_store(says, object, running, task, batches, ask)?;
            Ok(Went::Rests(state))
        }
        Ask::Open(read) => {
            let state = asks_store(says, object, running, task, batches, read)?;
            Ok(Went::Rests(state))
        }
        Ask::Written { tail } => {
            let state = asks_written(says, object, running, task, batches, tail)?;
            Ok(Went::Rests(state))
        }
        Ask::Sync => {
            let state = asks_sync(says, object, running, task, batches)?;
            Ok(Went::Rests(state))
        }
        Ask::Call { to, method, args } => {
            let went = asks_call(
                alloc,
                says,
                incarnation,
                object,
                running,
                task,
                batches,
                to,
                method,
                args,
            )?;
            Ok(went)
        }
        Ask::Fetch(value) => {
            let went = asks_fetch(
                alloc,
                says,
                incarnation,
                object,
                running,
                task,
                batches,
                value,
            )?;
            Ok(went)
        }
    }
}
