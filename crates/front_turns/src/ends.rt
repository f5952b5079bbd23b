//! What follows the end of a task.
ghost use Rattle.std.specs.Prelude.{◌≡◌, pos, ◌≤ℤ◌, List, [], ◌∷◌, IfOk, IfSome, None};
ghost use Rattle.do_value.specs.Seen.{tree_of};
ghost use Rattle.alarm_core.specs.AlarmRule as alarms;
ghost use Rattle.timeline.specs.Object.{Life, OpenTask};
ghost use Rattle.timeline.specs.Steps as steps;
ghost use Rattle.timeline.specs.declared.entry.Body.{Body};
ghost use Rattle.front_turns.specs.Held.{Holds, Says, object_of, purpose_of};
ghost use Rattle.front_turns.specs.Alarmed.{IsAlarmOp};

use crate::alarm::{after_ops, any_touches};
use crate::evaluator::Task;
use crate::object::{Object, Purpose, State};
use crate::say::say;
use alarm_core::{after_failure, after_success};
use do_value::{Mem, NoMemory, Num, Value};
use std::alloc::Global;
use storage_map::{Alarm, Batch, Op};
use timeline::{Body as Said, Caller, Cause, Failure, Message};

// The caller is answered, and the object is idle.
#[tactic(auto, using(crate::proofs::Saying::idle_says))]
fn replies<T: Task + Drop>(
    says: &mut Vec<Said>,
    object: Object<T>,
    to: Caller,
    answer: Result<Value, Failure>,
) -> Mem<State<T>>
    ensures { IfOk result (λ s. (l : Life) (ts : List OpenTask) → Holds T.seen l object ts
        → Says T.seen l says.old.items says.new.items s (steps.before (steps.replies to answer) (steps.rests (object_of object ts)))) }
{
    say(says, Said::Message(Message::Reply { to, result: answer }))?;
    Ok(State::Idle { object })
}

// The object is idle, and its constructor has run or not.
fn rests<T: Task + Drop>(object: Object<T>, started: bool) -> State<T>
    ensures { (l : Life) (ts : List OpenTask) (old : List Body) → Holds T.seen l object ts
        → Says T.seen l old old result (steps.rests (record (object_of object ts) { started = started })) }
{
    let mut object = object;
    object.started = started;
    State::Idle { object }
}

// One operation on the alarm, as a batch of its own.
fn batch_of(alloc: Global, op: Op) -> Mem<Batch>
    requires { IsAlarmOp op }
    ensures { IfOk result (λ batch. batch ≡ op ∷ []) }
{
    let mut ops = Vec::new(alloc);
    if ops.push(op).is_err() {
        return Err(NoMemory);
    }
    Ok(Batch::new(ops))
}

// The alarm after the batch that a handler's end writes, and no handler runs.
fn unhandled<T: Task + Drop>(object: Object<T>, batch: &Batch) -> Object<T>
    ensures object { (ts : List OpenTask) → object_of result ts ≡ steps.wrote (steps.confirmed batch.now ∷ [])
        (record (object_of object ts) { handler = None }) }
    ensures holds { (l : Life) (ts : List OpenTask) → Holds T.seen l object ts → Holds T.seen l result ts }
{
    let mut object = object;
    object.handler = None;
    object.alarm = after_ops(object.alarm, batch.as_slice());
    object.touched = object.touched || any_touches(batch.as_slice());
    object
}

// No handler runs any more, and nothing is written.
fn idles<T: Task + Drop>(object: Object<T>) -> State<T>
    ensures { (l : Life) (ts : List OpenTask) (old : List Body) → Holds T.seen l object ts
        → Says T.seen l old old result (steps.handled None (object_of object ts)) }
{
    let mut object = object;
    object.handler = None;
    State::Idle { object }
}

// A handler has ended: what is written of the alarm is a confirmed batch of its own.
pub(crate) fn handled<T: Task + Drop>(
    alloc: Global,
    says: &mut Vec<Said>,
    object: Object<T>,
    op: Option<Op>,
) -> Mem<State<T>>
    requires { IfSome op IsAlarmOp }
    ensures { IfOk result (λ s. (l : Life) (ts : List OpenTask) → Holds T.seen l object ts
        → Says T.seen l says.old.items says.new.items s (steps.handled op (object_of object ts))) }
{
    match op {
        None => Ok(idles(object)),
        Some(op) => {
            let batch = batch_of(alloc, op)?;
            let object = unhandled(object, &batch);
            say(
                says,
                Said::Batch {
                    batch,
                    tail: None,
                    confirmed: true,
                },
            )?;
            Ok(State::Idle { object })
        }
    }
}

// It is done with this value.
pub(crate) fn on_done<T: Task + Drop>(
    alloc: Global,
    says: &mut Vec<Said>,
    object: Object<T>,
    purpose: Purpose,
    value: Value,
) -> Mem<State<T>>
    ensures { IfOk result (λ s. (l : Life) (ts : List OpenTask) → Holds T.seen l object ts
        → Says T.seen l says.old.items says.new.items s (steps.on_done (object_of object ts) (purpose_of purpose) (tree_of value))) }
{
    match purpose {
        Purpose::Starts => {
            drop(value);
            Ok(rests(object, true))
        }
        Purpose::Handles(_) => {
            drop(value);
            let op = after_success(object.touched);
            handled(alloc, says, object, op)
        }
        Purpose::Serves(to) => replies(says, object, to, Ok(value)),
    }
}

// The clock, which is never before the moment 0.
fn time_of(clock: &Num) -> i64
    ensures same { pos 0 ≤ℤ clock.now → result ≡ clock.now }
    ensures time { (pos 0 ≤ℤ result) × (result ≤ℤ alarms.most_time) }
{
    let clock = clock.get();
    if clock < 0 { 0 } else { clock }
}

// What is written of the alarm where its handler threw.
fn after_throw<T: Task + Drop>(object: &Object<T>, alarm: Alarm) -> Option<Op>
    ensures written { pos 0 ≤ℤ object.now.clock → result ≡ alarms.after_failure alarm.1 object.now.touched object.now.clock }
    ensures op { IfSome result IsAlarmOp }
{
    after_failure(alarm.retry(), object.touched, time_of(&object.clock))
}

// It threw this value, and the incarnation goes on.
pub(crate) fn on_thrown<T: Task + Drop>(
    alloc: Global,
    says: &mut Vec<Said>,
    object: Object<T>,
    purpose: Purpose,
    value: Value,
) -> Mem<State<T>>
    ensures { IfOk result (λ s. (l : Life) (ts : List OpenTask) → Holds T.seen l object ts
        → Says T.seen l says.old.items says.new.items s (steps.on_thrown (object_of object ts) (purpose_of purpose) (tree_of value))) }
{
    match purpose {
        Purpose::Starts => {
            drop(value);
            let started = object.started;
            Ok(rests(object, started))
        }
        Purpose::Handles(alarm) => {
            drop(value);
            let op = after_throw(&object, alarm);
            handled(alloc, says, object, op)
        }
        Purpose::Serves(to) => replies(says, object, to, Err(Failure::Thrown(value))),
    }
}

// The incarnation ends by this cause.
fn halts<T: Task + Drop>(says: &mut Vec<Said>, cause: Cause) -> Mem<State<T>>
    ensures { IfOk result (λ s. (l : Life) → Says T.seen l says.old.items says.new.items s (steps.halts cause)) }
{
    say(says, Said::Halt(cause))?;
    Ok(State::Ended { cause })
}

// A constructor threw, or a block.
pub(crate) fn on_reset<T: Task + Drop>(says: &mut Vec<Said>, purpose: Purpose) -> Mem<State<T>>
    ensures { IfOk result (λ s. (l : Life) → Says T.seen l says.old.items says.new.items s (steps.on_reset (purpose_of purpose))) }
{
    match purpose {
        Purpose::Starts => halts(says, Cause::StartThrew),
        Purpose::Handles(_) => halts(says, Cause::BlockThrew),
        Purpose::Serves(_) => halts(says, Cause::BlockThrew),
    }
}

// It was stopped at a limit.
pub(crate) fn on_exceeded<T: Task + Drop>(says: &mut Vec<Said>, purpose: Purpose) -> Mem<State<T>>
    ensures { IfOk result (λ s. (l : Life) → Says T.seen l says.old.items says.new.items s (steps.on_exceeded (purpose_of purpose))) }
{
    match purpose {
        Purpose::Starts => halts(says, Cause::Exceeded),
        Purpose::Handles(_) => halts(says, Cause::Exceeded),
        Purpose::Serves(to) => {
            say(
                says,
                Said::Message(Message::Reply {
                    to,
                    result: Err(Failure::Exceeded),
                }),
            )?;
            halts(says, Cause::Exceeded)
        }
    }
}
