//! An event is delivered to an idle object.
ghost use Rattle.std.specs.Prelude.{◌≡◌, ◌+◌, ◌≤ℤ◌, pos, ℕ, List, [], IfOk, IfSome, IfNone, Some, None, is_some, false, if◌then◌else◌};
ghost use Rattle.std.specs.Int.{int_max};
ghost use Rattle.alarm_core.specs.AlarmRule as alarms;
ghost use Rattle.do_tree.specs.Checked.{tree_of as script_in};
ghost use Rattle.do_tree.specs.Lookup.{alarm_of, constructor_of};
ghost use Rattle.timeline.specs.Object as seen;
ghost use Rattle.timeline.specs.Object.{Life, OpenTask, task_under, tasks_but};
ghost use Rattle.timeline.specs.Steps as steps;
ghost use Rattle.timeline.specs.declared.entry.Body.{Body};
ghost use Rattle.timeline.specs.declared.event.Event.TheVariants as event;
ghost use Rattle.front_turns.specs.Paused.{HasClass, HasMethod};
ghost use Rattle.front_turns.specs.Kinds.{call_depth, is_tick};
ghost use Rattle.front_turns.specs.Held.{Holds, IsOfMethod, IsTakenOut, IsTime, life_in, Says, object_of};

use crate::answers::answer_of;
use crate::ends::handled;
use crate::evaluator::Task;
use crate::object::{Held, Object, Purpose, State};
use crate::say::say;
use crate::serving::{begins, goes_on, starts, then_parked};
use alarm_core::due;
use do_tree::Checked;
use do_value::{Mem, NoMemory, Num, Value};
use std::alloc::Global;
use storage_map::{Alarm, Identity, Op};
use timeline::{Body as Said, Event, Failure};

// The constructor runs first, where the class has one, and the event waits for it.
fn starts_by<T: Task + Drop>(
    alloc: Global,
    checked: &Checked,
    says: &mut Vec<Said>,
    class: u32,
    incarnation: u64,
    object: Object<T>,
    event: Event,
    depth: u32,
    constructor: u32,
) -> Mem<State<T>>
    requires class { HasClass (script_in checked.now) class }
    requires constructor { constructor_of (script_in checked.now) class ≡ Some constructor }
    requires method { IsOfMethod (life_in (script_in checked.now) class incarnation) event }
    requires held { (ts : List OpenTask) × Holds T.seen (life_in (script_in checked.now) class incarnation) object ts }
    ensures { IfOk result (λ s. (ts : List OpenTask) → Holds T.seen (life_in (script_in checked.now) class incarnation) object ts
        → Says T.seen (life_in (script_in checked.now) class incarnation) says.old.items says.new.items s
        (steps.starts_by (life_in (script_in checked.now) class incarnation) (object_of object ts) event depth (Some constructor))) }
{
    let mut object = object;
    object.parked = Some(event);
    let values = Vec::new(alloc);
    let state = starts(
        alloc,
        checked,
        says,
        class,
        incarnation,
        object,
        Purpose::Starts,
        constructor,
        values,
        depth,
    )?;
    let state = then_parked(
        alloc,
        checked,
        says,
        class,
        incarnation,
        Purpose::Starts,
        state,
    )?;
    Ok(state)
}

// An event begins its task, and starts its object where that hasn't started.
fn arrives<T: Task + Drop>(
    alloc: Global,
    checked: &Checked,
    says: &mut Vec<Said>,
    class: u32,
    incarnation: u64,
    object: Object<T>,
    event: Event,
    depth: u32,
) -> Mem<State<T>>
    requires class { HasClass (script_in checked.now) class }
    requires method { IsOfMethod (life_in (script_in checked.now) class incarnation) event }
    requires held { (ts : List OpenTask) × Holds T.seen (life_in (script_in checked.now) class incarnation) object ts }
    ensures { IfOk result (λ s. (ts : List OpenTask) → Holds T.seen (life_in (script_in checked.now) class incarnation) object ts
        → Says T.seen (life_in (script_in checked.now) class incarnation) says.old.items says.new.items s
        (steps.arrives (life_in (script_in checked.now) class incarnation) (object_of object ts) event depth)) }
{
    if object.started {
        let state = begins(alloc, checked, says, class, incarnation, object, event)?;
        return Ok(state);
    }
    match checked.constructor(class) {
        None => {
            let mut object = object;
            object.started = true;
            let state = begins(alloc, checked, says, class, incarnation, object, event)?;
            Ok(state)
        }
        Some(constructor) => {
            let state = starts_by(
                alloc,
                checked,
                says,
                class,
                incarnation,
                object,
                event,
                depth,
                constructor,
            )?;
            Ok(state)
        }
    }
}

// A due tick runs the handler of its alarm.
fn handles<T: Task + Drop>(
    alloc: Global,
    checked: &Checked,
    says: &mut Vec<Said>,
    class: u32,
    incarnation: u64,
    object: Object<T>,
    alarm: Alarm,
    event: Event,
) -> Mem<State<T>>
    requires class { HasClass (script_in checked.now) class }
    requires method { IsOfMethod (life_in (script_in checked.now) class incarnation) event }
    requires held { (ts : List OpenTask) × Holds T.seen (life_in (script_in checked.now) class incarnation) object ts }
    ensures { IfOk result (λ s. (ts : List OpenTask) → Holds T.seen (life_in (script_in checked.now) class incarnation) object ts
        → Says T.seen (life_in (script_in checked.now) class incarnation) says.old.items says.new.items s
        (steps.arrives (life_in (script_in checked.now) class incarnation)
        (record (object_of object ts) { handler = Some alarm.1; touched = false }) event 0)) }
{
    let mut object = object;
    object.handler = Some(alarm);
    object.touched = false;
    let state = arrives(alloc, checked, says, class, incarnation, object, event, 0)?;
    Ok(state)
}

// A due tick runs the handler of a class that has one.
fn on_alarm<T: Task + Drop>(
    alloc: Global,
    checked: &Checked,
    says: &mut Vec<Said>,
    class: u32,
    incarnation: u64,
    object: Object<T>,
    event: Event,
) -> Mem<State<T>>
    requires class { HasClass (script_in checked.now) class }
    requires method { IsOfMethod (life_in (script_in checked.now) class incarnation) event }
    requires held { (ts : List OpenTask) × Holds T.seen (life_in (script_in checked.now) class incarnation) object ts }
    ensures { IfOk result (λ s. (method : ℕ) (ts : List OpenTask) → Holds T.seen (life_in (script_in checked.now) class incarnation) object ts
        → Says T.seen (life_in (script_in checked.now) class incarnation) says.old.items says.new.items s
        (steps.handles_due (life_in (script_in checked.now) class incarnation) (object_of object ts) event object.alarm (Some method))) }
{
    match object.alarm {
        None => {
            drop(event);
            Ok(State::Idle { object })
        }
        Some(alarm) => {
            let state = handles(
                alloc,
                checked,
                says,
                class,
                incarnation,
                object,
                alarm,
                event,
            )?;
            Ok(state)
        }
    }
}

// A tick that is due runs the handler, or clears the alarm of a class that has none.
fn on_due<T: Task + Drop>(
    alloc: Global,
    checked: &Checked,
    says: &mut Vec<Said>,
    class: u32,
    incarnation: u64,
    object: Object<T>,
    event: Event,
) -> Mem<State<T>>
    requires class { HasClass (script_in checked.now) class }
    requires method { IsOfMethod (life_in (script_in checked.now) class incarnation) event }
    requires held { (ts : List OpenTask) × Holds T.seen (life_in (script_in checked.now) class incarnation) object ts }
    ensures { IfOk result (λ s. (ts : List OpenTask) → Holds T.seen (life_in (script_in checked.now) class incarnation) object ts
        → Says T.seen (life_in (script_in checked.now) class incarnation) says.old.items says.new.items s
        (steps.handles_due (life_in (script_in checked.now) class incarnation) (object_of object ts) event object.alarm
        (alarm_of (script_in checked.now) class))) }
{
    match checked.alarm(class) {
        None => {
            drop(event);
            let state = handled(alloc, says, object, Some(Op::ClearAlarm))?;
            Ok(state)
        }
        Some(method) => {
            let state = on_alarm(alloc, checked, says, class, incarnation, object, event)?;
            Ok(state)
        }
    }
}

// A tick.
fn on_tick<T: Task + Drop>(
    alloc: Global,
    checked: &Checked,
    says: &mut Vec<Said>,
    class: u32,
    incarnation: u64,
    object: Object<T>,
    event: Event,
) -> Mem<State<T>>
    requires class { HasClass (script_in checked.now) class }
    requires method { IsOfMethod (life_in (script_in checked.now) class incarnation) event }
    requires moment { IsTime (steps.moment_of event) }
    requires held { (ts : List OpenTask) × Holds T.seen (life_in (script_in checked.now) class incarnation) object ts }
    ensures { IfOk result (λ s. (ts : List OpenTask) → Holds T.seen (life_in (script_in checked.now) class incarnation) object ts
        → Says T.seen (life_in (script_in checked.now) class incarnation) says.old.items says.new.items s
        (steps.on_tick (life_in (script_in checked.now) class incarnation) (object_of object ts) event (steps.moment_of event))) }
{
    if is_due(&object, &event) {
        let state = on_due(alloc, checked, says, class, incarnation, object, event)?;
        return Ok(state);
    }
    drop(event);
    Ok(State::Idle { object })
}

// Whether a tick of this moment starts the handler.
fn is_due<T: Task + Drop>(object: &Object<T>, event: &Event) -> bool
    requires { IsTime (steps.moment_of event.now) }
    ensures { (ts : List OpenTask) → result ≡ alarms.is_due (object_of object.now ts).alarm (is_some (object_of object.now ts).handler)
        (steps.moment_of event.now) }
{
    due(object.alarm, object.handler.is_some(), moment_of(event))
}

// One block fewer is open, or none.
fn fewer_blocks(blocks: u64, more: bool) -> u64
    ensures { (left : ℕ) → blocks ≡ (if more then 1 else 0) + left → result ≡ left }
{
    if more {
        blocks.saturating_sub(1)
    } else {
        blocks
    }
}

// The task that waits under the number is taken out.
fn take_task<T: Task + Drop>(object: Object<T>, number: u64) -> (Object<T>, Option<Held<T>>)
    ensures object { object_of result.0 [] ≡ object_of object [] }
    ensures found { IfSome result.1 (λ h. (l : Life) (ts : List OpenTask) → Holds T.seen l object ts → IsTakenOut T.seen l number h result.0 ts) }
    ensures none { IfNone result.1 ((l : Life) (ts : List OpenTask) → Holds T.seen l object ts → (task_under number ts ≡ None) × Holds T.seen l result.0 ts) }
{
    let mut object = object;
    match object.tasks.remove(&number) {
        None => (object, None),
        Some(held) => {
            object.blocks = fewer_blocks(object.blocks, held.task.block());
            (object, Some(held))
        }
    }
}

// The answer to a call or a fetch reaches the task that waits for it.
fn on_answer<T: Task + Drop>(
    alloc: Global,
    checked: &Checked,
    says: &mut Vec<Said>,
    class: u32,
    incarnation: u64,
    object: Object<T>,
    number: u64,
    outcome: Result<Value, Failure>,
) -> Mem<State<T>>
    requires class { HasClass (script_in checked.now) class }
    requires held { (ts : List OpenTask) × Holds T.seen (life_in (script_in checked.now) class incarnation) object ts }
    ensures { IfOk result (λ s. (ts : List OpenTask) → Holds T.seen (life_in (script_in checked.now) class incarnation) object ts
        → Says T.seen (life_in (script_in checked.now) class incarnation) says.old.items says.new.items s
        (steps.on_answer (life_in (script_in checked.now) class incarnation) (object_of object ts) (task_under number ts) (steps.answer_of outcome))) }
{
    let answer = answer_of(alloc, outcome)?;
    let (object, held) = take_task(object, number);
    match held {
        None => {
            drop(answer);
            Ok(State::Idle { object })
        }
        Some(held) => {
            let Held {
                running,
                awaited,
                task,
            } = held;
            drop(awaited);
            let state = goes_on(
                alloc,
                checked,
                says,
                class,
                incarnation,
                object,
                running,
                task,
                answer,
            )?;
            Ok(state)
        }
    }
}

// The slot gets its object.
fn on_bind<T: Task + Drop>(
    says: &mut Vec<Said>,
    object: Object<T>,
    identity: Identity,
) -> Mem<State<T>>
    ensures { IfOk result (λ s. (l : Life) (ts : List OpenTask) → Holds T.seen l object ts
        → Says T.seen l says.old.items says.new.items s (steps.on_event l (object_of object ts) (event.Bind identity))) }
{
    say(says, Said::Bind(identity))?;
    Ok(State::Idle { object })
}

// The object is dropped from memory.
fn on_evict<T: Task + Drop>(object: Object<T>) -> State<T>
    ensures { (l : Life) (ts : List OpenTask) (old : List Body) → Holds T.seen l object ts
        → Says T.seen l old old result (steps.rests (record (object_of object ts) { fields = []; started = false })) }
{
    let mut object = object;
    object.fields = None;
    object.started = false;
    State::Idle { object }
}

// The moment of an event.
fn moment_of(event: &Event) -> i64
    ensures { result ≡ steps.moment_of event.now }
{
    match event {
        Event::Bind(_) => 0,
        Event::Call { at, .. } => *at,
        Event::Answer { at, .. } => *at,
        Event::Tick { at } => *at,
        Event::Evict { at } => *at,
    }
}

// The clock is the greatest moment so far.
fn later(clock: Num, at: i64) -> Num
    requires { IsTime at }
    ensures clock { result ≡ int_max clock at }
    ensures positive { pos 0 ≤ℤ result }
{
    if clock.get() >= at {
        return clock;
    }
    match Num::new(at) {
        Ok(at) => at,
        Err(_) => unreachable!(),
    }
}

// The object at the moment of an event.
fn clocked<T: Task + Drop>(object: Object<T>, at: i64) -> Object<T>
    requires { IsTime at }
    ensures object { (ts : List OpenTask) → object_of result ts ≡ record (object_of object ts) { clock = int_max object.clock at } }
    ensures holds { (l : Life) (ts : List OpenTask) → Holds T.seen l object ts → Holds T.seen l result ts }
{
    let mut object = object;
    object.clock = later(object.clock, at);
    object
}

// Whether it is a tick.
fn is_tick(event: &Event) -> bool
    ensures { result ≡ is_tick event.now }
{
    match event {
        Event::Tick { .. } => true,
        _ => false,
    }
}

// The depth of a call.
fn call_depth(event: &Event) -> Option<u32>
    ensures { result ≡ call_depth event.now }
{
    match event {
        Event::Call { depth, .. } => Some(*depth),
        _ => None,
    }
}

// What an event does that is no call and no tick.
fn on_other<T: Task + Drop>(
    alloc: Global,
    checked: &Checked,
    says: &mut Vec<Said>,
    class: u32,
    incarnation: u64,
    object: Object<T>,
    event: Event,
) -> Mem<State<T>>
    requires class { HasClass (script_in checked.now) class }
    requires held { (ts : List OpenTask) × Holds T.seen (life_in (script_in checked.now) class incarnation) object ts }
    ensures { IfOk result (λ s. (ts : List OpenTask) → Holds T.seen (life_in (script_in checked.now) class incarnation) object ts
        → call_depth event ≡ None → is_tick event ≡ false
        → Says T.seen (life_in (script_in checked.now) class incarnation) says.old.items says.new.items s
        (steps.on_event (life_in (script_in checked.now) class incarnation) (object_of object ts) event)) }
{
    match event {
        Event::Bind(identity) => {
            let state = on_bind(says, object, identity)?;
            Ok(state)
        }
        Event::Answer {
            incarnation: _,
            number,
            result,
            at: _,
        } => {
            let state = on_answer(
                alloc,
                checked,
                says,
                class,
                incarnation,
                object,
                number,
                result,
            )?;
            Ok(state)
        }
        Event::Evict { at: _ } => Ok(on_evict(object)),
        Event::Call {
            from: _,
            method: _,
            args,
            depth: _,
            at: _,
        } => {
            drop(args);
            Ok(State::Idle { object })
        }
        Event::Tick { at: _ } => Ok(State::Idle { object }),
    }
}

// What an event does, at its moment.
fn on_event<T: Task + Drop>(
    alloc: Global,
    checked: &Checked,
    says: &mut Vec<Said>,
    class: u32,
    incarnation: u64,
    object: Object<T>,
    event: Event,
) -> Mem<State<T>>
    requires class { HasClass (script_in checked.now) class }
    requires method { IsOfMethod (life_in (script_in checked.now) class incarnation) event }
    requires moment { IsTime (steps.moment_of event) }
    requires held { (ts : List OpenTask) × Holds T.seen (life_in (script_in checked.now) class incarnation) object ts }
    ensures { IfOk result (λ s. (ts : List OpenTask) → Holds T.seen (life_in (script_in checked.now) class incarnation) object ts
        → Says T.seen (life_in (script_in checked.now) class incarnation) says.old.items says.new.items s
        (steps.on_event (life_in (script_in checked.now) class incarnation) (object_of object ts) event)) }
{
    if is_tick(&event) {
        let state = on_tick(alloc, checked, says, class, incarnation, object, event)?;
        return Ok(state);
    }
    match call_depth(&event) {
        Some(depth) => {
            let state = arrives(
                alloc,
                checked,
                says,
                class,
                incarnation,
                object,
                event,
                depth,
            )?;
            Ok(state)
        }
        None => {
            let state = on_other(alloc, checked, says, class, incarnation, object, event)?;
            Ok(state)
        }
    }
}

/// The event is delivered to an idle object of this class and incarnation, which says what it says to it, up to the end or to the
/// first ask of its storage.
pub fn deliver<T: Task + Drop>(
    alloc: Global,
    checked: &Checked,
    says: &mut Vec<Said>,
    class: u32,
    incarnation: u64,
    object: Object<T>,
    event: Event,
) -> Mem<State<T>>
    requires class { HasClass (script_in checked.now) class }
    requires method { IsOfMethod (life_in (script_in checked.now) class incarnation) event }
    requires moment { IsTime (steps.moment_of event) }
    requires held { (ts : List OpenTask) × Holds T.seen (life_in (script_in checked.now) class incarnation) object ts }
    ensures { IfOk result (λ s. (ts : List OpenTask) → Holds T.seen (life_in (script_in checked.now) class incarnation) object ts
        → Says T.seen (life_in (script_in checked.now) class incarnation) says.old.items says.new.items s
        (steps.delivers (life_in (script_in checked.now) class incarnation) (object_of object ts) event)) }
{
    let object = clocked(object, moment_of(&event));
    let state = on_event(alloc, checked, says, class, incarnation, object, event)?;
    Ok(state)
}
