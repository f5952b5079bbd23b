//! A task begins, or goes on with an answer, and then the event begins that waited for it.
ghost use Rattle.std.specs.Prelude.{◌≡◌, ◌++◌, ℕ, List, [], IfOk, IfSome, Some, None, true, map};
ghost use Rattle.do_value.specs.Seen.{tree_of, trees_in};
ghost use Rattle.do_tree.specs.Checked.{tree_of as script_in};
ghost use Rattle.do_tree.specs.Lookup.{alarm_of};
ghost use Rattle.timeline.specs.Object as seen;
ghost use Rattle.timeline.specs.Object.{Life, OpenTask, Step};
ghost use Rattle.timeline.specs.Steps as steps;
ghost use Rattle.timeline.specs.declared.event.Event.TheVariants as event;
ghost use Rattle.timeline.specs.declared.entry.Body.{Body};
ghost use Rattle.front_turns.specs.Paused.{HasClass, HasMethod};
ghost use Rattle.front_turns.specs.Held.{Holds, IsOfMethod, IsPaused, IsState, life_in, Runs, Says, object_of, purpose_of, retry_of};

use crate::answers::hidden;
use crate::evaluator::Task;
use crate::info::arguments;
use crate::object::{Object, Purpose, Running, State};
use crate::outcome::Outcome;
use crate::turns::{fields_in, go_on, runs};
use do_tree::Checked;
use do_value::{Args, Mem, NoMemory, Value};
use script_mean::{Answer, MOST_OUTSIDE_CALLS};
use std::alloc::Global;
use storage_map::Alarm;
use timeline::{Body as Said, Caller, Event};

// Copies of values.
fn copies(alloc: Global, values: &[Value]) -> Mem<Vec<Value>>
    ensures { IfOk result (λ vs. vs.items ≡ values.now) }
{
    let mut copied = Vec::new(alloc);
    for value in values {
        let value = value.copy()?;
        if copied.push(value).is_err() {
            return Err(NoMemory);
        }
    }
    Ok(copied)
}

// The first turn of a method.
fn first<T: Task + Drop>(
    alloc: Global,
    checked: &Checked,
    class: u32,
    object: &Object<T>,
    running: &Running,
    method: u32,
    values: Vec<Value>,
) -> Mem<Outcome<T>>
    requires method { HasMethod (script_in checked.now) class method }
    requires made { running.now.made ≡ 0 }
    ensures { IfOk result (λ o. (incarnation : ℕ) (ts : List OpenTask)
        → Runs T.seen (life_in (script_in checked.now) class incarnation) o running.now
        (steps.fresh (purpose_of running.now.purpose) method (trees_in values.items) running.now.depth (object_of object.now ts))) }
{
    let fields = fields_in(alloc, &object.fields)?;
    let now = object.clock.get();
    let outcome = T::start(alloc, checked, class, method, values, fields, now)?;
    Ok(outcome)
}

// A method begins and runs until it waits or has ended.
pub(crate) fn starts<T: Task + Drop>(
    alloc: Global,
    checked: &Checked,
    says: &mut Vec<Said>,
    class: u32,
    incarnation: u64,
    object: Object<T>,
    purpose: Purpose,
    method: u32,
    values: Vec<Value>,
    depth: u32,
) -> Mem<State<T>>
    requires class { HasClass (script_in checked.now) class }
    requires method { HasMethod (script_in checked.now) class method }
    requires held { (ts : List OpenTask) × Holds T.seen (life_in (script_in checked.now) class incarnation) object ts }
    ensures { IfOk result (λ s. (ts : List OpenTask) → Holds T.seen (life_in (script_in checked.now) class incarnation) object ts
        → Says T.seen (life_in (script_in checked.now) class incarnation) says.old.items says.new.items s
        (steps.goes_on (life_in (script_in checked.now) class incarnation) (object_of object ts)
        (steps.fresh (purpose_of purpose) method (trees_in values.items) depth (object_of object ts)))) }
{
    let running = Running {
        purpose,
        depth,
        made: 0,
    };
    let outcome = first(alloc, checked, class, &object, &running, method, values)?;
    let state = runs(
        alloc,
        checked,
        says,
        class,
        incarnation,
        MOST_OUTSIDE_CALLS + 1,
        object,
        running,
        outcome,
    )?;
    Ok(state)
}

// A task goes on with an answer, until it waits or has ended.
fn answered<T: Task + Drop>(
    alloc: Global,
    checked: &Checked,
    says: &mut Vec<Said>,
    class: u32,
    incarnation: u64,
    object: Object<T>,
    running: Running,
    task: T,
    answer: Answer,
) -> Mem<State<T>>
    requires class { HasClass (script_in checked.now) class }
    requires held { (ts : List OpenTask) × (t : OpenTask) × Holds T.seen (life_in (script_in checked.now) class incarnation) object ts
        × IsPaused (life_in (script_in checked.now) class incarnation) (T.seen task) running t }
    ensures { IfOk result (λ s. (ts : List OpenTask) (t : OpenTask)
        → Holds T.seen (life_in (script_in checked.now) class incarnation) object ts
        → IsPaused (life_in (script_in checked.now) class incarnation) (T.seen task) running t
        → Says T.seen (life_in (script_in checked.now) class incarnation) says.old.items says.new.items s
        (steps.goes_on (life_in (script_in checked.now) class incarnation) (object_of object ts) (steps.resumed (object_of object ts) t answer))) }
{
    let outcome = go_on(alloc, checked, &object, task, answer)?;
    let state = runs(
        alloc,
        checked,
        says,
        class,
        incarnation,
        MOST_OUTSIDE_CALLS + 1,
        object,
        running,
        outcome,
    )?;
    Ok(state)
}

// A call begins its method.
fn begins_call<T: Task + Drop>(
    alloc: Global,
    checked: &Checked,
    says: &mut Vec<Said>,
    class: u32,
    incarnation: u64,
    object: Object<T>,
    from: Caller,
    method: u32,
    args: Args,
    depth: u32,
) -> Mem<State<T>>
    requires class { HasClass (script_in checked.now) class }
    requires method { HasMethod (script_in checked.now) class method }
    requires held { (ts : List OpenTask) × Holds T.seen (life_in (script_in checked.now) class incarnation) object ts }
    ensures { IfOk result (λ s. (ts : List OpenTask) → Holds T.seen (life_in (script_in checked.now) class incarnation) object ts
        → Says T.seen (life_in (script_in checked.now) class incarnation) says.old.items says.new.items s
        (steps.goes_on (life_in (script_in checked.now) class incarnation) (object_of object ts)
        (steps.fresh (seen.serves from) method (map tree_of args) depth (object_of object ts)))) }
{
    let values = copies(alloc, args.values())?;
    let state = starts(
        alloc,
        checked,
        says,
        class,
        incarnation,
        object,
        Purpose::Serves(from),
        method,
        values,
        depth,
    )?;
    Ok(state)
}

// The handler of this alarm begins.
fn begins_alarm<T: Task + Drop>(
    alloc: Global,
    checked: &Checked,
    says: &mut Vec<Said>,
    class: u32,
    incarnation: u64,
    object: Object<T>,
    method: u32,
    alarm: Alarm,
) -> Mem<State<T>>
    requires class { HasClass (script_in checked.now) class }
    requires method { HasMethod (script_in checked.now) class method }
    requires held { (ts : List OpenTask) × Holds T.seen (life_in (script_in checked.now) class incarnation) object ts }
    ensures { IfOk result (λ s. (ts : List OpenTask) → Holds T.seen (life_in (script_in checked.now) class incarnation) object ts
        → Says T.seen (life_in (script_in checked.now) class incarnation) says.old.items says.new.items s
        (steps.begins_handler (life_in (script_in checked.now) class incarnation) (object_of object ts) (Some method) (Some alarm.1))) }
{
    let values = arguments(alloc, alarm.retry())?;
    let state = starts(
        alloc,
        checked,
        says,
        class,
        incarnation,
        object,
        Purpose::Handles(alarm),
        method,
        values,
        0,
    )?;
    Ok(state)
}

// The handler begins, where its alarm was due.
fn begins_due<T: Task + Drop>(
    alloc: Global,
    checked: &Checked,
    says: &mut Vec<Said>,
    class: u32,
    incarnation: u64,
    object: Object<T>,
    method: u32,
) -> Mem<State<T>>
    requires class { HasClass (script_in checked.now) class }
    requires method { HasMethod (script_in checked.now) class method }
    requires held { (ts : List OpenTask) × Holds T.seen (life_in (script_in checked.now) class incarnation) object ts }
    ensures { IfOk result (λ s. (ts : List OpenTask) → Holds T.seen (life_in (script_in checked.now) class incarnation) object ts
        → Says T.seen (life_in (script_in checked.now) class incarnation) says.old.items says.new.items s
        (steps.begins_handler (life_in (script_in checked.now) class incarnation) (object_of object ts) (Some method) (retry_of object.handler))) }
{
    match object.handler {
        None => Ok(State::Idle { object }),
        Some(alarm) => {
            let state = begins_alarm(
                alloc,
                checked,
                says,
                class,
                incarnation,
                object,
                method,
                alarm,
            )?;
            Ok(state)
        }
    }
}

// The handler begins, where there is one and its alarm was due.
fn begins_handler<T: Task + Drop>(
    alloc: Global,
    checked: &Checked,
    says: &mut Vec<Said>,
    class: u32,
    incarnation: u64,
    object: Object<T>,
) -> Mem<State<T>>
    requires class { HasClass (script_in checked.now) class }
    requires held { (ts : List OpenTask) × Holds T.seen (life_in (script_in checked.now) class incarnation) object ts }
    ensures { IfOk result (λ s. (ts : List OpenTask) → Holds T.seen (life_in (script_in checked.now) class incarnation) object ts
        → Says T.seen (life_in (script_in checked.now) class incarnation) says.old.items says.new.items s
        (steps.begins_handler (life_in (script_in checked.now) class incarnation) (object_of object ts)
        (alarm_of (script_in checked.now) class) (retry_of object.handler))) }
{
    match checked.alarm(class) {
        None => Ok(State::Idle { object }),
        Some(method) => {
            let state = begins_due(alloc, checked, says, class, incarnation, object, method)?;
            Ok(state)
        }
    }
}

// An event begins its task, where the constructor has run.
pub(crate) fn begins<T: Task + Drop>(
    alloc: Global,
    checked: &Checked,
    says: &mut Vec<Said>,
    class: u32,
    incarnation: u64,
    object: Object<T>,
    event: Event,
) -> Mem<State<T>>
    requires class { HasClass (script_in checked.now) class }
    requires method { IsOfMethod (life_in (script_in checked.now) class incarnation) event }
    requires held { (ts : List OpenTask) × Holds T.seen (life_in (script_in checked.now) class incarnation) object ts }
    ensures { IfOk result (λ s. (ts : List OpenTask) → Holds T.seen (life_in (script_in checked.now) class incarnation) object ts
        → Says T.seen (life_in (script_in checked.now) class incarnation) says.old.items says.new.items s
        (steps.begins (life_in (script_in checked.now) class incarnation) (object_of object ts) event)) }
{
    match event {
        Event::Call {
            from,
            method,
            args,
            depth,
            at: _,
        } => {
            let state = begins_call(
                alloc,
                checked,
                says,
                class,
                incarnation,
                object,
                from,
                method,
                args,
                depth,
            )?;
            Ok(state)
        }
        Event::Tick { at: _ } => {
            let state = begins_handler(alloc, checked, says, class, incarnation, object)?;
            Ok(state)
        }
        Event::Bind(identity) => {
            drop(identity);
            Ok(State::Idle { object })
        }
        Event::Answer {
            incarnation: _,
            number: _,
            result,
            at: _,
        } => {
            drop(result);
            Ok(State::Idle { object })
        }
        Event::Evict { at: _ } => Ok(State::Idle { object }),
    }
}

// The event that waited for the constructor begins its task.
fn begins_waiting<T: Task + Drop>(
    alloc: Global,
    checked: &Checked,
    says: &mut Vec<Said>,
    class: u32,
    incarnation: u64,
    object: Object<T>,
) -> Mem<State<T>>
    requires class { HasClass (script_in checked.now) class }
    requires held { (ts : List OpenTask) × Holds T.seen (life_in (script_in checked.now) class incarnation) object ts }
    ensures { IfOk result (λ s. (ts : List OpenTask) → Holds T.seen (life_in (script_in checked.now) class incarnation) object ts
        → Says T.seen (life_in (script_in checked.now) class incarnation) says.old.items says.new.items s
        (steps.begins_parked (life_in (script_in checked.now) class incarnation) (object_of object ts) true object.parked)) }
{
    let (object, parked) = take_parked(object);
    match parked {
        None => Ok(State::Idle { object }),
        Some(event) => {
            let state = begins(alloc, checked, says, class, incarnation, object, event)?;
            Ok(state)
        }
    }
}

// The event that waited is taken out.
fn take_parked<T: Task + Drop>(object: Object<T>) -> (Object<T>, Option<Event>)
    ensures object { (ts : List OpenTask) → object_of result.0 ts ≡ record (object_of object ts) { parked = None } }
    ensures parked { result.1 ≡ object.parked }
    ensures holds { (l : Life) (ts : List OpenTask) → Holds T.seen l object ts → Holds T.seen l result.0 ts }
{
    let mut object = object;
    let parked = object.parked.take();
    (object, parked)
}

// The event that waited for the constructor begins its task, where the constructor has ended well.
fn begins_parked<T: Task + Drop>(
    alloc: Global,
    checked: &Checked,
    says: &mut Vec<Said>,
    class: u32,
    incarnation: u64,
    object: Object<T>,
) -> Mem<State<T>>
    requires class { HasClass (script_in checked.now) class }
    requires held { (ts : List OpenTask) × Holds T.seen (life_in (script_in checked.now) class incarnation) object ts }
    ensures { IfOk result (λ s. (ts : List OpenTask) → Holds T.seen (life_in (script_in checked.now) class incarnation) object ts
        → Says T.seen (life_in (script_in checked.now) class incarnation) says.old.items says.new.items s
        (steps.begins_parked (life_in (script_in checked.now) class incarnation) (object_of object ts) object.started object.parked)) }
{
    if object.started {
        let state = begins_waiting(alloc, checked, says, class, incarnation, object)?;
        return Ok(state);
    }
    Ok(State::Idle { object })
}

// What follows the state in which a constructor leaves its object.
fn on_state<T: Task + Drop>(
    alloc: Global,
    checked: &Checked,
    says: &mut Vec<Said>,
    class: u32,
    incarnation: u64,
    state: State<T>,
) -> Mem<State<T>>
    requires class { HasClass (script_in checked.now) class }
    requires state { (st : seen.State) × IsState T.seen (life_in (script_in checked.now) class incarnation) state st }
    ensures { IfOk result (λ s. (old : List Body) (step : Step) → Says T.seen (life_in (script_in checked.now) class incarnation) old says.old.items state step
        → Says T.seen (life_in (script_in checked.now) class incarnation) old says.new.items s
        (steps.before step.says (steps.on_state (life_in (script_in checked.now) class incarnation) step.state))) }
{
    match state {
        State::Idle { object } => {
            let state = begins_parked(alloc, checked, says, class, incarnation, object)?;
            Ok(state)
        }
        State::Waiting {
            object,
            running,
            task,
            asked,
        } => Ok(State::Waiting {
            object,
            running,
            task,
            asked,
        }),
        State::Ended { cause } => Ok(State::Ended { cause }),
    }
}

// After the turns of a task: only those of a constructor begin the event that waited for it.
pub(crate) fn then_parked<T: Task + Drop>(
    alloc: Global,
    checked: &Checked,
    says: &mut Vec<Said>,
    class: u32,
    incarnation: u64,
    purpose: Purpose,
    state: State<T>,
) -> Mem<State<T>>
    requires class { HasClass (script_in checked.now) class }
    requires state { (st : seen.State) × IsState T.seen (life_in (script_in checked.now) class incarnation) state st }
    ensures { IfOk result (λ s. (old : List Body) (step : Step) → Says T.seen (life_in (script_in checked.now) class incarnation) old says.old.items state step
        → Says T.seen (life_in (script_in checked.now) class incarnation) old says.new.items s
        (steps.then_parked (life_in (script_in checked.now) class incarnation) (purpose_of purpose) step)) }
{
    match purpose {
        Purpose::Starts => {
            let state = on_state(alloc, checked, says, class, incarnation, state)?;
            Ok(state)
        }
        Purpose::Handles(_) => Ok(state),
        Purpose::Serves(_) => Ok(state),
    }
}

// A task goes on with an answer, and then the event that waited for it, where it was the constructor.
pub(crate) fn goes_on<T: Task + Drop>(
    alloc: Global,
    checked: &Checked,
    says: &mut Vec<Said>,
    class: u32,
    incarnation: u64,
    object: Object<T>,
    running: Running,
    task: T,
    answer: Answer,
) -> Mem<State<T>>
    requires class { HasClass (script_in checked.now) class }
    requires held { (ts : List OpenTask) × (t : OpenTask) × Holds T.seen (life_in (script_in checked.now) class incarnation) object ts
        × IsPaused (life_in (script_in checked.now) class incarnation) (T.seen task) running t }
    ensures { IfOk result (λ s. (ts : List OpenTask) (t : OpenTask)
        → Holds T.seen (life_in (script_in checked.now) class incarnation) object ts
        → IsPaused (life_in (script_in checked.now) class incarnation) (T.seen task) running t
        → Says T.seen (life_in (script_in checked.now) class incarnation) says.old.items says.new.items s
        (steps.then_parked (life_in (script_in checked.now) class incarnation) t.purpose
        (steps.goes_on (life_in (script_in checked.now) class incarnation) (object_of object ts) (steps.resumed (object_of object ts) t answer)))) }
{
    let purpose = running.purpose;
    let state = answered(
        alloc,
        checked,
        says,
        class,
        incarnation,
        object,
        running,
        task,
        answer,
    )?;
    let state = then_parked(alloc, checked, says, class, incarnation, purpose, state)?;
    Ok(state)
}

/// The storage's answer reaches the task of this class and incarnation that waits for it, and the object says what it says then, up to
/// the end or to the next ask of its storage.
pub fn stored<T: Task + Drop>(
    alloc: Global,
    checked: &Checked,
    says: &mut Vec<Said>,
    class: u32,
    incarnation: u64,
    object: Object<T>,
    running: Running,
    task: T,
    answer: Answer,
) -> Mem<State<T>>
    requires class { HasClass (script_in checked.now) class }
    requires held { (ts : List OpenTask) × (t : OpenTask) × Holds T.seen (life_in (script_in checked.now) class incarnation) object ts
        × IsPaused (life_in (script_in checked.now) class incarnation) (T.seen task) running t }
    ensures { IfOk result (λ s. (ts : List OpenTask) (t : OpenTask)
        → Holds T.seen (life_in (script_in checked.now) class incarnation) object ts
        → IsPaused (life_in (script_in checked.now) class incarnation) (T.seen task) running t
        → Says T.seen (life_in (script_in checked.now) class incarnation) says.old.items says.new.items s
        (steps.answers (life_in (script_in checked.now) class incarnation) (object_of object ts) t answer)) }
{
    let answer = hidden(object.handler, object.touched, answer);
    let state = goes_on(
        alloc,
        checked,
        says,
        class,
        incarnation,
        object,
        running,
        task,
        answer,
    )?;
    Ok(state)
}
