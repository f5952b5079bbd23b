//! The turns of a task, until it waits or has ended.
ghost use Rattle.std.specs.Prelude.{◌≡◌, ℕ, List, [], IfOk, Some, false, true};
ghost use Rattle.do_value.specs.Seen.{tree_of};
ghost use Rattle.do_value.specs.Tree.{Tree};
ghost use Rattle.script_mean.specs.Task.{asked, done, threw, exceeded, Fields as Kept};
ghost use Rattle.do_tree.specs.Checked.{tree_of as script_in};
ghost use Rattle.front_turns.specs.Paused.{HasClass};
ghost use Rattle.front_turns.specs.declared.object.Running.{Running as SeenRunning};
ghost use Rattle.timeline.specs.Object.{Life, Object as SeenObject, OpenTask, Step};
ghost use Rattle.timeline.specs.Steps as steps;
ghost use Rattle.front_turns.specs.Held.{HasAsked, Holds, IsPaused, IsRunning, life_in, Runs, Says, fields_of, object_of};
ghost use Rattle.front_turns.specs.Goes.{Goes};

use crate::alarm::{after_batches, any_batch_touches};
use crate::asks::{Went, on_ask};
use crate::ends::{on_done, on_exceeded, on_reset, on_thrown};
use crate::evaluator::Task;
use crate::object::{Object, Running, State};
use crate::outcome::Outcome;
use crate::say::say_batches;
use do_tree::Checked;
use do_value::{Fields, Mem, NoMemory, Value};
use script_mean::{Answer, Ask};
use std::alloc::Global;
use timeline::Body as Said;
use write_batcher::Made;

// The object after a turn that closed these batches.
fn wrote<T: Task + Drop>(object: Object<T>, fields: Fields, batches: &Vec<Made>) -> Object<T>
    ensures object { (ts : List OpenTask) → object_of result ts ≡ steps.wrote batches.now.items (record (object_of object ts) { fields = fields }) }
    ensures holds { (l : Life) (ts : List OpenTask) → Holds T.seen l object ts → Holds T.seen l result ts }
{
    let mut object = object;
    let batches = batches.as_slice();
    object.fields = Some(fields);
    object.alarm = after_batches(object.alarm, batches);
    object.touched = object.touched || any_batch_touches(batches);
    object
}

// It asked.
fn after_pause<T: Task + Drop>(
    alloc: Global,
    says: &mut Vec<Said>,
    incarnation: u64,
    object: Object<T>,
    running: Running,
    task: T,
    batches: Vec<Made>,
    ask: Ask,
    fields: Fields,
) -> Mem<Went<T>>
    ensures { IfOk result (λ w. (l : Life) (ts : List OpenTask) (t : OpenTask) (again : SeenObject → OpenTask → Step)
        → l.incarnation ≡ incarnation → Holds T.seen l object ts → IsPaused l (T.seen task) running (record t { block = (T.seen task).block })
        → HasAsked l t ask
        → Goes T.seen l says.old.items says.new.items w again
        (steps.on_turn again l (object_of object ts) t (Some (asked batches.items fields ask (T.seen task).block)))) }
{
    let object = wrote(object, fields, &batches);
    let went = on_ask(
        alloc,
        says,
        incarnation,
        object,
        running,
        task,
        batches,
        ask,
    )?;
    Ok(went)
}

// It is done.
fn after_done<T: Task + Drop>(
    alloc: Global,
    says: &mut Vec<Said>,
    object: Object<T>,
    running: Running,
    batches: Vec<Made>,
    value: Value,
    fields: Fields,
) -> Mem<State<T>>
    ensures { IfOk result (λ s. (l : Life) (ts : List OpenTask) (t : OpenTask) (again : SeenObject → OpenTask → Step)
        → Holds T.seen l object ts → IsRunning running t
        → Says T.seen l says.old.items says.new.items s
        (steps.on_turn again l (object_of object ts) t (Some (done batches.items fields (tree_of value))))) }
{
    let object = wrote(object, fields, &batches);
    say_batches(says, batches)?;
    let state = on_done(alloc, says, object, running.purpose, value)?;
    Ok(state)
}

// It threw.
fn after_throw<T: Task + Drop>(
    alloc: Global,
    says: &mut Vec<Said>,
    object: Object<T>,
    running: Running,
    batches: Vec<Made>,
    value: Value,
    fields: Fields,
) -> Mem<State<T>>
    ensures { IfOk result (λ s. (l : Life) (ts : List OpenTask) (t : OpenTask) (again : SeenObject → OpenTask → Step)
        → Holds T.seen l object ts → IsRunning running t
        → Says T.seen l says.old.items says.new.items s
        (steps.on_turn again l (object_of object ts) t (Some (threw batches.items fields (tree_of value) false)))) }
{
    let object = wrote(object, fields, &batches);
    say_batches(says, batches)?;
    let state = on_thrown(alloc, says, object, running.purpose, value)?;
    Ok(state)
}

// It threw out of a constructor or a block.
fn after_reset<T: Task + Drop>(
    says: &mut Vec<Said>,
    running: Running,
    batches: Vec<Made>,
) -> Mem<State<T>>
    ensures { IfOk result (λ s. (l : Life) (o : SeenObject) (t : OpenTask) (again : SeenObject → OpenTask → Step) (fields : Kept) (value : Tree)
        → IsRunning running t → Says T.seen l says.old.items says.new.items s (steps.on_turn again l o t (Some (threw batches.items fields value true)))) }
{
    say_batches(says, batches)?;
    let state = on_reset(says, running.purpose)?;
    Ok(state)
}

// It threw, and the incarnation ends by it or goes on.
fn throws<T: Task + Drop>(
    alloc: Global,
    says: &mut Vec<Said>,
    object: Object<T>,
    running: Running,
    batches: Vec<Made>,
    value: Value,
    fields: Fields,
    reset: bool,
) -> Mem<State<T>>
    ensures { IfOk result (λ s. (l : Life) (ts : List OpenTask) (t : OpenTask) (again : SeenObject → OpenTask → Step)
        → Holds T.seen l object ts → IsRunning running t
        → Says T.seen l says.old.items says.new.items s
        (steps.on_turn again l (object_of object ts) t (Some (threw batches.items fields (tree_of value) reset)))) }
{
    if reset {
        drop(value);
        drop(fields);
        drop(object);
        let state = after_reset(says, running, batches)?;
        return Ok(state);
    }
    let state = after_throw(alloc, says, object, running, batches, value, fields)?;
    Ok(state)
}

// It was stopped.
fn after_stop<T: Task + Drop>(
    says: &mut Vec<Said>,
    running: Running,
    batches: Vec<Made>,
) -> Mem<State<T>>
    ensures { IfOk result (λ s. (l : Life) (o : SeenObject) (t : OpenTask) (again : SeenObject → OpenTask → Step)
        → IsRunning running t → Says T.seen l says.old.items says.new.items s (steps.on_turn again l o t (Some (exceeded batches.items)))) }
{
    say_batches(says, batches)?;
    let state = on_exceeded(says, running.purpose)?;
    Ok(state)
}

// A turn of a task has ended so.
fn after_turn<T: Task + Drop>(
    alloc: Global,
    says: &mut Vec<Said>,
    incarnation: u64,
    object: Object<T>,
    running: Running,
    outcome: Outcome<T>,
) -> Mem<Went<T>>
    ensures { IfOk result (λ w. (l : Life) (ts : List OpenTask) (t : OpenTask) (again : SeenObject → OpenTask → Step)
        → l.incarnation ≡ incarnation → Holds T.seen l object ts → Runs T.seen l outcome running t
        → Goes T.seen l says.old.items says.new.items w again (steps.on_turn again l (object_of object ts) t (steps.latest_turn l t))) }
{
    match outcome {
        Outcome::Paused {
            task,
            batches,
            ask,
            fields,
        } => {
            let went = after_pause(
                alloc,
                says,
                incarnation,
                object,
                running,
                task,
                batches,
                ask,
                fields,
            )?;
            Ok(went)
        }
        Outcome::Done {
            batches,
            value,
            fields,
        } => {
            let state = after_done(alloc, says, object, running, batches, value, fields)?;
            Ok(Went::Rests(state))
        }
        Outcome::Threw {
            batches,
            value,
            fields,
            reset,
        } => {
            let state = throws(alloc, says, object, running, batches, value, fields, reset)?;
            Ok(Went::Rests(state))
        }
        Outcome::Exceeded { batches } => {
            drop(object);
            let state = after_stop(says, running, batches)?;
            Ok(Went::Rests(state))
        }
    }
}

// No fields.
fn no_fields(alloc: Global) -> Mem<Fields>
    ensures { IfOk result (λ fields. fields ≡ []) }
{
    match Value::fields(Vec::new(alloc)) {
        Ok(Value::Rec(fields)) => Ok(fields),
        _ => Err(NoMemory),
    }
}

// The fields that are kept, if any are.
pub(crate) fn fields_in(alloc: Global, kept: &Option<Fields>) -> Mem<Fields>
    ensures { IfOk result (λ fields. fields ≡ fields_of kept.now) }
{
    match kept {
        Some(fields) => fields.copy(),
        None => no_fields(alloc),
    }
}

// The task goes on with an answer, on the fields and at the clock of its object.
pub(crate) fn go_on<T: Task + Drop>(
    alloc: Global,
    checked: &Checked,
    object: &Object<T>,
    task: T,
    answer: Answer,
) -> Mem<Outcome<T>>
    requires { HasClass (script_in checked.now) (T.seen task).class }
    ensures { IfOk result (λ o. (class incarnation : ℕ) (ts : List OpenTask) (t : OpenTask) (running : SeenRunning)
        → IsPaused (life_in (script_in checked.now) class incarnation) (T.seen task) running t
        → Runs T.seen (life_in (script_in checked.now) class incarnation) o running (steps.resumed (object_of object.now ts) t answer)) }
{
    let fields = fields_in(alloc, &object.fields)?;
    let now = object.clock.get();
    let outcome = task.resume(alloc, checked, answer, fields, now)?;
    Ok(outcome)
}

/// The turns of a task, until it waits or has ended, where fewer than so many of its calls are refused.
pub(crate) fn runs<T: Task + Drop>(
    alloc: Global,
    checked: &Checked,
    says: &mut Vec<Said>,
    class: u32,
    incarnation: u64,
    left: u32,
    object: Object<T>,
    running: Running,
    outcome: Outcome<T>,
) -> Mem<State<T>>
    requires class { HasClass (script_in checked.now) class }
    requires runs { (ts : List OpenTask) × (t : OpenTask) × Holds T.seen (life_in (script_in checked.now) class incarnation) object ts
        × Runs T.seen (life_in (script_in checked.now) class incarnation) outcome running t }
    ensures { IfOk result (λ s. (ts : List OpenTask) (t : OpenTask)
        → Holds T.seen (life_in (script_in checked.now) class incarnation) object ts
        → Runs T.seen (life_in (script_in checked.now) class incarnation) outcome running t
        → Says T.seen (life_in (script_in checked.now) class incarnation) says.old.items says.new.items s
        (steps.runs left (life_in (script_in checked.now) class incarnation) (object_of object ts) t)) }
{
    if left == 0 {
        drop(outcome);
        return Ok(State::Idle { object });
    }
    match after_turn(alloc, says, incarnation, object, running, outcome)? {
        Went::Rests(state) => Ok(state),
        Went::Refused {
            object,
            running,
            task,
            value,
        } => {
            let outcome = go_on(alloc, checked, &object, task, Answer::Thrown(value))?;
            let state = runs(
                alloc,
                checked,
                says,
                class,
                incarnation,
                left - 1,
                object,
                running,
                outcome,
            )?;
            Ok(state)
        }
    }
}
