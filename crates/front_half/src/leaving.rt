//! The calls that an object leaves without an answer, and what each waits for.
ghost use Rattle.std.specs.Prelude.{◌≡◌, ◌==◌, ◌||◌, ◌++◌, ◌∷◌, [], ℕ, List, if◌then◌else◌, map, Some, None, IfOk, OnOk};
ghost use Rattle.std.specs.BTreeSet.{contains};
ghost use Rattle.std.specs.List.{flat_map, list_any};
ghost use Rattle.std.specs.Option.{option_or};
ghost use Rattle.std.specs.Ordering.{nat_cmp};
ghost use Rattle.timeline.specs.Left as definitions;
ghost use Rattle.timeline.specs.Left.{is_answer_to, left_event};
ghost use Rattle.timeline.specs.Object.{Life, OpenTask};
ghost use Rattle.timeline.specs.Replies.{same_caller, unanswered};
ghost use Rattle.timeline.specs.declared.caller.Caller.{Caller as SeenCaller};
ghost use Rattle.front_turns.specs.Held.{Holds, object_of, waits_of};
ghost use Rattle.front_half.specs.ByCallers.{kept_for};
ghost use Rattle.front_half.specs.Leaving.{first_wait, held_wait, wait_by, wait_in, with_wait};

use crate::by_caller::ByCaller;
use crate::unanswered::find_unanswered;
use do_value::{Mem, NoMemory, Text};
use front_turns::{Awaited, Held, Object, Purpose, Task};
use std::alloc::Global;
use std::collections::BTreeSet;
use timeline::{Caller, Entry, Event, Waits};

// One number more.
#[tactic(auto, using(crate::proofs::Serving::one_number_more))]
fn note_number(answers: &mut BTreeSet<u64>, number: u64) -> Mem<()>
    ensures { OnOk result ((other : ℕ) → contains nat_cmp answers.new other ≡ (contains nat_cmp answers.old other || number == other)) }
{
    match answers.insert(number) {
        Ok(_) => Ok(()),
        Err(_) => Err(NoMemory),
    }
}

// The number of a deferred answer to this incarnation is noted.
fn note_deferred(answers: &mut BTreeSet<u64>, incarnation: u64, event: &Event) -> Mem<()>
    ensures { OnOk result ((number : ℕ) → contains nat_cmp answers.new number
        ≡ (contains nat_cmp answers.old number || is_answer_to incarnation number event.now)) }
{
    match event {
        Event::Answer {
            incarnation: of,
            number,
            ..
        } => {
            if *of == incarnation {
                note_number(answers, *number)
            } else {
                Ok(())
            }
        }
        _ => Ok(()),
    }
}

// The numbers whose answers to this incarnation are deferred.
fn find_deferred(alloc: Global, incarnation: u64, deferred: &[Event]) -> Mem<BTreeSet<u64>>
    ensures { IfOk result (λ answers. (number : ℕ) → contains nat_cmp answers number ≡ list_any (is_answer_to incarnation number) deferred.now) }
{
    let mut answers = BTreeSet::new(alloc);
    for event in deferred {
        note_deferred(&mut answers, incarnation, event)?;
    }
    Ok(answers)
}

// A text of its own. Those of an object's name are within the limits of texts.
fn copy_text(alloc: Global, text: &str) -> Mem<Text>
    ensures { IfOk result (λ copy. copy ≡ text.now) }
{
    match Text::new(alloc, text) {
        Ok(text) => Ok(text),
        Err(_) => Err(NoMemory),
    }
}

// What a task waits for under its number.
fn build_waits(alloc: Global, incarnation: u64, number: u64, awaited: &Awaited) -> Mem<Waits>
    ensures { IfOk result (λ waits. waits ≡ waits_of incarnation number awaited.now) }
{
    match awaited {
        Awaited::Call(to) => {
            let class = copy_text(alloc, to.class())?;
            let name = copy_text(alloc, to.name())?;
            Ok(Waits::Call { class, name })
        }
        Awaited::Fetch => Ok(Waits::Fetch {
            incarnation,
            number,
        }),
    }
}

// The same, where its answer may be deferred.
fn build_wait(
    alloc: Global,
    answers: &BTreeSet<u64>,
    incarnation: u64,
    number: u64,
    awaited: &Awaited,
) -> Mem<Waits>
    ensures { IfOk result (λ waits. waits ≡ held_wait answers.now incarnation number awaited.now) }
{
    if answers.contains(&number) {
        return Ok(Waits::Block);
    }
    build_waits(alloc, incarnation, number, awaited)
}

// The same again.
fn copy_waits(waits: &Waits) -> Mem<Waits>
    ensures { IfOk result (λ copy. copy ≡ waits.now) }
{
    match waits {
        Waits::Fetch {
            incarnation,
            number,
        } => Ok(Waits::Fetch {
            incarnation: *incarnation,
            number: *number,
        }),
        Waits::Call { class, name } => Ok(Waits::Call {
            class: class.copy()?,
            name: name.copy()?,
        }),
        Waits::Block => Ok(Waits::Block),
    }
}

// What a task waits for is noted for its caller, where no earlier task serves the same.
#[tactic(auto, using(crate::proofs::Serving::serves_again, crate::proofs::Serving::serves_first))]
fn note_first(
    alloc: Global,
    served: &mut ByCaller<Waits>,
    answers: &BTreeSet<u64>,
    incarnation: u64,
    number: u64,
    awaited: &Awaited,
    to: Caller,
) -> Mem<()>
    ensures { OnOk result ((from : SeenCaller) → kept_for from served.new
        ≡ option_or (kept_for from served.old) (if same_caller from to then Some (held_wait answers.now incarnation number awaited.now) else None)) }
{
    if served.get(to).is_some() {
        return Ok(());
    }
    let waits = build_wait(alloc, answers, incarnation, number, awaited)?;
    served.put(to, waits)?;
    Ok(())
}

// The same for any task.
#[tactic(auto, using(crate::proofs::Serving::or_nothing))]
fn note_served<T: Task + Drop>(
    alloc: Global,
    served: &mut ByCaller<Waits>,
    answers: &BTreeSet<u64>,
    incarnation: u64,
    number: u64,
    held: &Held<T>,
) -> Mem<()>
    ensures { OnOk result ((from : SeenCaller) → kept_for from served.new
        ≡ option_or (kept_for from served.old) (wait_in answers.now incarnation from (number, held.now))) }
{
    match held.running.purpose {
        Purpose::Starts => Ok(()),
        Purpose::Handles(_) => Ok(()),
        Purpose::Serves(to) => {
            note_first(
                alloc,
                served,
                answers,
                incarnation,
                number,
                &held.awaited,
                to,
            )?;
            Ok(())
        }
    }
}

// What the callers wait for whom the open tasks serve.
#[tactic(auto, using(crate::proofs::Serving::serves_next))]
fn find_served<T: Task + Drop>(
    alloc: Global,
    answers: &BTreeSet<u64>,
    incarnation: u64,
    object: &Object<T>,
) -> Mem<ByCaller<Waits>>
    ensures { IfOk result (λ served. (from : SeenCaller) → kept_for from served ≡ first_wait answers.now incarnation object.now.tasks.entries from) }
{
    let mut served = ByCaller::new(alloc);
    for (number, held) in object.tasks.iter() {
        note_served(alloc, &mut served, answers, incarnation, *number, held)?;
    }
    Ok(served)
}

// The same, with the answers that are deferred.
fn find_waits<T: Task + Drop>(
    alloc: Global,
    incarnation: u64,
    object: &Object<T>,
    deferred: &[Event],
) -> Mem<ByCaller<Waits>>
    ensures { IfOk result (λ served. (l : Life) (ts : List OpenTask) → l.incarnation ≡ incarnation → Holds T.seen l object.now ts
        → (from : SeenCaller) → definitions.left_call l (object_of object.now ts) deferred.now from ≡ with_wait served from ∷ []) }
{
    let answers = find_deferred(alloc, incarnation, deferred)?;
    let served = find_served(alloc, &answers, incarnation, object)?;
    Ok(served)
}

// What the caller waits for.
fn find_wait(served: &ByCaller<Waits>, from: Caller) -> Mem<Waits>
    ensures { IfOk result (λ waits. waits ≡ wait_by served.now from) }
{
    match served.get(from) {
        None => Ok(Waits::Block),
        Some(waits) => copy_waits(waits),
    }
}

// These callers, each with what it waits for.
fn leave_calls(
    alloc: Global,
    served: &ByCaller<Waits>,
    callers: &[Caller],
) -> Mem<Vec<(Caller, Waits)>>
    ensures { IfOk result (λ left. left.items ≡ map (with_wait served.now) callers.now) }
{
    let mut left = Vec::new(alloc);
    for caller in callers {
        let waits = find_wait(served, *caller)?;
        if left.push((*caller, waits)).is_err() {
            return Err(NoMemory);
        }
    }
    Ok(left)
}

// A deferred call waits for the end of a block.
fn leave_event(left: &mut Vec<(Caller, Waits)>, event: &Event) -> Mem<()>
    ensures { OnOk result (left.new.items ≡ left.old.items ++ left_event event.now) }
{
    match event {
        Event::Call { from, .. } => {
            if left.push((*from, Waits::Block)).is_err() {
                return Err(NoMemory);
            }
            Ok(())
        }
        _ => Ok(()),
    }
}

// All deferred calls.
fn leave_deferred(left: &mut Vec<(Caller, Waits)>, deferred: &[Event]) -> Mem<()>
    ensures { OnOk result (left.new.items ≡ left.old.items ++ flat_map left_event deferred.now) }
{
    for event in deferred {
        leave_event(left, event)?;
    }
    Ok(())
}

// The callers of these events whom no entry answers, each with what it waits for.
fn leave_delivered<T: Task + Drop>(
    alloc: Global,
    incarnation: u64,
    object: &Object<T>,
    delivered: &[(u64, Event)],
    sent: &[Entry],
    deferred: &[Event],
) -> Mem<Vec<(Caller, Waits)>>
    ensures { IfOk result (λ left. (l : Life) (ts : List OpenTask) → l.incarnation ≡ incarnation → Holds T.seen l object.now ts
        → left.items ≡ flat_map (definitions.left_call l (object_of object.now ts) deferred.now)
        (unanswered (map (λ event. event.1) delivered.now) (map (λ entry. entry.body) sent.now))) }
{
    let callers = find_unanswered(alloc, delivered, sent)?;
    let served = find_waits(alloc, incarnation, object, deferred)?;
    let left = leave_calls(alloc, &served, callers.as_slice())?;
    Ok(left)
}

/// The callers whom an incarnation hasn't answered, each with what it waits for: those whose calls were delivered to it, by its
/// stretch of the log, and then those whose calls are deferred. It costs a time of n log n in these and in the open tasks.
pub(crate) fn find_left<T: Task + Drop>(
    alloc: Global,
    incarnation: u64,
    object: &Object<T>,
    delivered: &[(u64, Event)],
    sent: &[Entry],
    deferred: &[Event],
) -> Mem<Vec<(Caller, Waits)>>
    ensures { IfOk result (λ left. (l : Life) (ts : List OpenTask) → l.incarnation ≡ incarnation → Holds T.seen l object.now ts
        → left.items ≡ definitions.left l (object_of object.now ts) (map (λ event. event.1) delivered.now) (map (λ entry. entry.body) sent.now) deferred.now) }
{
    let mut left = leave_delivered(alloc, incarnation, object, delivered, sent, deferred)?;
    leave_deferred(&mut left, deferred)?;
    Ok(left)
}
