//! What becomes of an event that is taken, by what the front holds.
ghost use Rattle.std.specs.Prelude.{◌≡◌, ◌==◌, ◌&&◌, ◌||◌, not, nat_lt, ℕ, List, Some, None, option_copied, slice_get, codes};
ghost use Rattle.do_tree.specs.Checked.{methods_of, tree_of as script_in};
ghost use Rattle.do_tree.specs.Lookup as lookup;
ghost use Rattle.do_tree.specs.Seen.{method_of};
ghost use Rattle.timeline.specs.Eligible as gate;
ghost use Rattle.timeline.specs.Intake.{Mode as SeenMode, serves};
ghost use Rattle.timeline.specs.Object as seen;
ghost use Rattle.timeline.specs.Object.{Life, OpenTask, idle, task_under};
ghost use Rattle.timeline.specs.Steps as steps;
ghost use Rattle.front_turns.specs.Held.{Holds, IsState, object_of};
ghost use Rattle.front_half.specs.Kinds as kinds;
ghost use Rattle.front_half.specs.Standing.{Stood, IsHalf, IsMode};
ghost use Rattle.front_half.specs.Taking as taking;

use crate::half::{Half, Mode};
use do_tree::{Checked, Method, MethodKind, Script};
use front_turns::{Object, State, Task};
use storage_map::MOST_TIME;
use timeline::Event;

/// What becomes of an event that is taken.
#[derive(Clone, Copy, Drop)]
pub enum Doing {
    /// It is delivered.
    Delivers,
    /// It is a call that asks for a mounting.
    Wants,
    /// It waits behind those that are deferred.
    Defers,
    /// It is dropped.
    Drops,
    /// It leaves the front stuck.
    Sticks,
}

// The moment of an event.
fn moment_of(event: &Event) -> i64
    ensures { result ≡ steps.moment_of event.now }
{
    match event {
        Event::Bind(_) => 0,
        Event::Call { at, .. } => *at,
        Event::Answer { at, .. } => *at,
        Event::Tick { at } => *at,
        Event::Evict { at } => *at,
    }
}

// Whether the moment of an event is from 0 to the greatest one.
#[tactic(auto, using(crate::proofs::Fitted::early_moment, crate::proofs::Fitted::late_moment, crate::proofs::Fitted::in_time))]
fn is_timely(event: &Event) -> bool
    ensures { result ≡ gate.is_moment (steps.moment_of event.now) }
{
    let at = moment_of(event);
    if at < 0 {
        return false;
    }
    if at > MOST_TIME {
        return false;
    }
    true
}

fn is_bind(event: &Event) -> bool
    ensures { result ≡ kinds.is_bind event.now }
{
    match event {
        Event::Bind(_) => true,
        _ => false,
    }
}

fn is_call(event: &Event) -> bool
    ensures { result ≡ kinds.is_call event.now }
{
    match event {
        Event::Call { .. } => true,
        _ => false,
    }
}

// The incarnation and the number that an answer names.
fn named_by(event: &Event) -> Option<(u64, u64)>
    ensures { result ≡ kinds.named_by event.now }
{
    match event {
        Event::Answer {
            incarnation,
            number,
            ..
        } => Some((*incarnation, *number)),
        _ => None,
    }
}

fn is_constructor(kind: MethodKind) -> bool
    ensures { result ≡ lookup.is_constructor kind }
{
    match kind {
        MethodKind::Constructor => true,
        MethodKind::Sync | MethodKind::Async => false,
    }
}

// Whether it is the handler of alarms.
fn is_alarm(method: &Method) -> bool
    ensures { result ≡ lookup.is_named (codes "alarm") (method_of method.now) }
{
    !is_constructor(method.kind) && method.name.text.as_str() == "alarm"
}

// The constructor and the handler of alarms are no methods to callers.
fn is_for_callers(method: &Method) -> bool
    ensures { result ≡ gate.is_for_callers (Some (method_of method.now)) }
{
    !is_constructor(method.kind) && !is_alarm(method)
}

// The methods of a class, none where there is no such class.
fn methods(script: &Script, class: u32) -> &[Method]
    ensures { result.now ≡ methods_of (slice_get script.now.classes.items class) }
{
    match script.classes.get(class as usize) {
        Some(class) => class.methods.as_slice(),
        None => &[],
    }
}

// The method of this number, if there is one.
fn method_at(methods: &[Method], number: u32) -> Option<&Method>
    ensures { option_copied result ≡ slice_get methods.now number }
{
    methods.get(number as usize)
}

// Whether callers may call the method of this number.
fn is_callable(checked: &Checked, class: u32, number: u32) -> bool
    ensures { result ≡ gate.is_for_callers (slice_get (lookup.methods_of (script_in checked.now) class) number) }
{
    match method_at(methods(checked.script(), class), number) {
        Some(method) => is_for_callers(method),
        None => false,
    }
}

// Whether a call is of a method for callers.
fn has_method(checked: &Checked, class: u32, event: &Event) -> bool
    ensures { result ≡ gate.has_method (script_in checked.now) class event.now }
{
    match event {
        Event::Call { method, .. } => is_callable(checked, class, *method),
        _ => true,
    }
}

// Whether an object of this class can take the event.
fn fits_class(checked: &Checked, class: u32, event: &Event) -> bool
    ensures { result ≡ gate.is_fit (script_in checked.now) (Some class) event.now }
{
    if is_bind(event) {
        return false;
    }
    if is_timely(event) {
        return has_method(checked, class, event);
    }
    false
}

// Whether a slot without an object can: the event is the `Bind` of a class that there is.
fn names_class(checked: &Checked, event: &Event) -> bool
    ensures { result ≡ gate.is_fit (script_in checked.now) None event.now }
{
    match event {
        Event::Bind(identity) => checked.class(identity.class()).is_some(),
        _ => false,
    }
}

// Whether the front of this class, or of none yet, can take the event.
fn is_fit(checked: &Checked, class: Option<u32>, event: &Event) -> bool
    ensures { result ≡ gate.is_fit (script_in checked.now) class event.now }
{
    match class {
        Some(class) => fits_class(checked, class, event),
        None => names_class(checked, event),
    }
}

// Whether a task of this incarnation waits for the answer.
fn is_waited_for<T: Task + Drop>(
    now: u64,
    object: &Object<T>,
    incarnation: u64,
    number: u64,
) -> bool
    ensures { (l : Life) (ts : List OpenTask) → Holds T.seen l object.now ts
        → result ≡ (incarnation == now && seen.is_open (task_under number ts)) }
{
    if incarnation != now {
        return false;
    }
    object.tasks.contains_key(&number)
}

// Whether it is an answer for which no task waits.
fn is_stale<T: Task + Drop>(now: u64, object: &Object<T>, event: &Event) -> bool
    ensures { (l : Life) (ts : List OpenTask) → Holds T.seen l object.now ts
        → result ≡ gate.is_stale now (object_of object.now ts) event.now }
{
    match named_by(event) {
        Some(named) => !is_waited_for(now, object, named.0, named.1),
        None => false,
    }
}

// Whether this number of this incarnation wasn't given out yet.
fn is_to_come(now: u64, made: u64, incarnation: u64, number: u64) -> bool
    ensures { result ≡ (nat_lt now incarnation || (incarnation == now && (number == 0 || nat_lt made number))) }
{
    now < incarnation || (incarnation == now && (number == 0 || made < number))
}

// Whether it is an answer that comes too early.
fn is_early(now: u64, made: u64, event: &Event) -> bool
    ensures { result ≡ gate.is_early now made event.now }
{
    match named_by(event) {
        Some(named) => is_to_come(now, made, named.0, named.1),
        None => false,
    }
}

// Whether the task under the number has its block open.
fn has_block<T: Task + Drop>(object: &Object<T>, number: u64) -> bool
    ensures { (l : Life) (ts : List OpenTask) → Holds T.seen l object.now ts → result ≡ gate.has_block (task_under number ts) }
{
    match object.tasks.get(&number) {
        Some(held) => held.task.block(),
        None => false,
    }
}

// Whether a block is open.
pub(crate) fn is_blocked<T: Task + Drop>(object: &Object<T>) -> bool
    ensures { (l : Life) (ts : List OpenTask) → Holds T.seen l object.now ts → result ≡ seen.is_blocked (object_of object.now ts) }
{
    object.blocks > 0
}

// Whether no task is open.
pub(crate) fn is_resting<T: Task + Drop>(object: &Object<T>) -> bool
    ensures { (l : Life) (ts : List OpenTask) → Holds T.seen l object.now ts → result ≡ gate.has_no_task ts }
{
    object.tasks.len() == 0
}

// Whether an answer under this number may be delivered.
fn lets_answer<T: Task + Drop>(object: &Object<T>, number: u64) -> bool
    ensures { (l : Life) (ts : List OpenTask) → Holds T.seen l object.now ts
        → result ≡ (not (seen.is_blocked (object_of object.now ts)) || gate.has_block (task_under number ts)) }
{
    if is_blocked(object) {
        return has_block(object, number);
    }
    true
}

// Whether the object may be evicted.
fn lets_evict<T: Task + Drop>(object: &Object<T>) -> bool
    ensures { (l : Life) (ts : List OpenTask) → Holds T.seen l object.now ts
        → result ≡ (not (seen.is_blocked (object_of object.now ts)) && gate.has_no_task ts) }
{
    if is_blocked(object) {
        return false;
    }
    is_resting(object)
}

// Whether an event may be delivered to an idle object.
pub(crate) fn is_eligible<T: Task + Drop>(object: &Object<T>, event: &Event) -> bool
    ensures { (l : Life) (ts : List OpenTask) → Holds T.seen l object.now ts → result ≡ gate.is_eligible (object_of object.now ts) event.now }
{
    match event {
        Event::Bind(_) => true,
        Event::Answer { number, .. } => lets_answer(object, *number),
        Event::Evict { .. } => lets_evict(object),
        Event::Call { .. } => !is_blocked(object),
        Event::Tick { .. } => !is_blocked(object),
    }
}

// What becomes of an answer for which no task waits, where so many calls and fetches were made.
fn stale(now: u64, made: u64, event: &Event) -> Doing
    ensures { result ≡ taking.stale (gate.is_early now made event.now) }
{
    if is_early(now, made, event) {
        return Doing::Sticks;
    }
    Doing::Drops
}

// What becomes of it where the object is idle.
fn at_idle<T: Task + Drop>(now: u64, object: &Object<T>, event: &Event) -> Doing
    ensures { (l : Life) (ts : List OpenTask) → Holds T.seen l object.now ts
        → result ≡ taking.at_mode now (serves (idle (object_of object.now ts))) event.now }
{
    if is_stale(now, object, event) {
        return stale(now, object.made, event);
    }
    if is_eligible(object, event) {
        return Doing::Delivers;
    }
    Doing::Defers
}

// What becomes of it where the object is down.
fn at_down(now: u64, event: &Event) -> Doing
    ensures { result ≡ taking.at_down now event.now }
{
    if is_call(event) {
        return Doing::Wants;
    }
    stale(now, 0, event)
}

// What becomes of it where the object is mounted.
fn at_state<T: Task + Drop>(now: u64, state: &State<T>, event: &Event) -> Doing
    ensures { (l : Life) (s : seen.State) → IsState T.seen l state.now s → result ≡ taking.at_mode now (serves s) event.now }
{
    match state {
        State::Idle { object } => at_idle(now, object, event),
        State::Waiting { .. } => Doing::Defers,
        State::Ended { .. } => Doing::Defers,
    }
}

// What becomes of it, by how the front stands.
fn at_mode<T: Task + Drop>(now: u64, mode: &Mode<T>, event: &Event) -> Doing
    ensures { (l : Life) (m : SeenMode) → IsMode T.seen l mode.now m → result ≡ taking.at_mode now m event.now }
{
    match mode {
        Mode::Serves(state) => at_state(now, state, event),
        Mode::Down(_) => at_down(now, event),
        Mode::Stopped => Doing::Defers,
    }
}

// What becomes of an event that the front takes.
pub(crate) fn decide<T: Task + Drop>(checked: &Checked, half: &Half<T>, event: &Event) -> Doing
    ensures { (st : Stood) → IsHalf T.seen (script_in checked.now) half.now st → result ≡ taking.doing (script_in checked.now) st event.now }
{
    if is_fit(checked, half.class, event) {
        return at_mode(half.incarnation, &half.mode, event);
    }
    Doing::Drops
}

// Whether a deferred event may be taken where the object is mounted.
fn enters_state<T: Task + Drop>(state: &State<T>, event: &Event) -> bool
    ensures { (l : Life) (s : seen.State) → IsState T.seen l state.now s → result ≡ taking.may_enter (serves s) event.now }
{
    match state {
        State::Idle { object } => is_eligible(object, event),
        State::Waiting { .. } => false,
        State::Ended { .. } => false,
    }
}

// Whether a deferred event may be taken now.
pub(crate) fn may_enter<T: Task + Drop>(mode: &Mode<T>, event: &Event) -> bool
    ensures { (l : Life) (m : SeenMode) → IsMode T.seen l mode.now m → result ≡ taking.may_enter m event.now }
{
    match mode {
        Mode::Serves(state) => enters_state(state, event),
        Mode::Down(_) => true,
        Mode::Stopped => false,
    }
}
