//! The first deferred event that may be taken.
ghost use Rattle.std.specs.Prelude.{◌≡◌, ℕ, List, Option, Some, None, IfSome, IfNone, true, false, option_to_list};
ghost use Rattle.std.specs.List.{list_any};
ghost use Rattle.do_tree.specs.Tree.{Script};
ghost use Rattle.timeline.specs.Eligible.{is_eligible};
ghost use Rattle.timeline.specs.Intake.{Mode as SeenMode, serves};
ghost use Rattle.timeline.specs.Object as seen;
ghost use Rattle.timeline.specs.Object.{Life, OpenTask};
ghost use Rattle.timeline.specs.declared.event.Event.{Event as AnEvent};
ghost use Rattle.front_turns.specs.Held.{Holds, IsState, object_of};
ghost use Rattle.input_gate.specs.Deferring as gate;
ghost use Rattle.input_gate.specs.Deferring.{TakesFirst};
ghost use Rattle.front_half.specs.Gated.{IsGated, IsGatedMode, IsGatedState};
ghost use Rattle.front_half.specs.Standing.{Stood, IsHalf, IsMode};
ghost use Rattle.front_half.specs.Taking as taking;
ghost use Rattle.front_half.specs.Taking.{IsFirst, waits, without};

use crate::half::{Half, Mode};
use crate::testing::{is_blocked, is_resting, may_enter};
use front_turns::{Object, State, Task};
use input_gate::{Deferred, Entering, laws};
use timeline::Event;

// Which events may be delivered to an idle object.
fn entering_object<T: Task + Drop>(object: &Object<T>) -> Entering
    ensures { (l : Life) (ts : List OpenTask) (constructor : Option ℕ) → Holds T.seen l object.now ts → IsGated constructor (object_of object.now ts)
        → (event : AnEvent) → is_eligible (object_of object.now ts) event ≡ gate.may_enter result event }
{
    laws::eligible_events_enter();
    if is_blocked(object) {
        return Entering::AnswerUnder(object.made);
    }
    if is_resting(object) {
        return Entering::Any;
    }
    Entering::NoEviction
}

// Which deferred events may be taken where the object is mounted.
fn entering_state<T: Task + Drop>(state: &State<T>) -> Option<Entering>
    ensures some { IfSome result (λ entering. (l : Life) (s : seen.State) (constructor : Option ℕ) → IsState T.seen l state.now s
        → IsGatedState constructor s → (event : AnEvent) → taking.may_enter (serves s) event ≡ gate.may_enter entering event) }
    ensures none { IfNone result ((l : Life) (s : seen.State) → IsState T.seen l state.now s
        → (event : AnEvent) → taking.may_enter (serves s) event ≡ false) }
{
    match state {
        State::Idle { object } => Some(entering_object(object)),
        State::Waiting { .. } => None,
        State::Ended { .. } => None,
    }
}

// Which deferred events may be taken, by how the front stands.
fn entering_mode<T: Task + Drop>(mode: &Mode<T>) -> Option<Entering>
    ensures some { IfSome result (λ entering. (l : Life) (m : SeenMode) (constructor : Option ℕ) → IsMode T.seen l mode.now m
        → IsGatedMode constructor m → (event : AnEvent) → taking.may_enter m event ≡ gate.may_enter entering event) }
    ensures none { IfNone result ((l : Life) (m : SeenMode) → IsMode T.seen l mode.now m → (event : AnEvent) → taking.may_enter m event ≡ false) }
{
    match mode {
        Mode::Serves(state) => entering_state(state),
        Mode::Down(_) => Some(Entering::Any),
        Mode::Stopped => None,
    }
}

// The first of these events that may be taken, which is deferred no more.
fn take_entering<T: Task + Drop>(mode: &Mode<T>, deferred: &mut Deferred) -> Option<Event>
    ensures some { IfSome result (λ e. (l : Life) (m : SeenMode) (constructor : Option ℕ) → IsMode T.seen l mode.now m
        → IsGatedMode constructor m → TakesFirst (taking.may_enter m) deferred.old deferred.new e) }
    ensures none { IfNone result ((l : Life) (m : SeenMode) (constructor : Option ℕ) → IsMode T.seen l mode.now m
        → IsGatedMode constructor m → list_any (taking.may_enter m) deferred.old ≡ false) }
    ensures same { IfNone result (deferred.new ≡ deferred.old) }
{
    match entering_mode(mode) {
        Some(entering) => deferred.take_first(entering),
        None => None,
    }
}

// Whether the call that waited for the mounting may be taken.
fn is_due<T: Task + Drop>(mode: &Mode<T>, due: &Option<Event>) -> bool
    ensures yes { result ≡ true → (l : Life) (m : SeenMode) → IsMode T.seen l mode.now m
        → (e : AnEvent) × (due.now ≡ Some e) × (taking.may_enter m e ≡ true) }
    ensures no { result ≡ false → (l : Life) (m : SeenMode) → IsMode T.seen l mode.now m
        → list_any (taking.may_enter m) (option_to_list due.now) ≡ false }
{
    match due {
        Some(event) => may_enter(mode, event),
        None => false,
    }
}

impl<T: Task + Drop> Half<T> {
    // Takes the first deferred event that may be taken now, if one may.
    pub(crate) fn take_deferred(&mut self) -> Option<Event>
        requires { (script : Script) × (st : Stood) × IsHalf T.seen script self.old st × (waits st.front.mode ≡ false) }
        ensures some { IfSome result (λ e. (script : Script) (st : Stood) → IsHalf T.seen script self.old st
            → (place : ℕ) × IsFirst st place e × IsHalf T.seen script self.new (without st place)) }
        ensures none { IfNone result ((script : Script) (st : Stood) → IsHalf T.seen script self.old st
            → list_any (taking.may_enter st.front.mode) st.deferred ≡ false) }
        ensures same { IfNone result (self.new ≡ self.old) }
        ensures log { self.new.log ≡ self.old.log }
    {
        if is_due(&self.mode, &self.due) {
            return self.due.take();
        }
        take_entering(&self.mode, &mut self.deferred)
    }
}
