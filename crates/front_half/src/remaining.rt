//! What a front has left.
ghost use Rattle.std.specs.Prelude.{◌≡◌, ◌≤◌, ◌++◌, ◌∷◌, [], drop, length, map, false, List, None, IfOk, OnOk, option_to_list};
ghost use Rattle.do_tree.specs.Tree.{Script};
ghost use Rattle.timeline.specs.Left as definitions;
ghost use Rattle.timeline.specs.Intake.{Mode as SeenMode};
ghost use Rattle.timeline.specs.Object.{Life, OpenTask, State as SeenState, begun};
ghost use Rattle.front_turns.specs.Held.{Holds, IsState, object_of};
ghost use Rattle.front_half.specs.Remaining.{left_at, object_at, object_in};
ghost use Rattle.front_half.specs.Standing.{Stood, IsHalf, IsMode};
ghost use Rattle.front_half.specs.Taking as taking;
ghost use Rattle.front_half.specs.Turning.{CanTurn};

use crate::half::{Half, Mode};
use crate::leaving::find_left;
use do_value::{Mem, NoMemory};
use front_turns::{Object, State, Task};
use input_gate::Deferred;
use std::alloc::Global;
use timeline::{Caller, Event, Waits};

// One event more, as a copy.
fn add_copy(events: &mut Vec<Event>, event: &Event) -> Mem<()>
    ensures { OnOk result (events.new.items ≡ events.old.items ++ event.now ∷ []) }
{
    let copy = event.copy()?;
    if events.push(copy).is_err() {
        return Err(NoMemory);
    }
    Ok(())
}

// The copies of these events, behind others.
fn add_copies(events: &mut Vec<Event>, more: &Deferred) -> Mem<()>
    ensures { OnOk result (events.new.items ≡ events.old.items ++ more.now) }
{
    for event in more.iter() {
        add_copy(events, event)?;
    }
    Ok(())
}

// The call that waited for the mounting, and the deferred events, as copies.
fn copy_waiting(alloc: Global, due: &Option<Event>, deferred: &Deferred) -> Mem<Vec<Event>>
    ensures { IfOk result (λ events. events.items ≡ option_to_list due.now ++ deferred.now) }
{
    let mut events = Vec::new(alloc);
    match due {
        Some(event) => {
            add_copy(&mut events, event)?;
            add_copies(&mut events, deferred)?;
            Ok(events)
        }
        None => {
            add_copies(&mut events, deferred)?;
            Ok(events)
        }
    }
}

impl<T: Task + Drop> Half<T> {
    // What its object leaves without an answer.
    fn find_left_of(
        &self,
        alloc: Global,
        object: &Object<T>,
        deferred: &[Event],
    ) -> Mem<Vec<(Caller, Waits)>>
        requires delivered { self.now.first_delivered ≤ length self.now.log.delivered.items }
        requires sent { self.now.first_sent ≤ length self.now.log.sent.items }
        ensures { IfOk result (λ left. (l : Life) (ts : List OpenTask) → l.incarnation ≡ self.now.incarnation → Holds T.seen l object.now ts
            → left.items ≡ definitions.left l (object_of object.now ts)
            (map (λ event. event.1) (drop self.now.first_delivered self.now.log.delivered.items))
            (map (λ entry. entry.body) (drop self.now.first_sent self.now.log.sent.items)) deferred.now) }
    {
        let delivered = self.log.delivered.as_slice();
        let sent = self.log.sent.as_slice();
        find_left(
            alloc,
            self.incarnation,
            object,
            &delivered[self.first_delivered..],
            &sent[self.first_sent..],
            deferred,
        )
    }

    // The same while there is no object: only deferred calls are left.
    fn find_left_of_none(&self, alloc: Global, deferred: &[Event]) -> Mem<Vec<(Caller, Waits)>>
        requires delivered { self.now.first_delivered ≤ length self.now.log.delivered.items }
        requires sent { self.now.first_sent ≤ length self.now.log.sent.items }
        ensures { IfOk result (λ left. (l : Life) → l.incarnation ≡ self.now.incarnation
            → left.items ≡ definitions.left l (begun None)
            (map (λ event. event.1) (drop self.now.first_delivered self.now.log.delivered.items))
            (map (λ entry. entry.body) (drop self.now.first_sent self.now.log.sent.items)) deferred.now) }
    {
        let object = Object::begin(alloc, None);
        let left = self.find_left_of(alloc, &object, deferred);
        drop(object);
        left
    }

    // What an object that stands so leaves without an answer.
    fn remaining_in(
        &self,
        alloc: Global,
        state: &State<T>,
        deferred: &[Event],
    ) -> Mem<Vec<(Caller, Waits)>>
        requires delivered { self.now.first_delivered ≤ length self.now.log.delivered.items }
        requires sent { self.now.first_sent ≤ length self.now.log.sent.items }
        ensures { IfOk result (λ left. (l : Life) (st : SeenState) → l.incarnation ≡ self.now.incarnation → IsState T.seen l state.now st
            → taking.waits_in st ≡ false
            → left.items ≡ definitions.left l (object_in st)
            (map (λ event. event.1) (drop self.now.first_delivered self.now.log.delivered.items))
            (map (λ entry. entry.body) (drop self.now.first_sent self.now.log.sent.items)) deferred.now) }
    {
        match state {
            State::Idle { object } => self.find_left_of(alloc, object, deferred),
            State::Waiting { .. } => Err(NoMemory),
            State::Ended { .. } => Err(NoMemory),
        }
    }

    // What is left, by how the front stands.
    fn remaining_at(&self, alloc: Global, deferred: &[Event]) -> Mem<Vec<(Caller, Waits)>>
        requires delivered { self.now.first_delivered ≤ length self.now.log.delivered.items }
        requires sent { self.now.first_sent ≤ length self.now.log.sent.items }
        ensures { IfOk result (λ left. (l : Life) (m : SeenMode) → l.incarnation ≡ self.now.incarnation → IsMode T.seen l self.now.mode m
            → taking.waits m ≡ false
            → left.items ≡ definitions.left l (object_at m)
            (map (λ event. event.1) (drop self.now.first_delivered self.now.log.delivered.items))
            (map (λ entry. entry.body) (drop self.now.first_sent self.now.log.sent.items)) deferred.now) }
    {
        match &self.mode {
            Mode::Serves(state) => self.remaining_in(alloc, state, deferred),
            Mode::Down(_) => self.find_left_of_none(alloc, deferred),
            Mode::Stopped => Err(NoMemory),
        }
    }

    /// The callers that have no reply, in the order in which they were taken, with what each waits for. A front that waits for an
    /// answer of its back, or is stopped, answers `NoMemory`.
    pub fn remaining(&self, alloc: Global) -> Mem<Vec<(Caller, Waits)>>
        requires { (script : Script) × CanTurn T.seen script self.now }
        ensures { IfOk result (λ left. (script : Script) (st : Stood) → IsHalf T.seen script self.now st → taking.waits st.front.mode ≡ false
            → left.items ≡ left_at script st) }
    {
        if self.waits() {
            return Err(NoMemory);
        }
        let deferred = copy_waiting(alloc, &self.due, &self.deferred)?;
        let left = self.remaining_at(alloc, deferred.as_slice())?;
        Ok(left)
    }
}
