//! An event that was taken is delivered, asks for a mounting, is deferred or dropped, or leaves the front stuck.
ghost use Rattle.std.specs.Prelude.{◌≡◌, ◌++◌, ◌∷◌, [], Some, IfOk, OnErr, OnOk, IsSome, false};
ghost use Rattle.do_tree.specs.Checked.{tree_of as script_in};
ghost use Rattle.do_tree.specs.Tree.{Script};
ghost use Rattle.timeline.specs.Intake.{serves};
ghost use Rattle.timeline.specs.Logs.{fronted};
ghost use Rattle.timeline.specs.Object as seen;
ghost use Rattle.timeline.specs.Object.{Life, idle};
ghost use Rattle.front_turns.specs.Held.{IsState};
ghost use Rattle.front_turns.specs.declared.object.State.TheVariants as states;
ghost use Rattle.front_half.specs.Moving.{IsCut, Moves, Stops};
ghost use Rattle.front_half.specs.Sending.{AreSentToo};
ghost use Rattle.front_half.specs.Standing.{Stood, IsHalf, IsMode};
ghost use Rattle.front_half.specs.Taking as taking;
ghost use Rattle.front_half.specs.Taking.{does, on_event, waits};
ghost use Rattle.front_half.specs.declared.half.Mode.TheVariants as held;
ghost use Rattle.front_half.specs.declared.testing.Doing.TheVariants as act;

use crate::half::{Half, Mode};
use crate::sending::send_all;
use crate::testing::{Doing, decide};
use crate::turns::deliver_turn;
use do_tree::Checked;
use do_value::{Mem, NoMemory};
use front_turns::{Object, State, Task};
use lane::Outlet;
use std::alloc::Global;
use timeline::{Body, Entry, Event};

// The event's copy is logged as delivered to this incarnation.
fn log_delivered(delivered: &mut Vec<(u64, Event)>, incarnation: u64, event: &Event) -> Mem<()>
    ensures logged { OnOk result (delivered.new.items ≡ delivered.old.items ++ (incarnation, event.now) ∷ []) }
    ensures same { OnErr result (delivered.new.items ≡ delivered.old.items) }
{
    let Ok(copy) = event.copy() else {
        return Err(NoMemory);
    };
    if delivered.push((incarnation, copy)).is_err() {
        return Err(NoMemory);
    }
    Ok(())
}

// The event stands behind these.
fn put(events: &mut Vec<Event>, event: Event) -> Mem<()>
    ensures put { OnOk result (events.new.items ≡ events.old.items ++ event ∷ []) }
    ensures same { OnErr result (events.new.items ≡ events.old.items) }
{
    if events.push(event).is_err() {
        return Err(NoMemory);
    }
    Ok(())
}

// One body.
fn one(alloc: Global, body: Body) -> Mem<Vec<Body>>
    ensures { IfOk result (λ bodies. bodies.items ≡ body ∷ []) }
{
    let mut bodies = Vec::new(alloc);
    if bodies.push(body).is_err() {
        return Err(NoMemory);
    }
    Ok(bodies)
}

// The class that the front has once the event is delivered.
fn class_after(checked: &Checked, class: Option<u32>, event: &Event) -> Option<u32>
    ensures { result ≡ taking.class_after (script_in checked.now) class event.now }
{
    match event {
        Event::Bind(identity) => checked.class(identity.class()),
        _ => class,
    }
}

// The class, which is known.
fn known(class: Option<u32>) -> u32
    requires { IsSome class }
    ensures { class ≡ Some result }
{
    match class {
        Some(class) => class,
        None => unreachable!(),
    }
}

// How a mounted object stands.
fn state_in<T: Task + Drop>(mode: Mode<T>) -> State<T>
    requires { (l : Life) × (s : seen.State) × IsMode T.seen l mode (serves s) }
    ensures { mode ≡ held.Serves result }
{
    match mode {
        Mode::Serves(state) => state,
        Mode::Down(_) => unreachable!(),
        Mode::Stopped => unreachable!(),
    }
}

// The object, which is idle.
fn object_in<T: Task + Drop>(state: State<T>) -> Object<T>
    requires { (l : Life) × (o : seen.Object) × IsState T.seen l state (idle o) }
    ensures { state ≡ states.Idle result }
{
    match state {
        State::Idle { object } => object,
        State::Waiting { .. } => unreachable!(),
        State::Ended { .. } => unreachable!(),
    }
}

impl<T: Task + Drop> Half<T> {
    // The event is delivered to the idle object.
    fn delivers<O: Outlet<Entry>>(
        &mut self,
        alloc: Global,
        checked: &Checked,
        event: Event,
        line: &mut O,
    ) -> Mem<()>
        requires { (st : Stood) × IsHalf T.seen (script_in checked.now) self.old st
            × (taking.doing (script_in checked.now) st event ≡ act.Delivers) }
        ensures moves { OnOk result ((st : Stood) → IsHalf T.seen (script_in checked.now) self.old st
            → taking.doing (script_in checked.now) st event ≡ act.Delivers
            → Moves T.seen (script_in checked.now) self.old self.new (does (script_in checked.now) st event act.Delivers) st) }
        ensures cut { OnErr result ((st : Stood) → IsHalf T.seen (script_in checked.now) self.old st
            → taking.doing (script_in checked.now) st event ≡ act.Delivers
            → IsCut (script_in checked.now) self.old.log self.new.log (does (script_in checked.now) st event act.Delivers) st) }
        ensures too { AreSentToo (O.sent line.old) (O.sent line.new) self.old.log.sent.items self.new.log.sent.items }
        ensures lane { O.outlet line.new ≡ O.outlet line.old }
        ensures left { O.left line.new ≡ O.left line.old }
    {
        match log_delivered(&mut self.log.delivered, self.incarnation, &event) {
            Err(fault) => Err(fault),
            Ok(()) => {
                let class = known(class_after(checked, self.class, &event));
                let mode = std::mem::replace(&mut self.mode, Mode::Stopped);
                let object = object_in(state_in(mode));
                match deliver_turn(
                    alloc,
                    checked,
                    class,
                    self.incarnation,
                    self.count,
                    object,
                    event,
                    &mut self.log.sent,
                    line,
                ) {
                    Ok(turn) => {
                        self.class = Some(class);
                        self.count = turn.1;
                        self.mode = Mode::Serves(turn.0);
                        Ok(())
                    }
                    Err(fault) => Err(fault),
                }
            }
        }
    }

    // The call asks for a mounting, and waits for it.
    fn wants<O: Outlet<Entry>>(&mut self, alloc: Global, event: Event, line: &mut O) -> Mem<()>
        ensures moves { OnOk result ((script : Script) (st : Stood) → IsHalf T.seen script self.old st → waits st.front.mode ≡ false
            → taking.doing script st event ≡ act.Wants → Moves T.seen script self.old self.new (does script st event act.Wants) st) }
        ensures cut { OnErr result ((script : Script) (st : Stood) → IsHalf T.seen script self.old st → waits st.front.mode ≡ false
            → taking.doing script st event ≡ act.Wants → IsCut script self.old.log self.new.log (does script st event act.Wants) st) }
        ensures too { AreSentToo (O.sent line.old) (O.sent line.new) self.old.log.sent.items self.new.log.sent.items }
        ensures lane { O.outlet line.new ≡ O.outlet line.old }
        ensures left { O.left line.new ≡ O.left line.old }
    {
        match one(alloc, Body::Mend) {
            Err(fault) => Err(fault),
            Ok(bodies) => {
                match send_all(
                    line,
                    &mut self.log.sent,
                    self.incarnation,
                    self.count,
                    bodies,
                ) {
                    Ok(count) => {
                        self.count = count;
                        self.mode = Mode::Down(Some(event));
                        Ok(())
                    }
                    Err(fault) => Err(fault),
                }
            }
        }
    }

    // The event waits behind those that are deferred.
    fn defers(&mut self, event: Event) -> Mem<()>
        ensures moves { OnOk result ((script : Script) (st : Stood) → IsHalf T.seen script self.old st
            → Moves T.seen script self.old self.new (does script st event act.Defers) st) }
        ensures same { OnErr result (fronted self.new.log ≡ fronted self.old.log) }
        ensures sent { self.new.log.sent.items ≡ self.old.log.sent.items }
    {
        self.deferred.add(event)
    }

    // The event is dropped.
    fn drops(&mut self, event: Event) -> Mem<()>
        ensures moves { OnOk result ((script : Script) (st : Stood) → IsHalf T.seen script self.old st
            → Moves T.seen script self.old self.new (does script st event act.Drops) st) }
        ensures same { OnErr result (fronted self.new.log ≡ fronted self.old.log) }
        ensures sent { self.new.log.sent.items ≡ self.old.log.sent.items }
    {
        put(&mut self.log.dropped, event)
    }

    // The event leaves the front stuck.
    fn sticks(&mut self, event: Event)
        ensures moves { (script : Script) (st : Stood) → IsHalf T.seen script self.old st
            → Moves T.seen script self.old self.new (does script st event act.Sticks) st }
        ensures sent { self.new.log.sent.items ≡ self.old.log.sent.items }
    {
        drop(event);
        self.stuck = true;
    }

    // The same by what becomes of the event.
    fn takes<O: Outlet<Entry>>(
        &mut self,
        alloc: Global,
        checked: &Checked,
        event: Event,
        line: &mut O,
    ) -> Mem<()>
        requires { (st : Stood) × IsHalf T.seen (script_in checked.now) self.old st × (waits st.front.mode ≡ false) }
        ensures moves { OnOk result ((st : Stood) → IsHalf T.seen (script_in checked.now) self.old st → waits st.front.mode ≡ false
            → Moves T.seen (script_in checked.now) self.old self.new (on_event (script_in checked.now) st event) st) }
        ensures cut { OnErr result ((st : Stood) → IsHalf T.seen (script_in checked.now) self.old st → waits st.front.mode ≡ false
            → IsCut (script_in checked.now) self.old.log self.new.log (on_event (script_in checked.now) st event) st) }
        ensures too { AreSentToo (O.sent line.old) (O.sent line.new) self.old.log.sent.items self.new.log.sent.items }
        ensures lane { O.outlet line.new ≡ O.outlet line.old }
        ensures left { O.left line.new ≡ O.left line.old }
    {
        match decide(checked, self, &event) {
            Doing::Delivers => self.delivers(alloc, checked, event, line),
            Doing::Wants => self.wants(alloc, event, line),
            Doing::Defers => self.defers(event),
            Doing::Drops => self.drops(event),
            Doing::Sticks => {
                self.sticks(event);
                Ok(())
            }
        }
    }

    // An event that was taken is delivered, asks for a mounting, is deferred or dropped, or leaves the front stuck.
    pub(crate) fn take_event<O: Outlet<Entry>>(
        &mut self,
        alloc: Global,
        checked: &Checked,
        event: Event,
        line: &mut O,
    ) -> Mem<()>
        requires { (st : Stood) × IsHalf T.seen (script_in checked.now) self.old st × (waits st.front.mode ≡ false) }
        ensures moves { OnOk result ((st : Stood) → IsHalf T.seen (script_in checked.now) self.old st → waits st.front.mode ≡ false
            → Moves T.seen (script_in checked.now) self.old self.new (on_event (script_in checked.now) st event) st) }
        ensures stops { OnErr result ((st : Stood) → IsHalf T.seen (script_in checked.now) self.old st → waits st.front.mode ≡ false
            → Stops (script_in checked.now) self.old self.new (on_event (script_in checked.now) st event) st) }
        ensures too { AreSentToo (O.sent line.old) (O.sent line.new) self.old.log.sent.items self.new.log.sent.items }
        ensures lane { O.outlet line.new ≡ O.outlet line.old }
        ensures left { O.left line.new ≡ O.left line.old }
    {
        match self.takes(alloc, checked, event, line) {
            Ok(()) => Ok(()),
            Err(fault) => {
                self.mode = Mode::Stopped;
                Err(fault)
            }
        }
    }
}
