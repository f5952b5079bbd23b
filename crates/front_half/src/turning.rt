//! One turn of the front half of an object.
ghost use Rattle.std.specs.Prelude.{◌≡◌, true, false, Ok, OnErr, OnOk, [], ◌∷◌, ◌++◌};
ghost use Rattle.lane.specs.Lanes.{StartsWith};
ghost use Rattle.do_tree.specs.Checked.{tree_of as script_in};
ghost use Rattle.front_half.specs.Moving.{Moves, Stops};
ghost use Rattle.front_half.specs.Sending.{AreSentToo};
ghost use Rattle.front_half.specs.Standing as standing;
ghost use Rattle.front_half.specs.Standing.{Stood, IsHalf};
ghost use Rattle.front_half.specs.Taking as taking;
ghost use Rattle.front_half.specs.Taking.{Led, on_event};
ghost use Rattle.front_half.specs.Turning as turning;
ghost use Rattle.front_half.specs.Turning.{is_held, CanTurn, IsStill, IsQuiet, IsEntered, Turns, Halts};
ghost use Rattle.timeline.specs.declared.event.Event.{Event as SeenEvent};
ghost use Rattle.front_half.specs.declared.turning.Turned.TheVariants.{Ran, Idle};

use crate::half::{Half, Mode};
use do_tree::Checked;
use do_value::{Mem, NoMemory};
use front_turns::{State, Task};
use lane::{Inlet, Outlet};
use std::alloc::Global;
use timeline::{Entry, Event, Notice};

/// What a turn of a front did.
#[derive(Clone, Copy, Drop)]
pub enum Turned {
    /// It took a notice or an event.
    Ran,
    /// There was nothing that it may take.
    Idle,
}

// Whether a task waits for the storage, or the incarnation has ended.
fn is_busy<T>(state: &State<T>) -> bool
    ensures { result ≡ turning.is_busy state.now }
{
    match state {
        State::Idle { .. } => false,
        State::Waiting { .. } => true,
        State::Ended { .. } => true,
    }
}

impl<T: Task + Drop> Half<T> {
    /// Takes one notice; else the first deferred event that may be delivered; else one event of the inbox, and delivers, defers or
    /// drops it. What the tasks then say is sent on the line. After `NoMemory` the front is stopped: each further turn answers
    /// `NoMemory` and does nothing.
    pub fn turn<I: Inlet<Event>, N: Inlet<Notice>, O: Outlet<Entry>>(
        &mut self,
        alloc: Global,
        checked: &Checked,
        inbox: &mut I,
        notices: &mut N,
        line: &mut O,
    ) -> Mem<Turned>
        requires { CanTurn T.seen (script_in checked.now) self.old }
        ensures stopped { standing.is_stopped self.old ≡ true → OnOk result ⊥
            × IsStill self.old self.new (I.got inbox.old, N.got notices.old, O.sent line.old) (I.got inbox.new, N.got notices.new, O.sent line.new) }
        ensures stuck { standing.is_stopped self.old ≡ false → self.old.stuck ≡ true → result ≡ Ok Idle }
        ensures still { result ≡ Ok Idle
            → IsStill self.old self.new (I.got inbox.old, N.got notices.old, O.sent line.old) (I.got inbox.new, N.got notices.new, O.sent line.new) }
        ensures idle { result ≡ Ok Idle → (st : Stood) → IsHalf T.seen (script_in checked.now) self.old st → st.stuck ≡ false
            → StartsWith (N.got notices.old) (N.told notices.old) × IsQuiet st (I.got inbox.old) (I.told inbox.old) }
        ensures ran { result ≡ Ok Ran → (st : Stood) → IsHalf T.seen (script_in checked.now) self.old st
            → Turns T.seen (script_in checked.now) self.old self.new st
            (I.got inbox.old) (I.got inbox.new) (N.got notices.old) (N.got notices.new) (N.told notices.old) }
        ensures lost { OnErr result ((st : Stood) → IsHalf T.seen (script_in checked.now) self.old st
            → Halts (script_in checked.now) self.old self.new st
            (I.got inbox.old) (I.got inbox.new) (N.got notices.old) (N.got notices.new) (N.told notices.old)) }
        ensures too { AreSentToo (O.sent line.old) (O.sent line.new) self.old.log.sent.items self.new.log.sent.items }
        ensures inbox { (I.inlet inbox.new ≡ I.inlet inbox.old) × (I.told inbox.new ≡ I.told inbox.old) }
        ensures notices { (N.inlet notices.new ≡ N.inlet notices.old) × (N.told notices.new ≡ N.told notices.old) }
        ensures line { (O.outlet line.new ≡ O.outlet line.old) × (O.left line.new ≡ O.left line.old) }
    {
        if self.is_stopped() {
            return Err(NoMemory);
        }
        if self.stuck {
            return Ok(Turned::Idle);
        }
        match notices.take() {
            Some(notice) => match self.take_notice(alloc, checked, notice, line) {
                Ok(()) => Ok(Turned::Ran),
                Err(_) => Err(NoMemory),
            },
            None => match self.turn_on_event(alloc, checked, inbox, line) {
                Ok(turned) => Ok(turned),
                Err(_) => Err(NoMemory),
            },
        }
    }

    fn is_stopped(&self) -> bool
        ensures { result ≡ standing.is_stopped self.now }
    {
        matches!(self.mode, Mode::Stopped)
    }

    // Whether an answer of the back is waited for, or memory was wanting.
    pub(crate) fn waits(&self) -> bool
        ensures { result ≡ is_held self.now.mode }
    {
        match &self.mode {
            Mode::Serves(state) => is_busy(state),
            Mode::Down(call) => call.is_some(),
            Mode::Stopped => true,
        }
    }

    // No notice has come.
    fn turn_on_event<I: Inlet<Event>, O: Outlet<Entry>>(
        &mut self,
        alloc: Global,
        checked: &Checked,
        inbox: &mut I,
        line: &mut O,
    ) -> Mem<Turned>
        requires { (st : Stood) × IsHalf T.seen (script_in checked.now) self.old st }
        ensures still { result ≡ Ok Idle → (self.new ≡ self.old) × (I.got inbox.new ≡ I.got inbox.old) × (O.sent line.new ≡ O.sent line.old) }
        ensures idle { result ≡ Ok Idle → (st : Stood) → IsHalf T.seen (script_in checked.now) self.old st
            → IsQuiet st (I.got inbox.old) (I.told inbox.old) }
        ensures ran { result ≡ Ok Ran → (st : Stood) → IsHalf T.seen (script_in checked.now) self.old st
            → (led : Led) × IsEntered (script_in checked.now) st (I.got inbox.old) (I.got inbox.new) led
            × Moves T.seen (script_in checked.now) self.old self.new led st }
        ensures lost { OnErr result ((st : Stood) → IsHalf T.seen (script_in checked.now) self.old st
            → (led : Led) × IsEntered (script_in checked.now) st (I.got inbox.old) (I.got inbox.new) led
            × Stops (script_in checked.now) self.old self.new led st) }
        ensures too { AreSentToo (O.sent line.old) (O.sent line.new) self.old.log.sent.items self.new.log.sent.items }
        ensures inbox { (I.inlet inbox.new ≡ I.inlet inbox.old) × (I.told inbox.new ≡ I.told inbox.old) }
        ensures line { (O.outlet line.new ≡ O.outlet line.old) × (O.left line.new ≡ O.left line.old) }
    {
        if self.waits() {
            return Ok(Turned::Idle);
        }
        match self.take_deferred() {
            Some(event) => match self.take_event(alloc, checked, event, line) {
                Ok(()) => Ok(Turned::Ran),
                Err(_) => Err(NoMemory),
            },
            None => match self.turn_on_inbox(alloc, checked, inbox, line) {
                Ok(turned) => Ok(turned),
                Err(_) => Err(NoMemory),
            },
        }
    }

    // No deferred event may enter.
    fn turn_on_inbox<I: Inlet<Event>, O: Outlet<Entry>>(
        &mut self,
        alloc: Global,
        checked: &Checked,
        inbox: &mut I,
        line: &mut O,
    ) -> Mem<Turned>
        requires { (st : Stood) × IsHalf T.seen (script_in checked.now) self.old st × (taking.waits st.front.mode ≡ false) }
        ensures still { result ≡ Ok Idle → (self.new ≡ self.old) × (I.got inbox.new ≡ I.got inbox.old) × (O.sent line.new ≡ O.sent line.old) }
        ensures idle { result ≡ Ok Idle → StartsWith (I.got inbox.old) (I.told inbox.old) }
        ensures ran { result ≡ Ok Ran → (event : SeenEvent) × (I.got inbox.new ≡ I.got inbox.old ++ event ∷ [])
            × ((st : Stood) → IsHalf T.seen (script_in checked.now) self.old st → taking.waits st.front.mode ≡ false
            → Moves T.seen (script_in checked.now) self.old self.new (on_event (script_in checked.now) st event) st) }
        ensures lost { OnErr result ((event : SeenEvent) × (I.got inbox.new ≡ I.got inbox.old ++ event ∷ [])
            × ((st : Stood) → IsHalf T.seen (script_in checked.now) self.old st → taking.waits st.front.mode ≡ false
            → Stops (script_in checked.now) self.old self.new (on_event (script_in checked.now) st event) st)) }
        ensures too { AreSentToo (O.sent line.old) (O.sent line.new) self.old.log.sent.items self.new.log.sent.items }
        ensures inbox { (I.inlet inbox.new ≡ I.inlet inbox.old) × (I.told inbox.new ≡ I.told inbox.old) }
        ensures line { (O.outlet line.new ≡ O.outlet line.old) × (O.left line.new ≡ O.left line.old) }
    {
        match inbox.take() {
            None => Ok(Turned::Idle),
            Some(event) => match self.take_event(alloc, checked, event, line) {
                Ok(()) => Ok(Turned::Ran),
                Err(_) => Err(NoMemory),
            },
        }
    }
}
