//! The front half of an object.
ghost use Rattle.std.specs.Prelude.{◌≡◌, true, false, Ok, OnErr, OnOk, IfOk, IfSome, [], ◌∷◌, ◌++◌};
ghost use Rattle.lane.specs.Lanes.{StartsWith};
ghost use Rattle.do_tree.specs.Checked.{tree_of as script_in};
ghost use Rattle.do_tree.specs.Tree.{Script};
ghost use Rattle.front_turns.specs.Paused.{HasClass};
ghost use Rattle.timeline.specs.Logs.{fronted};
ghost use Rattle.object_front.specs.Evaluated.{seen};
ghost use Rattle.front_half.specs.Remaining.{left_at};
ghost use Rattle.front_half.specs.Sending.{AreSentToo};
ghost use Rattle.front_half.specs.Standing as standing;
ghost use Rattle.front_half.specs.Standing.{Stood, IsHalf, fresh, nothing_logged};
ghost use Rattle.front_half.specs.Taking as taking;
ghost use Rattle.front_half.specs.Turning.{CanTurn, IsStill, IsQuiet, Turns, Halts};
ghost use Rattle.front_half.specs.declared.turning.Turned.TheVariants.{Ran, Idle};

use crate::evaluated::Evaluated;
use do_tree::Checked;
use do_value::Mem;
use front_half::{Half, Turned};
use lane::{Inlet, Outlet};
use std::alloc::Global;
use storage_map::Alarm;
use timeline::{Caller, Entry, Event, FrontLog, Notice, Waits};

/// The front half of an object: it is given events and notices, and sends what its script says to them. It is made for one
/// script.
pub struct Front {
    pub(crate) half: Half<Evaluated>,
}

// Written out, so that the crates that hold a front prove nothing of what it holds.
impl Drop for Front {
    fn drop(self) {
        let Front { half } = self;
        drop(half);
    }
}

impl Front {
    /// A front whose slot was just mounted. `class` is the number of the class of the slot's object in the script, where the slot has
    /// an object of one; `alarm` is what was mounted.
    pub fn new(alloc: Global, checked: &Checked, class: Option<u32>, alarm: Option<Alarm>) -> Front
        requires { IfSome class (HasClass (script_in checked.now)) }
        ensures stands { IsHalf seen (script_in checked.now) result.half (fresh class alarm) }
        ensures log { fronted result.half.log ≡ nothing_logged }
    {
        let _ = checked;
        Front {
            half: Half::new(alloc, class, alarm),
        }
    }

    /// Takes one notice; else the first deferred event that may be delivered; else one event of the inbox, and delivers, defers or
    /// drops it. What the script then says is sent on the line. After `NoMemory` the front is stopped: each further turn answers
    /// `NoMemory` and does nothing.
    pub fn turn<I: Inlet<Event>, N: Inlet<Notice>, O: Outlet<Entry>>(
        &mut self,
        alloc: Global,
        checked: &Checked,
        inbox: &mut I,
        notices: &mut N,
        line: &mut O,
    ) -> Mem<Turned>
        requires { CanTurn seen (script_in checked.now) self.old.half }
        ensures stopped { standing.is_stopped self.old.half ≡ true → OnOk result ⊥
            × IsStill self.old.half self.new.half (I.got inbox.old, N.got notices.old, O.sent line.old) (I.got inbox.new, N.got notices.new, O.sent line.new) }
        ensures stuck { standing.is_stopped self.old.half ≡ false → self.old.half.stuck ≡ true → result ≡ Ok Idle }
        ensures still { result ≡ Ok Idle
            → IsStill self.old.half self.new.half (I.got inbox.old, N.got notices.old, O.sent line.old) (I.got inbox.new, N.got notices.new, O.sent line.new) }
        ensures idle { result ≡ Ok Idle → (st : Stood) → IsHalf seen (script_in checked.now) self.old.half st → st.stuck ≡ false
            → StartsWith (N.got notices.old) (N.told notices.old) × IsQuiet st (I.got inbox.old) (I.told inbox.old) }
        ensures ran { result ≡ Ok Ran → (st : Stood) → IsHalf seen (script_in checked.now) self.old.half st
            → Turns seen (script_in checked.now) self.old.half self.new.half st
            (I.got inbox.old) (I.got inbox.new) (N.got notices.old) (N.got notices.new) (N.told notices.old) }
        ensures lost { OnErr result ((st : Stood) → IsHalf seen (script_in checked.now) self.old.half st
            → Halts (script_in checked.now) self.old.half self.new.half st
            (I.got inbox.old) (I.got inbox.new) (N.got notices.old) (N.got notices.new) (N.told notices.old)) }
        ensures again { CanTurn seen (script_in checked.now) self.new.half }
        ensures too { AreSentToo (O.sent line.old) (O.sent line.new) self.old.half.log.sent.items self.new.half.log.sent.items }
        ensures inbox { (I.inlet inbox.new ≡ I.inlet inbox.old) × (I.told inbox.new ≡ I.told inbox.old) }
        ensures notices { (N.inlet notices.new ≡ N.inlet notices.old) × (N.told notices.new ≡ N.told notices.old) }
        ensures line { (O.outlet line.new ≡ O.outlet line.old) × (O.left line.new ≡ O.left line.old) }
    {
        self.half.turn(alloc, checked, inbox, notices, line)
    }

    /// The caller of each call that was delivered in this incarnation, or is deferred, and has no reply, in the order in which they were
    /// taken, with what it waits for. A front that waits for an answer of its back, or is stopped, answers `NoMemory`.
    pub fn left(&self, alloc: Global) -> Mem<Vec<(Caller, Waits)>>
        requires { (script : Script) × CanTurn seen script self.now.half }
        ensures { IfOk result (λ left. (script : Script) (st : Stood) → IsHalf seen script self.now.half st → taking.waits st.front.mode ≡ false
            → left.items ≡ left_at script st) }
    {
        self.half.remaining(alloc)
    }

    /// What it has done.
    pub fn log(&self) -> &FrontLog
        ensures { fronted result.now ≡ fronted self.now.half.log }
    {
        self.half.log()
    }

    /// The history. It takes no memory.
    pub fn into_log(self) -> FrontLog
        ensures { fronted result ≡ fronted self.half.log }
    {
        let Front { half } = self;
        half.into_log()
    }
}
