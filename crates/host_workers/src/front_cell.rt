//! The front of an object, with the ends of its lanes.
ghost use Rattle.std.specs.Prelude.{◌≡◌, ℕ, ℤ, [], Option, Ok, true, false, OnErr};
ghost use Rattle.do_tree.specs.Checked.{tree_of as script_in};
ghost use Rattle.lane.specs.Lanes.{StartsWith};
ghost use Rattle.timeline.specs.Logs.{fronted};
ghost use Rattle.object_front.specs.Evaluated.{seen};
ghost use Rattle.front_half.specs.Standing.{Stood, IsHalf, fresh, is_stopped, nothing_logged};
ghost use Rattle.front_half.specs.Turning.{IsQuiet, Turns};
ghost use Rattle.front_half.specs.declared.turning.Turned.TheVariants.{Ran, Idle};
ghost use Rattle.host_workers.specs.Fronts.{IsFrontCell, KeepsFrontCell, SameLanes, script_of};

use crate::boxed::Boxed;
use do_tree::Checked;
use do_value::Mem;
use front_history::laws;
use lane::{SendEnd, TakeEnd};
use object_front::{Front, Turned, laws as front_laws};
use std::alloc::Global;
use std::sync::Wait;
use timeline::{Entry, Event, Notice};

/// The front of an object, with the script that it runs, the ends from which it takes events and notices, and the one on which it sends
/// what its script says.
pub struct FrontCell<'s, T: Wait> {
    pub(crate) front: Boxed<Front>,
    pub(crate) checked: &'s Checked,
    pub(crate) inbox: TakeEnd<Event, T>,
    pub(crate) notices: TakeEnd<Notice, T>,
    pub(crate) line: SendEnd<Entry, T>,
}

// Written out, so that letting a cell go is proved once.
impl<'s, T: Wait + Drop> Drop for FrontCell<'s, T> {
    fn drop(self) {
        let FrontCell {
            front,
            checked: _,
            inbox,
            notices,
            line,
        } = self;
        drop(front);
        drop(inbox);
        drop(notices);
        drop(line);
    }
}

impl<'s, T: Wait + Copy> FrontCell<'s, T> {
    /// The front of a slot that was just mounted, made for this script, through whose lanes nothing went. It takes no memory.
    pub fn new(
        front: Boxed<Front>,
        checked: &'s Checked,
        inbox: TakeEnd<Event, T>,
        notices: TakeEnd<Notice, T>,
        line: SendEnd<Entry, T>,
    ) -> FrontCell<'s, T>
        requires fresh { fronted front.half.log ≡ nothing_logged }
        requires unused { (inbox.got ≡ []) × (notices.got ≡ []) × (line.sent ≡ []) }
        ensures half { (result.front ≡ front) × (script_of result ≡ script_in checked.now) }
        ensures ends { (result.inbox ≡ inbox) × (result.notices ≡ notices) × (result.line ≡ line) }
        ensures cell { (class : Option ℕ) (alarm : Option (ℤ × ℕ)) → IsHalf seen (script_in checked.now) front.half (fresh class alarm)
            → IsFrontCell class alarm result }
    {
        front_laws::events_come();
        FrontCell {
            front,
            checked,
            inbox,
            notices,
            line,
        }
    }

    /// Takes one notice; else the first deferred event that may be delivered; else one event of the inbox. What the script then says is
    /// sent on the line. After `NoMemory` the front is stopped, and does as a stopped one does (`Front::turn`).
    pub fn turn(&mut self, alloc: Global) -> Mem<Turned>
        requires { (first : Option ℕ) × (alarm : Option (ℤ × ℕ)) × IsFrontCell first alarm self.old }
        ensures still { result ≡ Ok Idle → self.new ≡ self.old }
        ensures idle { result ≡ Ok Idle → (st : Stood) → IsHalf seen (script_of self.old) self.old.front.half st → st.stuck ≡ false
            → StartsWith self.old.notices.got self.old.notices.told × IsQuiet st self.old.inbox.got self.old.inbox.told }
        ensures ran { result ≡ Ok Ran → (st : Stood) → IsHalf seen (script_of self.old) self.old.front.half st
            → Turns seen (script_of self.old) self.old.front.half self.new.front.half st self.old.inbox.got self.new.inbox.got
            self.old.notices.got self.new.notices.got self.old.notices.told }
        ensures wanting { OnErr result (is_stopped self.new.front.half ≡ true) }
        ensures lanes { SameLanes self.old self.new }
        ensures cell { KeepsFrontCell self.old self.new }
    {
        laws::turn_steps();
        front_laws::events_come();
        front_laws::class_comes();
        self.front.get_mut().turn(
            alloc,
            self.checked,
            &mut self.inbox,
            &mut self.notices,
            &mut self.line,
        )
    }

    /// The front, and the ends of its lanes. It takes no memory.
    pub fn into_parts(
        self,
    ) -> (
        Front,
        TakeEnd<Event, T>,
        TakeEnd<Notice, T>,
        SendEnd<Entry, T>,
    )
        ensures half { result.0 ≡ self.entry.front }
        ensures ends { (result.1 ≡ self.entry.inbox) × (result.2 ≡ self.entry.notices) × (result.3 ≡ self.entry.line) }
    {
        let FrontCell {
            front,
            checked: _,
            inbox,
            notices,
            line,
        } = self;
        (front.into_inner(), inbox, notices, line)
    }
}
