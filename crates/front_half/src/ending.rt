//! An incarnation ends, and the next one begins, mounted or not.
ghost use Rattle.std.specs.Prelude.{◌≡◌, ◌⊎◌, ℕ, ◌≤◌, List, [], ◌∷◌, ◌++◌, drop, length, true, IfOk, OnErr, OnOk};
ghost use Rattle.do_tree.specs.Tree.{Script};
ghost use Rattle.timeline.specs.Logs.{fronted};
ghost use Rattle.timeline.specs.declared.notice.Notice.TheVariants as a_notice;
ghost use Rattle.front_turns.specs.declared.object.State.{State as SeenState};
ghost use Rattle.front_half.specs.Ending.{EndsAt, EndsFirst, resets_in};
ghost use Rattle.front_half.specs.Noticing.{GoesOn, IsStoppedBy, in_mode};
ghost use Rattle.front_half.specs.Sending.{AreSentToo};
ghost use Rattle.front_half.specs.Standing.{is_stopped};
ghost use Rattle.front_half.specs.declared.half.Mode.TheVariants as held;

use crate::half::{Half, Mode};
use crate::sending::{next, send_all};
use crate::unanswered::{build_resets, find_unanswered};
use do_value::{Mem, NoMemory};
use front_turns::{Object, State, Task};
use lane::Outlet;
use std::alloc::Global;
use storage_map::Alarm;
use timeline::{Body, Cause, Entry, FrontLog};

// The failures of the calls that an incarnation leaves unanswered, whose parts of the log begin at these places.
fn find_resets(
    alloc: Global,
    cause: Cause,
    log: &FrontLog,
    first_delivered: usize,
    first_sent: usize,
) -> Mem<Vec<Body>>
    requires delivered { first_delivered ≤ length log.now.delivered.items }
    requires sent { first_sent ≤ length log.now.sent.items }
    ensures { IfOk result (λ bodies. bodies.items ≡ resets_in cause (drop first_delivered log.now.delivered.items) (drop first_sent log.now.sent.items)) }
{
    let delivered = log.delivered.as_slice();
    let sent = log.sent.as_slice();
    let callers = find_unanswered(alloc, &delivered[first_delivered..], &sent[first_sent..])?;
    build_resets(alloc, cause, callers.as_slice())
}

// Logs why the incarnation ended.
fn log_end(ends: &mut Vec<Cause>, cause: Cause) -> Mem<()>
    ensures logged { OnOk result (ends.new.items ≡ ends.old.items ++ cause ∷ []) }
    ensures same { OnErr result (ends.new.items ≡ ends.old.items) }
{
    if ends.push(cause).is_err() {
        return Err(NoMemory);
    }
    Ok(())
}

impl<T: Task + Drop> Half<T> {
    // The incarnation has ended by this cause. Its number, its parts of the log and its first entries are those of the next one.
    fn end<O: Outlet<Entry>>(&mut self, alloc: Global, cause: Cause, line: &mut O) -> Mem<()>
        requires delivered { self.old.first_delivered ≤ length self.old.log.delivered.items }
        requires sent { self.old.first_sent ≤ length self.old.log.sent.items }
        ensures ends { OnOk result (EndsAt self.old self.new cause) }
        ensures first { OnErr result ((fronted self.new.log ≡ fronted self.old.log) ⊎ EndsFirst self.old self.new cause) }
        ensures mode { self.new.mode ≡ self.old.mode }
        ensures too { AreSentToo (O.sent line.old) (O.sent line.new) self.old.log.sent.items self.new.log.sent.items }
        ensures lane { O.outlet line.new ≡ O.outlet line.old }
        ensures left { O.left line.new ≡ O.left line.old }
    {
        let Ok(bodies) = find_resets(
            alloc,
            cause,
            &self.log,
            self.first_delivered,
            self.first_sent,
        ) else {
            return Err(NoMemory);
        };
        let Ok(incarnation) = next(self.incarnation) else {
            return Err(NoMemory);
        };
        let Ok(()) = log_end(&mut self.log.ends, cause) else {
            return Err(NoMemory);
        };
        let first_sent = self.log.sent.len();
        let Ok(count) = send_all(line, &mut self.log.sent, incarnation, 0, bodies) else {
            return Err(NoMemory);
        };
        self.first_delivered = self.log.delivered.len();
        self.first_sent = first_sent;
        self.incarnation = incarnation;
        self.count = count;
        Ok(())
    }

    // The incarnation has ended, and the next one is mounted with this alarm.
    pub(crate) fn end_mounted<O: Outlet<Entry>>(
        &mut self,
        alloc: Global,
        alarm: Option<Alarm>,
        cause: Cause,
        line: &mut O,
    ) -> Mem<()>
        requires stopped { is_stopped self.old ≡ true }
        requires delivered { self.old.first_delivered ≤ length self.old.log.delivered.items }
        requires sent { self.old.first_sent ≤ length self.old.log.sent.items }
        ensures moves { OnOk result ((script : Script) (s : SeenState T) (incarnation : ℕ)
            → GoesOn T.seen script (in_mode self.old (held.Serves s)) self.new (a_notice.Fresh incarnation alarm cause)) }
        ensures stops { OnErr result ((script : Script) (s : SeenState T) (incarnation : ℕ)
            → IsStoppedBy T.seen script (in_mode self.old (held.Serves s)) self.new (a_notice.Fresh incarnation alarm cause)) }
        ensures too { AreSentToo (O.sent line.old) (O.sent line.new) self.old.log.sent.items self.new.log.sent.items }
        ensures lane { O.outlet line.new ≡ O.outlet line.old }
        ensures left { O.left line.new ≡ O.left line.old }
    {
        let Ok(()) = self.end(alloc, cause, line) else {
            return Err(NoMemory);
        };
        self.mode = Mode::Serves(State::Idle {
            object: Object::begin(alloc, alarm),
        });
        Ok(())
    }

    // The incarnation has ended, and mounting the next one failed.
    pub(crate) fn end_down<O: Outlet<Entry>>(
        &mut self,
        alloc: Global,
        cause: Cause,
        line: &mut O,
    ) -> Mem<()>
        requires stopped { is_stopped self.old ≡ true }
        requires delivered { self.old.first_delivered ≤ length self.old.log.delivered.items }
        requires sent { self.old.first_sent ≤ length self.old.log.sent.items }
        ensures moves { OnOk result ((script : Script) (s : SeenState T) (before after : ℕ)
            → GoesOn T.seen script (in_mode self.old (held.Serves s)) self.new (a_notice.Down cause before after)) }
        ensures stops { OnErr result ((script : Script) (s : SeenState T) (before after : ℕ)
            → IsStoppedBy T.seen script (in_mode self.old (held.Serves s)) self.new (a_notice.Down cause before after)) }
        ensures too { AreSentToo (O.sent line.old) (O.sent line.new) self.old.log.sent.items self.new.log.sent.items }
        ensures lane { O.outlet line.new ≡ O.outlet line.old }
        ensures left { O.left line.new ≡ O.left line.old }
    {
        let Ok(()) = self.end(alloc, cause, line) else {
            return Err(NoMemory);
        };
        self.mode = Mode::Down(None);
        Ok(())
    }
}
