//! What a front does with a notice while its object isn't mounted.
ghost use Rattle.std.specs.Prelude.{◌≡◌, ℕ, List, [], ◌∷◌, ◌++◌, option_to_list, Some, None, true, IfOk, OnErr, OnOk};
ghost use Rattle.do_tree.specs.Tree.{Script};
ghost use Rattle.timeline.specs.Intake as intake;
ghost use Rattle.timeline.specs.declared.caller.Cause.{Cause as SeenCause};
ghost use Rattle.timeline.specs.declared.notice.Notice.TheVariants as a_notice;
ghost use Rattle.front_half.specs.Noticing.{GoesOn, IsStoppedBy, in_mode};
ghost use Rattle.front_half.specs.Sending.{AreSentToo};
ghost use Rattle.front_half.specs.Standing.{is_stopped};
ghost use Rattle.front_half.specs.declared.half.Mode.TheVariants as held;

use crate::half::{Half, Mode};
use crate::sending::send_all;
use do_value::{Mem, NoMemory};
use front_turns::{Object, State, Task};
use input_gate::Deferred;
use lane::Outlet;
use std::alloc::Global;
use storage_map::Alarm;
use timeline::{Body, Entry, Event, Failure, Message, Notice};

// One event more is deferred, as a copy.
fn defer_copy(deferred: &mut Deferred, event: &Event) -> Mem<()>
    ensures { OnOk result (deferred.new ≡ deferred.old ++ event.now ∷ []) }
{
    let copy = event.copy()?;
    deferred.add(copy)?;
    Ok(())
}

// The event, and the copies of these behind it.
fn defer_before(alloc: Global, event: Event, others: &Deferred) -> Mem<Deferred>
    ensures { IfOk result (λ deferred. deferred ≡ event ∷ others.now) }
{
    let mut deferred = Deferred::new(alloc);
    deferred.add(event)?;
    for other in others.iter() {
        defer_copy(&mut deferred, other)?;
    }
    Ok(deferred)
}

// The call is due, before one that was due earlier and those that are deferred.
fn put_due(alloc: Global, due: &mut Option<Event>, deferred: &mut Deferred, call: Event) -> Mem<()>
    ensures { OnOk result (option_to_list due.new ++ deferred.new ≡ call ∷ (option_to_list due.old ++ deferred.old)) }
{
    match due.replace(call) {
        None => Ok(()),
        Some(earlier) => {
            let all = defer_before(alloc, earlier, deferred)?;
            *deferred = all;
            Ok(())
        }
    }
}

// The failure of a call whose object couldn't be mounted.
fn build_failure(alloc: Global, call: &Event, before: u64, after: u64) -> Mem<Vec<Body>>
    ensures { IfOk result (λ bodies. bodies.items ≡ intake.down_replies (Some call.now) before after) }
{
    let mut bodies = Vec::new(alloc);
    if let Event::Call { from, .. } = call {
        let result = Err(Failure::Down { before, after });
        if bodies
            .push(Body::Message(Message::Reply { to: *from, result }))
            .is_err()
        {
            return Err(NoMemory);
        }
    }
    Ok(bodies)
}

// Logs that the call was answered by its failure, under the incarnation that isn't mounted.
fn log_downed(downed: &mut Vec<(u64, Event)>, incarnation: u64, call: Event) -> Mem<()>
    ensures logged { OnOk result (downed.new.items ≡ downed.old.items ++ (incarnation, call) ∷ []) }
    ensures same { OnErr result (downed.new.items ≡ downed.old.items) }
{
    match downed.push((incarnation, call)) {
        Ok(()) => Ok(()),
        Err(refused) => {
            drop(refused);
            Err(NoMemory)
        }
    }
}

impl<T: Task + Drop> Half<T> {
    // A front whose object isn't mounted takes what the call that waits waits for.
    pub(crate) fn take_unmounted<O: Outlet<Entry>>(
        &mut self,
        alloc: Global,
        call: Option<Event>,
        notice: Notice,
        line: &mut O,
    ) -> Mem<()>
        requires stopped { is_stopped self.old ≡ true }
        ensures moves { OnOk result ((script : Script) → GoesOn T.seen script (in_mode self.old (held.Down call)) self.new notice) }
        ensures stops { OnErr result ((script : Script) → IsStoppedBy T.seen script (in_mode self.old (held.Down call)) self.new notice) }
        ensures too { AreSentToo (O.sent line.old) (O.sent line.new) self.old.log.sent.items self.new.log.sent.items }
        ensures lane { O.outlet line.new ≡ O.outlet line.old }
        ensures left { O.left line.new ≡ O.left line.old }
    {
        match call {
            Some(call) => self.take_mounting(alloc, call, notice, line),
            None => {
                drop(notice);
                self.stick(Mode::Down(None));
                Ok(())
            }
        }
    }

    // A call waits for the next mounting: the object is mounted, or it couldn't be.
    fn take_mounting<O: Outlet<Entry>>(
        &mut self,
        alloc: Global,
        call: Event,
        notice: Notice,
        line: &mut O,
    ) -> Mem<()>
        requires stopped { is_stopped self.old ≡ true }
        ensures moves { OnOk result ((script : Script) → GoesOn T.seen script (in_mode self.old (held.Down (Some call))) self.new notice) }
        ensures stops { OnErr result ((script : Script) → IsStoppedBy T.seen script (in_mode self.old (held.Down (Some call))) self.new notice) }
        ensures too { AreSentToo (O.sent line.old) (O.sent line.new) self.old.log.sent.items self.new.log.sent.items }
        ensures lane { O.outlet line.new ≡ O.outlet line.old }
        ensures left { O.left line.new ≡ O.left line.old }
    {
        match notice {
            Notice::Fresh {
                incarnation: _,
                alarm,
                cause: _,
            } => self.mount(alloc, alarm, call),
            Notice::Down {
                cause: _,
                before,
                after,
            } => self.fail_call(alloc, call, before, after, line),
            Notice::Read { number: _, reading } => {
                drop(reading);
                self.stick(Mode::Down(Some(call)));
                Ok(())
            }
            Notice::Taken { .. } => {
                self.stick(Mode::Down(Some(call)));
                Ok(())
            }
            Notice::Synced { .. } => {
                self.stick(Mode::Down(Some(call)));
                Ok(())
            }
        }
    }

    // The object is mounted with this alarm, and the call is the first to be delivered.
    fn mount(&mut self, alloc: Global, alarm: Option<Alarm>, call: Event) -> Mem<()>
        requires stopped { is_stopped self.old ≡ true }
        ensures moves { OnOk result ((script : Script) (incarnation : ℕ) (c : SeenCause)
            → GoesOn T.seen script (in_mode self.old (held.Down (Some call))) self.new (a_notice.Fresh incarnation alarm c)) }
        ensures stops { OnErr result ((script : Script) (incarnation : ℕ) (c : SeenCause)
            → IsStoppedBy T.seen script (in_mode self.old (held.Down (Some call))) self.new (a_notice.Fresh incarnation alarm c)) }
        ensures log { self.new.log ≡ self.old.log }
    {
        let Ok(()) = put_due(alloc, &mut self.due, &mut self.deferred, call) else {
            return Err(NoMemory);
        };
        self.mode = Mode::Serves(State::Idle {
            object: Object::begin(alloc, alarm),
        });
        Ok(())
    }

    // The object couldn't be mounted, and the call gets its failure.
    fn fail_call<O: Outlet<Entry>>(
        &mut self,
        alloc: Global,
        call: Event,
        before: u64,
        after: u64,
        line: &mut O,
    ) -> Mem<()>
        requires stopped { is_stopped self.old ≡ true }
        ensures moves { OnOk result ((script : Script) (c : SeenCause)
            → GoesOn T.seen script (in_mode self.old (held.Down (Some call))) self.new (a_notice.Down c before after)) }
        ensures stops { OnErr result ((script : Script) (c : SeenCause)
            → IsStoppedBy T.seen script (in_mode self.old (held.Down (Some call))) self.new (a_notice.Down c before after)) }
        ensures too { AreSentToo (O.sent line.old) (O.sent line.new) self.old.log.sent.items self.new.log.sent.items }
        ensures lane { O.outlet line.new ≡ O.outlet line.old }
        ensures left { O.left line.new ≡ O.left line.old }
    {
        let Ok(bodies) = build_failure(alloc, &call, before, after) else {
            return Err(NoMemory);
        };
        let Ok(()) = log_downed(&mut self.log.downed, self.incarnation, call) else {
            return Err(NoMemory);
        };
        let Ok(count) = send_all(
            line,
            &mut self.log.sent,
            self.incarnation,
            self.count,
            bodies,
        ) else {
            return Err(NoMemory);
        };
        self.count = count;
        self.mode = Mode::Down(None);
        Ok(())
    }
}
