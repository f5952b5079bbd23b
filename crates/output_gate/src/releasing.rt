//! Letting go what is held.
ghost use Rattle.std.specs.Prelude.{◌≡◌, ◌+◌, ◌≤◌, ◌++◌, [], ◌∷◌, true, false, Ok, List, OnOk, OnErr, vec_len};
ghost use Rattle.std.specs.Vec.{vec_capacity};
ghost use Rattle.output_gate.specs.Taking.{LogSame};
ghost use Rattle.timeline.specs.declared.notice.Stepped.TheVariants.{Did, Nothing};
ghost use Rattle.output_gate.specs.Releasing as releasing;
ghost use Rattle.output_gate.specs.Releasing.{IsIdleRelease, Releases, Stays, CanGo, Goes, StaysPut, LogReleases, HaltRoom, LogHalts};
ghost use Rattle.output_gate.specs.Serving.{CanServe, CanServeAs, KeepsBack, KeepsBackAs, StopsBy, is_stopped};
ghost use Rattle.output_gate.specs.Storing.{KeepsDisk};
ghost use Rattle.output_gate.specs.declared.held.HeldBody.TheVariants as held_body;

use crate::back::Back;
use crate::held::{Held, HeldBody};
use do_disk::Disk;
use do_value::{Mem, NoMemory};
use lane::Outlet;
use std::collections::VecDeque;
use timeline::{BackLog, Cause, End, Message, Notice, Release, Stepped, Stop};

impl<D: Disk> Back<D> {
    /// Lets the first go of what is held, where all batches before it are durable: a message leaves, the front is told of a
    /// sync, or the incarnation ends by a halt or a read that failed and the next one begins. After `NoMemory` the back is stopped: each further step
    /// but `flush` answers `NoMemory` and does nothing.
    pub fn release<N: Outlet<Notice>, O: Outlet<Message>>(
        &mut self,
        notices: &mut N,
        out: &mut O,
    ) -> Mem<Stepped>
        requires { CanServe D.moment_of D.left_since D.told D.image D.faults_of self.old }
        ensures stopped { is_stopped self.old ≡ true → OnOk result ⊥
            × (self.new ≡ self.old) × (N.sent notices.new ≡ N.sent notices.old) × (O.sent out.new ≡ O.sent out.old) }
        ensures barred { is_stopped self.old ≡ false → releasing.may_release self.old ≡ false
            → IsIdleRelease self.old self.new (N.sent notices.old) (N.sent notices.new) (O.sent out.old) (O.sent out.new) result }
        ensures nothing { result ≡ Ok Nothing → releasing.may_release self.old ≡ false }
        ensures released { result ≡ Ok Did
            → Releases D.moment_of self.old self.new (N.sent notices.old) (N.sent notices.new) (O.sent out.old) (O.sent out.new) }
        ensures stays { OnErr result (Stays self.old self.new (N.sent notices.old) (N.sent notices.new) (O.sent out.old) (O.sent out.new)) }
        ensures disk { KeepsDisk self.old.store self.new.store }
        ensures stops { StopsBy result self.new }
        ensures outlet { (N.outlet notices.new ≡ N.outlet notices.old) × (N.left notices.new ≡ N.left notices.old) }
        ensures out { (O.outlet out.new ≡ O.outlet out.old) × (O.left out.new ≡ O.left out.old) }
        ensures back { KeepsBack D.moment_of D.left_since D.told D.image D.faults_of self.old self.new }
    {
        if self.stopped {
            return Err(NoMemory);
        }
        let stepped = self.release_next(notices, out);
        self.stopped = stepped.is_err();
        stepped
    }

    // The same of a back that isn't stopped, but for the note that memory was wanting.
    fn release_next<N: Outlet<Notice>, O: Outlet<Message>>(
        &mut self,
        notices: &mut N,
        out: &mut O,
    ) -> Mem<Stepped>
        requires { CanServeAs D.moment_of D.left_since D.told D.image D.faults_of true self.old }
        ensures barred { releasing.may_release self.old ≡ false
            → IsIdleRelease self.old self.new (N.sent notices.old) (N.sent notices.new) (O.sent out.old) (O.sent out.new) result }
        ensures nothing { result ≡ Ok Nothing → releasing.may_release self.old ≡ false }
        ensures released { result ≡ Ok Did
            → Releases D.moment_of self.old self.new (N.sent notices.old) (N.sent notices.new) (O.sent out.old) (O.sent out.new) }
        ensures stays { OnErr result (Stays self.old self.new (N.sent notices.old) (N.sent notices.new) (O.sent out.old) (O.sent out.new)) }
        ensures outlet { (N.outlet notices.new ≡ N.outlet notices.old) × (N.left notices.new ≡ N.left notices.old) }
        ensures out { (O.outlet out.new ≡ O.outlet out.old) × (O.left out.new ≡ O.left out.old) }
        ensures back { OnOk result (KeepsBackAs D.moment_of D.left_since D.told D.image D.faults_of true true self.old self.new) }
        ensures stopped { OnErr result (KeepsBackAs D.moment_of D.left_since D.told D.image D.faults_of true false self.old self.new) }
    {
        if self.stuck {
            return Ok(Stepped::Nothing);
        }
        let Some(first) = self.held.front() else {
            return Ok(Stepped::Nothing);
        };
        if first.needs > self.durable {
            return Ok(Stepped::Nothing);
        }
        match &first.body {
            HeldBody::Message(message) => {
                let copy = message.copy()?;
                self.release_message(copy, out)?;
            }
            HeldBody::Sync { number } => {
                let number = *number;
                self.release_sync(number, notices)?;
            }
            HeldBody::Halt(cause) => {
                let cause = *cause;
                self.restart(cause, notices)?;
            }
        }
        Ok(Stepped::Did)
    }

    // Sends a copy of the message that is the first of what is held, and logs it.
    fn release_message<O: Outlet<Message>>(&mut self, copy: Message, out: &mut O) -> Mem<()>
        requires { CanGo D.moment_of D.left_since D.told D.image D.faults_of self.old (held_body.Message copy) }
        ensures went { OnOk result ((sent : List Notice)
            → Goes D.moment_of D.left_since D.told D.image D.faults_of self.old self.new sent sent (O.sent out.old) (O.sent out.new)) }
        ensures stays { OnErr result ((sent : List Notice)
            → StaysPut D.moment_of D.left_since D.told D.image D.faults_of self.old self.new sent sent (O.sent out.old) (O.sent out.new)) }
        ensures out { (O.outlet out.new ≡ O.outlet out.old) × (O.left out.new ≡ O.left out.old) }
    {
        release_room(&mut self.log)?;
        send(out, copy)?;
        let moment = self.store.moment();
        let held = take_first(&mut self.held);
        log_release(&mut self.log, held, moment);
        Ok(())
    }

    // Tells the front of the sync that is the first of what is held.
    fn release_sync<N: Outlet<Notice>>(&mut self, number: u64, notices: &mut N) -> Mem<()>
        requires { CanGo D.moment_of D.left_since D.told D.image D.faults_of self.old (held_body.Sync number) }
        ensures went { OnOk result ((out : List Message)
            → Goes D.moment_of D.left_since D.told D.image D.faults_of self.old self.new (N.sent notices.old) (N.sent notices.new) out out) }
        ensures stays { OnErr result ((out : List Message)
            → StaysPut D.moment_of D.left_since D.told D.image D.faults_of self.old self.new (N.sent notices.old) (N.sent notices.new) out out) }
        ensures outlet { (N.outlet notices.new ≡ N.outlet notices.old) × (N.left notices.new ≡ N.left notices.old) }
    {
        send(notices, Notice::Synced { number })?;
        drop_first(&mut self.held);
        Ok(())
    }

    // The incarnation has ended by the halt, or the read that failed, that is the first of what is held, and the next one begins with all of its batches.
    fn restart<N: Outlet<Notice>>(&mut self, cause: Cause, notices: &mut N) -> Mem<()>
        requires { CanGo D.moment_of D.left_since D.told D.image D.faults_of self.old (held_body.Halt cause) }
        ensures went { OnOk result ((out : List Message)
            → Goes D.moment_of D.left_since D.told D.image D.faults_of self.old self.new (N.sent notices.old) (N.sent notices.new) out out) }
        ensures stays { OnErr result ((out : List Message)
            → StaysPut D.moment_of D.left_since D.told D.image D.faults_of self.old self.new (N.sent notices.old) (N.sent notices.new) out out) }
        ensures outlet { (N.outlet notices.new ≡ N.outlet notices.old) × (N.left notices.new ≡ N.left notices.old) }
    {
        halt_room(&mut self.log)?;
        let alarm = self.cache.alarm();
        let incarnation = self.number + 1;
        let fresh = Notice::Fresh {
            incarnation,
            alarm,
            cause,
        };
        send(notices, fresh)?;
        drop_first(&mut self.held);
        log_halt(&mut self.log, cause, self.own);
        self.late = Some(self.needs);
        self.settled = self.before;
        self.own = 0;
        self.needs = self.before;
        self.number = incarnation;
        Ok(())
    }
}

// The first of what is held, which goes.
fn take_first(held: &mut VecDeque<Held>) -> Held
    requires { (first : Held) × (rest : List Held) × (held.old.items ≡ first ∷ rest) }
    ensures { held.old.items ≡ result ∷ held.new.items }
{
    match held.pop_front() {
        Some(first) => first,
        None => unreachable!(),
    }
}

fn drop_first(held: &mut VecDeque<Held>)
    ensures { (first : Held) (rest : List Held) → held.old.items ≡ first ∷ rest → held.new.items ≡ rest }
{
    let _ = held.pop_front();
}

// Makes the room that a message which leaves needs.
fn release_room(log: &mut BackLog) -> Mem<()>
    ensures room { OnOk result (vec_len log.new.released + 1 ≤ vec_capacity log.new.released) }
    ensures same { LogSame log.old log.new }
{
    if log.released.reserve(1).is_err() {
        return Err(NoMemory);
    }
    Ok(())
}

// Logs a message that leaves.
fn log_release(log: &mut BackLog, held: Held, moment: u64)
    requires body { (sent : Message) × (held.body ≡ held_body.Message sent) }
    requires room { vec_len log.old.released + 1 ≤ vec_capacity log.old.released }
    ensures { (sent : Message) → held.body ≡ held_body.Message sent
        → LogReleases log.old log.new (record { message = sent; needs = held.needs; moment = moment }) }
{
    let Held {
        body,
        needs,
        since: _,
    } = held;
    if let HeldBody::Message(message) = body {
        let release = Release {
            message,
            needs,
            moment,
        };
        log.released.push(release).unwrap();
    }
}

// Makes the room that the end of an incarnation needs.
fn halt_room(log: &mut BackLog) -> Mem<()>
    ensures room { OnOk result (HaltRoom log.new) }
    ensures same { LogSame log.old log.new }
{
    if log.stops.reserve(1).is_err() || log.ends.reserve(1).is_err() {
        return Err(NoMemory);
    }
    Ok(())
}

// Logs the end of an incarnation by a halt or by a read that failed, of which all batches are kept.
fn log_halt(log: &mut BackLog, cause: Cause, kept: u64)
    requires { HaltRoom log.old }
    ensures { LogHalts log.old log.new cause kept }
{
    let flights = log.flights.as_slice().len() as u64;
    let stop = Stop {
        cause,
        flights,
        batches: kept,
        read: matches!(cause, Cause::Disk { .. }),
    };
    log.stops.push(stop).unwrap();
    log.ends.push(End { kept, cause }).unwrap();
}

// Sends an item.
pub(crate) fn send<T: Drop, O: Outlet<T>>(outlet: &mut O, item: T) -> Mem<()>
    ensures lane { O.outlet outlet.new ≡ O.outlet outlet.old }
    ensures left { O.left outlet.new ≡ O.left outlet.old }
    ensures sent { OnOk result (O.sent outlet.new ≡ O.sent outlet.old ++ item ∷ []) }
    ensures same { OnErr result (O.sent outlet.new ≡ O.sent outlet.old) }
{
    match outlet.send(item) {
        Ok(()) => Ok(()),
        Err(_) => Err(NoMemory),
    }
}
