//! The two ends of a lane that threads share.
ghost use Rattle.std.specs.Prelude.{◌≡◌, true, false, [], ◌∷◌, ◌++◌, IfOk, IfErr, IfSome, IfNone, OnOk, OnErr};
ghost use Rattle.crossbeam_queue.specs.SegTies.{IsSegPassOf};
ghost use Rattle.lane.specs.Lanes.{StartsWith};
ghost use Rattle.lane.specs.Order.{log};
ghost use Rattle.std.specs.Arc.{arc_value};

use crate::plain::Plain;
use crate::rule::{Begins, Clash, InOrder, Log, Notes, Roles, Sends, Takes};
use crate::trail::Trail;
use crate::traits::{Inlet, Outlet, SendFault};
use crossbeam_queue::{RuledSegQueue, SegPass};
use do_value::{Mem, NoMemory};
use std::alloc::Global;
use std::collections::VecDeque;
use std::marker::Model;
use std::sync::{Arc, Wait};

type Queue<T> = RuledSegQueue<T, Log<T>, InOrder>;

// A queue that is freed with its last owner.
struct Shared<T> {
    queue: Queue<T>,
}

impl<T: Drop> Drop for Shared<T> {
    fn drop(self) {
        let Self { queue } = self;
        queue.destroy();
    }
}

/// The end of a lane that sends. Contracts see which lane it is of, and what was sent.
pub struct SendEnd<T, R: Wait> {
    rt: R,
    shared: Arc<Shared<T>>,
    pass: SegPass<T, Log<T>>,
}

// Written out, so that letting one go is proved once.
impl<T: Drop, R: Wait + Drop> Drop for SendEnd<T, R> {
    fn drop(self) {
        let SendEnd { rt, shared, pass } = self;
        drop(rt);
        drop(shared);
        drop(pass);
    }
}

impl<T, R: Wait> Model for SendEnd<T, R> {
    ghost use Rattle.lane.specs.Lanes.{Sending};

    ghost Value = { Sending T };

    ghost use Rattle.std.specs.Prelude.{◌≡◌, true, false, []};
    ghost use Rattle.std.specs.Arc.{arc_value};
    ghost use Rattle.crossbeam_queue.specs.SegTies.{IsSegPassOf};
    ghost use Rattle.lane.specs.Order.{log};

    ghost view = { λ s. record { lane = (arc_value s.shared).queue; sent = s.pass.me.view.client.sent } };

    ghost invariant = { λ s. IsSegPassOf (arc_value s.shared).queue s.pass
        × (s.pass.me.view.client ≡ log true false [] s.pass.me.view.client.sent []) };
}

/// The end of a lane that takes. Contracts see which lane it is of, what it was told was sent, and what was taken.
pub struct TakeEnd<T, R: Wait> {
    rt: R,
    shared: Arc<Shared<T>>,
    pass: SegPass<T, Log<T>>,
    past: Trail<T>,
    // Where the queue ended when it was found empty, unless this end has taken or was told of something since. While it ends there nothing
    // more was sent.
    empty_at: Option<u64>,
}

// Written out, so that letting one go is proved once.
impl<T: Drop, R: Wait + Drop> Drop for TakeEnd<T, R> {
    fn drop(self) {
        let TakeEnd {
            rt,
            shared,
            pass,
            past,
            empty_at: _,
        } = self;
        drop(rt);
        drop(shared);
        drop(pass);
        drop(past);
    }
}

impl<T, R: Wait> Model for TakeEnd<T, R> {
    ghost use Rattle.lane.specs.Lanes.{Taking};

    ghost Value = { Taking T };

    ghost use Rattle.std.specs.Prelude.{◌≡◌, true, false, [], IfSome};
    ghost use Rattle.std.specs.Arc.{arc_value};
    ghost use Rattle.crossbeam_queue.specs.SegTies.{IsSegPassOf};
    ghost use Rattle.lane.specs.Lanes.{StartsWith};
    ghost use Rattle.lane.specs.Order.{log};

    ghost view = { λ s. record { lane = (arc_value s.shared).queue; told = s.pass.me.view.client.told; got = s.pass.me.view.client.got } };

    ghost invariant = { λ s. IsSegPassOf (arc_value s.shared).queue s.pass
        × (s.pass.me.view.client ≡ log false true s.pass.me.view.client.told [] s.pass.me.view.client.got)
        × (s.past.items ≡ s.pass.me.view.client.got)
        × IfSome s.empty_at (λ _. StartsWith s.pass.me.view.client.got s.pass.me.view.client.told) };
}

/// What was sent on a lane at one moment. It has no bytes. Contracts see which lane it is of, and what was sent.
#[derive(Drop)]
pub struct Note<T> {
    pass: SegPass<T, Log<T>>,
}

impl<T> Model for Note<T> {
    ghost use Rattle.lane.specs.Lanes.{Sending};

    ghost Value = { Sending T };

    ghost use Rattle.std.specs.Prelude.{◌≡◌, None};

    ghost view = { λ n. record { lane = record { web = n.pass.web; heap = n.pass.heap }; sent = n.pass.me.view.client.told } };

    ghost invariant = { λ n. (n.pass.me.hand ≡ None) × (n.pass.me.spare ≡ None) };
}

/// A new lane, through which nothing went yet: its two ends, which two threads may hold.
pub fn make<T: Drop, R: Wait + Copy>(rt: &R, alloc: Global) -> Mem<(SendEnd<T, R>, TakeEnd<T, R>)>
    ensures lane { IfOk result (λ ends. ends.0.lane ≡ ends.1.lane) }
    ensures sent { IfOk result (λ ends. ends.0.sent ≡ []) }
    ensures got { IfOk result (λ ends. (ends.1.got ≡ []) × (ends.1.told ≡ [])) }
{
    let Ok((queue, mut sends)) = Queue::<T>::with_rule(alloc) else {
        return Err(NoMemory);
    };
    let takes = queue.another::<Roles>(&mut sends);
    let Ok(shared) = Arc::new(alloc, Shared { queue }) else {
        return Err(NoMemory);
    };
    let Ok(other) = Arc::try_clone(&shared) else {
        return Err(NoMemory);
    };
    let send = SendEnd {
        rt: *rt,
        shared,
        pass: sends,
    };
    let take = TakeEnd {
        rt: *rt,
        shared: other,
        pass: takes,
        past: Trail::new(),
        empty_at: None,
    };
    Ok((send, take))
}

impl<T: Drop, R: Wait + Copy> SendEnd<T, R> {
    /// A note of what was sent.
    pub fn tell(&mut self) -> Note<T>
        ensures note { (result.lane ≡ self.old.lane) × (result.sent ≡ self.old.sent) }
        ensures same { self.new ≡ self.old }
    {
        let shared: &Shared<T> = &self.shared;
        let pass = shared.queue.another::<Notes>(&mut self.pass);
        Note { pass }
    }

    // Takes the lane apart, with its other end.
    fn close_with(self, alloc: Global, take: TakeEnd<T, R>) -> Mem<Plain<T>>
        requires { self.lane ≡ take.lane }
        ensures got { IfOk result (λ rest. rest.got ≡ take.got) }
        ensures rest { IfOk result (λ rest. self.sent ≡ take.got ++ rest.waiting) }
        ensures taken { StartsWith self.sent take.got }
    {
        let SendEnd {
            rt: _,
            shared,
            pass,
        } = self;
        take.close_behind(alloc, shared, pass)
    }
}

impl<T: Drop, R: Wait + Copy> TakeEnd<T, R> {
    /// Learns what was sent. From now on a take that finds nothing says that all of it has come.
    pub fn hear(&mut self, note: Note<T>)
        requires { note.lane ≡ self.old.lane }
        ensures told { self.new.told ≡ note.sent }
        ensures same { (self.new.lane ≡ self.old.lane) × (self.new.got ≡ self.old.got) }
    {
        let Note { pass } = note;
        let shared: &Shared<T> = &self.shared;
        shared.queue.absorb::<Notes>(&mut self.pass, pass);
        self.empty_at = None;
    }

    // Takes the next item where the queue ends there, or further on.
    //
    // A function of its own, since an item's room is more to make ready than the look at the end costs.
    #[inline(never)]
    fn take_before(&mut self, end: u64) -> Option<T>
        ensures lane { (self.new.lane ≡ self.old.lane) × (self.new.told ≡ self.old.told) }
        ensures some { IfSome result (λ item. self.new.got ≡ self.old.got ++ item ∷ []) }
        ensures none { IfNone result ((self.new.got ≡ self.old.got) × StartsWith self.old.got self.old.told) }
    {
        let shared: &Shared<T> = &self.shared;
        match shared.queue.pop_as::<Takes, R>(&self.rt, &mut self.pass) {
            Some(item) => {
                self.past = self.past.and(&item);
                self.empty_at = None;
                Some(item)
            }
            None => {
                self.empty_at = Some(end);
                None
            }
        }
    }

    // Another end that takes from the same lane can't be.
    fn clash(self, other: TakeEnd<T, R>)
        requires { self.lane ≡ other.lane }
        ensures { ⊥ }
    {
        let TakeEnd {
            rt,
            shared,
            mut pass,
            past: _,
            empty_at: _,
        } = self;
        let TakeEnd {
            rt: _,
            shared: _,
            pass: second,
            past: _,
            empty_at: _,
        } = other;
        let shared: &Shared<T> = &shared;
        shared.queue.absorb::<Clash>(&mut pass, second);
        shared.queue.len_as::<Clash, R>(&rt, &mut pass);
    }

    // Takes the lane apart, with what its other end had.
    fn close_behind(
        self,
        alloc: Global,
        shared: Arc<Shared<T>>,
        mut sends: SegPass<T, Log<T>>,
    ) -> Mem<Plain<T>>
        requires sends { IsSegPassOf (arc_value shared).queue sends × (sends.me.view.client ≡ log true false [] sends.me.view.client.sent []) }
        requires lane { (arc_value shared).queue ≡ self.lane }
        ensures got { IfOk result (λ rest. rest.got ≡ self.got) }
        ensures rest { IfOk result (λ rest. sends.me.view.client.sent ≡ self.got ++ rest.waiting) }
        ensures taken { StartsWith sends.me.view.client.sent self.got }
    {
        let TakeEnd {
            rt,
            shared: _,
            pass,
            past,
            empty_at: _,
        } = self;
        let shared: &Shared<T> = &shared;
        shared.queue.absorb::<Roles>(&mut sends, pass);
        look(&rt, &shared.queue, &mut sends);
        let rest = drain(&rt, alloc, &shared.queue, sends)?;
        Ok(Plain::behind(past, rest))
    }
}

/// A lane has one end that takes: there are no two of one lane.
pub fn no_two<T: Drop, R: Wait + Copy>(one: TakeEnd<T, R>, other: TakeEnd<T, R>)
    requires { one.lane ≡ other.lane }
    ensures { ⊥ }
{
    one.clash(other);
}

impl<T: Drop, R: Wait + Copy> Outlet<T> for SendEnd<T, R> {
    ghost outlet = { λ s. s.lane };

    ghost sent = { λ s. s.sent };

    ghost left = { λ s. [] };

    fn send(&mut self, item: T) -> Result<(), SendFault<T>>
        ensures lane { self.new.lane ≡ self.old.lane }
        ensures sent { OnOk result (self.new.sent ≡ self.old.sent ++ item ∷ []) }
        ensures same { OnErr result (self.new ≡ self.old) }
        ensures item { IfErr result (λ fault. fault.item ≡ item) }
    {
        let shared: &Shared<T> = &self.shared;
        match shared
            .queue
            .push_as::<Sends, R>(&self.rt, &mut self.pass, item)
        {
            Ok(()) => Ok(()),
            Err(item) => Err(SendFault { item }),
        }
    }
}

impl<T: Drop, R: Wait + Copy> Inlet<T> for TakeEnd<T, R> {
    ghost inlet = { λ s. s.lane };

    ghost got = { λ s. s.got };

    ghost told = { λ s. s.told };

    fn take(&mut self) -> Option<T>
        ensures lane { (self.new.lane ≡ self.old.lane) × (self.new.told ≡ self.old.told) }
        ensures some { IfSome result (λ item. self.new.got ≡ self.old.got ++ item ∷ []) }
        ensures none { IfNone result ((self.new.got ≡ self.old.got) × StartsWith self.old.got self.old.told) }
    {
        let shared: &Shared<T> = &self.shared;
        let end = shared.queue.tail(&mut self.pass);
        if let Some(at) = self.empty_at {
            if at == end {
                return None;
            }
        }
        self.take_before(end)
    }
}

// What was taken begins what was sent: a pass that has both roles learns it.
fn look<T: Drop, R: Wait + Copy>(rt: &R, queue: &Queue<T>, pass: &mut SegPass<T, Log<T>>)
    requires { IsSegPassOf queue.now pass.old × (pass.old.me.view.client.sends ≡ true) × (pass.old.me.view.client.takes ≡ true) }
    ensures begins { StartsWith pass.old.me.view.client.sent pass.old.me.view.client.got }
    ensures same { IsSegPassOf queue.now pass.new × (pass.new.me.view.client ≡ pass.old.me.view.client) }
{
    queue.len_as::<Begins, R>(rt, pass);
}

// Takes what is left, once one pass has both roles.
fn drain<T: Drop, R: Wait + Copy>(
    rt: &R,
    alloc: Global,
    queue: &Queue<T>,
    mut pass: SegPass<T, Log<T>>,
) -> Mem<VecDeque<T>>
    requires { IsSegPassOf queue.now pass × (pass.me.view.client.sends ≡ true) × (pass.me.view.client.takes ≡ true) }
    ensures { IfOk result (λ rest. pass.me.view.client.sent ≡ pass.me.view.client.got ++ rest.items) }
{
    let mut rest = VecDeque::new(alloc);
    for _ in rt.forever() {
        let Some(item) = queue.pop_as::<Takes, R>(rt, &mut pass) else {
            return Ok(rest);
        };
        if rest.push_back(item).is_err() {
            return Err(NoMemory);
        }
    }
    unreachable!()
}

/// Takes a lane apart, once both its ends are in one place. What is left, as a queue of one thread, is what was sent and not
/// taken, behind what was taken. After `NoMemory` it is dropped.
pub fn close<T: Drop, R: Wait + Copy>(
    alloc: Global,
    send: SendEnd<T, R>,
    take: TakeEnd<T, R>,
) -> Mem<Plain<T>>
    requires { send.lane ≡ take.lane }
    ensures got { IfOk result (λ rest. rest.got ≡ take.got) }
    ensures rest { IfOk result (λ rest. send.sent ≡ take.got ++ rest.waiting) }
    ensures taken { StartsWith send.sent take.got }
{
    send.close_with(alloc, take)
}
