//! A lane of one thread.
ghost use Rattle.std.specs.Prelude.{◌≡◌, List, [], ◌∷◌, ◌++◌, Some, None, IfErr, IfSome, IfNone, OnOk, OnErr, MatchOption};
ghost use Rattle.lane.specs.Lanes.{nowhere, sent_on, StartsWith};

use crate::trail::Trail;
use crate::traits::{Inlet, Outlet, SendFault};
use std::alloc::Global;
use std::collections::VecDeque;
use std::marker::Model;

/// A queue of one thread, both ends in one. Contracts see what was taken from it and what waits.
pub struct Plain<T> {
    waiting: VecDeque<T>,
    past: Trail<T>,
}

// Written out, so that letting one go is proved once.
impl<T: Drop> Drop for Plain<T> {
    fn drop(self) {
        let Plain { waiting, past } = self;
        drop(waiting);
        drop(past);
    }
}

impl<T> Model for Plain<T> {
    ghost use Rattle.lane.specs.Lanes.{Both};

    ghost Value = { Both T };

    ghost view = { λ p. record { got = p.past.items; waiting = p.waiting.items } };
}

impl<T: Drop> Plain<T> {
    /// A queue through which nothing went yet.
    pub fn new(alloc: Global) -> Plain<T>
        ensures got { result.got ≡ [] }
        ensures waiting { result.waiting ≡ [] }
    {
        Plain::of(VecDeque::new(alloc))
    }

    /// A queue in which these wait, and from which nothing was taken.
    pub fn of(waiting: VecDeque<T>) -> Plain<T>
        ensures got { result.got ≡ [] }
        ensures waiting { result.waiting ≡ waiting.items }
    {
        Plain::behind(Trail::new(), waiting)
    }

    // A queue in which these wait, behind what was taken.
    pub(crate) fn behind(past: Trail<T>, waiting: VecDeque<T>) -> Plain<T>
        ensures got { result.got ≡ past.items }
        ensures waiting { result.waiting ≡ waiting.items }
    {
        Plain { waiting, past }
    }
}

impl<T: Drop> Outlet<T> for Plain<T> {
    ghost outlet = { λ p. nowhere };

    ghost sent = { λ p. sent_on p };

    ghost left = { λ p. p.got };

    fn send(&mut self, item: T) -> Result<(), SendFault<T>>
        ensures got { self.new.got ≡ self.old.got }
        ensures sent { OnOk result (self.new.waiting ≡ self.old.waiting ++ item ∷ []) }
        ensures same { OnErr result (self.new ≡ self.old) }
        ensures item { IfErr result (λ fault. fault.item ≡ item) }
    {
        match self.waiting.push_back(item) {
            Ok(()) => Ok(()),
            Err(refused) => Err(SendFault {
                item: refused.value,
            }),
        }
    }
}

impl<T: Drop> Inlet<T> for Plain<T> {
    ghost inlet = { λ p. nowhere };

    ghost got = { λ p. p.got };

    ghost told = { λ p. sent_on p };

    fn take(&mut self) -> Option<T>
        ensures none { IfNone result ((self.old.waiting ≡ []) × (self.new ≡ self.old)) }
        ensures some { IfSome result (λ item. (self.old.waiting ≡ item ∷ self.new.waiting) × (self.new.got ≡ self.old.got ++ item ∷ [])) }
    {
        let item = self.waiting.pop_front()?;
        self.past = self.past.and(&item);
        Some(item)
    }
}
