//! The fetches of all objects that have no answer yet.
ghost use Rattle.std.specs.Prelude.{◌≡◌, ◌≢◌, ◌≤◌, ℕ, ◌+◌, ◌++◌, ◌∷◌, [], IfOk, IfSome, OnOk, OnErr, MatchOption, Some};
ghost use Rattle.object_calls.specs.Numbered.{under, others};

use do_value::{Mem, NoMemory};
use std::alloc::Global;
use std::collections::BTreeMap;
use std::marker::Model;

/// The fetches that wait, each under its number among all, with the slot of its object, the incarnation, and the number that it has
/// there. Contracts see how many numbers were given out, and the fetches that wait, ascending. Each call costs logarithmic time in
/// what waits.
pub struct Fetches {
    issued: u64,
    waiting: BTreeMap<u64, (u32, u64, u64)>,
    // The same in the order of their objects.
    by_object: BTreeMap<(u32, u64, u64, u64), ()>,
}

// Written out, so that letting one go is proved once.
impl Drop for Fetches {
    fn drop(self) {
        let Fetches {
            issued: _,
            waiting,
            by_object,
        } = self;
        drop(waiting);
        drop(by_object);
    }
}

impl Model for Fetches {
    ghost use Rattle.object_calls.specs.Numbered.{Numbered};
    ghost use Rattle.object_calls.specs.Fetched.{Asker, IsIndexed};

    ghost Value = { Numbered Asker };

    ghost view = { λ f. record { made = f.issued; waiting = f.waiting.entries } };

    ghost invariant = { λ f. IsIndexed f.issued f.waiting.entries f.by_object };
}

impl Fetches {
    /// No fetch waits, and no number was given out.
    pub fn new(alloc: Global) -> Fetches
        ensures { result ≡ record { made = 0; waiting = [] } }
    {
        Fetches {
            issued: 0,
            waiting: BTreeMap::new(alloc),
            by_object: BTreeMap::new(alloc),
        }
    }

    /// The fetch waits from here on, under the next number, of which the first is 1. After `NoMemory` all is as before.
    pub fn issue(&mut self, slot: u32, incarnation: u64, number: u64) -> Mem<u64>
        ensures number { IfOk result (λ k. k ≡ self.old.made + 1) }
        ensures issued { OnOk result (self.new ≡ record {
          made = self.old.made + 1;
          waiting = self.old.waiting ++ (self.old.made + 1, (slot, incarnation, number)) ∷ [];
        }) }
        ensures same { OnErr result (self.new ≡ self.old) }
    {
        if self.issued == u64::MAX {
            return Err(NoMemory);
        }
        let k = self.issued + 1;
        let place = (slot, incarnation, number, k);
        if self.by_object.insert(place, ()).is_err() {
            return Err(NoMemory);
        }
        if self.waiting.insert(k, (slot, incarnation, number)).is_err() {
            self.by_object.remove(&place);
            return Err(NoMemory);
        }
        self.issued = k;
        Ok(k)
    }

    /// The fetch of this number, as slot, incarnation and number, and it waits no more. `None` exactly where none waits under it.
    pub fn close(&mut self, k: u64) -> Option<(u32, u64, u64)>
        ensures fetch { result ≡ under k self.old.waiting }
        ensures others { self.new ≡ record self.old { waiting = others k self.old.waiting } }
    {
        let (slot, incarnation, number) = self.waiting.remove(&k)?;
        self.by_object.remove(&(slot, incarnation, number, k));
        Some((slot, incarnation, number))
    }

    /// The number of this object's fetch, the least if there are several, `None` exactly where none waits. It takes no memory.
    pub fn find(&self, slot: u32, incarnation: u64, number: u64) -> Option<u64>
        ensures found { MatchOption result ((k : ℕ) → under k self.now.waiting ≢ Some (slot, incarnation, number))
            (λ k. under k self.now.waiting ≡ Some (slot, incarnation, number)) }
        ensures least { IfSome result (λ k. (other : ℕ) → under other self.now.waiting ≡ Some (slot, incarnation, number) → k ≤ other) }
    {
        let first = (slot, incarnation, number, 0);
        let last = (slot, incarnation, number, u64::MAX);
        let ((_, _, _, k), _) = self.by_object.range(first..=last).next()?;
        Some(*k)
    }
}
