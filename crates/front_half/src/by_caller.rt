//! What is kept for callers.
ghost use Rattle.std.specs.Prelude.{◌≡◌, if◌then◌else◌, Some, None, OnOk};
ghost use Rattle.std.specs.Option.{option_copied};
ghost use Rattle.timeline.specs.Replies.{same_caller};
ghost use Rattle.timeline.specs.declared.caller.Caller.{Caller as SeenCaller};
ghost use Rattle.front_half.specs.ByCallers.{kept_for};

use do_value::{Mem, NoMemory};
use std::alloc::Global;
use std::collections::BTreeMap;
use timeline::Caller;

/// What is kept for callers: for a request under its line, for a call of an object under its slot, its incarnation and the number
/// of the call. Each call costs logarithmic time in what is kept.
pub(crate) struct ByCaller<X> {
    requests: BTreeMap<u64, X>,
    calls: BTreeMap<(u32, u64, u64), X>,
}

// Written out, so that letting one go is proved once.
impl<X: Drop> Drop for ByCaller<X> {
    fn drop(self) {
        let ByCaller { requests, calls } = self;
        drop(requests);
        drop(calls);
    }
}

impl<X: Drop> ByCaller<X> {
    /// Nothing is kept.
    pub(crate) fn new(alloc: Global) -> ByCaller<X>
        ensures { (from : SeenCaller) → kept_for from result ≡ None }
    {
        ByCaller {
            requests: BTreeMap::new(alloc),
            calls: BTreeMap::new(alloc),
        }
    }

    /// This is kept for the caller from here on, in place of what was.
    pub(crate) fn put(&mut self, to: Caller, kept: X) -> Mem<()>
        ensures { OnOk result ((from : SeenCaller) → kept_for from self.new ≡ (if same_caller from to then Some kept else kept_for from self.old)) }
    {
        match to {
            Caller::Request { line, number: _ } => match self.requests.insert(line, kept) {
                Ok(_) => Ok(()),
                Err(_) => Err(NoMemory),
            },
            Caller::Object {
                slot,
                incarnation,
                number,
            } => match self.calls.insert((slot, incarnation, number), kept) {
                Ok(_) => Ok(()),
                Err(_) => Err(NoMemory),
            },
        }
    }

    /// What is kept for the caller.
    pub(crate) fn get(&self, from: Caller) -> Option<&X>
        ensures { option_copied result ≡ kept_for from self.now }
    {
        match from {
            Caller::Request { line, number: _ } => self.requests.get(&line),
            Caller::Object {
                slot,
                incarnation,
                number,
            } => self.calls.get(&(slot, incarnation, number)),
        }
    }
}
