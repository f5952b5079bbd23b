//! The tasks of an object that wait for an answer.
ghost use Rattle.std.specs.Prelude.{◌≡◌, ◌+◌, ◌++◌, ◌∷◌, [], IfOk, OnOk, OnErr, Some, None};
ghost use Rattle.object_calls.specs.Numbered.{under, others};

use do_value::{Mem, NoMemory};
use std::alloc::Global;
use std::collections::BTreeMap;
use std::marker::Model;

/// The tasks that wait, each under the number of its call or fetch. Contracts see how many numbers were given out, and the
/// numbers with their tasks, ascending. Each call costs logarithmic time in what waits.
pub struct Waiting {
    made: u64,
    tasks: BTreeMap<u64, u64>,
}

// Written out, so that letting one go is proved once.
impl Drop for Waiting {
    fn drop(self) {
        let Waiting { made: _, tasks } = self;
        drop(tasks);
    }
}

impl Model for Waiting {
    ghost use Rattle.object_calls.specs.Numbered.{Numbered, AreAtMost};
    ghost use Rattle.std.specs.Prelude.{ℕ};

    ghost Value = { Numbered ℕ };

    ghost view = { λ w. record { made = w.made; waiting = w.tasks.entries } };

    ghost invariant = { λ w. AreAtMost w.made w.tasks.entries };
}

impl Waiting {
    /// No task waits, and no number was given out.
    pub fn new(alloc: Global) -> Waiting
        ensures { result ≡ record { made = 0; waiting = [] } }
    {
        Waiting {
            made: 0,
            tasks: BTreeMap::new(alloc),
        }
    }

    /// The task waits from here on, under the next number, of which the first is 1. After `NoMemory` all is as before.
    pub fn add(&mut self, task: u64) -> Mem<u64>
        ensures number { IfOk result (λ number. number ≡ self.old.made + 1) }
        ensures added { OnOk result (self.new ≡ record {
          made = self.old.made + 1;
          waiting = self.old.waiting ++ (self.old.made + 1, task) ∷ [];
        }) }
        ensures fresh { under (self.old.made + 1) self.old.waiting ≡ None }
        ensures there { IfOk result (λ number. under number self.new.waiting ≡ Some task) }
        ensures same { OnErr result (self.new ≡ self.old) }
    {
        if self.made == u64::MAX {
            return Err(NoMemory);
        }
        let number = self.made + 1;
        match self.tasks.insert(number, task) {
            Ok(_) => {
                self.made = number;
                Ok(number)
            }
            Err(_) => Err(NoMemory),
        }
    }

    /// The task that waits under the number.
    pub fn find(&self, number: u64) -> Option<u64>
        ensures { result ≡ under number self.now.waiting }
    {
        self.tasks.get(&number).copied()
    }

    /// The same, and it waits no more.
    pub fn remove(&mut self, number: u64) -> Option<u64>
        ensures task { result ≡ under number self.old.waiting }
        ensures others { self.new ≡ record self.old { waiting = others number self.old.waiting } }
    {
        self.tasks.remove(&number)
    }
}
