//! The input gate of one object.
ghost use Rattle.std.specs.Prelude.{◌≡◌, ◌==◌, ◌&&◌, true, false, not, Some, None, is_some};
ghost use Rattle.timeline.specs.Eligible.{is_eligible_while};
ghost use Rattle.input_gate.specs.Gates.{is_block};

use std::marker::Model;
use timeline::Event;

/// Whether the object waits for its storage, and which of its tasks has a block open. Contracts see both.
#[derive(Debug)]
pub struct Gate {
    waits: bool,
    block: Option<u64>,
}

// Written out, so that letting one go is proved once.
impl Drop for Gate {
    fn drop(self) {
        let Gate { waits: _, block: _ } = self;
    }
}

impl Model for Gate {
    ghost use Rattle.input_gate.specs.Gates.{Gated};

    ghost Value = { Gated };

    ghost view = { λ gate. record { waits = gate.waits; block = gate.block } };
}

impl Gate {
    /// A gate that is open.
    pub fn new() -> Gate
        ensures { result ≡ record { waits = false; block = None } }
    {
        Gate {
            waits: false,
            block: None,
        }
    }

    /// The object waits for its storage from here on.
    pub fn wait(&mut self)
        ensures { self.new ≡ record self.old { waits = true } }
    {
        self.waits = true;
    }

    /// It waits no more, however often it was said to.
    pub fn done(&mut self)
        ensures { self.new ≡ record self.old { waits = false } }
    {
        self.waits = false;
    }

    /// This task has a block open from here on.
    pub fn block(&mut self, task: u64)
        ensures { self.new ≡ record self.old { block = Some task } }
    {
        self.block = Some(task);
    }

    /// No task has a block open.
    pub fn unblock(&mut self)
        ensures { self.new ≡ record self.old { block = None } }
    {
        self.block = None;
    }

    /// Whether the event may be delivered now. `answered` is the task that an answer would resume, `tasks` how many are open.
    pub fn may_deliver(&self, event: &Event, answered: Option<u64>, tasks: u64) -> bool
        ensures closed { self.now.waits ≡ true → result ≡ false }
        ensures eligible { self.now.waits ≡ false
            → result ≡ is_eligible_while (is_some self.now.block) (is_block self.now.block answered) (tasks == 0) event.now }
    {
        if self.waits {
            return false;
        }
        match event {
            Event::Bind(_) => true,
            Event::Answer { .. } => self.block.is_none() || self.is_of_block(answered),
            Event::Evict { .. } => self.block.is_none() && tasks == 0,
            Event::Call { .. } | Event::Tick { .. } => self.block.is_none(),
        }
    }

    // Whether this is the task whose block is open.
    fn is_of_block(&self, task: Option<u64>) -> bool
        ensures { result ≡ is_block self.now.block task }
    {
        match (self.block, task) {
            (Some(block), Some(task)) => block == task,
            _ => false,
        }
    }
}
