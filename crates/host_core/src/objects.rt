//! The objects of a run's slots.
ghost use Rattle.std.specs.Prelude.{◌≡◌, ◌<◌, ◌≤◌, ◌+◌, ◌++◌, ◌∷◌, [], IfOk, OnErr, OnOk, length, replicate, vec_len};
ghost use Rattle.std.specs.Vec.{vec_capacity};
ghost use Rattle.std.specs.List.{All};
ghost use Rattle.object_core.specs.One.{unused};
ghost use Rattle.host_workers.specs.Switches.{kept_in};
ghost use Rattle.host_core.specs.Moving.{KeepsMessage};
ghost use Rattle.host_core.specs.Opening.{HasRoom};

use crate::moving::put;
pub(crate) use crate::room::Queues;
use do_disk::Disk;
use do_value::{Mem, NoMemory};
use lane::Plain;
use object_core::Core;
use std::alloc::Global;
use timeline::{Event, Message};

// Each list has one item for each slot that is mounted, from slot 0 on: the object, the events that were posted to it, and the
// messages that it has let go.
pub(crate) struct Objects<D> {
    pub(crate) cores: Vec<Core<D>>,
    pub(crate) inboxes: Vec<Plain<Event>>,
    pub(crate) outs: Vec<Plain<Message>>,
}

impl<D: Drop> Drop for Objects<D> {
    fn drop(self) {
        let Objects {
            cores,
            inboxes,
            outs,
        } = self;
        drop(cores);
        drop(inboxes);
        drop(outs);
    }
}

impl<D: Disk> Objects<D> {
    // These objects, each with a queue to it and one from it.
    pub(crate) fn of(alloc: Global, cores: Vec<Core<D>>, queues: Queues) -> Objects<D>
        requires { HasRoom (length cores.items) queues }
        ensures cores { result.cores ≡ cores }
        ensures inboxes { result.inboxes.items ≡ replicate (length cores.items) unused }
        ensures outs { result.outs.items ≡ replicate (length cores.items) unused }
    {
        let Queues { inboxes, outs } = queues;
        let count = cores.len();
        Objects {
            cores,
            inboxes: fill(alloc, inboxes, count),
            outs: fill(alloc, outs, count),
        }
    }

    // Puts a message that was taken of a slot's object and wasn't routed into the queue from it.
    pub(crate) fn keep(&mut self, kept: Option<(u32, Message)>) -> Mem<()>
        requires there { All (λ sent. sent.0 < length self.old.outs.items) (kept_in kept) }
        ensures cores { (self.new.cores ≡ self.old.cores) × (self.new.inboxes ≡ self.old.inboxes) }
        ensures kept { OnOk result (KeepsMessage kept self.old.outs.items self.new.outs.items) }
        ensures same { OnErr result (self.new.outs.items ≡ self.old.outs.items) }
    {
        let Some((slot, message)) = kept else {
            return Ok(());
        };
        put(&mut self.outs[slot as usize], message)
    }
}

impl<D: Disk + Drop> Objects<D> {
    // The objects without their queues.
    pub(crate) fn into_cores(self) -> Vec<Core<D>>
        ensures { result ≡ self.cores }
    {
        let Objects {
            cores,
            inboxes,
            outs,
        } = self;
        drop(inboxes);
        drop(outs);
        cores
    }
}

impl Queues {
    // No queues yet, with room for those of so many slots.
    pub(crate) fn with_room(alloc: Global, slots: usize) -> Mem<Queues>
        ensures { IfOk result (λ queues. (queues.inboxes.items ≡ []) × (queues.outs.items ≡ []) × HasRoom slots queues) }
    {
        let mut inboxes = Vec::new(alloc);
        let mut outs = Vec::new(alloc);
        if inboxes.reserve(slots).is_err() || outs.reserve(slots).is_err() {
            return Err(NoMemory);
        }
        Ok(Queues { inboxes, outs })
    }
}

// So many queues, through which nothing went.
fn fill<T: Drop>(alloc: Global, none: Vec<Plain<T>>, count: usize) -> Vec<Plain<T>>
    requires none { none.items ≡ [] }
    requires room { vec_len none + count ≤ vec_capacity none }
    ensures { result.items ≡ replicate count unused }
{
    let mut queues = none;
    for _ in 0..count {
        push_queue(alloc, &mut queues);
    }
    queues
}

// Puts a queue behind the others.
fn push_queue<T: Drop>(alloc: Global, queues: &mut Vec<Plain<T>>)
    requires { vec_len queues.old + 1 ≤ vec_capacity queues.old }
    ensures items { queues.new.items ≡ queues.old.items ++ unused ∷ [] }
    ensures len { vec_len queues.new ≡ vec_len queues.old + 1 }
    ensures room { vec_capacity queues.old ≤ vec_capacity queues.new }
{
    queues.push(Plain::new(alloc)).unwrap();
}
