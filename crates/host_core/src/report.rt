//! What a run leaves beside its end.
ghost use Rattle.std.specs.Prelude.{◌≡◌, [], None};
ghost use Rattle.mailbox.specs.Seen.{seen_log};
ghost use Rattle.timeline.specs.Switch.{no_log};

use mailbox::SwitchLog;
use std::alloc::Global;
use storage_map::Identity;
use timeline::{BackLog, FrontLog};

/// The report of a run: its disks and its one actual history, in memory.
pub struct Report<S> {
    /// One row for each slot that was mounted, from slot 0 on.
    pub slots: Vec<SlotReport<S>>,
    /// The disk whose mounting didn't succeed, or whose object an earlier slot has.
    pub unopened: Option<S>,
    /// What passed between the lines and the objects.
    pub switch: SwitchLog,
    /// How many lines were read, blank ones included.
    pub lines: u64,
}

// Written out, so that the crates that hold a report prove nothing of what it holds.
impl<S: Drop> Drop for Report<S> {
    fn drop(self) {
        let Report {
            slots,
            unopened,
            switch,
            lines: _,
        } = self;
        drop(slots);
        drop(unopened);
        drop(switch);
    }
}

/// A slot: its disk, the logs of its object since it was mounted, and its object, where it has one.
#[derive(Drop)]
pub struct SlotReport<S> {
    pub store: S,
    pub front: FrontLog,
    pub back: BackLog,
    pub identity: Option<Identity>,
}

impl<S> Report<S> {
    /// The report of a run that hasn't begun. It takes no memory.
    pub fn new(alloc: Global) -> Report<S>
        ensures slots { result.slots.items ≡ [] }
        ensures unopened { result.unopened ≡ None }
        ensures switch { seen_log result.switch ≡ no_log }
        ensures lines { result.lines ≡ 0 }
    {
        Report {
            slots: Vec::new(alloc),
            unopened: None,
            switch: SwitchLog::new(alloc),
            lines: 0,
        }
    }
}
