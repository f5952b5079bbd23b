//! Who of the workers goes on to look at the board, and who sleeps.

use crate::jobs::Job;

// The workers that have come: those that sleep; those that were called and have not woken yet; and those that look soon, which are all that
// are awake and hold nothing that may keep them long, and those that were called. A worker in a turn, at a back, which may wait for its
// disk, or at the input, which may be silent, looks nobody knows when.
#[derive(Drop)]
pub(crate) struct Crew {
    asleep: u32,
    called: u32,
    soon: u32,
}

impl Crew {
    // Nobody has come yet.
    pub(crate) fn new() -> Crew {
        Crew {
            asleep: 0,
            called: 0,
            soon: 0,
        }
    }

    // A worker has come, and looks.
    pub(crate) fn come(&mut self) {
        self.soon = self.soon.saturating_add(1);
    }

    // A worker is about to sleep.
    pub(crate) fn sleep(&mut self) {
        self.soon = self.soon.saturating_sub(1);
        self.asleep = self.asleep.saturating_add(1);
    }

    // One that slept has woken, since it or another was called, or by chance.
    pub(crate) fn wake(&mut self) {
        if self.called > 0 {
            self.called -= 1;
            return;
        }
        self.asleep = self.asleep.saturating_sub(1);
        self.soon = self.soon.saturating_add(1);
    }

    // One that sleeps is called.
    pub(crate) fn call(&mut self) {
        self.asleep = self.asleep.saturating_sub(1);
        self.called = self.called.saturating_add(1);
        self.soon = self.soon.saturating_add(1);
    }

    // A worker takes the cell of this place.
    pub(crate) fn begin(&mut self, place: Job) {
        if may_last(place) {
            self.soon = self.soon.saturating_sub(1);
        }
    }

    // A worker has put that cell back, and looks.
    pub(crate) fn end(&mut self, place: Job) {
        if may_last(place) {
            self.soon = self.soon.saturating_add(1);
        }
    }

    pub(crate) fn is_any_asleep(&self) -> bool {
        self.asleep > 0
    }

    pub(crate) fn looks_any_soon(&self) -> bool {
        self.soon > 0
    }
}

// Whether the work on the cell of a place may last: a turn, what waits for a disk, and what waits for the input.
fn may_last(place: Job) -> bool {
    !matches!(place, Job::Switch)
}
