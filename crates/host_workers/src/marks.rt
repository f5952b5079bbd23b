//! Which places have something to do.
use crate::jobs::{Found, Job};
use timeline::Event;

// How many slots a run has at most, as a count of places.
const MOST_SLOTS: usize = do_disk::MOST_SLOTS as usize;

// How often in a row a back that has answered its front leaves its flight for the next look at most.
pub(crate) const MOST_WAITS: u8 = 255;

// How many slots a word of marks has.
const WORD_SLOTS: u32 = 64;

// A mark for each slot, 64 of them in each word.
#[derive(Drop)]
struct Slots {
    words: [u64; 4],
}

impl Slots {
    fn none() -> Slots {
        Slots { words: [0; 4] }
    }

    fn has(&self, slot: u32) -> bool {
        self.word(slot / WORD_SLOTS) & bit_of(slot) != 0
    }

    fn set(&mut self, slot: u32, mark: bool) {
        if let Some(word) = self
            .words
            .as_mut_slice()
            .get_mut((slot / WORD_SLOTS) as usize)
        {
            if mark {
                *word |= bit_of(slot);
            } else {
                *word &= !bit_of(slot);
            }
        }
    }

    fn word(&self, at: u32) -> u64 {
        match self.words.as_slice().get(at as usize) {
            Some(word) => *word,
            None => 0,
        }
    }
}

// For each place of a front, of a back and of the switch whether its cell may have something to do. A mark is kept while the cell is out.
// The lines have none: they are read where nothing else is to be done.
#[derive(Drop)]
pub(crate) struct Marks {
    fronts: Slots,
    backs: Slots,
    switch: bool,
    // How many of the switch's posts were followed.
    posts: usize,
    // The backs that are looked at again once their fronts were, and how often in a row each has waited so.
    waiting: Slots,
    waits: [u8; MOST_SLOTS],
}

impl Marks {
    // Marks of all places of so many slots: what was recovered may have something to do.
    pub(crate) fn new(slots: u32) -> Marks {
        let mut marks = Marks {
            fronts: Slots::none(),
            backs: Slots::none(),
            switch: true,
            posts: 0,
            waiting: Slots::none(),
            waits: [0; MOST_SLOTS],
        };
        for slot in 0..slots {
            marks.set(Job::Front(slot), true);
            marks.set(Job::Back(slot), true);
        }
        marks
    }

    pub(crate) fn front(&self, slot: u32) -> bool {
        self.fronts.has(slot)
    }

    pub(crate) fn back(&self, slot: u32) -> bool {
        self.backs.has(slot)
    }

    pub(crate) fn switch(&self) -> bool {
        self.switch
    }

    // The first slot from this one on of which a half is marked.
    pub(crate) fn first_from(&self, slot: u32) -> Option<u32> {
        let first = slot / WORD_SLOTS;
        for at in first..(MOST_SLOTS as u32 / WORD_SLOTS) {
            let marked = self.fronts.word(at) | self.backs.word(at);
            let behind = if at == first {
                marked & (u64::MAX << (slot % WORD_SLOTS))
            } else {
                marked
            };
            if behind != 0 {
                return Some((at * WORD_SLOTS).wrapping_add(behind.trailing_zeros()));
            }
        }
        None
    }

    // Sets the mark of a place, or takes it away.
    pub(crate) fn set(&mut self, place: Job, mark: bool) {
        match place {
            Job::Front(slot) => self.fronts.set(slot, mark),
            Job::Back(slot) => self.backs.set(slot, mark),
            Job::Switch => self.switch = mark,
            Job::Lines => (),
        }
    }

    // How often in a row a back has waited for what its front writes next.
    pub(crate) fn waits(&self, slot: u32) -> u8 {
        match self.waits.as_slice().get(slot as usize) {
            Some(waits) => *waits,
            None => MOST_WAITS,
        }
    }

    // Marks what may have something to do after work on the cell of a place. So does the place itself, where more is left to do.
    pub(crate) fn note(&mut self, place: Job, found: Found) {
        self.end_wait(place);
        if found.waits > 0 {
            self.wait(place, found.waits);
        }
        if found.told {
            self.follow(place);
        }
        if found.freed {
            self.switch = true;
        }
        if found.more {
            self.set(place, true);
        }
    }

    // A front was looked at: what its back has taken waits no more. A back was looked at: its waits in a row have ended.
    fn end_wait(&mut self, place: Job) {
        match place {
            Job::Front(slot) => {
                if self.waiting.has(slot) {
                    self.waiting.set(slot, false);
                    self.backs.set(slot, true);
                }
            }
            Job::Back(slot) => self.set_waits(slot, 0),
            _ => (),
        }
    }

    // A back has answered its front, and leaves its flight until the front was looked at: so often in a row by now.
    fn wait(&mut self, place: Job, waits: u8) {
        if let Job::Back(slot) = place {
            self.fronts.set(slot, true);
            self.waiting.set(slot, true);
            self.set_waits(slot, waits);
        }
    }

    fn set_waits(&mut self, slot: u32, count: u8) {
        if let Some(waits) = self.waits.as_mut_slice().get_mut(slot as usize) {
            *waits = count;
        }
    }

    // A front has sent entries to its back, a back notices to its front, and the lines a line to the switch.
    fn follow(&mut self, place: Job) {
        match place {
            Job::Front(slot) => self.set(Job::Back(slot), true),
            Job::Back(slot) => self.set(Job::Front(slot), true),
            Job::Switch => (),
            Job::Lines => self.switch = true,
        }
    }

    // Marks the fronts to which the switch has posted since its posts were followed last. These are all that it has made.
    pub(crate) fn follow_posts(&mut self, posts: &[(u32, Event)]) {
        for at in self.posts..posts.len() {
            if let Some(post) = posts.get(at) {
                self.fronts.set(post.0, true);
            }
        }
        self.posts = posts.len();
    }
}

fn bit_of(slot: u32) -> u64 {
    1 << (slot % WORD_SLOTS)
}
