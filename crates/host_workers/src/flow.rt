//! How many lines were read, and how many of these were accepted.
use crate::jobs::MOST_STEPS;

/// How many lines that were read may wait to be accepted, with several workers: as long as so many wait, none is read.
pub const MOST_WAITING_LINES: u32 = 4_096;

// The lines that went from the reader to the switch, counted where their cells come back. Meanwhile more may have been read or accepted.
#[derive(Drop)]
pub(crate) struct Flow {
    read: u64,
    accepted: u64,
    // Whether several lines were at hand when lines were read last.
    several: bool,
}

impl Flow {
    // Nothing was read yet.
    pub(crate) fn new() -> Flow {
        Flow {
            read: 0,
            accepted: 0,
            several: false,
        }
    }

    // So many more were read at once.
    pub(crate) fn read(&mut self, lines: u32) {
        self.read = self.read.saturating_add(u64::from(lines));
        self.several = lines > 1;
    }

    // So many were accepted in all.
    pub(crate) fn accept(&mut self, lines: usize) {
        self.accepted = lines as u64;
    }

    pub(crate) fn had_several(&self) -> bool {
        self.several
    }

    // How many lines may be read at once. Those that are accepted meanwhile only make room.
    pub(crate) fn room(&self) -> u32 {
        let waiting = self.read.saturating_sub(self.accepted);
        match u64::from(MOST_WAITING_LINES).saturating_sub(waiting) {
            room if room < u64::from(MOST_STEPS) => room as u32,
            _ => MOST_STEPS,
        }
    }
}
