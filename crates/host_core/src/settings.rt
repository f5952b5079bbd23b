//! What a run is asked for, and how it ends.
use storage_map::Identity;

/// What a run is asked for.
#[derive(Debug, Drop)]
pub struct Settings {
    /// The folder of the slots.
    pub folder: String,
    /// How many slots there are, 1 to [`do_disk::MOST_SLOTS`].
    pub slots: u32,
    /// How many threads work, 1 to 16.
    pub workers: u32,
    /// How many bytes a slot's journal may have, 4,096 to 2^40.
    pub journal: u64,
}

/// A run's end, with the source and the sink as it left them.
#[derive(Drop)]
pub struct Served<R, W> {
    pub end: ServeEnd,
    pub input: R,
    pub out: W,
}

/// How a run ends.
#[derive(Debug, Drop)]
pub enum ServeEnd {
    /// The input was read to its end, or through its last line that counts, and nothing is under way.
    Finished,
    /// The depot or a slot's disk failed while the slots were opened.
    OpenFailed,
    /// A slot's file isn't one that may be served.
    BadSlot(Bad),
    /// The source failed. Nothing is under way.
    ReadFailed,
    /// The sink failed.
    WriteFailed,
    /// Memory was wanted and refused.
    NoMemory,
}

/// Why a slot isn't mounted though its disk didn't fail. Slots are counted from 0, places are in bytes from 0.
#[derive(Debug, Drop)]
pub enum Bad {
    /// Its file is no journal: it differs from one at this place.
    Foreign {
        slot: u32,
        place: u64,
    },
    /// Its journal is damaged at this place.
    Damaged {
        slot: u32,
        place: u64,
    },
    /// Its frames name two objects.
    Mixed {
        slot: u32,
        first: Identity,
        other: Identity,
    },
    /// Slot `b` names the object of slot `a`.
    Twice {
        a: u32,
        b: u32,
    },
}
