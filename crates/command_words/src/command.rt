//! What the words ask for.

/// What `serve` is told.
#[derive(Debug, Drop)]
pub struct ServeWords {
    /// The path of the script.
    pub script: String,
    /// The folder of the slots.
    pub folder: String,
    /// How many slots the folder has, 1 to [`do_disk::MOST_SLOTS`]; 16 where `--slots` isn't given.
    pub slots: u32,
    /// How many workers turn the objects, 1 to 16; 4 where `--workers` isn't given.
    pub workers: u32,
    /// The most bytes of a slot's journal, 4,096 to 2^40; 2^30 where `--journal-bytes` isn't given.
    pub journal: u64,
}

/// What the words ask for.
#[derive(Debug, Drop)]
pub enum Command {
    /// Serves the lines of the input.
    Serve(ServeWords),
    /// Tells of a script.
    Check {
        /// The path of the script.
        script: String,
    },
    /// Prints what the slots of a folder have.
    Dump {
        /// The folder of the slots.
        folder: String,
        /// As of [`ServeWords`].
        slots: u32,
    },
    /// Serves the lines that a seed makes, and prints what they come to.
    Gen {
        /// What the lines are made of.
        seed: u64,
        /// How many lines, 0 to 1,000,000.
        count: u64,
        /// The folder of the slots.
        folder: String,
    },
    /// The words are no command.
    Usage,
}
