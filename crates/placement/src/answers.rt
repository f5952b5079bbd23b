//! What the directory answers.

/// The slot of an object that is placed.
#[derive(Clone, Copy, Debug, Drop, PartialEq, Eq)]
pub enum Placed {
    /// The object had this slot.
    Found(u32),
    /// It had none, and this is its slot from now on.
    New(u32),
}

/// Why a slot can't be given the object that it is opened with.
#[derive(Clone, Copy, Debug, Drop, PartialEq, Eq)]
pub enum AdoptFault {
    /// The slot `a` has the object already, so `b` can't have it.
    Twice { a: u32, b: u32 },
    /// Memory was wanted and refused.
    NoMemory,
}

/// Why an object can't be given a slot.
#[derive(Clone, Copy, Debug, Drop, PartialEq, Eq)]
pub enum PlaceFault {
    /// The object has no slot, and each of these many slots has an object.
    NoSlot { slots: u32 },
    /// Memory was wanted and refused.
    NoMemory,
}
