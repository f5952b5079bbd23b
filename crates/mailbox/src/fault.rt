//! Why the switch stopped.

/// Why a switch is stopped. From then on each call gives this fault again and does nothing.
#[derive(Clone, Copy, Debug, Drop, PartialEq, Eq)]
pub enum SwitchFault {
    /// A write of the sink failed.
    WriteFailed,
    /// Memory was wanted and refused.
    NoMemory,
}
