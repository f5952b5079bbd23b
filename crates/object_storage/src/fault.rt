//! Why an ask wasn't answered.

use thiserror::Error;

/// Why an ask wasn't answered.
#[derive(Clone, Copy, Debug, Drop, PartialEq, Eq, Error)]
pub enum AnswerFault {
    /// A value wasn't read: the disk failed, and its count of faults was that before and is this after. They are the same where the bytes
    /// that were read are no value, which comes over no disk that tells its content.
    #[error("a read failed, with {before} faults of the disk before it and {after} after it")]
    ReadFailed { before: u64, after: u64 },
    /// Memory was wanted and refused.
    #[error("out of memory")]
    NoMemory,
}
