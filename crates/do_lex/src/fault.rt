//! What may be wrong with a text.
use thiserror::Error;

/// Why a text is not cut into tokens. Places are byte offsets from 0.
#[derive(Clone, Copy, Debug, PartialEq, Eq, Error)]
pub enum LexFault {
    /// A byte that begins no well-formed UTF-8 sequence, a character that begins no token, a backslash
    /// that begins no escape, or a letter or digit that follows a number.
    #[error("a character at {0} that cannot stand there")]
    BadChar(u32),
    /// A text or a block comment that begins here and has no end.
    #[error("a text or a comment at {0} that is not closed")]
    OpenText(u32),
    /// A number past 9007199254740991 (2^53 - 1).
    #[error("a number at {0} that is too great")]
    LongNumber(u32),
}
