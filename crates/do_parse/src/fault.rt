//! What may be wrong with the text of a script.
use thiserror::Error;

/// Why a text is no script, at a place in bytes from 0. Faults are found in the order of the text.
#[derive(Clone, Copy, Debug, PartialEq, Eq, Error)]
#[error("{kind} at {place}")]
pub struct ParseFault {
    pub place: u32,
    pub kind: ParseKind,
}

/// What is wrong.
#[derive(Clone, Copy, Debug, PartialEq, Eq, Error)]
pub enum ParseKind {
    /// The text has more than 262,144 bytes. The place is 262,144.
    #[error("more bytes than a script may have")]
    TooLong,
    /// A byte that begins no well-formed UTF-8 sequence, a character that begins no token, a backslash that begins no
    /// escape, or a letter or digit that follows a number.
    #[error("a character that cannot stand there")]
    BadChar,
    /// A text or a block comment that begins here and has no end.
    #[error("a text or a comment that is not closed")]
    OpenText,
    /// A number past 9007199254740991 (2^53 - 1).
    #[error("a number that is too great")]
    LongNumber,
    /// A token for which no script begins with the tokens up to it. Where the text ends too early, the place is its end,
    /// without the space, tabs, CR and LF that it ends in.
    #[error("a token that cannot stand there")]
    Unexpected,
    /// A token that more than 64 statements, expressions and operands hold.
    #[error("a token in too many phrases")]
    TooNested,
    /// Memory was wanted and refused. The place is 0.
    #[error("no memory is left")]
    NoMemory,
}
