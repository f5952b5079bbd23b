//! Why a line is refused.

/// Why a line of the input is no request.
#[derive(Debug, Clone, Copy, PartialEq, Eq, Drop)]
pub enum Refusal {
    /// It has more bytes before its LF than are read.
    Long,
    /// It is no JSON (RFC 8259) in UTF-8, or nests more than 127 deep.
    Json,
    /// It is JSON of no known form.
    Shape,
}
