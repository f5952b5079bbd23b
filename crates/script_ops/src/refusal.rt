//! The errors that scripts are thrown, each with the name and the message of its record.
ghost use Rattle.std.specs.Prelude.{◌≡◌, ◌≤◌, length};
ghost use Rattle.script_ops.specs.Errors.{error_record};
ghost use Rattle.script_ops.specs.Answers.{error_of, failure_word};

/// The errors that scripts are thrown.
#[derive(Debug, Clone, Copy, Drop)]
pub enum Refusal {
    /// A value is of a kind that isn't taken.
    WrongType,
    /// The value has no such property, or none that can be written.
    NoProperty,
    /// An index is of a wrong kind.
    WrongIndex,
    /// An item before the first, or past the place behind the last, is written.
    NoIndex,
    /// A number is out of range, or a text is no number.
    NoNumber,
    /// A quotient isn't whole.
    NotWhole,
    /// A text is split by the empty text.
    NoSeparator,
    /// A value has too many levels.
    TooDeep,
    /// A value has too many bytes.
    TooLarge,
    /// A key has too many bytes.
    KeyLong,
    /// A value has too many bytes to be stored.
    ValueLong,
    /// A batch has too many bytes.
    BatchFull,
    /// There are too many keys, or a limit is below 1.
    BadCount,
    /// A time is before 0.
    BadTime,
    /// The name of an object has too many bytes.
    NameLong,
    /// Helpers call each other too deep.
    NestedTooDeep,
    /// The transaction was rolled back.
    RolledBack,
    /// A block is opened inside a block.
    BlockInBlock,
    /// Objects call each other too deep.
    CallTooDeep,
    /// The task made too many calls and fetches.
    TooManyCalls,
    /// A fetch failed.
    FetchFailed,
    /// A call of another object failed.
    CallFailed(CallFailure),
}

/// Why a call of another object failed, as its caller is told.
#[derive(Debug, Clone, Copy, Drop)]
pub enum CallFailure {
    /// The script has no such class.
    NoClass,
    /// The class has no such method for callers.
    NoMethod,
    /// The object has no slot, and none is free.
    NoSlot,
    /// The method threw.
    Thrown,
    /// The method took too many steps, or asked too much.
    Exceeded,
    /// The object was reset before the call was answered.
    Reset,
    /// The object is down.
    Down,
}

// The name and the message of the error.
pub(crate) fn parts_of(refusal: Refusal) -> (&'static str, &'static str)
    ensures parts { error_of refusal ≡ error_record result.0.now result.1.now }
    ensures short { (length result.0.now ≤ 16) × (length result.1.now ≤ 16) }
{
    match refusal {
        Refusal::WrongType => ("TypeError", "type"),
        Refusal::NoProperty => ("TypeError", "property"),
        Refusal::WrongIndex => ("TypeError", "index"),
        Refusal::NoIndex => ("RangeError", "index"),
        Refusal::NoNumber => ("RangeError", "number"),
        Refusal::NotWhole => ("RangeError", "divide"),
        Refusal::NoSeparator => ("RangeError", "separator"),
        Refusal::TooDeep => ("RangeError", "depth"),
        Refusal::TooLarge => ("RangeError", "size"),
        Refusal::KeyLong => ("RangeError", "key"),
        Refusal::ValueLong => ("RangeError", "value"),
        Refusal::BatchFull => ("RangeError", "batch"),
        Refusal::BadCount => ("RangeError", "count"),
        Refusal::BadTime => ("RangeError", "time"),
        Refusal::NameLong => ("RangeError", "name"),
        Refusal::NestedTooDeep => ("RangeError", "nesting"),
        Refusal::RolledBack => ("Error", "rollback"),
        Refusal::BlockInBlock => ("Error", "block"),
        Refusal::CallTooDeep => ("Depth", ""),
        Refusal::TooManyCalls => ("TooManyCalls", ""),
        Refusal::FetchFailed => ("FetchError", ""),
        Refusal::CallFailed(failure) => ("CallError", word_of(failure)),
    }
}

// The word of the failure.
fn word_of(failure: CallFailure) -> &'static str
    ensures word { failure_word failure ≡ result.now }
    ensures short { length result.now ≤ 16 }
{
    match failure {
        CallFailure::NoClass => "NoClass",
        CallFailure::NoMethod => "NoMethod",
        CallFailure::NoSlot => "NoSlot",
        CallFailure::Thrown => "Thrown",
        CallFailure::Exceeded => "Exceeded",
        CallFailure::Reset => "Reset",
        CallFailure::Down => "Down",
    }
}
