//! Why the parser stops.
use std::alloc::AllocFailed;

/// Why the parser stops at the token that is next.
#[derive(Clone, Copy, Debug, PartialEq, Eq)]
pub enum Stop {
    /// No script begins with the tokens up to this one.
    Unexpected,
    /// Too many phrases hold this token.
    TooNested,
    /// Memory was wanted and refused.
    NoMemory,
}

impl<T: Drop> From<AllocFailed<T>> for Stop {
    ghost use Rattle.std.specs.Prelude.{◌≡◌};
    ghost use Rattle.do_parse.specs.declared.stop.Stop.TheVariants.{NoMemory};

    ghost from_gives = { λ _ stop. stop ≡ NoMemory };

    fn from(_e: AllocFailed<T>) -> Stop {
        Stop::NoMemory
    }
}
