use do_value::BuildFault;

/// Why a JSON value is not read as a value.
#[derive(Debug, Clone, Copy, PartialEq, Eq, Drop)]
pub enum WireFault {
    /// The first number that is refused is kept as neither an `i64` nor a `u64`: it has a point or an
    /// exponent, or it is whole and past 64 bits.
    Float,
    /// The first number that is refused is whole and lies farther from 0 than
    /// [`MOST_NUMBER`](do_value::MOST_NUMBER).
    RangeNum,
    /// No number is refused, and lists and records nest deeper than
    /// [`MOST_LEVELS`](do_value::MOST_LEVELS).
    TooDeep,
    /// No number is refused, nothing nests too deep, and the encoding passes
    /// [`MOST_BYTES`](do_value::MOST_BYTES).
    TooLarge,
    /// There is no memory left.
    NoMemory,
}

/// The same cause.
impl From<BuildFault> for WireFault {
    ghost use Rattle.std.specs.Prelude.{◌≡◌};
    ghost use Rattle.do_wire.specs.Reading.{wire_fault_of};

    ghost from_gives = { λ fault e. e ≡ wire_fault_of fault };

    fn from(fault: BuildFault) -> WireFault {
        match fault {
            BuildFault::TooDeep => WireFault::TooDeep,
            BuildFault::TooLarge { size: _, limit: _ } => WireFault::TooLarge,
            BuildFault::NoMemory => WireFault::NoMemory,
        }
    }
}
