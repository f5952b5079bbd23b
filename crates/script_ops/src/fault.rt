//! Why there is no value.
use crate::refusal::Refusal;
use do_value::{BuildFault, NoMemory, Value};
use std::alloc::AllocError;

/// Why an operator gives no value.
#[derive(Debug, Drop)]
pub enum OpFault {
    /// It throws this value, an error record.
    Throw(Value),
    /// Memory was wanted and refused.
    NoMemory,
}

/// Why there is no value, before the error is built that is thrown.
#[derive(Debug, Clone, Copy, Drop)]
pub enum Stop {
    /// This error is to be thrown.
    Throws(Refusal),
    /// Memory was wanted and refused.
    NoRoom,
}

impl From<Refusal> for Stop {
    ghost use Rattle.std.specs.Prelude.{◌≡◌};
    ghost use Rattle.script_ops.specs.declared.fault.Stop.TheVariants.{Throws};

    ghost from_gives = { λ refusal stop. stop ≡ Throws refusal };

    fn from(refusal: Refusal) -> Stop {
        Stop::Throws(refusal)
    }
}

/// A value that isn't built is too deep, too large, or has no memory.
impl From<BuildFault> for Stop {
    ghost use Rattle.std.specs.Prelude.{◌≡◌};
    ghost use Rattle.script_ops.specs.Answers.{stop_of};

    ghost from_gives = { λ fault stop. stop ≡ stop_of fault };

    fn from(fault: BuildFault) -> Stop {
        match fault {
            BuildFault::TooDeep => Stop::Throws(Refusal::TooDeep),
            BuildFault::TooLarge { size: _, limit: _ } => Stop::Throws(Refusal::TooLarge),
            BuildFault::NoMemory => Stop::NoRoom,
        }
    }
}

impl From<NoMemory> for Stop {
    ghost use Rattle.std.specs.Prelude.{◌≡◌};
    ghost use Rattle.script_ops.specs.declared.fault.Stop.TheVariants.{NoRoom};

    ghost from_gives = { λ fault stop. stop ≡ NoRoom };

    fn from(_: NoMemory) -> Stop {
        Stop::NoRoom
    }
}

impl From<AllocError> for Stop {
    ghost use Rattle.std.specs.Prelude.{◌≡◌};
    ghost use Rattle.script_ops.specs.declared.fault.Stop.TheVariants.{NoRoom};

    ghost from_gives = { λ fault stop. stop ≡ NoRoom };

    fn from(_: AllocError) -> Stop {
        Stop::NoRoom
    }
}
