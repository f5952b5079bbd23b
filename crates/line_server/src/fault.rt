//! Why no line is read.
use do_disk::Failed;
use do_value::NoMemory;
use std::alloc::AllocError;

/// Why no line is read.
#[derive(Debug, Clone, Copy, PartialEq, Eq, Drop)]
pub enum LineFault {
    /// A read of the source failed.
    ReadFailed,
    /// There is no memory left.
    NoMemory,
}

impl From<Failed> for LineFault {
    ghost use Rattle.std.specs.Prelude.{◌≡◌};
    ghost use Rattle.line_server.specs.declared.fault.LineFault.TheVariants.{ReadFailed};

    ghost from_gives = { λ _ fault. fault ≡ ReadFailed };

    fn from(_failed: Failed) -> LineFault {
        LineFault::ReadFailed
    }
}

impl From<AllocError> for LineFault {
    ghost use Rattle.std.specs.Prelude.{◌≡◌};
    ghost use Rattle.line_server.specs.declared.fault.LineFault.TheVariants.{NoMemory};

    ghost from_gives = { λ _ fault. fault ≡ NoMemory };

    fn from(_refused: AllocError) -> LineFault {
        LineFault::NoMemory
    }
}

impl From<NoMemory> for LineFault {
    ghost use Rattle.std.specs.Prelude.{◌≡◌};
    ghost use Rattle.line_server.specs.declared.fault.LineFault.TheVariants.{NoMemory as Wanting};

    ghost from_gives = { λ _ fault. fault ≡ Wanting };

    fn from(_refused: NoMemory) -> LineFault {
        LineFault::NoMemory
    }
}
