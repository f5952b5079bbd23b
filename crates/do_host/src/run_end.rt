//! Why a run ends early.
use do_disk::{DepotFault, Failed};
use do_value::NoMemory;

#[derive(Clone, Copy, Debug, Drop, PartialEq, Eq)]
pub(crate) enum RunEnd {
    // The depot failed.
    DepotFailed,
    NoMemory,
    WriteFailed,
}

impl RunEnd {
    ghost use Rattle.std.specs.Prelude.{◌≡◌};
    ghost use Rattle.do_host.specs.Status.{stop_status};

    pub(crate) fn status(self) -> u8
        ensures { result ≡ stop_status self }
    {
        match self {
            RunEnd::DepotFailed => 3,
            RunEnd::NoMemory => 4,
            RunEnd::WriteFailed => 6,
        }
    }
}

impl From<NoMemory> for RunEnd {
    ghost use Rattle.std.specs.Prelude.{◌≡◌};
    ghost use Rattle.do_host.specs.declared.run_end.RunEnd.TheVariants.{NoMemory as Wanting};

    ghost from_gives = { λ _ stop. stop ≡ Wanting };

    fn from(_: NoMemory) -> RunEnd {
        RunEnd::NoMemory
    }
}

impl From<Failed> for RunEnd {
    ghost use Rattle.std.specs.Prelude.{◌≡◌};
    ghost use Rattle.do_host.specs.declared.run_end.RunEnd.TheVariants.{WriteFailed};

    ghost from_gives = { λ _ stop. stop ≡ WriteFailed };

    // A write of the sink failed.
    fn from(_: Failed) -> RunEnd {
        RunEnd::WriteFailed
    }
}

impl From<DepotFault> for RunEnd {
    ghost use Rattle.std.specs.Prelude.{◌≡◌};
    ghost use Rattle.do_host.specs.Status.{depot_stop};

    ghost from_gives = { λ fault stop. stop ≡ depot_stop fault };

    fn from(fault: DepotFault) -> RunEnd {
        match fault {
            DepotFault::Failed => RunEnd::DepotFailed,
            DepotFault::NoMemory => RunEnd::NoMemory,
        }
    }
}
