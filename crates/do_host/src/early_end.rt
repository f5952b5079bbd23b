//! Why a run ends before a slot is asked for.
use crate::run_end::RunEnd;
use do_disk::DepotFault;

#[derive(Drop)]
pub(crate) enum EarlyEnd {
    // The script is refused. The line says where and why.
    Refused(Vec<u8>),
    Stopped(RunEnd),
}

impl From<DepotFault> for EarlyEnd {
    ghost use Rattle.std.specs.Prelude.{◌≡◌};
    ghost use Rattle.do_host.specs.Status.{depot_stop};
    ghost use Rattle.do_host.specs.declared.early_end.EarlyEnd.TheVariants.{Stopped};

    ghost from_gives = { λ fault end. end ≡ Stopped (depot_stop fault) };

    fn from(fault: DepotFault) -> EarlyEnd {
        EarlyEnd::Stopped(RunEnd::from(fault))
    }
}
