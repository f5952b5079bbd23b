//! What names one run for contracts.
use std::marker::Brand;
use std::sync::ledger::Ledger;

/// Names one run: its script, the lanes of its slots, and how each of its cells began. It has no functions.
pub trait Names: Ledger {
    ghost use Rattle.host_workers.specs.Names.{Run};

    ghost names: { Run };
}

impl Names for Brand {
    ghost use Rattle.host_workers.specs.Names.{nobody};

    ghost names = { nobody };
}
