//! Examples of files of both versions: functions without a body, for their clauses. The files stand in `specs/Examples.antt`.
ghost use Rattle.batch_journal.specs.Examples.{GetsMarker, GetsNone, IsDamagedWithoutGate};

/// A file of version 1 gets the marker behind its frames, and recovers to the same map.
pub fn one_put_gets_a_marker()
    ensures first { GetsMarker }
    ensures second { GetsNone }
{}

/// A marker without the gate behind it is damaged.
pub fn a_marker_without_its_gate_is_damaged()
    ensures { IsDamagedWithoutGate }
{}
