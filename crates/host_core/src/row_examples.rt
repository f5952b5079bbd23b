//! Examples of rows that no report has: functions without a body, for their clauses. The logs stand in `specs/RowExamples.antt`.
ghost use Rattle.output_gate.specs.Examples.{full_early};
ghost use Rattle.host_core.specs.RowExamples.{IsNoFullRow, IsNoRow, IsTouchedBy, KeepsObject, answered_unbound, wiped};

use do_disk::Disk;

/// Nothing is answered for a slot that had no object before an object is bound to it.
pub fn unbound_answers_nothing<D: Disk>()
    ensures { IsNoRow D.moment_of D.left_since D.told D.faults_of answered_unbound }
{}

/// The storage of an object whose class the script lacks isn't written.
pub fn unknown_class_writes_nothing<S>()
    ensures { IsTouchedBy S wiped }
{}

/// A slot that had an object keeps it.
pub fn objects_stay<S>()
    ensures { KeepsObject S }
{}

/// A journal in which nothing stood isn't full at a small write, whatever the end says.
pub fn small_writes_fill_no_slot<D: Disk>()
    ensures { IsNoFullRow D.moment_of D.left_since D.told D.faults_of full_early }
{}
