//! Laws of backs, for whoever holds one. A call costs nothing and tells its caller the law.
ghost use Rattle.output_gate.specs.Examples.{IsFilledByNone, IsToldByNone, full_early, missed_ended, missed_unended};
ghost use Rattle.output_gate.specs.Laws.{HistorySteps};
ghost use Rattle.output_gate.specs.Written.{FreshIsWritten};
ghost use Rattle.output_gate.specs.Telling.{BackTells, BackIsOrdered, MapIsWritten, NoticesAnswer};

use crate::back::Back;
use do_disk::Disk;

/// Each step of a back changes the newest incarnations of its history alone.
pub fn history_steps()
    ensures { HistorySteps }
{}

/// A notice that a back gives at once is the map's answer to the entry.
pub fn notices_answer()
    ensures { NoticesAnswer }
{}

/// What has left, what a crash leaves and what was kept, of any back over a disk that tells its content.
pub fn back_tells<D: Disk>(back: &Back<D>)
    ensures { BackTells D.moment_of D.left_since D.told D.image D.faults_of back.now }
{
    let _ = back;
}

/// A mounting fails only behind an end: a log has none of an incarnation before the second one, nor of one behind the next.
pub fn mountings_fail_behind_ends<D: Disk>()
    ensures unended { IsToldByNone D.moment_of D.left_since D.faults_of missed_unended }
    ensures ended { IsToldByNone D.moment_of D.left_since D.faults_of missed_ended }
{}

/// How the log and the counters of any back stand to one another, over any disk.
pub fn back_is_ordered<D: Disk>(back: &Back<D>)
    ensures { BackIsOrdered D.moment_of D.left_since D.told D.image D.faults_of back.now }
{
    let _ = back;
}

/// The map of a back whose incarnation is mounted is what that incarnation has written.
pub fn map_is_written<D: Disk>(back: &Back<D>)
    ensures { MapIsWritten D.moment_of D.left_since D.told D.image D.faults_of back.now }
{
    let _ = back;
}

/// The journal of a slot that was just mounted ends where it did, whatever its limit.
pub fn fresh_is_written<D: Disk>(back: &Back<D>)
    ensures { FreshIsWritten D.moment_of D.left_since D.told D.image D.faults_of back.now }
{
    let _ = back;
}

/// An end by a full journal is invented by nobody: a small write doesn't fill a journal of 4,096 bytes in which nothing stood.
pub fn small_writes_fill_nothing()
    ensures { IsFilledByNone full_early }
{}

fn is_sent<T: Send>() {}

/// A back over a disk that may go to another thread may go there too.
pub fn back_is_sent<D: Disk + Send>() {
    is_sent::<Back<D>>();
}
