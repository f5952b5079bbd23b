//! What the report of a run says of the disk of slot 0.
use do_disk::{Disk, MemDisk};
use do_host::{Report, SlotReport};
use serde_json::Value as Json;
use test_rows::Telling;
use timeline::{Cause, Stop};

// An end of an incarnation.
fn tell_stop(line: &mut Telling, stop: &Stop) {
    if let Cause::Disk { before, after } = stop.cause {
        line.tell(format!(in line.alloc(); " stopped {} {}", before, after));
    } else {
        line.say(" stopped otherwise");
    }
}

// The counts of faults before and after the calls that failed: those that ended an incarnation, and those of mountings behind an end.
fn tell_faults(line: &mut Telling, slot: &SlotReport<MemDisk>) {
    for stop in &slot.back.stops {
        tell_stop(line, stop);
    }
    for missed in &slot.back.downs {
        line.tell(format!(in line.alloc(); " down {} {}", missed.before, missed.after));
    }
}

// When each message left: how many calls of the disk there had been.
fn tell_releases(line: &mut Telling, slot: &SlotReport<MemDisk>) {
    line.say(" released at");
    for release in &slot.back.released {
        line.tell(format!(in line.alloc(); " {}", release.moment));
    }
}

/// Where the case says `faults`, tells the ends of slot 0's incarnations and the mountings that failed behind them; where it says `calls`, how
/// many calls of its disk there were; where it says `releases`, when its messages left.
pub(crate) fn tell(given: &Json, report: &Report<MemDisk>, line: &mut Telling) {
    let Some(slot) = report.slots.first() else {
        return;
    };
    if given.get("faults").is_some() {
        tell_faults(line, slot);
    }
    if given.get("calls").is_some() {
        line.tell(format!(in line.alloc(); " {} calls", slot.store.moment()));
    }
    if given.get("releases").is_some() {
        tell_releases(line, slot);
    }
}
