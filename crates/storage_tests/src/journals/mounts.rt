//! Files that are mounted.
use crate::journals::given::{bytes_at, tell_bytes};
use crate::journals::places::{ReadAt, read_k, tell_read};
use batch_journal::{Journal, MountFault, Mounted};
use do_disk::{Disk, Fails, MemDisk};
use serde_json::Value as Json;
use std::alloc::Global;
use std::test::Fail;
use test_rows::{Telling, flag};

/// How many bytes each journal may have.
pub(crate) const LIMIT: u64 = 4096;

// The object and its value of k, which was read, the journal's end, and the file as it is then.
fn tell_mounted(
    alloc: Global,
    mounted: Mounted<MemDisk>,
    read: Option<ReadAt>,
    line: &mut Telling,
) {
    match &mounted.identity {
        Some(object) => {
            line.say(object.class());
            line.say(" ");
            line.say(object.name());
        }
        None => line.say("no object"),
    }
    if let Some(read) = read {
        line.say(" k=");
        tell_read(alloc, line, &read);
    }
    let (end, disk) = (mounted.journal.end(), mounted.journal.into_disk());
    line.tell(format!(in alloc; ", end {end}: "));
    tell_bytes(alloc, line, disk.content());
}

fn tell_refused(alloc: Global, fault: &MountFault<MemDisk>, line: &mut Telling) {
    match fault {
        MountFault::DiskFailed(disk) => line.tell(format!(in alloc;
            "failed at call {} of the disk, {} faults",
            disk.moment(),
            disk.faults()
        )),
        MountFault::Foreign { disk: _, place } => line.tell(format!(in alloc;
            "foreign at {place}"
        )),
        MountFault::Damaged { disk: _, place } => line.tell(format!(in alloc;
            "damaged at {place}"
        )),
        MountFault::Mixed { first, other, .. } => {
            line.tell(format!(in alloc; "mixed: {} and {}", first.name(), other.name()))
        }
        MountFault::NoMemory(_) => line.say("no memory"),
    }
}

/// `mount HEX FAILS COUNTS`: with a number behind the bytes the calls of the disk fail from that one on; with `true` behind that
/// the calls are counted, and the journal's version is told.
pub(crate) fn answer(alloc: Global, row: &Json, line: &mut Telling) -> Result<(), Fail> {
    let fails = match row.get(2).and_then(Json::as_u64) {
        Some(call) => Fails::From(call),
        None => Fails::Listed(Vec::new(alloc)),
    };
    let disk = MemDisk::new(bytes_at(alloc, row, 1)?, fails);
    match Journal::mount(alloc, disk, LIMIT) {
        Ok(mut mounted) => {
            let calls = mounted.journal.disk().moment();
            let version = mounted.journal.version();
            let read = read_k(&mut mounted);
            tell_mounted(alloc, mounted, read, line);
            if flag(row, 3) {
                line.tell(format!(in alloc; " by {calls} calls, version {version}"));
            }
        }
        Err(fault) => tell_refused(alloc, &fault, line),
    }
    Ok(())
}
