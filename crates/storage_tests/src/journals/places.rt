//! Where a file has the value of k, and that value read there.
ghost use Rattle.batch_journal.specs.Mounting.{IsMountOf};

use crate::journals::given::bytes_at;
use crate::journals::mounts::LIMIT;
use batch_journal::{Journal, Mounted, ReadFault};
use do_disk::{Disk, Fails, MemDisk};
use do_value::Value;
use serde_json::Value as Json;
use std::alloc::Global;
use std::test::Fail;
use storage_map::Place;
use test_rows::{Telling, tell_value};

/// A place, and what a read gives there.
#[derive(Drop)]
pub(crate) struct ReadAt {
    place: Place,
    value: Result<Value, ReadFault>,
}

/// Reads the value that stands at the place of k. There is nothing where k has none.
pub(crate) fn read_k<D: Disk>(mounted: &mut Mounted<D>) -> Option<ReadAt>
    requires mounted { (disk : D) × IsMountOf D.told D.image D.moment_of D.left_since disk mounted.old }
{
    let place = mounted.index.get("k")?;
    let value = mounted.journal.read_value(place.at, place.size);
    Some(ReadAt { place, value })
}

/// The value, or why it wasn't read.
pub(crate) fn tell_read(alloc: Global, line: &mut Telling, read: &ReadAt) {
    match &read.value {
        Ok(value) => tell_value(line, value),
        Err(fault) => line.tell(format!(in alloc; "{fault:?}")),
    }
}

/// `place HEX`: the place of k, and the value that is read there.
pub(crate) fn answer(alloc: Global, row: &Json, line: &mut Telling) -> Result<(), Fail> {
    let disk = MemDisk::new(bytes_at(alloc, row, 1)?, Fails::Listed(Vec::new(alloc)));
    let Ok(mut mounted) = Journal::mount(alloc, disk, LIMIT) else {
        return Err("not mounted")?;
    };
    let Some(read) = read_k(&mut mounted) else {
        line.say("no place");
        return Ok(());
    };
    line.tell(format!(in alloc; "{} bytes at {}: ", read.place.size, read.place.at));
    tell_read(alloc, line, &read);
    Ok(())
}
