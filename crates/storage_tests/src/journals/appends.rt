//! Appends to an empty journal, and what a crash leaves of them.
ghost use Rattle.std.specs.Prelude.{[]};
ghost use Rattle.storage_map.specs.Limits.{Object};
ghost use Rattle.batch_journal.specs.Rest.{IsStaged};
ghost use Rattle.batch_journal.specs.Mounting.{IsMountOf};

use crate::journals::given::{delete, object, one, put, tell_bytes};
use crate::journals::mounts::LIMIT;
use batch_journal::{AppendFault, Journal, Mounted, laws};
use do_disk::{Disk, Fails, MemDisk, Pick};
use serde_json::Value as Json;
use std::alloc::Global;
use std::test::Fail;
use storage_map::{Batch, Identity, Place};
use test_rows::{Telling, count, word};

// Tries to append a frame of the batch, as the first. There is nothing where the disk has frames, or memory is wanting.
fn append_first<D: Disk + Drop>(
    mounted: Mounted<D>,
    batch: &Batch,
    identity: &Identity,
) -> Option<(D, Result<(), AppendFault>)>
    requires mounted { (disk : D) × IsMountOf D.told D.image D.moment_of D.left_since disk mounted }
    requires nothing_staged { (object : Object) → IsStaged mounted.journal object [] }
{
    laws::one_batch_fits();
    let _ = batch.as_slice();
    let _ = identity.size();
    if mounted.identity.is_some() {
        return None;
    }
    let mut journal = mounted.journal;
    let Ok(_places) = journal.stage(batch, identity) else {
        return None;
    };
    let outcome = journal.append();
    Some((journal.into_disk(), outcome))
}

fn pick_of(row: &Json) -> Pick {
    match word(row, 3) {
        "read" => Pick::AsRead,
        "synced" => Pick::AsSynced,
        _ => Pick::Torn(u8::try_from(count(row, 3)).unwrap_or(0)),
    }
}

/// `append LETTERS STOP PICK`: one put over an empty disk whose calls fail from this one on, how it ends, and what a crash then
/// leaves.
pub(crate) fn answer(alloc: Global, row: &Json, line: &mut Telling) -> Result<(), Fail> {
    let batch = one(alloc, put(alloc, count(row, 1))?)?;
    let disk = MemDisk::new(Vec::new(alloc), Fails::From(count(row, 2)));
    let Ok(mounted) = Journal::mount(alloc, disk, LIMIT) else {
        return Err("not mounted")?;
    };
    let tried = append_first(mounted, &batch, &object(alloc)?);
    let (disk, outcome) = tried.ok_or("not appended")?;
    line.tell(format!(in alloc; "{outcome:?} after {} calls: ", disk.moment()));
    let left = disk.crash(pick_of(row))?;
    tell_bytes(alloc, line, left.content());
    Ok(())
}

// Appends both batches as the first frame, and gives the disk, with the places of the values that each puts. There is nothing
// where the disk has frames, memory is wanting or the append fails.
fn append_both<D: Disk + Drop>(
    mounted: Mounted<D>,
    first: &Batch,
    second: &Batch,
    identity: &Identity,
) -> Option<(D, Vec<Place>, Vec<Place>)>
    requires mounted { (disk : D) × IsMountOf D.told D.image D.moment_of D.left_since disk mounted }
    requires nothing_staged { (object : Object) → IsStaged mounted.journal object [] }
{
    let _ = first.as_slice();
    let _ = second.as_slice();
    let _ = identity.size();
    if mounted.identity.is_some() {
        return None;
    }
    let mut journal = mounted.journal;
    let Ok(places) = journal.stage(first, identity) else {
        return None;
    };
    let Ok(behind) = journal.stage(second, identity) else {
        return None;
    };
    match journal.append() {
        Ok(()) => Some((journal.into_disk(), places, behind)),
        Err(_) => None,
    }
}

fn tell_places(alloc: Global, line: &mut Telling, places: &[Place]) {
    for place in places {
        line.tell(format!(in alloc; "{} bytes at {}, ", place.size, place.at));
    }
}

/// `both`: a put and a delete as two batches of one frame, the places of the values that each puts, and the file.
pub(crate) fn answer_both(alloc: Global, line: &mut Telling) -> Result<(), Fail> {
    let put = one(alloc, put(alloc, 0)?)?;
    let delete = one(alloc, delete(alloc)?)?;
    let disk = MemDisk::new(Vec::new(alloc), Fails::Listed(Vec::new(alloc)));
    let Ok(mounted) = Journal::mount(alloc, disk, LIMIT) else {
        return Err("not mounted")?;
    };
    let appended = append_both(mounted, &put, &delete, &object(alloc)?);
    let (disk, places, behind) = appended.ok_or("not appended")?;
    tell_places(alloc, line, &places);
    line.say("then ");
    tell_places(alloc, line, &behind);
    tell_bytes(alloc, line, disk.content());
    Ok(())
}
