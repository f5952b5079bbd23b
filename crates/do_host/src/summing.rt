//! What the slots have under `n`, added up.
ghost use Rattle.std.specs.Prelude.{◌≡◌, ◌⊎◌, ◌≤◌, ◌+◌, ◌+ℤ◌, List, ℕ, ℤ, Ok, Err, IfOk, IfErr, Some, length};
ghost use Rattle.batch_journal.specs.Frames.{Frame};
ghost use Rattle.batch_journal.specs.Moments.{IsTold, LeavesOnly, OnlyReads};
ghost use Rattle.batch_journal.specs.Mounting.{ImageOrSame};
ghost use Rattle.batch_journal.specs.Places.{Indexes};
ghost use Rattle.batch_journal.specs.Rest.{IsAtRest, disk_in};
ghost use Rattle.do_disk.specs.Slots.{most_slots};
ghost use Rattle.do_value.specs.Limits.{IsSafe};
ghost use Rattle.do_host.specs.Storage.{ReadsValues};
ghost use Rattle.do_host.specs.Sums as spec;
ghost use Rattle.do_host.specs.Sums.{IsMountedAgain, IsNumberOf, IsSumOf, StopsAt, StopsUnread, Sums};

use crate::mounting::{ANY, reading_end};
use batch_journal::{Journal, Mounted, ReadFault};
use do_disk::Disk;
use do_value::Value;
use host_core::{OpenEnd, SlotReport, refused_mounting};
use std::alloc::Global;
use std::mem;
use storage_map::Index;

// Mounts the disk of each slot again, and adds up what the slots have under `n`. At a stop the slots behind it aren't mounted again.
pub(crate) fn sum_slots<D: Disk + Drop>(
    alloc: Global,
    rows: &mut Vec<SlotReport<D>>,
) -> Result<i64, OpenEnd>
    requires { length rows.old.items ≤ most_slots }
    ensures sums { Sums D.told D.image D.moment_of D.left_since D.faults_of rows.old.items rows.new.items result }
    ensures small { IfOk result (IsSumOf (length rows.old.items)) }
{
    let mut again = Vec::new(alloc);
    if again.reserve(rows.len()).is_err() {
        return Err(OpenEnd::NoMemory);
    }
    let mut sum = Ok(0);
    let mut slot: u32 = 0;
    for row in mem::replace(rows, Vec::new(alloc)) {
        let (row, next) = sum_slot(alloc, row, slot, sum);
        again.push(row).unwrap();
        sum = next;
        slot += 1;
    }
    *rows = again;
    sum
}

// Mounts the disk of a slot again where the slots before it have a sum, and adds what it has.
fn sum_slot<D: Disk>(
    alloc: Global,
    row: SlotReport<D>,
    slot: u32,
    sum: Result<i64, OpenEnd>,
) -> (SlotReport<D>, Result<i64, OpenEnd>)
    requires few { slot ≤ most_slots }
    requires small { IfOk sum (IsSumOf slot) }
    ensures again { IsMountedAgain D.told D.image D.moment_of D.left_since row result.0 }
    ensures sum { IfOk result.1 (λ next. (so_far n : ℤ) × (sum ≡ Ok so_far) × IsNumberOf (D.told row.store) n × (next ≡ so_far +ℤ n)) }
    ensures small { IfOk result.1 (IsSumOf (slot + 1)) }
    ensures stops { IfErr result.1 (λ end. (sum ≡ Err end) ⊎ StopsAt D.told D.faults_of slot row.store result.0.store end) }
{
    let sum = match sum {
        Ok(sum) => sum,
        Err(end) => return (row, Err(end)),
    };
    let SlotReport {
        store,
        front,
        back,
        identity,
    } = row;
    let (store, number) = mount_and_read(alloc, store, slot);
    let row = SlotReport {
        store,
        front,
        back,
        identity,
    };
    match number {
        Ok(number) => (row, Ok(sum + number)),
        Err(end) => (row, Err(end)),
    }
}

// Mounts a disk again, and reads what it has under `n`. The disk is handed back.
fn mount_and_read<D: Disk>(alloc: Global, disk: D, slot: u32) -> (D, Result<i64, OpenEnd>)
    ensures leaves { LeavesOnly D.moment_of D.left_since disk result.0 (ImageOrSame (D.told disk) (D.image disk)) }
    ensures number { IfOk result.1 (IsNumberOf (D.told disk)) }
    ensures safe { IfOk result.1 IsSafe }
    ensures stops { IfErr result.1 (StopsAt D.told D.faults_of slot disk result.0) }
{
    match Journal::mount(alloc, disk, ANY) {
        Ok(mounted) => read_mounted(mounted, slot),
        Err(fault) => {
            let (disk, end) = refused_mounting(fault, slot);
            (disk, Err(end))
        }
    }
}

// Reads what a disk that was mounted has under `n`, and hands it back.
fn read_mounted<D: Disk>(mounted: Mounted<D>, slot: u32) -> (D, Result<i64, OpenEnd>)
    requires { (frames : List Frame) × IsAtRest D.told D.image mounted.journal frames × Indexes frames mounted.index }
    ensures reads { OnlyReads D.told D.image D.moment_of D.left_since (disk_in mounted.journal) result.0 }
    ensures number { (frames : List Frame) → IsAtRest D.told D.image mounted.journal frames → Indexes frames mounted.index
        → IsTold (D.told (disk_in mounted.journal)) → IfOk result.1 (λ number. number ≡ spec.number_left frames) }
    ensures safe { IfOk result.1 IsSafe }
    ensures stops { IfErr result.1 (StopsUnread D.told D.faults_of slot (disk_in mounted.journal) result.0) }
{
    let Mounted {
        mut journal,
        identity: _,
        index,
    } = mounted;
    match read_number(&mut journal, &index) {
        Ok(number) => (journal.into_disk(), Ok(number)),
        Err(fault) => (journal.into_disk(), Err(reading_end(slot, fault))),
    }
}

// The number that stands under `n`: 0 where there is none, or another value.
fn read_number<D: Disk>(journal: &mut Journal<D>, index: &Index) -> Result<i64, ReadFault>
    requires { (frames : List Frame) × IsAtRest D.told D.image journal.old frames × Indexes frames index.now }
    ensures number { (frames : List Frame) → IsAtRest D.told D.image journal.old frames → Indexes frames index.now
        → IsTold (D.told (disk_in journal.old)) → IfOk result (λ number. number ≡ spec.number_left frames) }
    ensures safe { IfOk result IsSafe }
    ensures reads { ReadsValues D.told D.image D.moment_of D.left_since D.faults_of journal.old journal.new result }
{
    let Some(place) = index.get("n") else {
        return Ok(0);
    };
    let value = journal.read_value(place.at, place.size)?;
    Ok(number_of(&value))
}

fn number_of(value: &Value) -> i64
    ensures number { result ≡ spec.counted (Some value.now) }
    ensures safe { IsSafe result }
{
    match value {
        Value::Num(number) => number.get(),
        _ => 0,
    }
}
