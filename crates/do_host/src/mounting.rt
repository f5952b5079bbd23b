//! The slots of a folder are mounted and read, and nothing is served.
ghost use Rattle.std.specs.Prelude.{◌≡◌, ◌≤◌, ◌+◌, ◌++◌, ◌∷◌, [], ℕ, List, Option, IfOk, IfErr, OnOk, None, length, vec_len};
ghost use Rattle.std.specs.Vec.{vec_capacity};
ghost use Rattle.batch_journal.specs.Frames.{Frame};
ghost use Rattle.batch_journal.specs.Moments.{TellsAsBefore};
ghost use Rattle.batch_journal.specs.Places.{Indexes};
ghost use Rattle.batch_journal.specs.Rest.{IsAtRest, disk_in};
ghost use Rattle.storage_map.specs.Limits.{Object};
ghost use Rattle.timeline.specs.Logs.{fronted, backed};
ghost use Rattle.host_core.specs.Begun.{IsMountedAt};
ghost use Rattle.host_core.specs.Opening.{Asks, slot_asks};
ghost use Rattle.do_host.specs.Dump.{no_front, no_back};
ghost use Rattle.do_host.specs.Mounted.{AllMounted, IsReadRow, StopsMounting, StopsReading, reading_end};

use crate::stored::{Stored, read_stored};
use batch_journal::{Mounted, ReadFault};
use do_disk::{Depot, Disk};
use host_core::{Bad, OpenEnd, Report, SlotReport, mount_slot};
use placement::Directory;
use std::alloc::Global;
use storage_map::Identity;
use timeline::{BackLog, FrontLog};

// How many bytes a journal may have to which nothing is added.
pub(crate) const ANY: u64 = 0xffff_ffff_ffff_ffff;

// Mounts the slots of the folder from slot 0 on, makes a row of each, and hands out what the storage of each contains. At a stop the
// rows of those before it stand, and the disk of the slot at which it stops, where it was handed out, is kept.
pub(crate) fn mount_slots<P: Depot>(
    alloc: Global,
    folder: &str,
    slots: u32,
    depot: &mut P,
    report: &mut Report<P::Store>,
) -> Result<Vec<Stored>, OpenEnd>
    requires some { 1 ≤ slots }
    requires none { report.old.slots.items ≡ [] }
    requires none_left { report.old.unopened ≡ None }
    ensures mounted { IfOk result (λ storages.
        AllMounted P.Store.told P.Store.left_since (P.slot_at depot.old folder.now) slots report.new.slots.items storages.items) }
    ensures stops { IfErr result (StopsMounting P.Store.told P.Store.image P.Store.moment_of P.Store.left_since P.Store.faults_of
        (P.slot_at depot.old folder.now) slots (P.faults_of depot.old) (P.faults_of depot.new) report.new) }
    ensures same { (report.new.switch ≡ report.old.switch) × (report.new.lines ≡ report.old.lines) }
    ensures none_unopened { OnOk result (report.new.unopened ≡ None) }
    ensures asked { Asks (P.asked depot.old) (P.asked depot.new) (slot_asks folder.now slots) }
    ensures all_asked { OnOk result (P.asked depot.new ≡ P.asked depot.old ++ slot_asks folder.now slots) }
{
    let mut storages = make_room(alloc, slots, &mut report.slots)?;
    let mut directory = Directory::new(alloc, slots);
    for slot in 0..slots {
        let mounted = mount_slot(
            alloc,
            folder,
            ANY,
            slot,
            depot,
            &mut directory,
            &mut report.unopened,
        )?;
        let (row, stored) = read_slot(alloc, mounted, slot, &mut report.unopened)?;
        put(row, stored, &mut report.slots, &mut storages);
    }
    Ok(storages)
}

// The row of what was mounted, with empty logs, and what its storage contains. Where a value isn't read, the disk is kept.
fn read_slot<D: Disk + Drop>(
    alloc: Global,
    mounted: Mounted<D>,
    slot: u32,
    unopened: &mut Option<D>,
) -> Result<(SlotReport<D>, Stored), OpenEnd>
    requires mounted { (frames : List Frame) × IsAtRest D.told D.image mounted.journal frames × Indexes frames mounted.index }
    requires none_left { unopened.old ≡ None }
    ensures row { IfOk result (λ read. (limit : ℕ) (content : Option (List ℕ)) (named : Option Object)
        → IsMountedAt D.moment_of D.left_since D.told D.image limit content named mounted → TellsAsBefore content (D.told (disk_in mounted.journal))
        → IsReadRow D.told D.left_since content named read.0 read.1) }
    ensures none_left { OnOk result (unopened.new ≡ None) }
    ensures stops { IfErr result (λ end. (limit : ℕ) (content : Option (List ℕ)) (named : Option Object)
        → IsMountedAt D.moment_of D.left_since D.told D.image limit content named mounted → TellsAsBefore content (D.told (disk_in mounted.journal))
        → StopsReading D.told D.left_since D.faults_of content named slot unopened.new end) }
{
    let Mounted {
        mut journal,
        identity,
        index,
    } = mounted;
    match read_stored(alloc, &mut journal, &index) {
        Ok(stored) => Ok((row_of(alloc, journal.into_disk(), identity), stored)),
        Err(fault) => {
            *unopened = Some(journal.into_disk());
            Err(reading_end(slot, fault))
        }
    }
}

// Why opening stops at a slot of which a value isn't read.
pub(crate) fn reading_end(slot: u32, fault: ReadFault) -> OpenEnd
    ensures { result ≡ reading_end slot fault }
{
    match fault {
        ReadFault::DiskFailed => OpenEnd::Failed,
        ReadFault::BadValue { place } => OpenEnd::BadSlot(Bad::Damaged { slot, place }),
        ReadFault::NoMemory => OpenEnd::NoMemory,
    }
}

// Puts the row of a slot behind the others, and what its storage contains behind that of the others.
fn put<D>(
    row: SlotReport<D>,
    stored: Stored,
    rows: &mut Vec<SlotReport<D>>,
    storages: &mut Vec<Stored>,
)
    requires room { vec_len rows.old + 1 ≤ vec_capacity rows.old }
    requires storage_room { vec_len storages.old + 1 ≤ vec_capacity storages.old }
    ensures rows { rows.new.items ≡ rows.old.items ++ row ∷ [] }
    ensures storages { storages.new.items ≡ storages.old.items ++ stored ∷ [] }
    ensures room { (more : ℕ) → vec_len rows.old + (more + 1) ≤ vec_capacity rows.old → vec_len rows.new + more ≤ vec_capacity rows.new }
    ensures storage_room { (more : ℕ) → vec_len storages.old + (more + 1) ≤ vec_capacity storages.old
        → vec_len storages.new + more ≤ vec_capacity storages.new }
{
    rows.push(row).unwrap();
    storages.push(stored).unwrap();
}

// Makes room for the rows of so many slots, and for what they contain.
fn make_room<S>(
    alloc: Global,
    slots: u32,
    rows: &mut Vec<SlotReport<S>>,
) -> Result<Vec<Stored>, OpenEnd>
    ensures storages { IfOk result (λ storages. (storages.items ≡ []) × (vec_len storages + slots ≤ vec_capacity storages)) }
    ensures rows { OnOk result (vec_len rows.new + slots ≤ vec_capacity rows.new) }
    ensures same { rows.new.items ≡ rows.old.items }
    ensures end { IfErr result (λ end. end ≡ OpenEnd.NoMemory) }
{
    let mut storages = Vec::new(alloc);
    if rows.reserve(slots as usize).is_err() || storages.reserve(slots as usize).is_err() {
        return Err(OpenEnd::NoMemory);
    }
    Ok(storages)
}

// The row of a slot that was mounted and not served, with empty logs.
fn row_of<D>(alloc: Global, store: D, identity: Option<Identity>) -> SlotReport<D>
    ensures store { result.store ≡ store }
    ensures identity { result.identity ≡ identity }
    ensures front { fronted result.front ≡ no_front }
    ensures back { backed result.back ≡ no_back }
{
    SlotReport {
        store,
        front: empty_front(alloc),
        back: empty_back(alloc),
        identity,
    }
}

fn empty_front(alloc: Global) -> FrontLog
    ensures { fronted result ≡ no_front }
{
    FrontLog {
        delivered: Vec::new(alloc),
        downed: Vec::new(alloc),
        dropped: Vec::new(alloc),
        sent: Vec::new(alloc),
        ends: Vec::new(alloc),
    }
}

fn empty_back(alloc: Global) -> BackLog
    ensures { backed result ≡ no_back }
{
    BackLog {
        taken: Vec::new(alloc),
        flights: Vec::new(alloc),
        stops: Vec::new(alloc),
        released: Vec::new(alloc),
        ends: Vec::new(alloc),
        downs: Vec::new(alloc),
    }
}
