//! The slots are mounted, and each gets its object.
ghost use Rattle.std.specs.Prelude.{◌≡◌, ◌≢◌, ◌<◌, ◌≤◌, ◌+◌, ◌++◌, ◌∷◌, [], ℕ, List, Option, Ok, Err, IfOk, IfErr, OnOk, OnErr, Some, None, length, replicate, string_bytes, vec_len};
ghost use Rattle.std.specs.Option.{option_copied};
ghost use Rattle.std.specs.Vec.{vec_capacity};
ghost use Rattle.batch_journal.specs.Mounting.{ImageOrSame, IsMountOf, disk_left};
ghost use Rattle.batch_journal.specs.Moments.{LeavesOnly, TellsAsBefore};
ghost use Rattle.batch_journal.specs.Rest.{IsStaged, disk_in, limit_of};
ghost use Rattle.do_disk.specs.Asks.{for_slot};
ghost use Rattle.do_tree.specs.Checked.{tree_of as script_in};
ghost use Rattle.storage_map.specs.Limits.{Object};
ghost use Rattle.object_core.specs.One.{class_in};
ghost use Rattle.placement.specs.Slots.{IsOneEach, Slots, object_at};
ghost use Rattle.host_core.specs.Begun.{AreBegun, AreFreeFrom, HasBegun, IsMountedAt, IsNotTaken, OnlyAt, mounting_end};
ghost use Rattle.host_core.specs.Opening.{Asks, LeavesHanded, StopsOpening, slot_asks};

use crate::settings::{Bad, Settings};
use batch_journal::{Journal, MountFault, Mounted};
use do_disk::{Depot, DepotFault, Disk};
use do_tree::Checked;
use host_workers::Halves;
use object_core::laws;
use object_front::Front;
use output_gate::Back;
use placement::{AdoptFault, Directory, laws as placement_laws};
use std::alloc::Global;
use storage_map::Identity;

/// Why opening stops.
#[derive(Debug, Drop)]
pub enum OpenEnd {
    /// The depot or the slot's disk failed.
    Failed,
    /// The slot's file can't be served.
    BadSlot(Bad),
    /// Memory was wanted and refused.
    NoMemory,
}

// Mounts the slots of the folder from slot 0 on, and makes the halves of an object of each. At a stop those before it stand, and the disk of the
// slot that isn't mounted, where there is one, is kept.
pub(crate) fn open<P: Depot>(
    alloc: Global,
    checked: &Checked,
    settings: &Settings,
    depot: &mut P,
    directory: &mut Directory,
    slots: &mut Vec<Halves<P::Store>>,
    unopened: &mut Option<P::Store>,
) -> Result<(), OpenEnd>
    requires none { slots.old.items ≡ [] }
    requires room { settings.now.slots ≤ vec_capacity slots.old }
    requires free { directory.old ≡ replicate settings.now.slots None }
    requires none_left { unopened.old ≡ None }
    ensures all { OnOk result (length slots.new.items ≡ settings.now.slots) }
    ensures some { OnErr result (length slots.new.items < settings.now.slots) }
    ensures begun { AreBegun P.Store.moment_of P.Store.left_since P.Store.told P.Store.image P.Store.faults_of settings.now.journal (script_in checked.now)
        (P.slot_at depot.old (string_bytes settings.now.folder)) directory.new slots.new.items }
    ensures many { length directory.new ≡ settings.now.slots }
    ensures one_each { IsOneEach directory.new }
    ensures asked { Asks (P.asked depot.old) (P.asked depot.new) (slot_asks (string_bytes settings.now.folder) settings.now.slots) }
    ensures all_asked { OnOk result (P.asked depot.new ≡ P.asked depot.old ++ slot_asks (string_bytes settings.now.folder) settings.now.slots) }
    ensures none_left { OnOk result (unopened.new ≡ None) }
    ensures stop { IfErr result (StopsOpening P.Store.told P.Store.image P.Store.moment_of P.Store.left_since P.Store.faults_of
        (P.slot_at depot.old (string_bytes settings.now.folder)) directory.new (length slots.new.items)
        (P.faults_of depot.old) (P.faults_of depot.new) unopened.new) }
{
    for slot in 0..settings.slots {
        let halves = open_slot(alloc, checked, settings, slot, depot, directory, unopened)?;
        push_halves(slots, halves);
    }
    Ok(())
}

// Puts the halves of a slot behind those of the slots before it.
fn push_halves<D>(slots: &mut Vec<Halves<D>>, halves: Halves<D>)
    requires { vec_len slots.old + 1 ≤ vec_capacity slots.old }
    ensures items { slots.new.items ≡ slots.old.items ++ halves ∷ [] }
    ensures len { vec_len slots.new ≡ vec_len slots.old + 1 }
    ensures room { vec_capacity slots.old ≤ vec_capacity slots.new }
{
    slots.push(halves).unwrap();
}

// Mounts one slot and makes the halves of its object. Where that stops, its disk is kept, if it was handed out.
fn open_slot<P: Depot>(
    alloc: Global,
    checked: &Checked,
    settings: &Settings,
    slot: u32,
    depot: &mut P,
    directory: &mut Directory,
    unopened: &mut Option<P::Store>,
) -> Result<Halves<P::Store>, OpenEnd>
    requires there { slot < length directory.old }
    requires free { AreFreeFrom slot directory.old }
    requires one_each { IsOneEach directory.old }
    requires none_left { unopened.old ≡ None }
    ensures begun { IfOk result (HasBegun P.Store.moment_of P.Store.left_since P.Store.told P.Store.image P.Store.faults_of settings.now.journal
        (script_in checked.now) (P.slot_at depot.old (string_bytes settings.now.folder) slot) (object_at directory.new slot)) }
    ensures only { OnlyAt slot directory.old directory.new }
    ensures asked { Asks (P.asked depot.old) (P.asked depot.new) (for_slot (string_bytes settings.now.folder) slot ∷ []) }
    ensures all_asked { OnOk result (P.asked depot.new ≡ P.asked depot.old ++ for_slot (string_bytes settings.now.folder) slot ∷ []) }
    ensures other_slots { (other : ℕ) → other ≢ slot
        → P.slot_at depot.new (string_bytes settings.now.folder) other ≡ P.slot_at depot.old (string_bytes settings.now.folder) other }
    ensures steady { OnOk result (P.faults_of depot.new ≡ P.faults_of depot.old) }
    ensures none_left { OnOk result (unopened.new ≡ None) }
    ensures stop { IfErr result (λ end. (contents : ℕ → Option (List ℕ)) → P.slot_at depot.old (string_bytes settings.now.folder) slot ≡ contents slot
        → StopsOpening P.Store.told P.Store.image P.Store.moment_of P.Store.left_since P.Store.faults_of
        contents directory.new slot (P.faults_of depot.old) (P.faults_of depot.new) unopened.new end) }
{
    let mounted = mount_slot(
        alloc,
        &settings.folder,
        settings.journal,
        slot,
        depot,
        directory,
        unopened,
    )?;
    match begin(alloc, checked, mounted) {
        Ok(halves) => Ok(halves),
        Err(disk) => {
            *unopened = Some(disk);
            Err(OpenEnd::NoMemory)
        }
    }
}

/// Mounts one slot of the folder, and gives it the object that its frames name. `journal` is how many bytes its journal may have. Where
/// that stops, its disk is kept, if it was handed out, and the slot has no object.
pub fn mount_slot<P: Depot>(
    alloc: Global,
    folder: &str,
    journal: u64,
    slot: u32,
    depot: &mut P,
    directory: &mut Directory,
    unopened: &mut Option<P::Store>,
) -> Result<Mounted<P::Store>, OpenEnd>
    requires there { slot < length directory.old }
    requires free { AreFreeFrom slot directory.old }
    requires one_each { IsOneEach directory.old }
    requires none_left { unopened.old ≡ None }
    ensures mounted { IfOk result (IsMountedAt P.Store.moment_of P.Store.left_since P.Store.told P.Store.image journal
        (P.slot_at depot.old folder.now slot) (object_at directory.new slot)) }
    ensures handed { IfOk result (λ mounted. LeavesHanded P.Store.told P.Store.image P.Store.moment_of P.Store.left_since
        (P.slot_at depot.old folder.now slot) (disk_in mounted.journal)) }
    ensures telling { IfOk result (λ mounted. TellsAsBefore (P.slot_at depot.old folder.now slot) (P.Store.told (disk_in mounted.journal))) }
    ensures only { OnlyAt slot directory.old directory.new }
    ensures asked { Asks (P.asked depot.old) (P.asked depot.new) (for_slot folder.now slot ∷ []) }
    ensures all_asked { OnOk result (P.asked depot.new ≡ P.asked depot.old ++ for_slot folder.now slot ∷ []) }
    ensures other_slots { (other : ℕ) → other ≢ slot → P.slot_at depot.new folder.now other ≡ P.slot_at depot.old folder.now other }
    ensures steady { OnOk result (P.faults_of depot.new ≡ P.faults_of depot.old) }
    ensures none_left { OnOk result (unopened.new ≡ None) }
    ensures same { OnErr result (directory.new ≡ directory.old) }
    ensures stop { IfErr result (λ end. (contents : ℕ → Option (List ℕ)) → P.slot_at depot.old folder.now slot ≡ contents slot
        → StopsOpening P.Store.told P.Store.image P.Store.moment_of P.Store.left_since P.Store.faults_of
        contents directory.new slot (P.faults_of depot.old) (P.faults_of depot.new) unopened.new end) }
{
    let disk = match depot.slot(folder, slot) {
        Ok(disk) => disk,
        Err(DepotFault::Failed) => return Err(OpenEnd::Failed),
        Err(DepotFault::NoMemory) => return Err(OpenEnd::NoMemory),
    };
    let mounted = mount(alloc, disk, journal, slot, unopened)?;
    adopt(mounted, slot, directory, unopened)
}

// Mounts a disk before its first call.
fn mount<D: Disk + Drop>(
    alloc: Global,
    disk: D,
    limit: u64,
    slot: u32,
    unopened: &mut Option<D>,
) -> Result<Mounted<D>, OpenEnd>
    requires none { unopened.old ≡ None }
    requires moment { D.moment_of disk ≡ 0 }
    requires faults { D.faults_of disk ≡ 0 }
    ensures mounted { IfOk result (IsMountOf D.told D.image D.moment_of D.left_since disk) }
    ensures staged { IfOk result (λ mounted. (object : Object) → IsStaged mounted.journal object []) }
    ensures limited { IfOk result (λ mounted. limit_of mounted.journal ≡ limit) }
    ensures telling { IfOk result (λ mounted. TellsAsBefore (D.told disk) (D.told (disk_in mounted.journal))) }
    ensures left { IfOk result (λ mounted. LeavesOnly D.moment_of D.left_since disk (disk_in mounted.journal) (ImageOrSame (D.told disk) (D.image disk))) }
    ensures none_left { OnOk result (unopened.new ≡ None) }
    ensures stop { IfErr result (λ end. (contents : ℕ → Option (List ℕ)) (named : Slots) (before after : ℕ) → D.told disk ≡ contents slot
        → StopsOpening D.told D.image D.moment_of D.left_since D.faults_of contents named slot before after unopened.new end) }
{
    match Journal::mount(alloc, disk, limit) {
        Ok(mounted) => Ok(mounted),
        Err(fault) => {
            let (disk, end) = refused_mounting(fault, slot);
            *unopened = Some(disk);
            Err(end)
        }
    }
}

/// The disk of a mounting that was refused, and why an opening ends at this slot by it. It takes no memory.
pub fn refused_mounting<D>(fault: MountFault<D>, slot: u32) -> (D, OpenEnd)
    ensures disk { result.0 ≡ disk_left fault }
    ensures end { result.1 ≡ mounting_end slot fault }
{
    match fault {
        MountFault::DiskFailed(disk) => (disk, OpenEnd::Failed),
        MountFault::Foreign { disk, place } => {
            (disk, OpenEnd::BadSlot(Bad::Foreign { slot, place }))
        }
        MountFault::Damaged { disk, place } => {
            (disk, OpenEnd::BadSlot(Bad::Damaged { slot, place }))
        }
        MountFault::Mixed { disk, first, other } => {
            (disk, OpenEnd::BadSlot(Bad::Mixed { slot, first, other }))
        }
        MountFault::NoMemory(disk) => (disk, OpenEnd::NoMemory),
    }
}

// Gives the slot the object that its frames name, where there is one and no other slot has it. Where it can't be given, the disk is kept.
fn adopt<D: Disk + Drop>(
    mounted: Mounted<D>,
    slot: u32,
    directory: &mut Directory,
    unopened: &mut Option<D>,
) -> Result<Mounted<D>, OpenEnd>
    requires there { slot < length directory.old }
    requires free { AreFreeFrom slot directory.old }
    requires one_each { IsOneEach directory.old }
    ensures same { IfOk result (λ adopted. adopted ≡ mounted) }
    ensures none_left { OnOk result (unopened.new ≡ unopened.old) }
    ensures kept { OnErr result (unopened.new ≡ Some (disk_in mounted.journal)) }
    ensures here { OnOk result (object_at directory.new slot ≡ mounted.identity) }
    ensures only { OnlyAt slot directory.old directory.new }
    ensures same_slots { OnErr result (directory.new ≡ directory.old) }
    ensures why { IfErr result (IsNotTaken directory.old slot mounted.identity) }
{
    match take_in(mounted.identity.as_ref(), slot, directory) {
        Ok(()) => Ok(mounted),
        Err(end) => {
            let Mounted {
                journal,
                identity: _identity,
                index: _index,
            } = mounted;
            *unopened = Some(journal.into_disk());
            Err(end)
        }
    }
}

// Gives the slot this object, if it is one.
fn take_in(identity: Option<&Identity>, slot: u32, directory: &mut Directory) -> Result<(), OpenEnd>
    requires there { slot < length directory.old }
    requires free { AreFreeFrom slot directory.old }
    requires one_each { IsOneEach directory.old }
    ensures here { OnOk result (object_at directory.new slot ≡ option_copied identity.entry) }
    ensures only { OnlyAt slot directory.old directory.new }
    ensures same { OnErr result (directory.new ≡ directory.old) }
    ensures why { IfErr result (IsNotTaken directory.old slot (option_copied identity.entry)) }
{
    placement_laws::one_each_stays();
    placement_laws::slot_of_is_where();
    let Some(identity) = identity else {
        return Ok(());
    };
    let Ok(copy) = identity.copy() else {
        return Err(OpenEnd::NoMemory);
    };
    match directory.adopt(slot, copy) {
        Ok(()) => Ok(()),
        Err(AdoptFault::Twice { a, b }) => Err(OpenEnd::BadSlot(Bad::Twice { a, b })),
        Err(AdoptFault::NoMemory) => Err(OpenEnd::NoMemory),
    }
}

// The halves of what was mounted. For want of memory it hands the disk back.
fn begin<D: Disk>(alloc: Global, checked: &Checked, mounted: Mounted<D>) -> Result<Halves<D>, D>
    requires { (object : Object) → IsStaged mounted.journal object [] }
    ensures halves { IfOk result (λ halves. (limit : ℕ) (content : Option (List ℕ)) (named : Option Object)
        → IsMountedAt D.moment_of D.left_since D.told D.image limit content named mounted
        → HasBegun D.moment_of D.left_since D.told D.image D.faults_of limit (script_in checked.now) content named halves) }
    ensures disk { IfErr result (λ disk. disk ≡ disk_in mounted.journal) }
{
    let class = class_of(checked, mounted.identity.as_ref());
    let front = Front::new(alloc, checked, class, mounted.index.alarm());
    match Back::new(alloc, mounted) {
        Ok(back) => {
            laws::halves_are_fresh(&back);
            Ok(Halves { front, back })
        }
        Err(disk) => Err(disk),
    }
}

// The number of the class of the slot's object, where it has an object of one.
fn class_of(checked: &Checked, identity: Option<&Identity>) -> Option<u32>
    ensures { result ≡ class_in (script_in checked.now) (option_copied identity.entry) }
{
    checked.class(identity?.class())
}
