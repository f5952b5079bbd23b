//! The answer to an ask, by a look and by reads of the places that it gives.
ghost use Rattle.std.specs.Prelude.{◌≡◌, ◌≤◌, List, ℕ, None, IfOk, OnOk, IsErrOf};
ghost use Rattle.do_disk.specs.Disk.{Rose};
ghost use Rattle.storage_map.specs.Limits.{Object};
ghost use Rattle.storage_map.specs.Contents.{Contents};
ghost use Rattle.storage_map.specs.Readings.{reading};
ghost use Rattle.storage_map.specs.declared.op.Op.{Op};
ghost use Rattle.storage_cache.specs.declared.held.Held.{Held as AHeld};
ghost use Rattle.batch_journal.specs.Frames.{Frame};
ghost use Rattle.batch_journal.specs.Moments.{IsTold};
ghost use Rattle.batch_journal.specs.Rest.{disk_in, IsAtRest};
ghost use Rattle.object_storage.specs.Stored.{HasStored, HasKept, HasSome};
ghost use Rattle.object_storage.specs.Reads.{AreAsked, StaysStored, moment_behind};

use crate::pairs::{only_value, read_pairs};
use batch_journal::{Journal, ReadFault};
use do_disk::Disk;
use std::alloc::Global;
use storage_cache::{Cache, Look};
use storage_map::{Pairs, Reading, StoreAsk};

/// What the map that the journal and the cache have stored answers to the ask. Each value that isn't in the cache is read by one read of
/// the disk, and kept.
pub(crate) fn read<D: Disk>(
    alloc: Global,
    journal: &mut Journal<D>,
    cache: &mut Cache,
    ask: &StoreAsk,
) -> Result<Reading, ReadFault>
    requires { (frames : List Frame) × IsAtRest D.told D.image journal.old frames × HasSome cache.old frames }
    ensures reading { (frames : List Frame) (object : Object) (staged : List (List Op)) (m : Contents)
        → IsAtRest D.told D.image journal.old frames → IsTold (D.told (disk_in journal.old))
        → HasStored frames object staged cache.old m → HasKept frames cache.old
        → IfOk result (λ answer. answer ≡ reading m ask.now) }
    ensures places { (frames : List Frame) (object : Object) (staged : List (List Op)) (m : Contents)
        → HasStored frames object staged cache.old m → HasKept frames cache.old
        → OnOk result ((held : List (List ℕ × AHeld)) × AreAsked cache.old m ask.now held
        × (D.moment_of (disk_in journal.new) ≡ moment_behind held (D.moment_of (disk_in journal.old)))) }
    ensures stays { StaysStored D.told D.image D.moment_of D.left_since (HasSome cache.old)
        journal.old cache.old journal.new cache.new }
    ensures failed { IsErrOf result ReadFault.DiskFailed
        → Rose (D.faults_of (disk_in journal.old)) (D.faults_of (disk_in journal.new)) }
    ensures bad { (at : ℕ) → IsErrOf result (ReadFault.BadValue at) → D.told (disk_in journal.old) ≡ None }
    ensures steady { (IsErrOf result ReadFault.DiskFailed → ⊥)
        → D.faults_of (disk_in journal.new) ≡ D.faults_of (disk_in journal.old) }
    ensures later { D.faults_of (disk_in journal.old) ≤ D.faults_of (disk_in journal.new) }
{
    let Ok(look) = cache.look(ask) else {
        return Err(ReadFault::NoMemory);
    };
    match look {
        Look::Alarm(alarm) => Ok(Reading::Alarm(alarm)),
        Look::Pairs(pairs) => {
            let read = read_pairs(alloc, journal, cache, pairs)?;
            match ask {
                StoreAsk::Get(_) => Ok(Reading::One(only_value(read))),
                _ => Ok(Reading::Pairs(Pairs::new(read))),
            }
        }
    }
}
