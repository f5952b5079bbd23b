//! Answering asks.
ghost use Rattle.std.specs.Prelude.{◌≡◌, List, ℕ, IfOk, OnOk};
ghost use Rattle.storage_map.specs.Limits.{Object};
ghost use Rattle.storage_map.specs.Contents.{Contents};
ghost use Rattle.storage_map.specs.Readings.{reading};
ghost use Rattle.storage_map.specs.declared.op.Op.{Op};
ghost use Rattle.storage_cache.specs.declared.held.Held.{Held as AHeld};
ghost use Rattle.batch_journal.specs.Frames.{Frame};
ghost use Rattle.batch_journal.specs.Moments.{IsTold};
ghost use Rattle.batch_journal.specs.Rest.{disk_in, IsAtRest};
ghost use Rattle.object_storage.specs.Stored.{HasStored, HasKept, HasSome};
ghost use Rattle.object_storage.specs.Reads.{AreAsked, StaysAtRest, StaysStored, moment_behind};
ghost use Rattle.object_storage.specs.Steps.{CountsReads};
ghost use Rattle.object_storage.specs.Storage.{journal_in, disk_of, IsStorage, CanAnswer, StandsAsBefore, ReadsPlaces};

use crate::fault::AnswerFault;
use crate::reading::read;
use crate::storage::Storage;
use batch_journal::{Journal, ReadFault};
use do_disk::Disk;
use std::alloc::Global;
use storage_cache::Cache;
use storage_map::{Reading, StoreAsk};

/// What the map that the journal and the cache have stored answers to the ask. A value that isn't flushed or that the cache has is given
/// from memory, each other by one read of the disk. After each answer, a fault too, the same is stored.
pub fn answer<D: Disk>(
    alloc: Global,
    journal: &mut Journal<D>,
    cache: &mut Cache,
    ask: &StoreAsk,
) -> Result<Reading, AnswerFault>
    requires { (frames : List Frame) × IsAtRest D.told D.image journal.old frames × HasSome cache.old frames }
    // Over a disk that tells its content the answer is the map's reading, and each call read a place that it needed.
    ensures reading { (frames : List Frame) (object : Object) (staged : List (List Op)) (m : Contents)
        → IsAtRest D.told D.image journal.old frames → IsTold (D.told (disk_in journal.old))
        → HasStored frames object staged cache.old m → HasKept frames cache.old
        → IfOk result (λ answer. answer ≡ reading m ask.now) }
    ensures places { (frames : List Frame) (object : Object) (staged : List (List Op)) (m : Contents)
        → HasStored frames object staged cache.old m → HasKept frames cache.old
        → OnOk result ((held : List (List ℕ × AHeld)) × AreAsked cache.old m ask.now held
        × (D.moment_of (disk_in journal.new) ≡ moment_behind held (D.moment_of (disk_in journal.old)))) }
    // Over any disk.
    ensures stays { StaysStored D.told D.image D.moment_of D.left_since (HasSome cache.old) journal.old cache.old journal.new cache.new }
    ensures counts { CountsReads D.told D.faults_of (disk_in journal.old) (disk_in journal.new) result }
{
    let before = journal.disk().faults();
    match read(alloc, journal, cache, ask) {
        Ok(reading) => Ok(reading),
        Err(ReadFault::NoMemory) => Err(AnswerFault::NoMemory),
        Err(ReadFault::DiskFailed) => Err(failed(journal, before)),
        Err(ReadFault::BadValue { place: _ }) => Err(failed(journal, before)),
    }
}

// A read failed, before which the disk had so many faults.
fn failed<D: Disk>(journal: &Journal<D>, before: u64) -> AnswerFault
    ensures { result ≡ AnswerFault.ReadFailed before (D.faults_of (disk_in journal.now)) }
{
    let after = journal.disk().faults();
    AnswerFault::ReadFailed { before, after }
}

impl<D: Disk> Storage<D> {
    /// What the object's map answers to the ask. A value that the cache has is given from memory, each other by one read of the disk.
    /// After each answer, a fault too, the storage stands for the same map.
    pub fn answer(&mut self, ask: &StoreAsk) -> Result<Reading, AnswerFault>
        requires { CanAnswer D.told D.image self.old }
        // Over a disk that tells its content the answer is the map's reading, and each call read a place that it needed.
        ensures reading { IsTold (D.told (disk_of self.old)) → (frames : List Frame) (object : Object) (staged : List (List Op)) (m : Contents)
            → IsStorage D.told D.image frames object staged m self.old → IfOk result (λ answer. answer ≡ reading m ask.now) }
        ensures places { IsTold (D.told (disk_of self.old)) → (frames : List Frame) (object : Object) (staged : List (List Op)) (m : Contents)
            → IsStorage D.told D.image frames object staged m self.old → OnOk result (ReadsPlaces D.moment_of m ask.now self.old self.new) }
        // Over any disk.
        ensures stands { StandsAsBefore D.told D.image self.old self.new }
        ensures journal { StaysAtRest D.told D.image D.moment_of D.left_since (journal_in self.old) (journal_in self.new) }
        ensures counts { CountsReads D.told D.faults_of (disk_of self.old) (disk_of self.new) result }
    {
        answer(self.alloc, &mut self.journal, &mut self.cache, ask)
    }
}
