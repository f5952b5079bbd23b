//! What a back keeps of its disk.
ghost use Rattle.std.specs.Prelude.{◌≡◌, List, IfOk};
ghost use Rattle.storage_map.specs.Contents.{Contents};
ghost use Rattle.storage_cache.specs.Cached.{IsCacheOf};
ghost use Rattle.storage_cache.specs.Counted.{removed_last};
ghost use Rattle.batch_journal.specs.Frames.{Frame};
ghost use Rattle.batch_journal.specs.Rest.{CanStage, CanAppend, IsAtRest};
ghost use Rattle.object_storage.specs.Stored.{HasSome};
ghost use Rattle.batch_journal.specs.declared.journal.Journal.{Journal};
ghost use Rattle.output_gate.specs.Storing.{Appends, Reads, Stages, StagesOps, Stores, IsDiskOf};

use batch_journal::{AppendFault, Journal};
use do_disk::Disk;
use do_value::Mem;
use object_storage::{AnswerFault, answer, append, take};
use std::alloc::Global;
use std::mem;
use storage_cache::Cache;
use storage_map::{Batch, Identity, Reading, StoreAsk};
use timeline::Cause;

/// A back's disk.
#[derive(Drop)]
pub(crate) enum Store<D> {
    /// In its journal, which is at rest, or whose last append failed.
    Journal(Journal<D>),
    /// Bare, after a mounting that failed.
    Disk(D),
    /// Being mounted.
    Away,
}

/// Why an append didn't write, with the journal's end before it.
#[derive(Clone, Copy, Drop)]
pub(crate) struct Fault {
    pub(crate) cause: Cause,
    pub(crate) end: u64,
}

impl<D: Disk> Store<D> {
    // Stages a batch of this object, does its operations in the cache, and counts how many of its last `tail` ones deleted a key that was
    // there.
    pub(crate) fn stage(
        &mut self,
        cache: &mut Cache,
        batch: &Batch,
        tail: u32,
        identity: &Identity,
    ) -> Mem<u64>
        requires { (journal : Journal D) × (self.old ≡ Store.Journal journal) × CanStage journal identity.now batch.now }
        ensures staged { (journal : Journal D) → self.old ≡ Store.Journal journal
            → Stages D.told D.image journal self.new identity.now batch.now result }
        ensures stored { (journal : Journal D) → self.old ≡ Store.Journal journal
            → StagesOps D.told D.image journal cache.old cache.new identity.now batch.now result }
        ensures counted { IfOk result (λ count. (m : Contents) → IsCacheOf cache.old m → count ≡ removed_last tail m batch.now) }
    {
        match self {
            Store::Journal(journal) => take(journal, cache, batch, tail, identity),
            _ => unreachable!(),
        }
    }

    // Appends what is staged.
    pub(crate) fn append(&mut self, cache: &mut Cache) -> Result<(), Fault>
        requires { (journal : Journal D) × (self.old ≡ Store.Journal journal) × CanAppend D.told D.image journal }
        ensures appends { (journal : Journal D) → self.old ≡ Store.Journal journal
            → Appends D.moment_of D.left_since D.told D.image D.faults_of journal self.new result }
        ensures stores { (journal : Journal D) → self.old ≡ Store.Journal journal
            → Stores D.told D.image journal cache.old cache.new result }
    {
        match self {
            Store::Journal(journal) => append_to(journal, cache),
            _ => unreachable!(),
        }
    }

    // What is stored answers to the ask.
    pub(crate) fn answer(
        &mut self,
        alloc: Global,
        cache: &mut Cache,
        ask: &StoreAsk,
    ) -> Result<Reading, AnswerFault>
        requires { (journal : Journal D) × (self.old ≡ Store.Journal journal)
            × (frames : List Frame) × IsAtRest D.told D.image journal frames × HasSome cache.old frames }
        ensures { (journal : Journal D) → self.old ≡ Store.Journal journal
            → Reads D.moment_of D.left_since D.told D.image D.faults_of journal self.new cache.old cache.new ask.now result }
    {
        match self {
            Store::Journal(journal) => answer(alloc, journal, cache, ask),
            _ => unreachable!(),
        }
    }

    // Takes the disk out.
    pub(crate) fn leave(&mut self) -> D
        requires { (disk : D) × IsDiskOf self.old disk }
        ensures disk { IsDiskOf self.old result }
        ensures away { self.new ≡ Store.Away }
    {
        mem::replace(self, Store::Away).into_disk()
    }

    // Puts a disk where none is.
    pub(crate) fn fill(&mut self, store: Store<D>)
        requires { self.old ≡ Store.Away }
        ensures { self.new ≡ store }
    {
        match mem::replace(self, store) {
            Store::Away => (),
            Store::Journal(_) | Store::Disk(_) => unreachable!(),
        }
    }

    // The disk's count of calls.
    pub(crate) fn moment(&self) -> u64
        requires { (disk : D) × IsDiskOf self.now disk }
        ensures { (disk : D) → IsDiskOf self.now disk → result ≡ D.moment_of disk }
    {
        match self {
            Store::Journal(journal) => journal.disk().moment(),
            Store::Disk(disk) => disk.moment(),
            Store::Away => unreachable!(),
        }
    }

    // The disk.
    pub(crate) fn into_disk(self) -> D
        requires { (disk : D) × IsDiskOf self disk }
        ensures { IsDiskOf self result }
    {
        match self {
            Store::Journal(journal) => journal.into_disk(),
            Store::Disk(disk) => disk,
            Store::Away => unreachable!(),
        }
    }
}

// One append, and why it didn't write.
fn append_to<D: Disk>(journal: &mut Journal<D>, cache: &mut Cache) -> Result<(), Fault>
    requires { CanAppend D.told D.image journal.old }
    ensures appends { Appends D.moment_of D.left_since D.told D.image D.faults_of journal.old (Store.Journal journal.new) result }
    ensures stores { Stores D.told D.image journal.old cache.old cache.new result }
{
    let end = journal.end();
    let before = journal.disk().faults();
    match append(journal, cache) {
        Ok(()) => Ok(()),
        Err(AppendFault::DiskFailed) => {
            let after = journal.disk().faults();
            Err(Fault {
                cause: Cause::Disk { before, after },
                end,
            })
        }
        Err(AppendFault::Full { needed, limit }) => Err(Fault {
            cause: Cause::Full { needed, limit },
            end,
        }),
    }
}
