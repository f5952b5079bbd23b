//! A journal with the cache over it.
ghost use Rattle.std.specs.Prelude.{◌≡◌, [], List, ℕ, IfOk, IfErr, Option};
ghost use Rattle.storage_map.specs.Limits.{Object};
ghost use Rattle.storage_map.specs.Contents.{Contents, nothing, apply};
ghost use Rattle.storage_map.specs.declared.op.Op.{Op};
ghost use Rattle.storage_cache.specs.Cached.{of_index};
ghost use Rattle.batch_journal.specs.Frames.{Frame, operations_in};
ghost use Rattle.batch_journal.specs.Places.{Indexes};
ghost use Rattle.batch_journal.specs.Rest.{IsAtRest, IsStaged};
ghost use Rattle.object_storage.specs.Storage.{journal_in, disk_of, cached_in, IsStorage};

use batch_journal::Journal;
use do_disk::Disk;
use std::alloc::Global;
use storage_cache::Cache;
use storage_map::{Alarm, Index};

/// The storage of one object: its journal on a disk, with the index of its keys and the values that aren't on the disk yet or were read.
pub struct Storage<D> {
    pub(crate) alloc: Global,
    pub(crate) journal: Journal<D>,
    pub(crate) cache: Cache,
}

// Written out, as each crate above would prove a derived one again wherever it lets one go.
impl<D: Drop> Drop for Storage<D> {
    fn drop(self) {
        let Storage {
            alloc: _,
            journal,
            cache,
        } = self;
        drop(journal);
        drop(cache);
    }
}

impl<D: Disk> Storage<D> {
    /// The storage of a journal that was just mounted, with its index. For want of memory it hands the journal back.
    pub fn new(alloc: Global, journal: Journal<D>, index: Index) -> Result<Storage<D>, Journal<D>>
        ensures parts { IfOk result (λ storage. (journal_in storage ≡ journal) × (cached_in storage ≡ of_index index)) }
        ensures stands { IfOk result (λ storage. (frames : List Frame) (object : Object) → IsAtRest D.told D.image journal frames
            → IsStaged journal object [] → Indexes frames index
            → IsStorage D.told D.image frames object [] (apply nothing (operations_in frames)) storage) }
        ensures same { IfErr result (λ left. left ≡ journal) }
    {
        match Cache::new(alloc, index) {
            Ok(cache) => Ok(Storage {
                alloc,
                journal,
                cache,
            }),
            Err(_) => Err(journal),
        }
    }

    /// The object's alarm, where there is one.
    pub fn alarm(&self) -> Option<Alarm>
        ensures { (frames : List Frame) (object : Object) (staged : List (List Op)) (m : Contents)
            → IsStorage D.told D.image frames object staged m self.now → result ≡ m.alarm }
    {
        self.cache.alarm()
    }

    /// The disk.
    pub fn into_disk(self) -> D
        ensures { result ≡ disk_of self }
    {
        let Storage {
            alloc: _,
            journal,
            cache,
        } = self;
        drop(cache);
        journal.into_disk()
    }
}
