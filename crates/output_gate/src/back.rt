//! The back half of an object.
ghost use Rattle.std.specs.Prelude.{◌≡◌, [], IfOk, IfErr};
ghost use Rattle.batch_journal.specs.Frames.{batches_in};
ghost use Rattle.batch_journal.specs.Mounting.{IsMountOf};
ghost use Rattle.batch_journal.specs.Rest.{IsStaged, disk_in};
ghost use Rattle.do_disk.specs.Disk.{next_count};
ghost use Rattle.storage_map.specs.Limits.{Object};
ghost use Rattle.timeline.specs.Logs.{backed};
ghost use Rattle.output_gate.specs.Logs.{IsFresh};
ghost use Rattle.output_gate.specs.Serving.{CanServe, IsBack};
ghost use Rattle.output_gate.specs.Storing.{IsDiskOf};

use crate::held::Held;
use crate::store::Store;
use batch_journal::Mounted;
use do_disk::Disk;
use std::alloc::Global;
use std::collections::VecDeque;
use storage_cache::Cache;
use storage_map::Identity;
use timeline::{BackLog, Cause};

/// No more is taken while so many encoded bytes of batches, or more, are unflushed.
pub const MOST_UNFLUSHED_BYTES: u64 = 1_048_576;

/// Whether the newest incarnation is mounted.
#[derive(Clone, Copy, Drop)]
pub(crate) enum Mode {
    Mounted,
    /// It isn't, and a mounting is wanted.
    Wanted(Ending),
    /// It isn't: the last mounting failed, and another is wanted once a `Mend` is taken.
    Down(Ending),
}

/// What is known of an end at an append until the journal is mounted again.
#[derive(Clone, Copy, Drop)]
pub(crate) struct Ending {
    pub(crate) cause: Cause,
    // the journal's end before the append
    pub(crate) end: u64,
    // how many batches of the ended incarnation were durable, and how many are where the whole flight is
    pub(crate) flown: u64,
    pub(crate) whole: u64,
}

/// The back half of an object.
pub struct Back<D> {
    pub(crate) alloc: Global,
    pub(crate) store: Store<D>,
    // the journal's limit in bytes
    pub(crate) limit: u64,
    pub(crate) cache: Cache,
    pub(crate) identity: Option<Identity>,
    pub(crate) held: VecDeque<Held>,
    pub(crate) mode: Mode,
    // something was taken that no front sends
    pub(crate) stuck: bool,
    // memory was wanting at a step: only a flush still serves
    pub(crate) stopped: bool,
    // the batches before the next message and those that are durable, from the opening; and those of the newest incarnation
    pub(crate) before: u64,
    pub(crate) durable: u64,
    pub(crate) own: u64,
    // of the batches before the next message those up to the last confirmed one, which it needs
    pub(crate) needs: u64,
    // the batches that were durable at the last end
    pub(crate) settled: u64,
    // what a message of the incarnation that ended then needs, where it still leaves as it is
    pub(crate) late: Option<u64>,
    // the encoded bytes of the batches that are taken and not durable
    pub(crate) unflushed: u64,
    // the number of the newest incarnation
    pub(crate) number: u64,
    pub(crate) log: BackLog,
}

// Written out, so that letting one go is proved once.
impl<D: Drop> Drop for Back<D> {
    fn drop(self) {
        let Back {
            alloc: _,
            store,
            limit: _,
            cache,
            identity,
            held,
            mode,
            stuck: _,
            stopped: _,
            before: _,
            durable: _,
            own: _,
            needs: _,
            settled: _,
            late: _,
            unflushed: _,
            number: _,
            log,
        } = self;
        drop(store);
        drop(cache);
        drop(identity);
        drop(held);
        drop(mode);
        drop(log);
    }
}

/// What a back leaves.
#[derive(Drop)]
pub struct BackParts<D> {
    pub disk: D,
    /// The object of the slot, where there is one.
    pub identity: Option<Identity>,
    pub log: BackLog,
}

impl<D: Disk> Back<D> {
    /// A back of a slot that was just mounted. For want of memory it hands the disk back.
    pub fn new(alloc: Global, mounted: Mounted<D>) -> Result<Back<D>, D>
        requires { (object : Object) → IsStaged mounted.journal object [] }
        ensures fresh { IfOk result (λ back. IsFresh mounted back) }
        ensures back { IfOk result (λ back. (disk : D) (is : IsMountOf D.told D.image D.moment_of D.left_since disk mounted)
            → IsBack D.moment_of D.left_since D.told D.image D.faults_of (batches_in is.frames) (next_count (D.moment_of disk)) back) }
        ensures disk { IfErr result (λ disk. disk ≡ disk_in mounted.journal) }
    {
        let Mounted {
            journal,
            identity,
            index,
        } = mounted;
        let limit = journal.limit();
        let Ok(cache) = Cache::new(alloc, index) else {
            return Err(journal.into_disk());
        };
        Ok(Back {
            alloc,
            store: Store::Journal(journal),
            limit,
            cache,
            identity,
            held: VecDeque::new(alloc),
            mode: Mode::Mounted,
            stuck: false,
            stopped: false,
            before: 0,
            durable: 0,
            own: 0,
            needs: 0,
            settled: 0,
            late: None,
            unflushed: 0,
            number: 1,
            log: BackLog {
                taken: Vec::new(alloc),
                flights: Vec::new(alloc),
                stops: Vec::new(alloc),
                released: Vec::new(alloc),
                ends: Vec::new(alloc),
                downs: Vec::new(alloc),
            },
        })
    }

    /// What it has done.
    pub fn log(&self) -> &BackLog
        ensures { backed result.now ≡ backed self.now.log }
    {
        &self.log
    }

    /// The disk, the object and the history. It takes no memory.
    pub fn into_parts(self) -> BackParts<D>
        requires { CanServe D.moment_of D.left_since D.told D.image D.faults_of self }
        ensures disk { IsDiskOf self.store result.disk }
        ensures identity { result.identity ≡ self.identity }
        ensures log { backed result.log ≡ backed self.log }
    {
        let Back {
            alloc: _,
            store,
            limit: _,
            cache,
            identity,
            held: _,
            mode: _,
            stuck: _,
            stopped: _,
            before: _,
            durable: _,
            own: _,
            needs: _,
            settled: _,
            late: _,
            unflushed: _,
            number: _,
            log,
        } = self;
        drop(cache);
        BackParts {
            disk: store.into_disk(),
            identity,
            log,
        }
    }
}
