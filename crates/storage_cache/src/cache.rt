//! The cache of an object whose values stay on the disk.
ghost use Rattle.std.specs.Prelude.{◌≡◌, IfOk};
ghost use Rattle.storage_cache.specs.Cached.{of_index, flush_all, KeepsOnly, KeepsSmall};

use do_value::{Mem, NoMemory, Value};
use lru::LruCache;
use std::alloc::Global;
use std::marker::Model;
use std::num::NonZeroUsize;
use storage_map::{Alarm, Index, Map, Place};

/// How many values that were read are kept.
pub const MOST_KEPT: usize = 32;

/// A value whose encoding has more bytes isn't kept.
pub const MOST_KEPT_BYTES: u64 = 16_384;

/// The places of an object's values and its alarm, the values that aren't on the disk yet, and some values that were read.
/// Contracts see these three.
pub struct Cache {
    pub(crate) alloc: Global,
    pub(crate) index: Index,
    // The values of the batches that were taken and aren't flushed, in place of a place. Its alarm isn't used.
    pub(crate) unflushed: Map,
    pub(crate) kept: LruCache<Place, Value>,
}

// Written out, as each crate above would prove a derived one again wherever it lets one go.
impl Drop for Cache {
    fn drop(self) {
        let Cache {
            alloc: _,
            index,
            unflushed,
            kept,
        } = self;
        drop(index);
        drop(unflushed);
        drop(kept);
    }
}

impl Model for Cache {
    ghost use Rattle.storage_cache.specs.Cached.{Cached};
    ghost use Rattle.storage_cache.specs.CachedCode.{cached_code};

    ghost Value = { Cached };

    ghost coded = { cached_code };

    ghost view = { λ cache. record { index = cache.index; unflushed = cache.unflushed.values; kept = cache.kept.entries } };
}

impl Cache {
    /// The cache of this index, with no value.
    pub fn new(alloc: Global, index: Index) -> Mem<Cache>
        ensures { IfOk result (λ cache. cache ≡ of_index index) }
    {
        let most = NonZeroUsize::new(MOST_KEPT).unwrap();
        match LruCache::new(alloc, most) {
            Ok(kept) => Ok(Cache {
                alloc,
                index,
                unflushed: Map::new(alloc),
                kept,
            }),
            Err(_) => Err(NoMemory),
        }
    }

    /// The alarm, where there is one.
    pub fn alarm(&self) -> Option<Alarm>
        ensures { result ≡ self.now.index.alarm }
    {
        self.index.alarm()
    }

    /// Says that all batches that were taken are on the disk, so that their values stand at their places.
    pub fn flushed(&mut self)
        ensures { self.new ≡ flush_all self.old }
    {
        self.unflushed = Map::new(self.alloc);
    }

    /// Keeps a value that was read at this place, or drops it. Values that were kept may be dropped for it.
    pub fn keep(&mut self, place: Place, value: Value)
        ensures kept { KeepsOnly self.old self.new place value }
        ensures small { KeepsSmall self.old self.new }
    {
        if value.size() > MOST_KEPT_BYTES {
            return;
        }
        let _ = self.kept.put(place, value);
    }
}
