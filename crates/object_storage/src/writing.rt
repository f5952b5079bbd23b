//! Taking batches, and writing them.
ghost use Rattle.std.specs.Prelude.{◌≡◌, ◌<◌, ◌^◌, ◌∷◌, ◌++◌, [], List, IfOk, OnOk, OnErr};
ghost use Rattle.storage_map.specs.Limits.{Object};
ghost use Rattle.storage_map.specs.Contents.{Contents, apply};
ghost use Rattle.storage_map.specs.declared.op.Op.{Op};
ghost use Rattle.storage_cache.specs.Cached.{IsCacheOf};
ghost use Rattle.storage_cache.specs.Counted.{removed_last};
ghost use Rattle.batch_journal.specs.Frames.{Frame, Name};
ghost use Rattle.batch_journal.specs.Rest.{CanStage, CanAppend, IsAtRest, IsStaged};
ghost use Rattle.object_storage.specs.Steps.{Stages, Appends};
ghost use Rattle.object_storage.specs.Stored.{with_staged, HasStored, HasKept};

use batch_journal::{AppendFault, Journal};
use do_disk::Disk;
use do_value::Mem;
use storage_cache::Cache;
use storage_map::{Batch, Identity};

/// Stages a batch of the object, does its operations, and counts how many of its last `tail` operations deleted a key that was there.
/// It makes no call of the disk. After `NoMemory` the same is staged as before, and an `append` still writes it; but use the cache no
/// more.
pub fn take<D: Disk>(
    journal: &mut Journal<D>,
    cache: &mut Cache,
    batch: &Batch,
    tail: u32,
    identity: &Identity,
) -> Mem<u64>
    requires { CanStage journal.old identity.now batch.now }
    ensures staged { Stages D.told D.image journal.old journal.new identity.now batch.now result }
    ensures stored { OnOk result ((frames : List Frame) (staged : List (List Op)) (m : Contents)
        → IsAtRest D.told D.image journal.old frames → IsStaged journal.old identity.now staged
        → HasStored frames identity.now staged cache.old m
        → HasStored frames identity.now (staged ++ batch.now ∷ []) cache.new (apply m batch.now)) }
    ensures kept { OnOk result ((frames : List Frame) → HasKept frames cache.old → HasKept frames cache.new) }
    ensures counted { IfOk result (λ count. (m : Contents) → IsCacheOf cache.old m → count ≡ removed_last tail m batch.now) }
{
    let places = journal.places(batch, identity)?;
    let count = cache.take(batch, places.as_slice(), tail)?;
    let _ = journal.stage(batch, identity)?;
    Ok(count)
}

/// Appends what is staged to the journal as one frame. It takes no memory. After a fault the journal is unsound: take its disk and mount
/// that again, with a cache of the index that the mounting gives.
pub fn append<D: Disk>(journal: &mut Journal<D>, cache: &mut Cache) -> Result<(), AppendFault>
    requires { CanAppend D.told D.image journal.old }
    ensures appends { Appends D.moment_of D.left_since D.told D.image D.faults_of journal.old journal.new result }
    ensures stored { OnOk result ((frames : List Frame) (object : Object) (staged : List (List Op)) (m : Contents)
        → IsAtRest D.told D.image journal.old frames → IsStaged journal.old object staged → Name object frames
        → HasStored frames object staged cache.old m → HasStored (with_staged frames object staged) object [] cache.new m) }
    ensures kept { OnOk result ((frames : List Frame) (object : Object) (staged : List (List Op))
        → HasKept frames cache.old → HasKept (with_staged frames object staged) cache.new) }
    // After a fault no value counts as flushed that didn't before.
    ensures same_cache { OnErr result (cache.new ≡ cache.old) }
{
    journal.append()?;
    fits(journal.end());
    cache.flushed();
    Ok(())
}

// A journal's end is a number of 64 bits, and so is the length of its file.
fn fits(end: u64)
    ensures { end < 2 ^ 64 }
{
    let _ = end;
}
