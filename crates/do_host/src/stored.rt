//! What the storage of a slot contains, read where its values stand.
ghost use Rattle.std.specs.Prelude.{◌≡◌, ◌≤◌, ◌++◌, ◌∷◌, [], List, IfOk, OnOk, length};
ghost use Rattle.std.specs.FinMap.{entries};
ghost use Rattle.batch_journal.specs.Frames.{Frame};
ghost use Rattle.batch_journal.specs.Moments.{IsTold};
ghost use Rattle.batch_journal.specs.Places.{Indexes};
ghost use Rattle.batch_journal.specs.Rest.{IsAtRest, disk_in};
ghost use Rattle.storage_map.specs.Limits.{most_key_bytes};
ghost use Rattle.do_host.specs.Storage.{IsReadOf, ReadsValues, keys_of, left_by};

use batch_journal::{Journal, ReadFault};
use do_disk::Disk;
use do_value::{Mem, NoMemory, Value};
use std::alloc::Global;
use std::marker::Model;
use storage_map::{Alarm, Index, Key, KeyFault, Options};

// The pairs of a slot's storage, ascending by key, and its alarm.
#[derive(Drop)]
pub(crate) struct Stored {
    pub(crate) pairs: Vec<(Key, Value)>,
    pub(crate) alarm: Option<Alarm>,
}

impl Model for Stored {
    ghost use Rattle.do_host.specs.Storage.{Storage, storage_code};

    ghost Value = { Storage };

    ghost coded = { storage_code };

    ghost view = { λ stored. record { pairs = stored.pairs.items; alarm = stored.alarm } };
}

// Reads what a journal that was just mounted has stored, by one read of the disk for each value.
pub(crate) fn read_stored<D: Disk>(
    alloc: Global,
    journal: &mut Journal<D>,
    index: &Index,
) -> Result<Stored, ReadFault>
    requires { (frames : List Frame) × IsAtRest D.told D.image journal.old frames × Indexes frames index.now }
    ensures stored { (frames : List Frame) → IsAtRest D.told D.image journal.old frames → Indexes frames index.now
        → IfOk result (IsReadOf (D.told (disk_in journal.old)) frames) }
    ensures reads { ReadsValues D.told D.image D.moment_of D.left_since D.faults_of journal.old journal.new result }
{
    Ok(Stored {
        pairs: read_pairs(alloc, journal, index)?,
        alarm: index.alarm(),
    })
}

// Reads the pairs that the index has places of.
fn read_pairs<D: Disk>(
    alloc: Global,
    journal: &mut Journal<D>,
    index: &Index,
) -> Result<Vec<(Key, Value)>, ReadFault>
    requires { (frames : List Frame) × IsAtRest D.told D.image journal.old frames × Indexes frames index.now }
    ensures keys { IfOk result (λ pairs. keys_of pairs.items ≡ keys_of (entries index.now.places)) }
    ensures values { (frames : List Frame) → IsAtRest D.told D.image journal.old frames → Indexes frames index.now
        → IsTold (D.told (disk_in journal.old)) → IfOk result (λ pairs. pairs.items ≡ entries (left_by frames).values) }
    ensures reads { ReadsValues D.told D.image D.moment_of D.left_since D.faults_of journal.old journal.new result }
{
    let every = Options::every();
    let mut pairs = Vec::new(alloc);
    for (key, place) in index.range(&every) {
        let value = journal.read_value(place.at, place.size)?;
        let Ok(()) = add(alloc, &mut pairs, key, value) else {
            return Err(ReadFault::NoMemory);
        };
    }
    Ok(pairs)
}

// Puts the key with its value behind the others.
fn add(alloc: Global, pairs: &mut Vec<(Key, Value)>, key: &str, value: Value) -> Mem<()>
    requires { length key.now ≤ most_key_bytes }
    ensures { OnOk result (pairs.new.items ≡ pairs.old.items ++ (key.now, value) ∷ []) }
{
    let key = match Key::new(alloc, key) {
        Ok(key) => key,
        Err(KeyFault::NoMemory) => return Err(NoMemory),
        Err(KeyFault::Long { size: _ }) => unreachable!(),
    };
    match pairs.push((key, value)) {
        Ok(()) => Ok(()),
        Err(_) => Err(NoMemory),
    }
}
