//! The pairs of a look.
ghost use Rattle.std.specs.Prelude.{◌≡◌, ◌≤◌, ◌++◌, ◌∷◌, [], List, ℕ, Option, None, IfOk, OnOk, IsErrOf, unwrap_or};
ghost use Rattle.do_disk.specs.Disk.{Rose};
ghost use Rattle.do_value.specs.declared.value.Value.{Value as AValue};
ghost use Rattle.batch_journal.specs.Frames.{Frame};
ghost use Rattle.batch_journal.specs.Moments.{IsTold};
ghost use Rattle.batch_journal.specs.Rest.{disk_in, IsAtRest};
ghost use Rattle.storage_cache.specs.Looks.{pair_at};
ghost use Rattle.object_storage.specs.Reads.{AllCanBeRead, AreReadOf, StaysStored, keys_of, moment_behind};

use crate::value::read_held;
use batch_journal::{Journal, ReadFault};
use do_disk::Disk;
use do_value::{Mem, NoMemory, Value};
use std::alloc::Global;
use storage_cache::{Cache, Held};
use storage_map::Key;

/// Each key with its value, in their order, of which those are read that are held as places.
pub(crate) fn read_pairs<D: Disk>(
    alloc: Global,
    journal: &mut Journal<D>,
    cache: &mut Cache,
    pairs: Vec<(Key, Held)>,
) -> Result<Vec<(Key, Value)>, ReadFault>
    requires { (frames : List Frame) × IsAtRest D.told D.image journal.old frames × AllCanBeRead frames pairs.items }
    ensures value { (frames : List Frame) → IsAtRest D.told D.image journal.old frames → AllCanBeRead frames pairs.items
        → IsTold (D.told (disk_in journal.old)) → IfOk result (λ read. AreReadOf frames pairs.items read.items) }
    ensures keys { IfOk result (λ read. keys_of pairs.items ≡ keys_of read.items) }
    ensures calls { OnOk result (D.moment_of (disk_in journal.new) ≡ moment_behind pairs.items (D.moment_of (disk_in journal.old))) }
    ensures stays { StaysStored D.told D.image D.moment_of D.left_since (λ frames. AllCanBeRead frames pairs.items)
        journal.old cache.old journal.new cache.new }
    ensures failed { IsErrOf result ReadFault.DiskFailed
        → Rose (D.faults_of (disk_in journal.old)) (D.faults_of (disk_in journal.new)) }
    ensures bad { (at : ℕ) → IsErrOf result (ReadFault.BadValue at) → D.told (disk_in journal.old) ≡ None }
    ensures steady { (IsErrOf result ReadFault.DiskFailed → ⊥)
        → D.faults_of (disk_in journal.new) ≡ D.faults_of (disk_in journal.old) }
    ensures later { D.faults_of (disk_in journal.old) ≤ D.faults_of (disk_in journal.new) }
{
    let mut read = Vec::new(alloc);
    for pair in pairs {
        let (key, held) = pair;
        let value = read_held(journal, cache, held)?;
        let Ok(()) = add(&mut read, key, value) else {
            return Err(ReadFault::NoMemory);
        };
    }
    Ok(read)
}

// Puts the pair behind the others.
fn add(pairs: &mut Vec<(Key, Value)>, key: Key, value: Value) -> Mem<()>
    ensures { OnOk result (pairs.new.items ≡ pairs.old.items ++ (key, value) ∷ []) }
{
    if pairs.push((key, value)).is_err() {
        return Err(NoMemory);
    }
    Ok(())
}

/// The value of the only pair, `undefined` where there is none.
pub(crate) fn only_value(mut pairs: Vec<(Key, Value)>) -> Value
    ensures { (key : List ℕ) (value : Option AValue) → pairs.items ≡ pair_at key value
        → result ≡ unwrap_or value Value.Undefined }
{
    match pairs.pop() {
        Some((_, value)) => value,
        None => Value::Undefined,
    }
}
