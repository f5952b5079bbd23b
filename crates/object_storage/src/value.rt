//! One value.
ghost use Rattle.std.specs.Prelude.{◌≡◌, ◌≤◌, List, ℕ, None, IfOk, OnOk, IsErrOf};
ghost use Rattle.do_disk.specs.Disk.{Rose, next_count};
ghost use Rattle.do_value.specs.declared.value.Value.{Value as AValue};
ghost use Rattle.batch_journal.specs.Frames.{Frame};
ghost use Rattle.batch_journal.specs.Moments.{IsTold};
ghost use Rattle.batch_journal.specs.Places.{IsPlaceIn};
ghost use Rattle.batch_journal.specs.Rest.{disk_in, IsAtRest};
ghost use Rattle.object_storage.specs.Reads.{CanBeRead, IsReadOf, StaysStored, moment_after};
ghost use Rattle.storage_cache.specs.Cached.{KeepsOnly};
ghost use Rattle.storage_cache.specs.declared.held.Held.TheVariants as held;

use batch_journal::{Journal, ReadFault};
use do_disk::Disk;
use do_value::Value;
use storage_cache::{Cache, Held, MOST_KEPT_BYTES};
use storage_map::Place;

/// The value that is held, which is read where it stands if only its place is.
pub(crate) fn read_held<D: Disk>(
    journal: &mut Journal<D>,
    cache: &mut Cache,
    held: Held,
) -> Result<Value, ReadFault>
    requires { (frames : List Frame) × IsAtRest D.told D.image journal.old frames × CanBeRead frames held }
    ensures value { (frames : List Frame) → IsAtRest D.told D.image journal.old frames → CanBeRead frames held
        → IsTold (D.told (disk_in journal.old)) → IfOk result (IsReadOf frames held) }
    ensures calls { OnOk result (D.moment_of (disk_in journal.new) ≡ moment_after held (D.moment_of (disk_in journal.old))) }
    ensures stays { StaysStored D.told D.image D.moment_of D.left_since (λ frames. CanBeRead frames held)
        journal.old cache.old journal.new cache.new }
    ensures failed { IsErrOf result ReadFault.DiskFailed
        → Rose (D.faults_of (disk_in journal.old)) (D.faults_of (disk_in journal.new)) }
    ensures bad { (at : ℕ) → IsErrOf result (ReadFault.BadValue at) → D.told (disk_in journal.old) ≡ None }
    ensures steady { (IsErrOf result ReadFault.DiskFailed → ⊥)
        → D.faults_of (disk_in journal.new) ≡ D.faults_of (disk_in journal.old) }
    ensures later { D.faults_of (disk_in journal.old) ≤ D.faults_of (disk_in journal.new) }
{
    match held {
        Held::Value(value) => Ok(value),
        Held::At(place) => read_at_place(journal, cache, place),
    }
}

// The value that stands at the place, of which a copy is kept.
fn read_at_place<D: Disk>(
    journal: &mut Journal<D>,
    cache: &mut Cache,
    place: Place,
) -> Result<Value, ReadFault>
    requires { (frames : List Frame) × IsAtRest D.told D.image journal.old frames × CanBeRead frames (held.At place) }
    ensures value { (frames : List Frame) (value : AValue) → IsAtRest D.told D.image journal.old frames
        → IsPlaceIn frames place value → IsTold (D.told (disk_in journal.old)) → IfOk result (λ read. read ≡ value) }
    ensures calls { OnOk result (D.moment_of (disk_in journal.new) ≡ next_count (D.moment_of (disk_in journal.old))) }
    ensures stays { StaysStored D.told D.image D.moment_of D.left_since (λ frames. CanBeRead frames (held.At place))
        journal.old cache.old journal.new cache.new }
    ensures failed { IsErrOf result ReadFault.DiskFailed
        → Rose (D.faults_of (disk_in journal.old)) (D.faults_of (disk_in journal.new)) }
    ensures bad { (at : ℕ) → IsErrOf result (ReadFault.BadValue at) → D.told (disk_in journal.old) ≡ None }
    ensures steady { (IsErrOf result ReadFault.DiskFailed → ⊥)
        → D.faults_of (disk_in journal.new) ≡ D.faults_of (disk_in journal.old) }
    ensures later { D.faults_of (disk_in journal.old) ≤ D.faults_of (disk_in journal.new) }
{
    let value = journal.read_value(place.at, place.size)?;
    keep_copy(cache, place, &value);
    Ok(value)
}

// Keeps a copy of a value that was read at this place, unless it is too large for that or memory is wanting.
fn keep_copy(cache: &mut Cache, place: Place, value: &Value)
    ensures { KeepsOnly cache.old cache.new place value.now }
{
    if value.size() > MOST_KEPT_BYTES {
        return;
    }
    let Ok(copy) = value.copy() else {
        return;
    };
    cache.keep(place, copy);
}
