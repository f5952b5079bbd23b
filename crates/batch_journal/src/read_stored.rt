//! Reading a value where it stands.
ghost use Rattle.std.specs.Prelude.{◌≡◌, ◌≤◌, List, ℕ, None, IfOk, OnOk, IsErrOf};
ghost use Rattle.do_disk.specs.Disk.{Rose, CountsFaults, next_count};
ghost use Rattle.do_value.specs.Tree.{size_of};
ghost use Rattle.do_value.specs.Seen.{tree_of};
ghost use Rattle.do_value.specs.declared.value.Value.{Value as AValue};
ghost use Rattle.storage_map.specs.Limits.{Object};
ghost use Rattle.storage_map.specs.Ops.{IsStored};
ghost use Rattle.storage_map.specs.declared.op.Op.{Op};
ghost use Rattle.batch_journal.specs.Frames.{Frame};
ghost use Rattle.batch_journal.specs.Moments.{OnlyReads, IsTold};
ghost use Rattle.batch_journal.specs.Places.{IsPlaceIn, place_of};
ghost use Rattle.batch_journal.specs.Rest.{disk_in, end_of, limit_of, IsAtRest, IsStaged};

use crate::journal::Journal;
use batch_codec::{Unread, decode};
use do_disk::{Disk, Failed};
use do_value::Value;
use thiserror::Error;

/// Why a value wasn't read.
#[derive(Clone, Copy, Debug, Drop, PartialEq, Eq, Error)]
pub enum ReadFault {
    /// The disk failed.
    #[error("the disk failed")]
    DiskFailed,
    /// The bytes that were read from this place on aren't the encoding of a value. Over a disk that tells its content it
    /// never comes.
    #[error("no value stands at {place}")]
    BadValue { place: u64 },
    /// Memory was wanted and refused.
    #[error("out of memory")]
    NoMemory,
}

impl From<Failed> for ReadFault {
    ghost use Rattle.batch_journal.specs.declared.read_stored.ReadFault.TheVariants.{DiskFailed};

    ghost from_gives = { λ _ fault. fault ≡ DiskFailed };

    fn from(_: Failed) -> Self {
        ReadFault::DiskFailed
    }
}

impl<D: Disk> Journal<D> {
    /// Reads the value that stands at this place and whose encoding has so many bytes, by one read of the disk. The place is
    /// one that `mount` gave, or that `stage` gave for a frame that was appended. After each answer the journal is as before.
    pub fn read_value(&mut self, place: u64, size: u32) -> Result<Value, ReadFault>
        requires { (frames : List Frame) × (value : AValue) × IsAtRest D.told D.image self.old frames
            × IsPlaceIn frames (place_of place size) value }
        ensures value { (frames : List Frame) (value : AValue) → IsAtRest D.told D.image self.old frames
            → IsPlaceIn frames (place_of place size) value → IsTold (D.told (disk_in self.old))
            → IfOk result (λ read. read ≡ value) }
        ensures stored { IfOk result (λ read. IsStored read × (size_of (tree_of read) ≡ size)) }
        ensures failed { IsErrOf result ReadFault.DiskFailed
            → Rose (D.faults_of (disk_in self.old)) (D.faults_of (disk_in self.new)) }
        ensures bad { (at : ℕ) → IsErrOf result (ReadFault.BadValue at)
            → (at ≡ place) × (D.told (disk_in self.old) ≡ None) }
        // Each answer but want of memory comes after one call of the disk, and each but that it failed without a fault.
        ensures calls { (IsErrOf result ReadFault.NoMemory → ⊥)
            → D.moment_of (disk_in self.new) ≡ next_count (D.moment_of (disk_in self.old)) }
        ensures steady { (IsErrOf result ReadFault.DiskFailed → ⊥)
            → D.faults_of (disk_in self.new) ≡ D.faults_of (disk_in self.old) }
        ensures later { D.faults_of (disk_in self.old) ≤ D.faults_of (disk_in self.new) }
        ensures reads { OnlyReads D.told D.image D.moment_of D.left_since (disk_in self.old) (disk_in self.new) }
        ensures same_frames { (frames : List Frame) → IsAtRest D.told D.image self.old frames
            → IsAtRest D.told D.image self.new frames }
        ensures same_staged { (object : Object) (batches : List (List Op))
            → IsStaged self.old object batches → IsStaged self.new object batches }
        ensures same_end { (end_of self.new ≡ end_of self.old) × (limit_of self.new ≡ limit_of self.old) }
    {
        let alloc = self.pending.allocator();
        let Ok(mut bytes) = vec![in alloc; 0; size as usize] else {
            return Err(ReadFault::NoMemory);
        };
        self.disk.read_at(place, &mut bytes)?;
        match decode(alloc, &bytes) {
            Ok(value) => Ok(value),
            Err(Unread::Malformed) => Err(ReadFault::BadValue { place }),
            Err(Unread::NoMemory) => Err(ReadFault::NoMemory),
        }
    }
}
