//! A depot hands out the disks of slots and the texts at paths, and remembers what it was asked.
ghost use Rattle.std.specs.Prelude.{◌≡◌, ◌≢◌, ◌≤◌, List, ℕ, Option, length, take, IfOk, OnErr};
ghost use Rattle.do_disk.specs.Disk.{IfTold};
ghost use Rattle.do_disk.specs.Asks.{Ask, Adds, CountsFailures, for_text, for_slot};

use crate::Disk;

/// The most bytes of a text that a depot reads: one more than a script may have, so that a longer one shows.
pub const MOST_TEXT_BYTES: usize = 262_145;

/// The most slots that a run takes of a folder: numbers 0 to 255.
pub const MOST_SLOTS: u32 = 256;

/// Why a depot gives nothing.
#[derive(Clone, Copy, Debug, Drop, PartialEq, Eq)]
pub enum DepotFault {
    /// There is no such text or slot, or it can't be read. It comes only where the depot's count of faults rose in the
    /// call, or stands at u64's greatest value.
    Failed,
    /// Memory was wanted and refused.
    NoMemory,
}

/// Where the program's disks and texts are. What it tells of a text or of another slot is the same after each call as
/// before it.
pub trait Depot {
    /// The disks that it hands out.
    type Store: Disk + Send + Drop;

    /// What it was asked, in order.
    ghost asked: { Self → List Ask };

    /// The text at a path, where the depot tells it.
    ghost text_at: { Self → List ℕ → Option (List ℕ) };

    /// The content of a folder's slot, where the depot tells it. Slots are numbered from 0.
    ghost slot_at: { Self → List ℕ → ℕ → Option (List ℕ) };

    /// How many faults there have been. It stays at u64's greatest value.
    ghost faults_of: { Self → ℕ };

    /// The disk of this folder's slot, before its first call. What a crash leaves of it before its first successful sync
    /// isn't told: a real file can hold bytes that a killed process wrote and never synced.
    fn slot(&mut self, folder: &str, number: u32) -> Result<Self::Store, DepotFault>
        ensures asked { Adds (asked self.old) (asked self.new) (for_slot folder.now number) result }
        ensures fresh { IfOk result (λ disk. (Self.Store.moment_of disk ≡ 0) × (Self.Store.faults_of disk ≡ 0)) }
        ensures content { IfOk result (λ disk. Self.Store.told disk ≡ slot_at self.old folder.now number) }
        ensures others { (other_folder : List ℕ) (other : ℕ) → other ≢ number
            → slot_at self.new other_folder other ≡ slot_at self.old other_folder other }
        ensures same_slots { OnErr result ((any_folder : List ℕ) (any : ℕ)
            → slot_at self.new any_folder any ≡ slot_at self.old any_folder any) }
        ensures same_texts { (path : List ℕ) → text_at self.new path ≡ text_at self.old path }
        ensures faults { CountsFailures (faults_of self.old) (faults_of self.new) result };

    /// The first bytes of the text at this path, at most [`MOST_TEXT_BYTES`].
    fn text(&mut self, path: &str) -> Result<Vec<u8>, DepotFault>
        ensures asked { Adds (asked self.old) (asked self.new) (for_text path.now) result }
        ensures bound { IfOk result (λ text. length text.items ≤ MOST_TEXT_BYTES) }
        ensures content { IfOk result (λ text. IfTold (text_at self.old path.now) (λ bytes. text.items ≡ take MOST_TEXT_BYTES bytes)) }
        ensures same_slots { (folder : List ℕ) (number : ℕ) → slot_at self.new folder number ≡ slot_at self.old folder number }
        ensures same_texts { (any_path : List ℕ) → text_at self.new any_path ≡ text_at self.old any_path }
        ensures faults { CountsFailures (faults_of self.old) (faults_of self.new) result };
}
