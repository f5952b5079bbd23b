//! A disk over a real file. It tells no content: that a file keeps to the crash rule is trusted.
ghost use Rattle.std.specs.Prelude.{◌≡◌, None, length, min, is_ok, OnOk, OnErr};
ghost use Rattle.std.specs.Result.{result_ok};
ghost use Rattle.do_disk.specs.Disk.{next_count, HasRisen, Elapses};
ghost use Rattle.do_disk.specs.FileCalls.{RealDisk, asked_length, read_range, wrote_range, given, opened, Makes, Syncs, IsAsSure, IsSure, IsUnsure, RealCounts};
ghost use Rattle.do_disk.specs.Real.{nothing_told};

use crate::sync_again::sync_again;
use crate::{Disk, Failed, FileCalls};
use std::io;
use std::marker::Model;

/// How many bytes at the end of a file that is opened may not have reached the device, though a read gives them. A run whose
/// last sync failed, or that ended before it, leaves one flight so, of less than 6,300,000 bytes: a class of up to 4,194,299
/// bytes, a name of up to 1,024, batches of less than 2,097,152, and what stands around them.
const TAIL_BYTES: u64 = 8_388_608;

/// The place that stands for no write.
const NOWHERE: u64 = u64::MAX;

/// A disk over an open file, which nobody else writes.
///
/// Behind a sync that failed, and before the first one, the device may not have what a read gives, though a later sync
/// succeeds: the system takes pages that it couldn't write for written. So the next sync first reads what was written
/// since the last good one, and before the first one the file's tail too, and writes it again as it is. No call fails
/// because of an earlier one.
#[derive(Drop)]
pub struct FileDisk<F: FileCalls> {
    file: F,
    moment: u64,
    faults: u64,
    written: u64,
    unsure: Option<u64>,
}

impl<F: FileCalls> Model for FileDisk<F> {
    ghost Value = { RealDisk };

    ghost view = { λ disk. record {
      calls = F.calls disk.file;
      moment = disk.moment;
      faults = disk.faults;
      written = disk.written;
      unsure = disk.unsure;
    } };
}

impl<F: FileCalls> FileDisk<F> {
    /// The disk of this file, before its first call.
    pub fn new(file: F) -> Self
        ensures { result ≡ opened (F.calls file) }
    {
        FileDisk {
            file,
            moment: 0,
            faults: 0,
            written: NOWHERE,
            unsure: Some(TAIL_BYTES),
        }
    }

    /// The file.
    pub fn file(&self) -> &F
        ensures { F.calls result.now ≡ self.now.calls }
    {
        &self.file
    }

    // Counts a call.
    fn begin(&mut self)
        ensures one_more { self.new ≡ record self.old { moment = next_count self.old.moment } }
        ensures time { Elapses self.old.moment self.new.moment (λ t c. ⊥) (λ t c. ⊥) (λ c. ⊥) }
    {
        self.moment = self.moment.saturating_add(1);
    }

    // A call fails.
    fn fail(&mut self) -> Failed
        ensures one_more { self.new ≡ record self.old { faults = next_count self.old.faults } }
        ensures rose { HasRisen self.old.faults self.new.faults }
    {
        self.faults = self.faults.saturating_add(1);
        Failed
    }

    // Syncs the file, and where the device may lack bytes writes them again first.
    fn sync_file(&mut self) -> io::Result<()>
        ensures makes { Syncs self.old self.new (is_ok result) }
        ensures same { self.new ≡ record self.old { calls = self.new.calls } }
    {
        match self.unsure {
            Some(before) => sync_again(&mut self.file, self.written, before),
            None => self.file.sync(),
        }
    }
}

impl<F: FileCalls> Disk for FileDisk<F> {
    ghost told = { λ _. None };

    ghost image = { λ _ _. ⊥ };

    ghost left_since = { λ _ _ _. ⊥ };

    ghost moment_of = { λ disk. disk.moment };

    ghost faults_of = { λ disk. disk.faults };

    ghost counts_now = { λ disk t c le now. absurd now };

    ghost only_now = { λ disk c left. absurd left };

    ghost reads_an_image = { λ disk c told. nothing_told told };

    fn length(&mut self) -> Result<u64, Failed>
        ensures makes { Makes self.old self.new (asked_length (result_ok result)) }
        ensures as_sure { IsAsSure self.old self.new }
        ensures counts { RealCounts self.old self.new result }
    {
        self.begin();
        match self.file.length() {
            Ok(length) => Ok(length),
            Err(_) => Err(self.fail()),
        }
    }

    fn read_at(&mut self, at: u64, into: &mut [u8]) -> Result<(), Failed>
        ensures makes { Makes self.old self.new (read_range at (length into.old) (given result into.new)) }
        ensures as_sure { IsAsSure self.old self.new }
        ensures counts { RealCounts self.old self.new result }
    {
        self.begin();
        match self.file.read_at(at, into) {
            Ok(()) => Ok(()),
            Err(_) => Err(self.fail()),
        }
    }

    fn write_at(&mut self, at: u64, from: &[u8]) -> Result<(), Failed>
        ensures makes { Makes self.old self.new (wrote_range at from.now (is_ok result)) }
        ensures written { self.new.written ≡ min self.old.written at }
        ensures unsure { self.new.unsure ≡ self.old.unsure }
        ensures counts { RealCounts self.old self.new result }
    {
        self.begin();
        self.written = self.written.min(at);
        match self.file.write_at(at, from) {
            Ok(()) => Ok(()),
            Err(_) => Err(self.fail()),
        }
    }

    fn sync(&mut self) -> Result<(), Failed>
        ensures makes { Syncs self.old self.new (is_ok result) }
        ensures good { OnOk result (IsSure self.new) }
        ensures failed { OnErr result (IsUnsure self.old self.new) }
        ensures counts { RealCounts self.old self.new result }
    {
        self.begin();
        match self.sync_file() {
            Ok(()) => {
                self.written = NOWHERE;
                self.unsure = None;
                Ok(())
            }
            Err(_) => {
                self.unsure = Some(self.unsure.unwrap_or(0));
                Err(self.fail())
            }
        }
    }

    fn moment(&self) -> u64 {
        self.moment
    }

    fn faults(&self) -> u64 {
        self.faults
    }
}
