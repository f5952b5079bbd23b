//! A disk in memory. It keeps its first content and each call that changes what a crash may leave.
ghost use Rattle.std.specs.Prelude.{◌≡◌, ◌≤◌, ◌<◌, ◌+◌, List, ℕ, Some, length, slice_range, IfOk, OnOk, OnErr};
ghost use Rattle.std.specs.List.{All};
ghost use Rattle.do_disk.specs.Disk.{written, Torn, Follows, Reaches, next_count, HasRisen, Elapses, Rose, CountsFaults};
ghost use Rattle.do_disk.specs.Replay.{State, wrote, step, at_rest, with_call};
ghost use Rattle.do_disk.specs.MemoryDisk.{MemoryDisk, state_of, content_of, MayLeave, MightHaveLeft, made_of, IsFresh, IsHealthy, Counts, Goes, FailsWhereNamed, FailsOnlyByCause, IsTornOrRefused, IsNumbered};
ghost use Rattle.do_disk.specs.Picked.{picked};
ghost use Rattle.do_disk.specs.Logged.{act_of};
ghost use Rattle.do_disk.specs.Images.{counts_now, only_now, reads_an_image};

use crate::log::{Change, Log};
use crate::{Disk, Failed, Fails, Pick};
use do_value::{Mem, NoMemory};
use std::alloc::AllocError;
use std::marker::Model;

/// A disk in memory, of which chosen calls fail and chosen images can be had.
#[derive(Debug, Drop)]
pub struct MemDisk {
    log: Log,
    moment: u64,
    faults: u64,
    refused: u64,
    fails: Fails,
}

impl Model for MemDisk {
    ghost Value = { MemoryDisk };

    ghost view = { λ disk. record { log = disk.log; moment = disk.moment; faults = disk.faults; refused = disk.refused; fails = disk.fails } };

    ghost invariant = { λ disk. IsNumbered disk.log disk.moment };
}

impl MemDisk {
    /// A disk that holds these bytes, of which these calls fail. The calls are numbered from 1.
    pub fn new(content: Vec<u8>, fails: Fails) -> Self
        ensures { result ≡ made_of content.items fails }
    {
        MemDisk {
            log: Log::new(content),
            moment: 0,
            faults: 0,
            refused: 0,
            fails,
        }
    }

    /// What a crash leaves by this pick: a healthy disk before its first call, with that content all durable.
    pub fn crash(self, pick: Pick) -> Mem<MemDisk>
        ensures content { IfOk result (λ disk. content_of disk ≡ picked pick (state_of self)) }
        ensures image { IfOk result (λ disk. MayLeave self (content_of disk)) }
        ensures fresh { IfOk result IsFresh }
        ensures healthy { IfOk result (λ disk. IsHealthy disk.fails) }
    {
        let content = self.picked(pick).map_err(|_| NoMemory)?;
        let healthy = Fails::Listed(Vec::new(*content.allocator()));
        Ok(MemDisk::new(content, healthy))
    }

    /// What a read gives.
    pub fn content(&self) -> &[u8]
        ensures { result.now ≡ content_of self.now }
    {
        self.log.content()
    }

    /// How many growths were refused. It stays at u64's greatest value.
    pub fn refused(&self) -> u64
        ensures { result ≡ self.now.refused }
    {
        self.refused
    }

    // The disk as it was made. Before its first call that is the same disk.
    pub(crate) fn renewed(self) -> MemDisk
        ensures made { self.moment ≡ 0 → result ≡ made_of (content_of self) self.fails }
    {
        let MemDisk { log, fails, .. } = self;
        MemDisk::new(log.into_start(), fails)
    }

    // The content that a crash leaves by this pick.
    fn picked(&self, pick: Pick) -> Result<Vec<u8>, AllocError>
        ensures content { IfOk result (λ bytes. bytes.items ≡ picked pick (state_of self.now)) }
        ensures image { IfOk result (λ bytes. MayLeave self.now bytes.items) }
    {
        self.log.picked(pick)
    }

    // A call fails.
    fn fail(&mut self) -> Failed
        ensures one_more { self.new ≡ record self.old { faults = next_count self.old.faults } }
        ensures rose { HasRisen self.old.faults self.new.faults }
    {
        self.faults = self.faults.saturating_add(1);
        Failed
    }

    // A growth was refused.
    fn count_refused(&mut self)
        ensures one_more { self.new ≡ record self.old { refused = next_count self.old.refused } }
        ensures rose { HasRisen self.old.refused self.new.refused }
    {
        self.refused = self.refused.saturating_add(1);
    }

    // A call fails for want of memory.
    fn refuse(&mut self) -> Failed
        ensures one_more { self.new ≡ record self.old { faults = next_count self.old.faults; refused = next_count self.old.refused } }
        ensures faults { HasRisen self.old.faults self.new.faults }
        ensures refused { HasRisen self.old.refused self.new.refused }
    {
        self.count_refused();
        self.fail()
    }

    // Counts a call.
    fn count_call(&mut self)
        ensures moment { self.new ≡ record self.old { moment = next_count self.old.moment } }
        ensures state { state_of self.new ≡ state_of self.old }
        ensures time { Goes self.old self.new }
    {
        self.moment = self.moment.saturating_add(1);
    }

    // Counts a call, and fails it where it is to fail.
    fn begin(&mut self) -> Result<(), Failed>
        ensures log { self.new.log ≡ self.old.log }
        ensures state { state_of self.new ≡ state_of self.old }
        ensures time { Goes self.old self.new }
        ensures counts { Counts self.old self.new result }
        ensures refused { self.new.refused ≡ self.old.refused }
        ensures named { FailsWhereNamed self.old result }
        ensures cause { FailsOnlyByCause self.old self.new result }
    {
        self.count_call();
        if self.fails.names(self.moment) {
            Err(self.fail())
        } else {
            Ok(())
        }
    }

    // Writes, or changes nothing.
    fn put(&mut self, at: u64, from: &[u8]) -> Result<(), AllocError>
        requires { 0 < self.old.moment }
        ensures ok { OnOk result (self.new ≡ record self.old { log = with_call self.old.log (record { number = self.old.moment; act = wrote at from.now }) }) }
        ensures state { OnOk result (state_of self.new ≡ step (state_of self.old) (wrote at from.now)) }
        ensures err { OnErr result (self.new ≡ self.old) }
    {
        self.log.write(self.moment, at, from)
    }

    // Notes a call that changes nothing that a read gives, or changes nothing.
    fn note(&mut self, change: Change) -> Result<(), AllocError>
        requires begun { 0 < self.old.moment }
        requires quiet { (s : State) → (step s (act_of change)).seen ≡ s.seen }
        ensures ok { OnOk result (self.new ≡ record self.old { log = with_call self.old.log (record { number = self.old.moment; act = act_of change }) }) }
        ensures state { OnOk result (state_of self.new ≡ step (state_of self.old) (act_of change)) }
        ensures err { OnErr result (self.new ≡ self.old) }
    {
        self.log.note(self.moment, change)
    }
}

impl Disk for MemDisk {
    ghost told = { λ disk. Some (content_of disk) };

    ghost image = { MayLeave };

    ghost left_since = { MightHaveLeft };

    ghost moment_of = { λ disk. disk.moment };

    ghost faults_of = { λ disk. disk.faults };

    ghost counts_now = { counts_now };

    ghost only_now = { only_now };

    ghost reads_an_image = { reads_an_image };

    fn length(&mut self) -> Result<u64, Failed>
        ensures answer { IfOk result (λ n. n ≡ length (content_of self.old)) }
        ensures state { state_of self.new ≡ state_of self.old }
        ensures time { Goes self.old self.new }
        ensures counts { Counts self.old self.new result }
        ensures named { FailsWhereNamed self.old result }
        ensures cause { FailsOnlyByCause self.old self.new result }
    {
        self.begin()?;
        Ok(self.content().len() as u64)
    }

    fn read_at(&mut self, at: u64, into: &mut [u8]) -> Result<(), Failed>
        requires { at + length into.old ≤ length (content_of self.old) }
        ensures answer { OnOk result (into.new ≡ slice_range (content_of self.old) at (at + length into.old)) }
        ensures state { state_of self.new ≡ state_of self.old }
        ensures time { Goes self.old self.new }
        ensures counts { Counts self.old self.new result }
        ensures named { FailsWhereNamed self.old result }
        ensures cause { FailsOnlyByCause self.old self.new result }
    {
        self.begin()?;
        let at = at as usize;
        into.copy_from_slice(&self.content()[at..at + into.len()]);
        Ok(())
    }

    /// A write that fails changes nothing that a read gives, and its range counts as written, where memory to note that
    /// wasn't refused.
    #[tactic(auto, using(crate::proofs::Replays::goes_with))]
    fn write_at(&mut self, at: u64, from: &[u8]) -> Result<(), Failed>
        requires { at ≤ length (content_of self.old) }
        ensures answer { OnOk result (state_of self.new ≡ step (state_of self.old) (wrote at from.now)) }
        ensures failed { OnErr result (IsTornOrRefused at (length from.now) self.old self.new) }
        ensures time { Goes self.old self.new }
        ensures counts { Counts self.old self.new result }
        ensures named { FailsWhereNamed self.old result }
        ensures cause { FailsOnlyByCause self.old self.new result }
    {
        match self.begin() {
            Ok(()) => match self.put(at, from) {
                Ok(()) => Ok(()),
                Err(_) => Err(self.refuse()),
            },
            Err(failed) => {
                if self.note(Change::Tore(at, from.len() as u64)).is_err() {
                    self.count_refused();
                }
                Err(failed)
            }
        }
    }

    #[tactic(auto, using(crate::proofs::Replays::synced_image))]
    fn sync(&mut self) -> Result<(), Failed>
        ensures durable { OnOk result (state_of self.new ≡ at_rest (content_of self.old)) }
        ensures failed { OnErr result (state_of self.new ≡ state_of self.old) }
        ensures no_more_images { (c : List ℕ) → MayLeave self.new c → MayLeave self.old c }
        ensures time { Goes self.old self.new }
        ensures counts { Counts self.old self.new result }
        ensures named { FailsWhereNamed self.old result }
        ensures cause { FailsOnlyByCause self.old self.new result }
    {
        self.begin()?;
        match self.note(Change::Synced) {
            Ok(()) => Ok(()),
            Err(_) => Err(self.refuse()),
        }
    }

    fn moment(&self) -> u64 {
        self.moment
    }

    fn faults(&self) -> u64 {
        self.faults
    }
}
