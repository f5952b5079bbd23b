//! Mounting again.
ghost use Rattle.std.specs.Prelude.{◌≡◌, ◌+◌, ◌≤◌, true, false, Ok, List, ℕ, IfOk, OnOk, OnErr, vec_len};
ghost use Rattle.std.specs.Vec.{vec_capacity};
ghost use Rattle.storage_map.specs.declared.op.Op.{Op};
ghost use Rattle.timeline.specs.declared.notice.Notice.TheVariants as notice;
ghost use Rattle.output_gate.specs.Mending.{IsFound, CountsFound, IsLimited, is_own_object, Begins, HasCache, Misses, CanBegin, CanMend, Remounts, may_mend, MendRoom, IsIdleMend, Mends, LosesMend, IsRefusedFor, FallsByFault};
ghost use Rattle.output_gate.specs.Storing.{HasLimit, KeepsTelling};
ghost use Rattle.output_gate.specs.Taking.{LogSame};
ghost use Rattle.output_gate.specs.Written.{FindsEnd};
ghost use Rattle.timeline.specs.declared.notice.Stepped.TheVariants.{Did, Nothing};
ghost use Rattle.output_gate.specs.Serving.{IsUnmounted, IsBackAs, CanServe, CanServeAs, KeepsBack, KeepsBackAs, StopsBy, is_stopped, IsAsBefore};

use crate::back::{Back, Ending, Mode};
use crate::releasing::send;
use crate::store::Store;
use batch_journal::{Journal, MountFault, Mounted};
use do_disk::Disk;
use do_value::{Mem, NoMemory};
use lane::Outlet;
use std::alloc::Global;
use storage_cache::Cache;
use storage_map::Identity;
use timeline::{BackLog, End, Missed, Notice, Stepped};

/// What a mounting gave.
#[derive(Drop)]
pub(crate) enum Found<D> {
    Mounted {
        journal: Journal<D>,
        identity: Option<Identity>,
        cache: Cache,
    },
    /// The disk failed, or its file is no journal of one object.
    Refused(D),
    NoMemory(D),
}

impl<D: Disk> Back<D> {
    /// Mounts the journal again where an append has ended the incarnation. Where that succeeds the next incarnation begins with
    /// what is found; where it fails the object is down until a `Mend` is taken. After `NoMemory` the back is stopped: each further
    /// step but `flush` answers `NoMemory` and does nothing.
    pub fn mend<N: Outlet<Notice>>(&mut self, alloc: Global, notices: &mut N) -> Mem<Stepped>
        requires { CanServe D.moment_of D.left_since D.told D.image D.faults_of self.old }
        ensures stopped { is_stopped self.old ≡ true → OnOk result ⊥ × (self.new ≡ self.old) × (N.sent notices.new ≡ N.sent notices.old) }
        ensures barred { is_stopped self.old ≡ false → may_mend self.old ≡ false
            → IsIdleMend self.old self.new (N.sent notices.old) (N.sent notices.new) result }
        ensures nothing { result ≡ Ok Nothing → may_mend self.old ≡ false }
        ensures mended { result ≡ Ok Did → Mends D.faults_of self.old self.new (N.sent notices.old) (N.sent notices.new) }
        ensures falls { is_stopped self.old ≡ false → may_mend self.old ≡ true → FallsByFault D.faults_of D.told self.old self.new }
        ensures finds { FindsEnd D.told self.old self.new }
        ensures tells { KeepsTelling D.told self.old.store self.new.store }
        ensures limit { HasLimit self.old.limit self.old.store → HasLimit self.old.limit self.new.store }
        ensures lost { OnErr result (LosesMend D.faults_of self.old self.new (N.sent notices.old) (N.sent notices.new)) }
        ensures stops { StopsBy result self.new }
        ensures outlet { (N.outlet notices.new ≡ N.outlet notices.old) × (N.left notices.new ≡ N.left notices.old) }
        ensures back { KeepsBack D.moment_of D.left_since D.told D.image D.faults_of self.old self.new }
    {
        if self.stopped {
            return Err(NoMemory);
        }
        let stepped = self.mend_next(alloc, notices);
        self.stopped = stepped.is_err();
        stepped
    }

    // The same of a back that isn't stopped, but for the note that memory was wanting.
    fn mend_next<N: Outlet<Notice>>(&mut self, alloc: Global, notices: &mut N) -> Mem<Stepped>
        requires { CanServeAs D.moment_of D.left_since D.told D.image D.faults_of true self.old }
        ensures barred { may_mend self.old ≡ false → IsIdleMend self.old self.new (N.sent notices.old) (N.sent notices.new) result }
        ensures nothing { result ≡ Ok Nothing → may_mend self.old ≡ false }
        ensures mended { result ≡ Ok Did → Mends D.faults_of self.old self.new (N.sent notices.old) (N.sent notices.new) }
        ensures falls { may_mend self.old ≡ true → FallsByFault D.faults_of D.told self.old self.new }
        ensures finds { FindsEnd D.told self.old self.new }
        ensures tells { KeepsTelling D.told self.old.store self.new.store }
        ensures limit { HasLimit self.old.limit self.old.store → HasLimit self.old.limit self.new.store }
        ensures lost { OnErr result (LosesMend D.faults_of self.old self.new (N.sent notices.old) (N.sent notices.new)) }
        ensures outlet { (N.outlet notices.new ≡ N.outlet notices.old) × (N.left notices.new ≡ N.left notices.old) }
        ensures back { OnOk result (KeepsBackAs D.moment_of D.left_since D.told D.image D.faults_of true true self.old self.new) }
        ensures stopped { OnErr result (KeepsBackAs D.moment_of D.left_since D.told D.image D.faults_of true false self.old self.new) }
    {
        let Mode::Wanted(ending) = self.mode else {
            return Ok(Stepped::Nothing);
        };
        if self.stuck {
            return Ok(Stepped::Nothing);
        }
        mend_room(&mut self.log)?;
        let notice = self.remount(alloc, ending)?;
        send(notices, notice)?;
        Ok(Stepped::Did)
    }

    // Mounts the journal again: the next incarnation begins with what is found, or the object is down.
    fn remount(&mut self, alloc: Global, ending: Ending) -> Mem<Notice>
        requires { CanMend D.moment_of D.left_since D.told D.image D.faults_of self.old ending }
        ensures remounts { IfOk result (λ notice. Remounts D.faults_of self.old self.new ending notice) }
        ensures falls { FallsByFault D.faults_of D.told self.old self.new }
        ensures finds { FindsEnd D.told self.old self.new }
        ensures tells { KeepsTelling D.told self.old.store self.new.store }
        ensures limit { HasLimit self.old.limit self.old.store → HasLimit self.old.limit self.new.store }
        ensures kept { OnErr result (IsAsBefore self.old self.new) }
        ensures back { OnOk result ((start : List (List Op)) (opening : ℕ)
            → IsUnmounted D.moment_of D.left_since D.told D.image D.faults_of start opening self.old
            → IsBackAs D.moment_of D.left_since D.told D.image D.faults_of start opening true self.new) }
        ensures stopped { OnErr result ((start : List (List Op)) (opening : ℕ)
            → IsUnmounted D.moment_of D.left_since D.told D.image D.faults_of start opening self.old
            → IsUnmounted D.moment_of D.left_since D.told D.image D.faults_of start opening self.new) }
    {
        let disk = self.store.leave();
        let before = disk.faults();
        match mount_again(alloc, disk, self.limit) {
            Found::Mounted {
                journal,
                identity,
                cache,
            } => {
                if self.may_be(&identity) {
                    Ok(self.begin(ending, journal, cache))
                } else {
                    Ok(self.miss(ending, journal.into_disk(), before))
                }
            }
            Found::Refused(disk) => Ok(self.miss(ending, disk, before)),
            Found::NoMemory(disk) => {
                self.store.fill(Store::Disk(disk));
                Err(NoMemory)
            }
        }
    }

    // Whether a journal with these frames may be this object's.
    fn may_be(&self, found: &Option<Identity>) -> bool
        ensures own { result ≡ true → is_own_object found.now self.now.identity }
        ensures other { result ≡ false → is_own_object found.now self.now.identity → ⊥ }
    {
        match (found, &self.identity) {
            (Some(found), Some(identity)) => found.equal(identity),
            (Some(_), None) => false,
            (None, _) => true,
        }
    }

    // The next incarnation begins with what was found.
    fn begin(&mut self, ending: Ending, journal: Journal<D>, cache: Cache) -> Notice
        requires away { self.old.store ≡ Store.Away }
        requires can { CanBegin self.old ending }
        ensures begins { Begins self.old self.new ending journal cache }
        ensures notice { result ≡ notice.Fresh self.old.number cache.index.alarm ending.cause }
    {
        let alarm = cache.alarm();
        let is_whole = journal.end() != ending.end;
        let kept = if is_whole { ending.whole } else { ending.flown };
        self.store.fill(Store::Journal(journal));
        self.cache = cache;
        self.mode = Mode::Mounted;
        self.durable += kept - ending.flown;
        self.before = self.durable;
        self.needs = self.durable;
        let cause = ending.cause;
        self.log.ends.push(End { kept, cause }).unwrap();
        Notice::Fresh {
            incarnation: self.number,
            alarm,
            cause,
        }
    }

    // The mounting failed.
    fn miss(&mut self, ending: Ending, disk: D, before: u64) -> Notice
        requires away { self.old.store ≡ Store.Away }
        requires room { vec_len self.old.log.downs + 1 ≤ vec_capacity self.old.log.downs }
        ensures misses { Misses self.old self.new ending disk before (D.faults_of disk) }
        ensures notice { result ≡ notice.Down ending.cause before (D.faults_of disk) }
    {
        let after = disk.faults();
        self.store.fill(Store::Disk(disk));
        self.mode = Mode::Down(ending);
        let incarnation = self.number;
        self.log
            .downs
            .push(Missed {
                incarnation,
                before,
                after,
            })
            .unwrap();
        Notice::Down {
            cause: ending.cause,
            before,
            after,
        }
    }
}

// What a mounting of this disk gives.
fn mount_again<D: Disk>(alloc: Global, disk: D, limit: u64) -> Found<D>
    ensures found { IsFound D.moment_of D.left_since D.told D.image disk result }
    ensures cause { IsRefusedFor D.faults_of D.told disk result }
    ensures counted { CountsFound D.faults_of disk result }
    ensures limited { IsLimited limit result }
{
    match Journal::mount(alloc, disk, limit) {
        Ok(mounted) => with_cache(alloc, mounted),
        Err(MountFault::DiskFailed(disk)) => Found::Refused(disk),
        Err(MountFault::Foreign { disk, .. }) => Found::Refused(disk),
        Err(MountFault::Damaged { disk, .. }) => Found::Refused(disk),
        Err(MountFault::Mixed { disk, .. }) => Found::Refused(disk),
        Err(MountFault::NoMemory(disk)) => Found::NoMemory(disk),
    }
}

// What was mounted, with a cache of its index.
fn with_cache<D: Disk>(alloc: Global, mounted: Mounted<D>) -> Found<D>
    ensures { HasCache mounted result }
{
    let Mounted {
        journal,
        identity,
        index,
    } = mounted;
    match Cache::new(alloc, index) {
        Ok(cache) => Found::Mounted {
            journal,
            identity,
            cache,
        },
        Err(_) => Found::NoMemory(journal.into_disk()),
    }
}

// Makes the room that a mounting needs.
fn mend_room(log: &mut BackLog) -> Mem<()>
    ensures room { OnOk result (MendRoom log.new) }
    ensures same { LogSame log.old log.new }
{
    if log.ends.reserve(1).is_err() || log.downs.reserve(1).is_err() {
        return Err(NoMemory);
    }
    Ok(())
}
