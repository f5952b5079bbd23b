//! The back of an object, with the ends of its lanes.
ghost use Rattle.std.specs.Prelude.{◌≡◌, ◌≢◌, ℕ, List, [], Ok, true, false, OnErr};
ghost use Rattle.lane.specs.Lanes.{StartsWith};
ghost use Rattle.storage_map.specs.declared.op.Op.{Op};
ghost use Rattle.timeline.specs.declared.notice.Stepped.TheVariants.{Did, Nothing};
ghost use Rattle.output_gate.specs.Entering.{Takes};
ghost use Rattle.output_gate.specs.Flushing.{Flushes};
ghost use Rattle.output_gate.specs.Mending.{Mends, may_mend};
ghost use Rattle.output_gate.specs.Releasing.{Releases, may_release};
ghost use Rattle.output_gate.specs.Serving.{IsBack, is_stopped};
ghost use Rattle.output_gate.specs.Storing.{HasLimit};
ghost use Rattle.output_gate.specs.Taking.{may_take};
ghost use Rattle.output_gate.specs.Serving.{alarm_of};
ghost use Rattle.object_core.specs.Limited.{extent_of};
ghost use Rattle.host_workers.specs.Backs.{CanStep, IsBackCell, IsCellAlone, IsFresh, KeepsBackCell, KeepsCellAlone, SameLanes};

use crate::boxed::Boxed;
use do_disk::Disk;
use do_value::Mem;
use lane::{SendEnd, TakeEnd};
use output_gate::Back;
use std::alloc::Global;
use std::sync::Wait;
use timeline::{Body, Entry, Message, Notice, Stepped};

/// The back of an object, with the end from which it takes what the front says, the one on which it tells the front, and the one on
/// which its messages leave.
pub struct BackCell<D, T: Wait> {
    pub(crate) back: Boxed<Back<D>>,
    pub(crate) line: TakeEnd<Entry, T>,
    pub(crate) notices: SendEnd<Notice, T>,
    pub(crate) out: SendEnd<Message, T>,
}

// Written out, so that letting a cell go is proved once.
impl<D: Drop, T: Wait + Drop> Drop for BackCell<D, T> {
    fn drop(self) {
        let BackCell {
            back,
            line,
            notices,
            out,
        } = self;
        drop(back);
        drop(line);
        drop(notices);
        drop(out);
    }
}

impl<D: Disk, T: Wait + Copy> BackCell<D, T> {
    /// The back of a slot that was just mounted, through whose lanes nothing went. It takes no memory.
    pub fn new(
        back: Boxed<Back<D>>,
        line: TakeEnd<Entry, T>,
        notices: SendEnd<Notice, T>,
        out: SendEnd<Message, T>,
    ) -> BackCell<D, T>
        requires fresh { IsFresh back }
        requires unused { (line.got ≡ []) × (notices.sent ≡ []) × (out.sent ≡ []) }
        ensures half { result.back ≡ back }
        ensures ends { (result.line ≡ line) × (result.notices ≡ notices) × (result.out ≡ out) }
        ensures cell { (start : List (List Op)) (opening : ℕ) → IsBack D.moment_of D.left_since D.told D.image D.faults_of start opening back
            → IsBackCell D.moment_of D.left_since D.told D.image D.faults_of start opening result }
        ensures alone { (start : List (List Op)) (opening : ℕ) → IsBack D.moment_of D.left_since D.told D.image D.faults_of start opening back
            → HasLimit back.limit back.store
            → IsCellAlone D.moment_of D.left_since D.told D.image D.faults_of start opening back.identity (extent_of back) (alarm_of back) result }
    {
        BackCell {
            back,
            line,
            notices,
            out,
        }
    }

    /// Takes the next entry of the line. After `NoMemory` the back is stopped, and does as a stopped
    /// one does (`Back`).
    pub fn take(&mut self) -> Mem<Stepped>
        requires { CanStep D.moment_of D.left_since D.told D.image D.faults_of self.old }
        ensures nothing { result ≡ Ok Nothing → (self.new ≡ self.old)
            × (may_take self.old.back ≡ true → StartsWith self.old.line.got self.old.line.told) }
        ensures took { result ≡ Ok Did
            → Takes D.told D.image self.old.back self.new.back self.old.line.got self.new.line.got self.old.notices.sent self.new.notices.sent }
        ensures wanting { OnErr result (is_stopped self.new.back ≡ true) }
        ensures lanes { SameLanes self.old self.new }
        ensures cell { KeepsBackCell D.moment_of D.left_since D.told D.image D.faults_of self.old self.new }
        ensures alone { KeepsCellAlone D.moment_of D.left_since D.told D.image D.faults_of self.old self.new }
    {
        self.back.get_mut().take(&mut self.line, &mut self.notices)
    }

    /// Appends all batches that were taken since the last append as one flight. It takes no memory.
    pub fn flush(&mut self) -> Stepped
        requires { CanStep D.moment_of D.left_since D.told D.image D.faults_of self.old }
        ensures nothing { self.old.back.before ≡ self.old.back.durable → (result ≡ Nothing) × (self.new ≡ self.old) }
        ensures flushed { self.old.back.before ≢ self.old.back.durable → (result ≡ Did) × Flushes D.faults_of self.old.back self.new.back }
        ensures lanes { SameLanes self.old self.new }
        ensures cell { KeepsBackCell D.moment_of D.left_since D.told D.image D.faults_of self.old self.new }
        ensures alone { KeepsCellAlone D.moment_of D.left_since D.told D.image D.faults_of self.old self.new }
    {
        self.back.get_mut().flush()
    }

    /// Lets the first go of what is held, where all batches before it are durable. After `NoMemory` the back is stopped.
    pub fn release(&mut self) -> Mem<Stepped>
        requires { CanStep D.moment_of D.left_since D.told D.image D.faults_of self.old }
        ensures nothing { result ≡ Ok Nothing → (self.new ≡ self.old) × (may_release self.old.back ≡ false) }
        ensures released { result ≡ Ok Did → Releases D.moment_of self.old.back self.new.back
            self.old.notices.sent self.new.notices.sent self.old.out.sent self.new.out.sent }
        ensures wanting { OnErr result (is_stopped self.new.back ≡ true) }
        ensures lanes { SameLanes self.old self.new }
        ensures cell { KeepsBackCell D.moment_of D.left_since D.told D.image D.faults_of self.old self.new }
        ensures alone { KeepsCellAlone D.moment_of D.left_since D.told D.image D.faults_of self.old self.new }
    {
        self.back
            .get_mut()
            .release(&mut self.notices, &mut self.out)
    }

    /// Mounts the journal again, where an append has failed. After `NoMemory` the back is stopped.
    pub fn mend(&mut self, alloc: Global) -> Mem<Stepped>
        requires { CanStep D.moment_of D.left_since D.told D.image D.faults_of self.old }
        ensures nothing { result ≡ Ok Nothing → (self.new ≡ self.old) × (may_mend self.old.back ≡ false) }
        ensures mended { result ≡ Ok Did → Mends D.faults_of self.old.back self.new.back self.old.notices.sent self.new.notices.sent }
        ensures wanting { OnErr result (is_stopped self.new.back ≡ true) }
        ensures lanes { SameLanes self.old self.new }
        ensures cell { KeepsBackCell D.moment_of D.left_since D.told D.image D.faults_of self.old self.new }
        ensures alone { KeepsCellAlone D.moment_of D.left_since D.told D.image D.faults_of self.old self.new }
    {
        self.back.get_mut().mend(alloc, &mut self.notices)
    }

    // Whether batches wait for a flush.
    pub(crate) fn has_unflushed(&self) -> bool {
        self.back.get().has_unflushed()
    }

    // How many entries it has taken.
    pub(crate) fn count_taken(&self) -> usize {
        self.back.get().log().taken.len()
    }

    // How many messages it has let go.
    pub(crate) fn count_released(&self) -> usize {
        self.back.get().log().released.len()
    }

    // Whether it has answered one of the entries behind so many.
    pub(crate) fn has_answered(&self, first: usize) -> bool {
        let taken = self.back.get().log().taken.as_slice();
        for at in first..taken.len() {
            if let Some(entry) = taken.get(at)
                && is_answered(&entry.body)
            {
                return true;
            }
        }
        false
    }

    /// The back, and the ends of its lanes. It takes no memory.
    pub fn into_parts(
        self,
    ) -> (
        Back<D>,
        TakeEnd<Entry, T>,
        SendEnd<Notice, T>,
        SendEnd<Message, T>,
    )
        ensures half { result.0 ≡ self.back }
        ensures ends { (result.1 ≡ self.line) × (result.2 ≡ self.notices) × (result.3 ≡ self.out) }
    {
        let BackCell {
            back,
            line,
            notices,
            out,
        } = self;
        (back.into_inner(), line, notices, out)
    }
}

// Whether a back answers this as soon as it takes it: a read, or a write that is awaited.
fn is_answered(body: &Body) -> bool {
    match body {
        Body::Ask { .. } => true,
        Body::Batch { tail, .. } => tail.is_some(),
        _ => false,
    }
}
