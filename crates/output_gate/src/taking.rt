//! Taking what the object says.
ghost use Rattle.std.specs.Prelude.{◌≡◌, ◌++◌, [], ◌∷◌, true, false, Ok, Some, None, option_to_list, IfOk, OnOk, OnErr, length};
ghost use Rattle.lane.specs.Lanes.{StartsWith};
ghost use Rattle.storage_map.specs.Ops.{batch_bytes, IsBatch};
ghost use Rattle.storage_map.specs.Contents.{Contents};
ghost use Rattle.storage_map.specs.Limits.{Object, IsObject};
ghost use Rattle.storage_cache.specs.Cached.{IsCacheOf};
ghost use Rattle.storage_cache.specs.Counted.{removed_last};
ghost use Rattle.batch_journal.specs.Rest.{CanStage};
ghost use Rattle.batch_journal.specs.declared.journal.Journal.{Journal};
ghost use Rattle.timeline.specs.declared.notice.Stepped.TheVariants.{Did, Nothing};
ghost use Rattle.output_gate.specs.Entering.{IsIdle, Takes, TakesEntry, LosesEntry, CanTake, TakesOwn, FailsOwn, CanTakeDown, TakesDown, FailsDown, TakesLate};
ghost use Rattle.output_gate.specs.Entering as entering;
ghost use Rattle.output_gate.specs.Held.{has_failed_read};
ghost use Rattle.output_gate.specs.Serving.{CanServe, CanServeAs, KeepsBack, KeepsBackAs, StopsBy, is_stopped, IsAsBefore};
ghost use Rattle.output_gate.specs.Storing.{Stages, StagesOps, ReadsDisk};
ghost use Rattle.output_gate.specs.Taking as taking;
ghost use Rattle.output_gate.specs.Taking.{LogRoom, LogTook, LogSame};
ghost use Rattle.output_gate.specs.declared.store.Store.TheVariants as store;

use crate::back::{Back, Ending, MOST_UNFLUSHED_BYTES, Mode};
use crate::fit::{Fit, comes_behind, fits_down, fits_mounted};
use crate::held::{Held, HeldBody};
use crate::releasing::send;
use do_disk::Disk;
use do_value::{Mem, NoMemory};
use lane::{Inlet, Outlet};
use object_storage::AnswerFault;
use storage_map::{Batch, Identity, StoreAsk};
use timeline::{BackLog, Body, Cause, Entry, Failure, Message, Notice, Stepped};

impl<D: Disk> Back<D> {
    /// Takes the next entry of the line. A batch is staged and its writes are seen from here on, an ask is answered, and
    /// messages, syncs and halts are held. A value that isn't in memory is read from the disk. Where a read fails the end of the
    /// incarnation by that is held, the front is told nothing, and nothing is taken until that end is let go or dropped. Of an
    /// incarnation that has ended a message is held that follows nothing that was lost; another reply becomes a failure, and
    /// everything else is dropped. After `NoMemory` the back is stopped: each further step but `flush` answers `NoMemory` and does
    /// nothing.
    pub fn take<L: Inlet<Entry>, N: Outlet<Notice>>(
        &mut self,
        line: &mut L,
        notices: &mut N,
    ) -> Mem<Stepped>
        requires { CanServe D.moment_of D.left_since D.told D.image D.faults_of self.old }
        ensures stopped { is_stopped self.old ≡ true → OnOk result ⊥
            × (self.new ≡ self.old) × (L.got line.new ≡ L.got line.old) × (N.sent notices.new ≡ N.sent notices.old) }
        ensures barred { is_stopped self.old ≡ false → taking.may_take self.old ≡ false
            → IsIdle self.old self.new (L.got line.old) (L.got line.new) (N.sent notices.old) (N.sent notices.new) result }
        ensures nothing { result ≡ Ok Nothing → IsIdle self.old self.new (L.got line.old) (L.got line.new) (N.sent notices.old) (N.sent notices.new) result }
        ensures empty { result ≡ Ok Nothing → taking.may_take self.old ≡ true → StartsWith (L.got line.old) (L.told line.old) }
        ensures took { result ≡ Ok Did → Takes D.told D.image self.old self.new (L.got line.old) (L.got line.new) (N.sent notices.old) (N.sent notices.new) }
        ensures lost { is_stopped self.old ≡ false
            → OnErr result (LosesEntry self.old self.new (L.got line.old) (L.got line.new) (N.sent notices.old) (N.sent notices.new)) }
        ensures stops { StopsBy result self.new }
        ensures inlet { (L.inlet line.new ≡ L.inlet line.old) × (L.told line.new ≡ L.told line.old) }
        ensures outlet { (N.outlet notices.new ≡ N.outlet notices.old) × (N.left notices.new ≡ N.left notices.old) }
        ensures disk { ReadsDisk D.told self.old.store self.new.store }
        ensures back { KeepsBack D.moment_of D.left_since D.told D.image D.faults_of self.old self.new }
    {
        if self.stopped {
            return Err(NoMemory);
        }
        let stepped = self.take_next(line, notices);
        self.stopped = stepped.is_err();
        stepped
    }

    // The same of a back that isn't stopped, but for the note that memory was wanting.
    fn take_next<L: Inlet<Entry>, N: Outlet<Notice>>(
        &mut self,
        line: &mut L,
        notices: &mut N,
    ) -> Mem<Stepped>
        requires { CanServeAs D.moment_of D.left_since D.told D.image D.faults_of true self.old }
        ensures barred { taking.may_take self.old ≡ false
            → IsIdle self.old self.new (L.got line.old) (L.got line.new) (N.sent notices.old) (N.sent notices.new) result }
        ensures nothing { result ≡ Ok Nothing → IsIdle self.old self.new (L.got line.old) (L.got line.new) (N.sent notices.old) (N.sent notices.new) result }
        ensures empty { result ≡ Ok Nothing → taking.may_take self.old ≡ true → StartsWith (L.got line.old) (L.told line.old) }
        ensures took { result ≡ Ok Did → Takes D.told D.image self.old self.new (L.got line.old) (L.got line.new) (N.sent notices.old) (N.sent notices.new) }
        ensures lost { OnErr result (LosesEntry self.old self.new (L.got line.old) (L.got line.new) (N.sent notices.old) (N.sent notices.new)) }
        ensures inlet { (L.inlet line.new ≡ L.inlet line.old) × (L.told line.new ≡ L.told line.old) }
        ensures outlet { (N.outlet notices.new ≡ N.outlet notices.old) × (N.left notices.new ≡ N.left notices.old) }
        ensures disk { ReadsDisk D.told self.old.store self.new.store }
        ensures back { OnOk result (KeepsBackAs D.moment_of D.left_since D.told D.image D.faults_of true true self.old self.new) }
        ensures stopped { OnErr result (KeepsBackAs D.moment_of D.left_since D.told D.image D.faults_of true false self.old self.new) }
    {
        if !self.may_take() {
            return Ok(Stepped::Nothing);
        }
        match line.take() {
            None => Ok(Stepped::Nothing),
            Some(entry) => {
                if let Some(notice) = self.take_entry(entry)? {
                    send(notices, notice)?;
                }
                Ok(Stepped::Did)
            }
        }
    }

    fn may_take(&self) -> bool
        requires { CanServeAs D.moment_of D.left_since D.told D.image D.faults_of true self.now }
        ensures { result ≡ taking.may_take self.now }
    {
        let wanted = matches!(self.mode, Mode::Wanted(_));
        !self.stuck && !wanted && !self.has_failed_read() && self.unflushed < MOST_UNFLUSHED_BYTES
    }

    // Whether an end by a read that failed is held: it is the last then.
    fn has_failed_read(&self) -> bool
        requires { CanServeAs D.moment_of D.left_since D.told D.image D.faults_of true self.now }
        ensures { result ≡ has_failed_read self.now.held.items }
    {
        match self.held.back() {
            Some(held) => held.is_failed_read(),
            None => false,
        }
    }

    // What an entry is.
    fn fit_of(&self, entry: &Entry) -> Fit
        ensures { result ≡ taking.fit_of self.now entry.now }
    {
        if !comes_behind(self.log.taken.as_slice().last(), entry)
            || entry.incarnation > self.number
        {
            return Fit::Unfit;
        }
        let is_own = entry.incarnation == self.number;
        let is_mounted = matches!(self.mode, Mode::Mounted);
        let is_fit = if is_own && !is_mounted {
            fits_down(&entry.body)
        } else {
            fits_mounted(&entry.body, self.identity.is_some())
        };
        if !is_fit {
            Fit::Unfit
        } else if !is_own {
            Fit::Late
        } else if is_mounted {
            Fit::Own
        } else {
            Fit::Down
        }
    }

    // Takes an entry. A notice is there where the front waits for one that can be given at once.
    fn take_entry(&mut self, entry: Entry) -> Mem<Option<Notice>>
        requires back { CanServeAs D.moment_of D.left_since D.told D.image D.faults_of true self.old }
        requires may { taking.may_take self.old ≡ true }
        ensures took { IfOk result (λ notice. TakesEntry D.told D.image self.old self.new entry notice) }
        ensures kept { OnErr result (IsAsBefore self.old self.new) }
        ensures disk { ReadsDisk D.told self.old.store self.new.store }
        ensures back { OnOk result (KeepsBackAs D.moment_of D.left_since D.told D.image D.faults_of true true self.old self.new) }
        ensures stopped { OnErr result (KeepsBackAs D.moment_of D.left_since D.told D.image D.faults_of true false self.old self.new) }
    {
        match self.fit_of(&entry) {
            Fit::Unfit => {
                self.stuck = true;
                Ok(None)
            }
            Fit::Own => self.enter_own(entry),
            Fit::Down => self.enter_down(entry),
            Fit::Late => self.enter_late(entry),
        }
    }

    // An entry of the newest incarnation, which is mounted.
    fn enter_own(&mut self, entry: Entry) -> Mem<Option<Notice>>
        requires back { CanServeAs D.moment_of D.left_since D.told D.image D.faults_of true self.old }
        requires may { taking.may_take self.old ≡ true }
        requires fit { taking.fit_of self.old entry ≡ Fit.Own }
        ensures took { IfOk result (λ notice. TakesEntry D.told D.image self.old self.new entry notice) }
        ensures kept { OnErr result (IsAsBefore self.old self.new) }
        ensures disk { ReadsDisk D.told self.old.store self.new.store }
        ensures back { OnOk result (KeepsBackAs D.moment_of D.left_since D.told D.image D.faults_of true true self.old self.new) }
        ensures stopped { OnErr result (KeepsBackAs D.moment_of D.left_since D.told D.image D.faults_of true false self.old self.new) }
    {
        make_room(&mut self.log)?;
        let Entry {
            incarnation: _,
            number,
            body,
        } = entry;
        self.take_own(number, body)
    }

    // An entry of the newest incarnation, which isn't mounted.
    fn enter_down(&mut self, entry: Entry) -> Mem<Option<Notice>>
        requires back { CanServeAs D.moment_of D.left_since D.told D.image D.faults_of true self.old }
        requires may { taking.may_take self.old ≡ true }
        requires fit { taking.fit_of self.old entry ≡ Fit.Down }
        ensures took { IfOk result (λ notice. TakesEntry D.told D.image self.old self.new entry notice) }
        ensures kept { OnErr result (IsAsBefore self.old self.new) }
        ensures disk { ReadsDisk D.told self.old.store self.new.store }
        ensures back { OnOk result (KeepsBackAs D.moment_of D.left_since D.told D.image D.faults_of true true self.old self.new) }
        ensures stopped { OnErr result (KeepsBackAs D.moment_of D.left_since D.told D.image D.faults_of true false self.old self.new) }
    {
        make_room(&mut self.log)?;
        let Entry {
            incarnation: _,
            number,
            body,
        } = entry;
        self.take_down(number, body)?;
        Ok(None)
    }

    // An entry of an incarnation that has ended.
    fn enter_late(&mut self, entry: Entry) -> Mem<Option<Notice>>
        requires back { CanServeAs D.moment_of D.left_since D.told D.image D.faults_of true self.old }
        requires may { taking.may_take self.old ≡ true }
        requires fit { taking.fit_of self.old entry ≡ Fit.Late }
        ensures took { IfOk result (λ notice. TakesEntry D.told D.image self.old self.new entry notice) }
        ensures kept { OnErr result (IsAsBefore self.old self.new) }
        ensures disk { ReadsDisk D.told self.old.store self.new.store }
        ensures back { OnOk result (KeepsBackAs D.moment_of D.left_since D.told D.image D.faults_of true true self.old self.new) }
        ensures stopped { OnErr result (KeepsBackAs D.moment_of D.left_since D.told D.image D.faults_of true false self.old self.new) }
    {
        make_room(&mut self.log)?;
        self.take_late(entry)?;
        Ok(None)
    }

    fn take_own(&mut self, number: u64, body: Body) -> Mem<Option<Notice>>
        requires { CanTake D.moment_of D.left_since D.told D.image D.faults_of self.old number body }
        ensures took { IfOk result (λ notice. TakesOwn D.moment_of D.left_since D.told D.image D.faults_of self.old self.new number body notice) }
        ensures failed { OnErr result (FailsOwn D.moment_of D.left_since D.told D.image D.faults_of self.old self.new) }
    {
        match body {
            Body::Bind(identity) => {
                self.take_bind(number, identity)?;
                Ok(None)
            }
            Body::Batch {
                batch,
                tail,
                confirmed,
            } => self.take_batch(number, batch, tail, confirmed),
            Body::Ask { ask, free } => self.take_ask(number, ask, free),
            Body::Message(message) => {
                self.take_message(number, message)?;
                Ok(None)
            }
            Body::Sync => {
                self.take_sync(number)?;
                Ok(None)
            }
            Body::Halt(cause) => {
                self.take_halt(number, cause)?;
                Ok(None)
            }
            Body::Mend => unreachable!(),
        }
    }

    fn take_sync(&mut self, number: u64) -> Mem<()>
        requires { CanTake D.moment_of D.left_since D.told D.image D.faults_of self.old number Body.Sync }
        ensures took { OnOk result (TakesOwn D.moment_of D.left_since D.told D.image D.faults_of self.old self.new number Body.Sync None) }
        ensures failed { OnErr result (FailsOwn D.moment_of D.left_since D.told D.image D.faults_of self.old self.new) }
    {
        self.hold(HeldBody::Sync { number }, self.before, self.number)?;
        self.add(number, Body::Sync);
        Ok(())
    }

    fn take_halt(&mut self, number: u64, cause: Cause) -> Mem<()>
        requires { CanTake D.moment_of D.left_since D.told D.image D.faults_of self.old number (Body.Halt cause) }
        ensures took { OnOk result (TakesOwn D.moment_of D.left_since D.told D.image D.faults_of self.old self.new number (Body.Halt cause) None) }
        ensures failed { OnErr result (FailsOwn D.moment_of D.left_since D.told D.image D.faults_of self.old self.new) }
    {
        self.hold(HeldBody::Halt(cause), self.before, self.number)?;
        self.add(number, Body::Halt(cause));
        Ok(())
    }

    fn take_bind(&mut self, number: u64, identity: Identity) -> Mem<()>
        requires { CanTake D.moment_of D.left_since D.told D.image D.faults_of self.old number (Body.Bind identity) }
        ensures took { OnOk result (TakesOwn D.moment_of D.left_since D.told D.image D.faults_of self.old self.new number (Body.Bind identity) None) }
        ensures failed { OnErr result (FailsOwn D.moment_of D.left_since D.told D.image D.faults_of self.old self.new) }
    {
        let copy = identity.copy()?;
        self.identity = Some(copy);
        self.add(number, Body::Bind(identity));
        Ok(())
    }

    fn take_batch(
        &mut self,
        number: u64,
        batch: Batch,
        tail: Option<u32>,
        confirmed: bool,
    ) -> Mem<Option<Notice>>
        requires { CanTake D.moment_of D.left_since D.told D.image D.faults_of self.old number (Body.Batch batch tail confirmed) }
        ensures took { IfOk result (λ notice. TakesOwn D.moment_of D.left_since D.told D.image D.faults_of self.old self.new number
            (Body.Batch batch tail confirmed) notice) }
        ensures failed { OnErr result (FailsOwn D.moment_of D.left_since D.told D.image D.faults_of self.old self.new) }
    {
        let size = batch_size(&batch);
        let count = self.stage(&batch, tail.unwrap_or(0))?;
        let body = Body::Batch {
            batch,
            tail,
            confirmed,
        };
        self.add(number, body);
        self.before += 1;
        self.own += 1;
        self.unflushed += size;
        self.follow(confirmed);
        match tail {
            Some(_) => Ok(Some(Notice::Taken { number, count })),
            None => Ok(None),
        }
    }

    // The next message needs the batch that was taken just now, and all before it, where it is confirmed.
    fn follow(&mut self, confirmed: bool)
        ensures { self.new ≡ record self.old { needs = entering.needs_behind confirmed self.old.before self.old.needs } }
    {
        if confirmed {
            self.needs = self.before;
        }
    }

    fn take_ask(&mut self, number: u64, ask: StoreAsk, free: bool) -> Mem<Option<Notice>>
        requires { CanTake D.moment_of D.left_since D.told D.image D.faults_of self.old number (Body.Ask ask free) }
        ensures took { IfOk result (λ notice. TakesOwn D.moment_of D.left_since D.told D.image D.faults_of self.old self.new number
            (Body.Ask ask free) notice) }
        ensures failed { OnErr result (FailsOwn D.moment_of D.left_since D.told D.image D.faults_of self.old self.new) }
    {
        match self.store.answer(self.alloc, &mut self.cache, &ask) {
            Ok(reading) => {
                self.add(number, Body::Ask { ask, free });
                Ok(Some(Notice::Read { number, reading }))
            }
            Err(AnswerFault::ReadFailed { before, after }) => {
                self.hold(
                    HeldBody::Halt(Cause::Disk { before, after }),
                    self.before,
                    self.number,
                )?;
                self.add(number, Body::Ask { ask, free });
                Ok(None)
            }
            Err(AnswerFault::NoMemory) => Err(NoMemory),
        }
    }

    fn take_message(&mut self, number: u64, message: Message) -> Mem<()>
        requires { CanTake D.moment_of D.left_since D.told D.image D.faults_of self.old number (Body.Message message) }
        ensures took { OnOk result (TakesOwn D.moment_of D.left_since D.told D.image D.faults_of self.old self.new number (Body.Message message) None) }
        ensures failed { OnErr result (FailsOwn D.moment_of D.left_since D.told D.image D.faults_of self.old self.new) }
    {
        let copy = message.copy()?;
        self.hold(HeldBody::Message(copy), self.needs, self.number)?;
        self.add(number, Body::Message(message));
        Ok(())
    }

    fn take_down(&mut self, number: u64, body: Body) -> Mem<()>
        requires { CanTakeDown D.moment_of D.left_since D.told D.image D.faults_of self.old number body }
        ensures took { OnOk result (TakesDown D.moment_of D.left_since D.told D.image D.faults_of self.old self.new number body) }
        ensures failed { OnErr result (FailsDown D.moment_of D.left_since D.told D.image D.faults_of self.old self.new) }
    {
        match body {
            Body::Mend => {
                self.want();
                self.add(number, Body::Mend);
                Ok(())
            }
            Body::Message(message) => {
                let copy = message.copy()?;
                self.hold(HeldBody::Message(copy), self.before, self.number - 1)?;
                self.add(number, Body::Message(message));
                Ok(())
            }
            _ => unreachable!(),
        }
    }

    // An entry of an incarnation that has ended: a message that follows nothing that was lost is held, another reply becomes a failure,
    // and everything else is dropped.
    fn take_late(&mut self, entry: Entry) -> Mem<()>
        requires { LogRoom self.old.log }
        ensures took { OnOk result (TakesLate self.old self.new entry) }
        ensures kept { OnErr result ((self.new.held.items ≡ self.old.held.items) × (self.new ≡ record self.old { held = self.new.held })) }
    {
        if self.held.reserve(1).is_err() {
            return Err(NoMemory);
        }
        if let Some(held) = self.late_held(&entry)? {
            self.held.push_back_reserved(held);
        }
        self.pass_late(&entry.body);
        self.log.taken.push(entry).unwrap();
        Ok(())
    }

    // No message passes behind a confirmed batch that comes late.
    fn pass_late(&mut self, body: &Body)
        ensures { self.new ≡ record self.old { late = entering.late_after body.now self.old.late } }
    {
        if let Body::Batch {
            batch: _,
            tail: _,
            confirmed: true,
        } = body
        {
            self.late = None;
        }
    }

    // What is held of such an entry.
    fn late_held(&self, entry: &Entry) -> Mem<Option<Held>>
        ensures { IfOk result (λ held. option_to_list held ≡ entering.late_held self.now entry.now) }
    {
        let Some(stop) = self.log.stops.as_slice().last() else {
            return Ok(None);
        };
        let Body::Message(message) = &entry.body else {
            return Ok(None);
        };
        let since = entry.incarnation;
        match (self.late, message) {
            (Some(needs), message) => Ok(Some(Held {
                body: HeldBody::Message(message.copy()?),
                needs,
                since,
            })),
            (None, Message::Reply { to, result: _ }) => Ok(Some(Held {
                body: HeldBody::Message(Message::Reply {
                    to: *to,
                    result: Err(Failure::Reset(stop.cause)),
                }),
                needs: self.settled,
                since,
            })),
            (None, _) => Ok(None),
        }
    }

    // A mounting is wanted.
    fn want(&mut self)
        ensures { (ending : Ending) → self.old.mode ≡ Mode.Down ending → self.new ≡ record self.old { mode = Mode.Wanted ending } }
    {
        if let Mode::Down(ending) = self.mode {
            self.mode = Mode::Wanted(ending);
        }
    }

    // Holds this until so many batches are durable.
    fn hold(&mut self, body: HeldBody, needs: u64, since: u64) -> Mem<()>
        ensures held { OnOk result (self.new.held.items ≡ self.old.held.items ++ record { body = body; needs = needs; since = since } ∷ []) }
        ensures kept { OnErr result (self.new.held.items ≡ self.old.held.items) }
        ensures same { self.new ≡ record self.old { held = self.new.held } }
    {
        if self.held.reserve(1).is_err() {
            return Err(NoMemory);
        }
        self.held.push_back_reserved(Held { body, needs, since });
        Ok(())
    }

    // Stages a batch, does its operations, and counts how many of its last `tail` ones deleted a key that was there.
    fn stage(&mut self, batch: &Batch, tail: u32) -> Mem<u64>
        requires { (object : Object) × (journal : Journal D) × (self.old.identity ≡ Some object) × (self.old.store ≡ store.Journal journal)
            × (IsObject object → IsBatch batch.now → CanStage journal object batch.now) }
        ensures staged { (object : Object) (journal : Journal D) → self.old.identity ≡ Some object → self.old.store ≡ store.Journal journal
            → Stages D.told D.image journal self.new.store object batch.now result }
        ensures stored { (object : Object) (journal : Journal D) → self.old.identity ≡ Some object → self.old.store ≡ store.Journal journal
            → StagesOps D.told D.image journal self.old.cache self.new.cache object batch.now result }
        ensures counted { IfOk result (λ count. (m : Contents) → IsCacheOf self.old.cache m → count ≡ removed_last tail m batch.now) }
        ensures same { self.new ≡ record self.old { store = self.new.store; cache = self.new.cache } }
    {
        match &self.identity {
            Some(identity) => {
                let _ = identity.size();
                let _ = batch.as_slice();
                self.store.stage(&mut self.cache, batch, tail, identity)
            }
            None => unreachable!(),
        }
    }

    // Logs an entry of the newest incarnation.
    fn add(&mut self, number: u64, body: Body)
        requires { LogRoom self.old.log }
        ensures log { LogTook self.old.log self.new.log (record { incarnation = self.old.number; number = number; body = body }) }
        ensures same { self.new ≡ record self.old { log = self.new.log } }
    {
        let incarnation = self.number;
        self.log
            .taken
            .push(Entry {
                incarnation,
                number,
                body,
            })
            .unwrap();
    }
}

// Makes the room that an entry, and a flush behind it, need.
pub(crate) fn make_room(log: &mut BackLog) -> Mem<()>
    ensures room { OnOk result (LogRoom log.new) }
    ensures same { LogSame log.old log.new }
{
    if log.taken.reserve(1).is_err()
        || log.flights.reserve(1).is_err()
        || log.stops.reserve(1).is_err()
    {
        return Err(NoMemory);
    }
    Ok(())
}

// How many bytes a batch has in a journal.
fn batch_size(batch: &Batch) -> u64
    ensures size { result ≡ length (batch_bytes batch.now) }
    ensures batch { IsBatch batch.now }
{
    let mut size = 4;
    for op in batch.as_slice() {
        size += op.size();
    }
    size
}
