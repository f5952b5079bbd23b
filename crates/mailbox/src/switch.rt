//! The switch.
ghost use Rattle.std.specs.Prelude.{◌≡◌, ◌≤◌, ◌+◌, ◌⊎◌, ℕ, Ok, Err, Some, None, OnOk, OnErr, length, map, vec_len};
ghost use Rattle.std.specs.Vec.{vec_capacity};
ghost use Rattle.do_tree.specs.Checked.{tree_of};
ghost use Rattle.timeline.specs.Switch.{opened, no_log, accepts, routes, gave};
ghost use Rattle.timeline.specs.declared.notice.Stepped.TheVariants.{Did, Nothing};
ghost use Rattle.mailbox.specs.Seen.{seen_line};
ghost use Rattle.mailbox.specs.Givens.{AreWithin};
ghost use Rattle.mailbox.specs.Taken.{AreEmpty, HandsBack, SameInlets, IsTakenOf};
ghost use Rattle.mailbox.specs.Runs.{state_of, log_of, out_of, fault_of, fault_in, slots_of, given_by};
ghost use Rattle.mailbox.specs.Runs.{Accepts, Routes, Gives, Acts, Prints, IsStill, KeepsRun, Begins, BeginsLine, BeginsMessage};
ghost use Rattle.mailbox.specs.Left.{finished_by};
ghost use Rattle.mailbox.specs.Fit.{IsFit};

use crate::fault::SwitchFault;
use crate::fitting::Routed;
use crate::given::Given;
use crate::posting::post_all;
use crate::printing::{write_all, write_line};
use crate::state::State;
use crate::switch_log::SwitchLog;
use crate::taking::take_in_turn;
use do_disk::Sink;
use do_tree::Checked;
use do_value::NoMemory;
use lane::{Inlet, Outlet};
use line_server::Line;
use placement::Directory;
use std::alloc::Global;
use timeline::{Caller, Event, Message, Stepped, Waits};

/// The switch between lines and objects. It is made for one script. It stands on the objects' ends of their lanes: an inbox to which
/// an object's events are posted, and a lane out on which the object lets its messages go, one of each for each slot.
pub struct Switch<W> {
    alloc: Global,
    state: State,
    log: SwitchLog,
    out: W,
    // the lane out that is looked at first
    next: u32,
    fault: Option<SwitchFault>,
}

// Written out, so that the crates that hold a switch prove nothing of what it holds.
impl<W: Drop> Drop for Switch<W> {
    fn drop(self) {
        let Switch {
            alloc: _,
            state,
            log,
            out,
            next: _,
            fault: _,
        } = self;
        drop(state);
        drop(log);
        drop(out);
    }
}

impl<W: Sink> Switch<W> {
    /// A switch that has done nothing, where the slots have these objects. It takes no memory.
    pub fn new(alloc: Global, checked: &Checked, directory: Directory, out: W) -> Switch<W>
        ensures state { state_of result ≡ opened directory }
        ensures log { log_of result ≡ no_log }
        ensures out { out_of result ≡ out }
        ensures fault { fault_of result ≡ None }
    {
        let _ = checked;
        Switch {
            alloc,
            state: State::new(alloc, directory),
            log: SwitchLog::new(alloc),
            out,
            next: 0,
            fault: None,
        }
    }

    /// Takes a line: a call goes to its object, a tick to each object of the script, an answer to the fetch's object, an eviction to
    /// its object; what can't be served has its line. It costs a few look-ups, and for a tick one for each slot.
    pub fn accept<S: Outlet<Event>>(
        &mut self,
        checked: &Checked,
        line: Line,
        inboxes: &mut [S],
    ) -> Result<(), SwitchFault>
        requires slots { length inboxes.old ≡ slots_of self.old }
        ensures accepted { OnOk result (Accepts (tree_of checked.now) self.old self.new line) }
        ensures run { OnOk result (KeepsRun (tree_of checked.now) self.old self.new) }
        ensures begun { fault_of self.old ≡ None → OnErr result (BeginsLine (tree_of checked.now) self.old self.new line
            ⊎ (log_of self.new ≡ log_of self.old) × (result ≡ Err SwitchFault.NoMemory)) }
        ensures acts { Acts S.sent S.outlet S.left W.taken W.faults_of self.old self.new inboxes.old inboxes.new result }
        ensures again { (fault : SwitchFault) → fault_of self.old ≡ Some fault → (result ≡ Err fault) × (self.new ≡ self.old) }
        ensures fault { fault_of self.new ≡ fault_in result }
    {
        if let Some(fault) = self.fault {
            return Err(fault);
        }
        match self.accept_next(checked, line, inboxes) {
            Ok(()) => Ok(()),
            Err(fault) => {
                self.fault = Some(fault);
                Err(fault)
            }
        }
    }

    fn accept_next<S: Outlet<Event>>(
        &mut self,
        checked: &Checked,
        line: Line,
        inboxes: &mut [S],
    ) -> Result<(), SwitchFault>
        requires slots { length inboxes.old ≡ slots_of self.old }
        ensures accepted { OnOk result (Accepts (tree_of checked.now) self.old self.new line) }
        ensures begun { OnErr result (BeginsLine (tree_of checked.now) self.old self.new line
            ⊎ (log_of self.new ≡ log_of self.old) × (result ≡ Err SwitchFault.NoMemory)) }
        ensures acts { Acts S.sent S.outlet S.left W.taken W.faults_of self.old self.new inboxes.old inboxes.new result }
        ensures fault { fault_of self.new ≡ fault_of self.old }
    {
        let Ok(()) = self.log.make_line_room() else {
            return Err(SwitchFault::NoMemory);
        };
        let served = self.serve_line(checked, &line, inboxes);
        self.log.log_line(line);
        served
    }

    fn serve_line<S: Outlet<Event>>(
        &mut self,
        checked: &Checked,
        line: &Line,
        inboxes: &mut [S],
    ) -> Result<(), SwitchFault>
        requires slots { length inboxes.old ≡ slots_of self.old }
        ensures gives { Gives self.old self.new (accepts (tree_of checked.now) (state_of self.old) (seen_line line.now)) result }
        ensures acts { Acts S.sent S.outlet S.left W.taken W.faults_of self.old self.new inboxes.old inboxes.new result }
        ensures room { self.new.log.accepted ≡ self.old.log.accepted }
        ensures fault { fault_of self.new ≡ fault_of self.old }
    {
        match self.state.accept(self.alloc, checked, line) {
            Ok(given) => self.give(given, inboxes),
            Err(NoMemory) => Err(SwitchFault::NoMemory),
        }
    }

    // Posts and prints what is given.
    fn give<S: Outlet<Event>>(&mut self, given: Given, inboxes: &mut [S]) -> Result<(), SwitchFault>
        requires within { AreWithin (length inboxes.old) given.posts.items }
        ensures gives { Gives self.old self.new (given_by (state_of self.old) given) result }
        ensures acts { Acts S.sent S.outlet S.left W.taken W.faults_of self.old self.new inboxes.old inboxes.new result }
        ensures state { state_of self.new ≡ state_of self.old }
        ensures rooms { (self.new.log.accepted ≡ self.old.log.accepted) × (self.new.log.routed ≡ self.old.log.routed) }
        ensures fault { fault_of self.new ≡ fault_of self.old }
    {
        let Given { posts, line } = given;
        let Ok(()) = post_all(&mut self.log.posts, inboxes, posts) else {
            return Err(SwitchFault::NoMemory);
        };
        match line {
            Some(line) => write_line(self.alloc, &mut self.log.lines, &mut self.out, line),
            None => Ok(()),
        }
    }

    /// Takes one message of the lanes out, of another lane each time where several have one: a call goes to its object, a reply to who
    /// waits for it, a fetch gets its line. `Nothing` comes exactly where each lane was empty. It costs a few look-ups, and one look at
    /// each lane that is empty.
    pub fn route<O: Inlet<Message>, S: Outlet<Event>>(
        &mut self,
        checked: &Checked,
        outs: &mut [O],
        inboxes: &mut [S],
    ) -> Result<Stepped, SwitchFault>
        requires outs { length outs.old ≡ slots_of self.old }
        requires inboxes { length inboxes.old ≡ slots_of self.old }
        ensures routed { result ≡ Ok Did → IsTakenOf O.got outs.old outs.new (Routes (tree_of checked.now) self.old self.new) }
        ensures nothing { result ≡ Ok Nothing → AreEmpty O.got O.told 0 (slots_of self.old) outs.old
            × IsStill self.old self.new × (map O.got outs.new ≡ map O.got outs.old) }
        ensures run { OnOk result (KeepsRun (tree_of checked.now) self.old self.new) }
        ensures begun { fault_of self.old ≡ None → OnErr result (IsTakenOf O.got outs.old outs.new (BeginsMessage (tree_of checked.now) self.old self.new)
            ⊎ IsStill self.old self.new × (map O.got outs.new ≡ map O.got outs.old) × (result ≡ Err SwitchFault.NoMemory)) }
        ensures acts { Acts S.sent S.outlet S.left W.taken W.faults_of self.old self.new inboxes.old inboxes.new result }
        ensures lanes { SameInlets O.inlet O.told outs.old outs.new }
        ensures again { (fault : SwitchFault) → fault_of self.old ≡ Some fault
            → (result ≡ Err fault) × (self.new ≡ self.old) × (map O.got outs.new ≡ map O.got outs.old) }
        ensures fault { fault_of self.new ≡ fault_in result }
    {
        if let Some(fault) = self.fault {
            return Err(fault);
        }
        match self.route_next(checked, outs, inboxes) {
            Ok(stepped) => Ok(stepped),
            Err(fault) => {
                self.fault = Some(fault);
                Err(fault)
            }
        }
    }

    fn route_next<O: Inlet<Message>, S: Outlet<Event>>(
        &mut self,
        checked: &Checked,
        outs: &mut [O],
        inboxes: &mut [S],
    ) -> Result<Stepped, SwitchFault>
        requires outs { length outs.old ≡ slots_of self.old }
        requires inboxes { length inboxes.old ≡ slots_of self.old }
        ensures routed { result ≡ Ok Did → IsTakenOf O.got outs.old outs.new (Routes (tree_of checked.now) self.old self.new) }
        ensures nothing { result ≡ Ok Nothing → AreEmpty O.got O.told 0 (slots_of self.old) outs.old
            × IsStill self.old self.new × (map O.got outs.new ≡ map O.got outs.old) }
        ensures begun { OnErr result (IsTakenOf O.got outs.old outs.new (BeginsMessage (tree_of checked.now) self.old self.new)
            ⊎ IsStill self.old self.new × (map O.got outs.new ≡ map O.got outs.old) × (result ≡ Err SwitchFault.NoMemory)) }
        ensures acts { Acts S.sent S.outlet S.left W.taken W.faults_of self.old self.new inboxes.old inboxes.new result }
        ensures lanes { SameInlets O.inlet O.told outs.old outs.new }
        ensures fault { fault_of self.new ≡ fault_of self.old }
    {
        let Ok(()) = self.log.make_message_room() else {
            return Err(SwitchFault::NoMemory);
        };
        let slots = self.state.slots();
        let Some((slot, message)) = take_in_turn(outs, self.next.min(slots), slots) else {
            return Ok(Stepped::Nothing);
        };
        self.next = slot + 1;
        self.route_taken(checked, slot, message, inboxes)?;
        Ok(Stepped::Did)
    }

    /// Like `route`, of messages that are fit: one that isn't fit now is taken and handed back, and nothing else is done. A message is fit
    /// where the slot that it comes from has an object, and the slot to whose object it replies has one.
    pub fn route_fit<O: Inlet<Message>, S: Outlet<Event>>(
        &mut self,
        checked: &Checked,
        outs: &mut [O],
        inboxes: &mut [S],
    ) -> Result<Routed, SwitchFault>
        requires outs { length outs.old ≡ slots_of self.old }
        requires inboxes { length inboxes.old ≡ slots_of self.old }
        ensures routed { result ≡ Ok Routed.Did
            → IsTakenOf O.got outs.old outs.new (λ sent. IsFit (state_of self.old) sent × Routes (tree_of checked.now) self.old self.new sent) }
        ensures unfit { (slot : ℕ) (message : Message) → result ≡ Ok (Routed.Unfit slot message) → HandsBack O.got outs.old outs.new slot message
            × IsStill self.old self.new }
        ensures nothing { result ≡ Ok Routed.Nothing → AreEmpty O.got O.told 0 (slots_of self.old) outs.old
            × IsStill self.old self.new × (map O.got outs.new ≡ map O.got outs.old) }
        ensures begun { fault_of self.old ≡ None → OnErr result (IsTakenOf O.got outs.old outs.new (BeginsMessage (tree_of checked.now) self.old self.new)
            ⊎ IsStill self.old self.new × (map O.got outs.new ≡ map O.got outs.old) × (result ≡ Err SwitchFault.NoMemory)) }
        ensures acts { Acts S.sent S.outlet S.left W.taken W.faults_of self.old self.new inboxes.old inboxes.new result }
        ensures lanes { SameInlets O.inlet O.told outs.old outs.new }
        ensures again { (fault : SwitchFault) → fault_of self.old ≡ Some fault
            → (result ≡ Err fault) × (self.new ≡ self.old) × (map O.got outs.new ≡ map O.got outs.old) }
        ensures fault { fault_of self.new ≡ fault_in result }
    {
        if let Some(fault) = self.fault {
            return Err(fault);
        }
        match self.route_fit_next(checked, outs, inboxes) {
            Ok(routed) => Ok(routed),
            Err(fault) => {
                self.fault = Some(fault);
                Err(fault)
            }
        }
    }

    fn route_fit_next<O: Inlet<Message>, S: Outlet<Event>>(
        &mut self,
        checked: &Checked,
        outs: &mut [O],
        inboxes: &mut [S],
    ) -> Result<Routed, SwitchFault>
        requires outs { length outs.old ≡ slots_of self.old }
        requires inboxes { length inboxes.old ≡ slots_of self.old }
        ensures routed { result ≡ Ok Routed.Did
            → IsTakenOf O.got outs.old outs.new (λ sent. IsFit (state_of self.old) sent × Routes (tree_of checked.now) self.old self.new sent) }
        ensures unfit { (slot : ℕ) (message : Message) → result ≡ Ok (Routed.Unfit slot message) → HandsBack O.got outs.old outs.new slot message
            × IsStill self.old self.new }
        ensures nothing { result ≡ Ok Routed.Nothing → AreEmpty O.got O.told 0 (slots_of self.old) outs.old
            × IsStill self.old self.new × (map O.got outs.new ≡ map O.got outs.old) }
        ensures begun { OnErr result (IsTakenOf O.got outs.old outs.new (BeginsMessage (tree_of checked.now) self.old self.new)
            ⊎ IsStill self.old self.new × (map O.got outs.new ≡ map O.got outs.old) × (result ≡ Err SwitchFault.NoMemory)) }
        ensures acts { Acts S.sent S.outlet S.left W.taken W.faults_of self.old self.new inboxes.old inboxes.new result }
        ensures lanes { SameInlets O.inlet O.told outs.old outs.new }
        ensures fault { fault_of self.new ≡ fault_of self.old }
    {
        let Ok(()) = self.log.make_message_room() else {
            return Err(SwitchFault::NoMemory);
        };
        let slots = self.state.slots();
        let Some((slot, message)) = take_in_turn(outs, self.next.min(slots), slots) else {
            return Ok(Routed::Nothing);
        };
        self.next = slot + 1;
        if !self.state.fits(slot, &message) {
            return Ok(Routed::Unfit { slot, message });
        }
        self.route_taken(checked, slot, message, inboxes)?;
        Ok(Routed::Did)
    }

    // Routes a message that was taken, and logs it: there is room for it.
    fn route_taken<S: Outlet<Event>>(
        &mut self,
        checked: &Checked,
        slot: u32,
        message: Message,
        inboxes: &mut [S],
    ) -> Result<(), SwitchFault>
        requires slots { length inboxes.old ≡ slots_of self.old }
        requires room { vec_len self.old.log.routed + 1 ≤ vec_capacity self.old.log.routed }
        ensures routed { OnOk result (Routes (tree_of checked.now) self.old self.new (slot, message)) }
        ensures begun { OnErr result (BeginsMessage (tree_of checked.now) self.old self.new (slot, message)) }
        ensures acts { Acts S.sent S.outlet S.left W.taken W.faults_of self.old self.new inboxes.old inboxes.new result }
        ensures fault { fault_of self.new ≡ fault_of self.old }
    {
        let routed = self.serve_message(checked, slot, &message, inboxes);
        self.log.log_message(slot, message);
        routed
    }

    fn serve_message<S: Outlet<Event>>(
        &mut self,
        checked: &Checked,
        slot: u32,
        message: &Message,
        inboxes: &mut [S],
    ) -> Result<(), SwitchFault>
        requires slots { length inboxes.old ≡ slots_of self.old }
        ensures gives { Gives self.old self.new (routes (tree_of checked.now) (state_of self.old) (slot, message.now)) result }
        ensures acts { Acts S.sent S.outlet S.left W.taken W.faults_of self.old self.new inboxes.old inboxes.new result }
        ensures room { self.new.log.routed ≡ self.old.log.routed }
        ensures fault { fault_of self.new ≡ fault_of self.old }
    {
        match self.state.route(self.alloc, checked, slot, message) {
            Ok(given) => self.give(given, inboxes),
            Err(NoMemory) => Err(SwitchFault::NoMemory),
        }
    }

    /// Writes what each request that is left waits for, in the order of the requests' own lines, and nothing of calls that objects made.
    /// `left` is what each front has left, with its slot. A fetch that has its answer is nothing to wait for.
    pub fn finish(&mut self, left: Vec<(u32, Caller, Waits)>) -> Result<(), SwitchFault>
        ensures finished { OnOk result (log_of self.new ≡ gave (log_of self.old) (finished_by (state_of self.old) left.items)) }
        ensures begun { OnErr result (Begins (log_of self.old) (log_of self.new) (finished_by (state_of self.old) left.items)) }
        ensures prints { Prints W.taken W.faults_of self.old self.new result }
        ensures again { (fault : SwitchFault) → fault_of self.old ≡ Some fault → (result ≡ Err fault) × (self.new ≡ self.old) }
        ensures fault { fault_of self.new ≡ fault_in result }
    {
        if let Some(fault) = self.fault {
            return Err(fault);
        }
        match self.finish_next(left) {
            Ok(()) => Ok(()),
            Err(fault) => {
                self.fault = Some(fault);
                Err(fault)
            }
        }
    }

    fn finish_next(&mut self, left: Vec<(u32, Caller, Waits)>) -> Result<(), SwitchFault>
        ensures finished { OnOk result (log_of self.new ≡ gave (log_of self.old) (finished_by (state_of self.old) left.items)) }
        ensures begun { OnErr result (Begins (log_of self.old) (log_of self.new) (finished_by (state_of self.old) left.items)) }
        ensures prints { Prints W.taken W.faults_of self.old self.new result }
        ensures fault { fault_of self.new ≡ fault_of self.old }
    {
        match self.state.left_lines(self.alloc, left) {
            Ok(lines) => write_all(self.alloc, &mut self.log.lines, &mut self.out, lines),
            Err(NoMemory) => Err(SwitchFault::NoMemory),
        }
    }

    /// The fault at which it stands, if any.
    pub fn fault(&self) -> Option<SwitchFault>
        ensures { result ≡ fault_of self.now }
    {
        self.fault
    }

    /// What it has done.
    pub fn log(&self) -> &SwitchLog
        ensures { result.now ≡ self.now.log }
    {
        &self.log
    }

    /// The sink as it is left, and the log. It takes no memory.
    pub fn into_parts(self) -> (W, SwitchLog)
        ensures sink { result.0 ≡ out_of self }
        ensures log { result.1 ≡ self.log }
    {
        let Switch {
            alloc: _,
            state,
            log,
            out,
            next: _,
            fault: _,
        } = self;
        drop(state);
        (out, log)
    }
}
