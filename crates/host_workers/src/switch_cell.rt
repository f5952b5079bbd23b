//! The switch, with its ends of the lanes.
ghost use Rattle.std.specs.Prelude.{◌≡◌, Ok, Err, Some, None, OnOk, [], length};
ghost use Rattle.do_tree.specs.Checked.{tree_of as script_in};
ghost use Rattle.lane.specs.Lanes.{StartsWith};
ghost use Rattle.timeline.specs.Switch.{Switch as SeenSwitch, no_log};
ghost use Rattle.timeline.specs.declared.notice.Stepped.TheVariants.{Did, Nothing};
ghost use Rattle.mailbox.specs.Runs.{IsStill, fault_of, fault_in, log_of, out_of, slots_of, state_of};
ghost use Rattle.mailbox.specs.Taken.{AreEmpty};
ghost use Rattle.mailbox.specs.declared.fault.SwitchFault.{SwitchFault as SeenFault};
ghost use Rattle.host_workers.specs.Switches.{AcceptsLine, AreUnused, HasPrinted, IsSwitchCell, KeepsPrinted, KeepsSwitchCell, SameLanes, got_of, script_of, told_of};

use crate::boxed::Boxed;
use do_disk::Sink;
use do_tree::Checked;
use lane::{Inlet, SendEnd, TakeEnd};
use line_server::Line;
use mailbox::{Routed, Switch, SwitchFault};
use std::sync::Wait;
use timeline::{Event, Message, Stepped};

/// The switch, with the script of the run, the end from which it takes lines, and for each slot, by its number, the end from which it takes
/// what the slot's object lets go and the one on which it posts to it.
pub struct SwitchCell<'s, W, T: Wait> {
    pub(crate) switch: Boxed<Switch<W>>,
    // a message that was taken from the lane of this slot and wasn't fit to be routed: from then on none is taken
    pub(crate) kept: Option<(u32, Message)>,
    pub(crate) checked: &'s Checked,
    pub(crate) lines: TakeEnd<Line, T>,
    pub(crate) outs: Vec<TakeEnd<Message, T>>,
    pub(crate) inboxes: Vec<SendEnd<Event, T>>,
}

/// The parts of the switch's cell: the switch, the message that it keeps, with the slot that it comes from, and the ends of the lanes.
#[derive(Drop)]
pub struct SwitchParts<W, T: Wait> {
    pub switch: Switch<W>,
    pub kept: Option<(u32, Message)>,
    pub lines: TakeEnd<Line, T>,
    pub outs: Vec<TakeEnd<Message, T>>,
    pub inboxes: Vec<SendEnd<Event, T>>,
}

// Written out, so that letting a cell go is proved once.
impl<'s, W: Drop, T: Wait + Drop> Drop for SwitchCell<'s, W, T> {
    fn drop(self) {
        let SwitchCell {
            switch,
            kept,
            checked: _,
            lines,
            outs,
            inboxes,
        } = self;
        drop(switch);
        drop(kept);
        drop(lines);
        drop(outs);
        drop(inboxes);
    }
}

impl<'s, W: Sink, T: Wait + Copy> SwitchCell<'s, W, T> {
    /// A switch that has done nothing, made for this script, with two ends for each slot, through whose lanes nothing went. It takes no memory.
    pub fn new(
        switch: Boxed<Switch<W>>,
        checked: &'s Checked,
        lines: TakeEnd<Line, T>,
        outs: Vec<TakeEnd<Message, T>>,
        inboxes: Vec<SendEnd<Event, T>>,
    ) -> SwitchCell<'s, W, T>
        requires fresh { (log_of switch ≡ no_log) × (fault_of switch ≡ None) }
        requires slots { (length outs.items ≡ slots_of switch) × (length inboxes.items ≡ slots_of switch) }
        requires unused { (lines.got ≡ []) × AreUnused outs.items inboxes.items }
        ensures half { (result.switch ≡ switch) × (result.kept ≡ None) × (script_of result ≡ script_in checked.now) }
        ensures ends { (result.lines ≡ lines) × (result.outs ≡ outs) × (result.inboxes ≡ inboxes) }
        ensures cell { IsSwitchCell (state_of switch) result }
        ensures printed { HasPrinted W.taken W.faults_of (W.taken (out_of switch)) (W.faults_of (out_of switch)) switch }
    {
        SwitchCell {
            switch,
            kept: None,
            checked,
            lines,
            outs,
            inboxes,
        }
    }

    /// Accepts the next line, where one has come. After a fault the switch is stopped: each further call gives that fault and takes
    /// nothing.
    pub fn accept(&mut self) -> Result<Stepped, SwitchFault>
        requires { (first : SeenSwitch) × IsSwitchCell first self.old }
        ensures again { (fault : SeenFault) → fault_of self.old.switch ≡ Some fault → (result ≡ Err fault) × (self.new ≡ self.old) }
        ensures nothing { result ≡ Ok Nothing → (self.new ≡ self.old) × StartsWith self.old.lines.got self.old.lines.told }
        ensures lanes { SameLanes self.old self.new }
        ensures cell { KeepsSwitchCell self.old self.new }
        ensures printed { KeepsPrinted W.taken W.faults_of self.old.switch self.new.switch }
        ensures fault { fault_of self.new.switch ≡ fault_in result }
    {
        if let Some(fault) = self.switch.get().fault() {
            return Err(fault);
        }
        match self.lines.take() {
            None => Ok(Stepped::Nothing),
            Some(line) => self.accept_line(line),
        }
    }

    // Accepts a line that was taken.
    fn accept_line(&mut self, line: Line) -> Result<Stepped, SwitchFault>
        requires slots { length self.old.inboxes.items ≡ slots_of self.old.switch }
        requires goes { fault_of self.old.switch ≡ None }
        ensures did { OnOk result (result ≡ Ok Did) }
        ensures lines { self.new.lines ≡ self.old.lines }
        ensures lanes { SameLanes self.old self.new }
        ensures accepts { AcceptsLine self.old self.new line }
        ensures printed { KeepsPrinted W.taken W.faults_of self.old.switch self.new.switch }
        ensures fault { fault_of self.new.switch ≡ fault_in result }
    {
        match self
            .switch
            .get_mut()
            .accept(self.checked, line, &mut self.inboxes)
        {
            Ok(()) => Ok(Stepped::Did),
            Err(fault) => Err(fault),
        }
    }

    /// Routes one message of the lanes out, of another slot each time where several have one. `Nothing` comes exactly where each was empty,
    /// or where a message is kept that wasn't fit: no object of a run sends one.
    pub fn route(&mut self) -> Result<Stepped, SwitchFault>
        requires { (first : SeenSwitch) × IsSwitchCell first self.old }
        ensures again { (fault : SwitchFault) → fault_of self.old.switch ≡ Some fault → (result ≡ Err fault) × (self.new.switch ≡ self.old.switch) }
        ensures nothing { result ≡ Ok Nothing → IsStill self.old.switch self.new.switch
            × (self.new.kept ≡ None → AreEmpty got_of told_of 0 (slots_of self.old.switch) self.old.outs.items) }
        ensures lanes { SameLanes self.old self.new }
        ensures cell { KeepsSwitchCell self.old self.new }
        ensures printed { KeepsPrinted W.taken W.faults_of self.old.switch self.new.switch }
        ensures fault { fault_of self.new.switch ≡ fault_in result }
    {
        match self.switch.get().fault() {
            Some(fault) => Err(fault),
            None if self.kept.is_some() => Ok(Stepped::Nothing),
            None => self.route_next(),
        }
    }

    // Routes the next message, or keeps it where it isn't fit.
    fn route_next(&mut self) -> Result<Stepped, SwitchFault>
        requires cell { (first : SeenSwitch) × IsSwitchCell first self.old }
        requires goes { fault_of self.old.switch ≡ None }
        requires none { self.old.kept ≡ None }
        ensures nothing { result ≡ Ok Nothing → IsStill self.old.switch self.new.switch
            × (self.new.kept ≡ None → AreEmpty got_of told_of 0 (slots_of self.old.switch) self.old.outs.items) }
        ensures lanes { SameLanes self.old self.new }
        ensures cell { KeepsSwitchCell self.old self.new }
        ensures printed { KeepsPrinted W.taken W.faults_of self.old.switch self.new.switch }
        ensures fault { fault_of self.new.switch ≡ fault_in result }
    {
        match self
            .switch
            .get_mut()
            .route_fit(self.checked, &mut self.outs, &mut self.inboxes)
        {
            Ok(Routed::Did) => Ok(Stepped::Did),
            Ok(Routed::Nothing) => Ok(Stepped::Nothing),
            Ok(Routed::Unfit { slot, message }) => {
                self.kept = Some((slot, message));
                Ok(Stepped::Nothing)
            }
            Err(fault) => Err(fault),
        }
    }

    // All posts that the switch has made, in order, each with the slot that it went to.
    pub(crate) fn posts(&self) -> &[(u32, Event)] {
        self.switch.get().log().posts.as_slice()
    }

    // How many lines it has accepted.
    pub(crate) fn count_accepted(&self) -> usize {
        self.switch.get().log().accepted.len()
    }

    /// Its parts. It takes no memory.
    pub fn into_parts(self) -> SwitchParts<W, T>
        ensures half { (result.switch ≡ self.entry.switch) × (result.kept ≡ self.entry.kept) }
        ensures ends { (result.lines ≡ self.entry.lines) × (result.outs ≡ self.entry.outs) × (result.inboxes ≡ self.entry.inboxes) }
    {
        let SwitchCell {
            switch,
            kept,
            checked: _,
            lines,
            outs,
            inboxes,
        } = self;
        SwitchParts {
            switch: switch.into_inner(),
            kept,
            lines,
            outs,
            inboxes,
        }
    }
}
