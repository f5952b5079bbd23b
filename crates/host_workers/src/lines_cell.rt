//! The lines of the input, with the end on which those that were read are sent.
ghost use Rattle.std.specs.Prelude.{◌≡◌, ◌++◌, [], ◌∷◌, ℕ, List, Ok, Err, Some, true, false, OnOk, OnErr};
ghost use Rattle.line_server.specs.Lines.{IsReading, fault_of};
ghost use Rattle.line_server.specs.declared.line.Line.{Line as SeenLine};
ghost use Rattle.timeline.specs.declared.notice.Stepped.TheVariants.{Did, Nothing};
ghost use Rattle.host_workers.specs.Lines.{IsNumbered, HasCounted, HasRead, IsLinesCell, PassesOn};

use crate::boxed::Boxed;
use do_disk::Source;
use do_value::{Mem, NoMemory};
use lane::{Outlet, SendEnd};
use line_server::{Line, LineFault, Lines};
use std::sync::Wait;
use timeline::Stepped;

/// The lines of a source, and the end of the lane on which those that were read go to the switch.
pub struct LinesCell<R, T: Wait> {
    pub(crate) lines: Boxed<Lines<R>>,
    pub(crate) send: SendEnd<Line, T>,
    // memory didn't suffice to send a line that was read: nothing is read any more
    pub(crate) stopped: bool,
}

// Written out, so that letting a cell go is proved once.
impl<R: Drop, T: Wait + Drop> Drop for LinesCell<R, T> {
    fn drop(self) {
        let LinesCell {
            lines,
            send,
            stopped: _,
        } = self;
        drop(lines);
        drop(send);
    }
}

impl<R: Source, T: Wait + Copy> LinesCell<R, T> {
    /// A reader that has read nothing, on whose lane nothing was sent. It takes no memory.
    pub fn new(lines: Boxed<Lines<R>>, send: SendEnd<Line, T>) -> LinesCell<R, T>
        requires { send.sent ≡ [] }
        ensures parts { (result.lines ≡ lines) × (result.send ≡ send) }
        ensures cell { (whole : List ℕ) → IsReading R.left whole [] lines → IsLinesCell R.left whole result }
        ensures numbered { IsNumbered result }
    {
        LinesCell {
            lines,
            send,
            stopped: false,
        }
    }

    /// Reads the next line and sends it. `Nothing` comes at the input's end, and after the last line that counts. After a fault
    /// the reader does as one does that has met it (`Lines::next`).
    pub fn read(&mut self) -> Result<Stepped, LineFault>
        ensures cell { (whole : List ℕ) → IsLinesCell R.left whole self.old → IsLinesCell R.left whole self.new }
        ensures did { result ≡ Ok Did → (line : SeenLine) × (self.new.send.sent ≡ self.old.send.sent ++ line ∷ []) }
        ensures nothing { result ≡ Ok Nothing → (self.new.send ≡ self.old.send)
            × ((whole : List ℕ) → IsLinesCell R.left whole self.old → HasRead whole self.new) }
        ensures fault { OnErr result (self.new.send ≡ self.old.send) }
        ensures counts { (from : ℕ) → HasCounted R.faults_of from self.old.lines → HasCounted R.faults_of from self.new.lines }
        ensures failed { result ≡ Err LineFault.ReadFailed → fault_of self.new.lines ≡ Some LineFault.ReadFailed }
        ensures lane { self.new.send.lane ≡ self.old.send.lane }
        ensures numbers { IsNumbered self.old → IsNumbered self.new }
    {
        if self.stopped {
            return Err(LineFault::NoMemory);
        }
        match self.lines.get_mut().next() {
            Ok(Some(line)) => self.pass_on(line),
            Ok(None) => Ok(Stepped::Nothing),
            Err(fault) => Err(fault),
        }
    }

    // Whether the next line is at hand, so that there is nothing to wait for.
    pub(crate) fn is_ready(&self) -> bool {
        self.lines.get().is_ready()
    }

    // Sends a line that was read. Where memory doesn't suffice, it is lost and nothing is read any more.
    fn pass_on(&mut self, line: Line) -> Result<Stepped, LineFault>
        requires { self.old.stopped ≡ false }
        ensures { PassesOn self.old self.new line result }
    {
        match put(&mut self.send, line) {
            Ok(()) => Ok(Stepped::Did),
            Err(NoMemory) => {
                self.stopped = true;
                Err(LineFault::NoMemory)
            }
        }
    }

    /// Whether a line that was read is lost, since memory was wanting to send it: then nothing is read any more.
    pub fn is_stopped(&self) -> bool
        ensures { result ≡ self.now.stopped }
    {
        self.stopped
    }

    /// The lines, and the end of their lane. It takes no memory.
    pub fn into_parts(self) -> (Lines<R>, SendEnd<Line, T>)
        ensures { (result.0 ≡ self.lines) × (result.1 ≡ self.send) }
    {
        let LinesCell {
            lines,
            send,
            stopped: _,
        } = self;
        (lines.into_inner(), send)
    }
}

// Sends a line behind those of a lane.
fn put<T: Wait + Copy>(send: &mut SendEnd<Line, T>, line: Line) -> Mem<()>
    ensures lane { send.new.lane ≡ send.old.lane }
    ensures sent { OnOk result (send.new.sent ≡ send.old.sent ++ line ∷ []) }
    ensures same { OnErr result (send.new ≡ send.old) }
{
    match send.send(line) {
        Ok(()) => Ok(()),
        Err(_) => Err(NoMemory),
    }
}
