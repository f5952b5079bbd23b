//! The lines of the input, one after another.
ghost use Rattle.std.specs.Prelude.{◌≡◌, ◌<◌, ◌≤◌, ◌++◌, ◌∷◌, ℕ, List, [], Option, IfOk, IfSome, OnOk, OnErr, Ok, Err, None, length, min};
ghost use Rattle.do_disk.specs.Disk.{Rose};
ghost use Rattle.do_tree.specs.Checked.{tree_of as script_in};
ghost use Rattle.lane.specs.Lanes.{StartsWith};
ghost use Rattle.line_server.specs.Cut.{lines as all_lines};
ghost use Rattle.line_server.specs.Limits.{most_lines};
ghost use Rattle.line_server.specs.Lines.{count_of, fault_in, fault_of as line_fault, lines_in, source_of};
ghost use Rattle.line_server.specs.Requests.{SeenLine, requests, through};
ghost use Rattle.placement.specs.Slots.{Slots};
ghost use Rattle.mailbox.specs.Runs.{log_of};
ghost use Rattle.mailbox.specs.Seen.{seen_line};
ghost use Rattle.switch_history.specs.Answering.{AreInOrder};
ghost use Rattle.host_workers.specs.Lines.{AreUpTo, HasCounted};
ghost use Rattle.host_core.specs.Objects.{CanAllRun};
ghost use Rattle.host_core.specs.Reading.{Accepts, AcceptsAll, AcceptsAllRead, HasRead, read_lines, with_rest};
ghost use Rattle.host_core.specs.Running.{IsAtRest, IsLoggedAt, IsServing, KeepsServing, LeavesServed, Prints, PrintsUntil};

use crate::objects::Objects;
use crate::settling::settle;
use do_disk::{Disk, Sink, Source};
use do_tree::Checked;
use lane::{Inlet, Plain};
use line_server::{Line, LineFault, Lines};
use mailbox::{Switch, SwitchFault};
use std::alloc::Global;
use std::sync::Wait;

// Why lines aren't served any more.
#[derive(Clone, Copy, Debug, Drop, PartialEq, Eq)]
pub(crate) enum Stop {
    ReadFailed,
    WriteFailed,
    NoMemory,
}

// Serves the lines that were read and not accepted, and then those of the input to its end, or until something stops it. Before each line, and at
// the end, nothing is under way.
pub(crate) fn serve_lines<D: Disk, R: Source, W: Sink, T: Wait>(
    rt: &T,
    alloc: Global,
    checked: &Checked,
    rest: Plain<Line>,
    lines: &mut Lines<R>,
    switch: &mut Switch<W>,
    objects: &mut Objects<D>,
) -> Result<(), Stop>
    requires serving { (limit : ℕ) × (contents : ℕ → Option (List ℕ)) × (named : Slots)
        × IsServing D.moment_of D.left_since D.told D.image D.faults_of limit (script_in checked.now) contents named switch.old objects.old }
    requires order { AreInOrder (with_rest (log_of switch.old).accepted rest) }
    requires below { AreUpTo (count_of lines.old) (with_rest (log_of switch.old).accepted rest) }
    ensures serving { OnOk result (KeepsServing D.moment_of D.left_since D.told D.image D.faults_of (script_in checked.now)
        switch.old switch.new objects.old objects.new) }
    ensures read_serving { result ≡ Err Stop.ReadFailed
        → KeepsServing D.moment_of D.left_since D.told D.image D.faults_of (script_in checked.now) switch.old switch.new objects.old objects.new }
    ensures served { LeavesServed D.moment_of D.left_since D.told D.image D.faults_of (script_in checked.now) switch.old switch.new objects.old objects.new }
    ensures again { CanAllRun D.moment_of D.left_since D.told D.image D.faults_of (script_in checked.now) objects.new }
    ensures resting { OnOk result (IsAtRest (script_in checked.now) objects.new) }
    ensures read_resting { result ≡ Err Stop.ReadFailed → IsAtRest (script_in checked.now) objects.new }
    ensures many { length objects.new.cores.items ≡ length objects.old.cores.items }
    ensures order { OnOk result (AreInOrder (log_of switch.new).accepted) }
    ensures read_order { result ≡ Err Stop.ReadFailed → AreInOrder (log_of switch.new).accepted }
    ensures accepts { (whole : List ℕ) → HasRead R.left whole (read_lines (with_rest (log_of switch.old).accepted rest)) lines.old
        → Accepts whole (R.left (source_of lines.new)) (log_of switch.new).accepted (count_of lines.new) }
    ensures all { OnOk result ((whole : List ℕ) → HasRead R.left whole (read_lines (with_rest (log_of switch.old).accepted rest)) lines.old
        → AcceptsAll whole (log_of switch.new).accepted (count_of lines.new)) }
    ensures read_all { result ≡ Err Stop.ReadFailed → (whole : List ℕ)
        → HasRead R.left whole (read_lines (with_rest (log_of switch.old).accepted rest)) lines.old
        → AcceptsAllRead whole (R.left (source_of lines.new)) (log_of switch.new).accepted (count_of lines.new) }
    ensures prints { PrintsUntil W.taken W.faults_of switch.old switch.new result }
    ensures read_failed { result ≡ Err Stop.ReadFailed → (from : ℕ) → HasCounted R.faults_of from lines.old → Rose from (R.faults_of (source_of lines.new)) }
{
    settle(rt, alloc, checked, switch, objects)?;
    serve_rest(rt, alloc, checked, rest, switch, objects)?;
    while let Some(line) = next_line(lines)? {
        serve_line(rt, alloc, checked, line, switch, objects)?;
    }
    Ok(())
}

// Serves the lines that were read and wait.
fn serve_rest<D: Disk, W: Sink, T: Wait>(
    rt: &T,
    alloc: Global,
    checked: &Checked,
    rest: Plain<Line>,
    switch: &mut Switch<W>,
    objects: &mut Objects<D>,
) -> Result<(), SwitchFault>
    requires serving { (limit : ℕ) × (contents : ℕ → Option (List ℕ)) × (named : Slots)
        × IsServing D.moment_of D.left_since D.told D.image D.faults_of limit (script_in checked.now) contents named switch.old objects.old }
    requires resting { IsAtRest (script_in checked.now) objects.old }
    ensures serving { OnOk result (KeepsServing D.moment_of D.left_since D.told D.image D.faults_of (script_in checked.now)
        switch.old switch.new objects.old objects.new) }
    ensures served { LeavesServed D.moment_of D.left_since D.told D.image D.faults_of (script_in checked.now) switch.old switch.new objects.old objects.new }
    ensures again { CanAllRun D.moment_of D.left_since D.told D.image D.faults_of (script_in checked.now) objects.new }
    ensures resting { OnOk result (IsAtRest (script_in checked.now) objects.new) }
    ensures many { length objects.new.cores.items ≡ length objects.old.cores.items }
    ensures accepted { OnOk result ((log_of switch.new).accepted ≡ with_rest (log_of switch.old).accepted rest) }
    ensures first { StartsWith (with_rest (log_of switch.old).accepted rest) (log_of switch.new).accepted }
    ensures prints { Prints W.taken W.faults_of switch.old switch.new result }
{
    let mut rest = rest;
    while let Some(line) = rest.take() {
        serve_line(rt, alloc, checked, line, switch, objects)?;
    }
    Ok(())
}

// Reads the next line, also of a reader that stands at a fault: it gives that again.
fn next_line<R: Source>(lines: &mut Lines<R>) -> Result<Option<Line>, LineFault>
    ensures reads { (whole : List ℕ) (given : List SeenLine) → HasRead R.left whole given lines.old
        → HasRead R.left whole (given ++ lines_in result) lines.new }
    ensures all { result ≡ Ok None → (whole : List ℕ) (given : List SeenLine) → HasRead R.left whole given lines.old
        → (given ≡ through most_lines (requests whole)) × (count_of lines.new ≡ min most_lines (length (all_lines whole))) }
    ensures number { IfOk result (λ o. IfSome o (λ line. (line.number ≡ count_of lines.new) × (count_of lines.old < count_of lines.new))) }
    ensures count { (count_of lines.old ≤ count_of lines.new) × (count_of lines.new ≤ most_lines) }
    ensures fault { line_fault lines.new ≡ fault_in result }
    ensures counts { (from : ℕ) → HasCounted R.faults_of from lines.old → HasCounted R.faults_of from lines.new }
{
    lines.next()
}

// Accepts a line, and lets the objects run until nothing is under way.
fn serve_line<D: Disk, W: Sink, T: Wait>(
    rt: &T,
    alloc: Global,
    checked: &Checked,
    line: Line,
    switch: &mut Switch<W>,
    objects: &mut Objects<D>,
) -> Result<(), SwitchFault>
    requires serving { (limit : ℕ) × (contents : ℕ → Option (List ℕ)) × (named : Slots)
        × IsServing D.moment_of D.left_since D.told D.image D.faults_of limit (script_in checked.now) contents named switch.old objects.old }
    ensures serving { OnOk result (KeepsServing D.moment_of D.left_since D.told D.image D.faults_of (script_in checked.now)
        switch.old switch.new objects.old objects.new) }
    ensures served { LeavesServed D.moment_of D.left_since D.told D.image D.faults_of (script_in checked.now) switch.old switch.new objects.old objects.new }
    ensures again { CanAllRun D.moment_of D.left_since D.told D.image D.faults_of (script_in checked.now) objects.new }
    ensures resting { OnOk result (IsAtRest (script_in checked.now) objects.new) }
    ensures many { length objects.new.cores.items ≡ length objects.old.cores.items }
    ensures accepted { OnOk result ((log_of switch.new).accepted ≡ (log_of switch.old).accepted ++ seen_line line ∷ []) }
    ensures logged { OnErr result (IsLoggedAt line (log_of switch.old).accepted (log_of switch.new).accepted result) }
    ensures prints { Prints W.taken W.faults_of switch.old switch.new result }
{
    switch.accept(checked, line, &mut objects.inboxes)?;
    settle(rt, alloc, checked, switch, objects)
}

impl From<SwitchFault> for Stop {
    ghost use Rattle.std.specs.Prelude.{◌≡◌};
    ghost use Rattle.host_core.specs.Ends.{switch_stop};

    ghost from_gives = { λ fault stop. stop ≡ switch_stop fault };

    fn from(fault: SwitchFault) -> Stop {
        match fault {
            SwitchFault::WriteFailed => Stop::WriteFailed,
            SwitchFault::NoMemory => Stop::NoMemory,
        }
    }
}

impl From<LineFault> for Stop {
    ghost use Rattle.std.specs.Prelude.{◌≡◌};
    ghost use Rattle.host_core.specs.Ends.{line_stop};

    ghost from_gives = { λ fault stop. stop ≡ line_stop fault };

    fn from(fault: LineFault) -> Stop {
        match fault {
            LineFault::ReadFailed => Stop::ReadFailed,
            LineFault::NoMemory => Stop::NoMemory,
        }
    }
}
