//! Lines of the output.
ghost use Rattle.std.specs.Prelude.{◌≡◌, ◌⊎◌, ◌≤◌, ◌+◌, ◌++◌, ◌∷◌, [], Err, OnOk, OnErr, map, vec_len};
ghost use Rattle.std.specs.Vec.{vec_capacity};
ghost use Rattle.mailbox.specs.Posting.{GoesOn};
ghost use Rattle.mailbox.specs.Written.{Writes, WritesInPart, CountsWrites};

use crate::fault::SwitchFault;
use do_disk::Sink;
use do_value::{Mem, NoMemory};
use line_server::{OutLine, print, put};
use std::alloc::Global;

// Logs the line, and then writes it. For want of memory neither is done.
pub(crate) fn write_line<W: Sink>(
    alloc: Global,
    log: &mut Vec<OutLine>,
    out: &mut W,
    line: OutLine,
) -> Result<(), SwitchFault>
    ensures logged { OnOk result (log.new.items ≡ log.old.items ++ line ∷ []) }
    ensures begun { OnErr result ((log.new.items ≡ log.old.items) ⊎ (log.new.items ≡ log.old.items ++ line ∷ [])) }
    ensures written { (result ≡ Err SwitchFault.WriteFailed → ⊥)
        → Writes (W.taken out.old) (W.taken out.new) log.old.items log.new.items }
    ensures part { result ≡ Err SwitchFault.WriteFailed → WritesInPart (W.taken out.old) (W.taken out.new) log.old.items log.new.items }
    ensures faults { CountsWrites (W.faults_of out.old) (W.faults_of out.new) result }
{
    let Ok(text) = print(alloc, &line) else {
        return Err(SwitchFault::NoMemory);
    };
    let Ok(()) = make_room(log) else {
        return Err(SwitchFault::NoMemory);
    };
    log_line(log, line);
    match put(out, text.as_slice()) {
        Ok(()) => Ok(()),
        Err(_) => Err(SwitchFault::WriteFailed),
    }
}

// The same of all these lines, whatever stands beside them. After a fault the first of them are logged.
pub(crate) fn write_all<W: Sink>(
    alloc: Global,
    log: &mut Vec<OutLine>,
    out: &mut W,
    lines: Vec<(u64, OutLine)>,
) -> Result<(), SwitchFault>
    ensures logged { OnOk result (log.new.items ≡ log.old.items ++ map (λ line. line.1) lines.items) }
    ensures begun { OnErr result (GoesOn log.old.items log.new.items (map (λ line. line.1) lines.items)) }
    ensures written { (result ≡ Err SwitchFault.WriteFailed → ⊥)
        → Writes (W.taken out.old) (W.taken out.new) log.old.items log.new.items }
    ensures part { result ≡ Err SwitchFault.WriteFailed → WritesInPart (W.taken out.old) (W.taken out.new) log.old.items log.new.items }
    ensures faults { CountsWrites (W.faults_of out.old) (W.faults_of out.new) result }
{
    for item in lines {
        let (_, line) = item;
        match write_line(alloc, log, out, line) {
            Ok(()) => {}
            Err(fault) => return Err(fault),
        }
    }
    Ok(())
}

// Makes room for one line more.
fn make_room(log: &mut Vec<OutLine>) -> Mem<()>
    ensures room { OnOk result (vec_len log.new + 1 ≤ vec_capacity log.new) }
    ensures same { log.new.items ≡ log.old.items }
{
    if log.reserve(1).is_err() {
        return Err(NoMemory);
    }
    Ok(())
}

// Logs a line for which there is room.
fn log_line(log: &mut Vec<OutLine>, line: OutLine)
    requires { vec_len log.old + 1 ≤ vec_capacity log.old }
    ensures { log.new.items ≡ log.old.items ++ line ∷ [] }
{
    log.push(line).unwrap();
}
