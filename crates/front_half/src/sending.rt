//! Entries are sent, and logged as sent.
ghost use Rattle.std.specs.Prelude.{◌≡◌, List, [], ◌∷◌, ◌++◌, ◌+◌, ◌≤◌, length, vec_len, IfOk, OnErr, OnOk};
ghost use Rattle.std.specs.Vec.{vec_capacity};
ghost use Rattle.timeline.specs.Headline.{IsPrefix};
ghost use Rattle.timeline.specs.Intake.{numbered};
ghost use Rattle.front_half.specs.Sending.{AreSentToo};

use do_value::{Mem, NoMemory};
use lane::Outlet;
use timeline::{Body, Entry};

// Makes room for one entry more.
fn make_room(sent: &mut Vec<Entry>) -> Mem<()>
    ensures items { sent.new.items ≡ sent.old.items }
    ensures room { OnOk result (vec_len sent.new + 1 ≤ vec_capacity sent.new) }
{
    if sent.reserve(1).is_err() {
        return Err(NoMemory);
    }
    Ok(())
}

// Logs an entry for which there is room.
fn log_one(sent: &mut Vec<Entry>, entry: Entry)
    requires { vec_len sent.old + 1 ≤ vec_capacity sent.old }
    ensures { sent.new.items ≡ sent.old.items ++ entry ∷ [] }
{
    sent.push(entry).unwrap();
}

// Sends the entry, and logs its copy, for which there is room. For want of memory neither is done.
#[tactic(auto, using(crate::proofs::Sent::sent_one, crate::proofs::Sent::sent_none))]
fn send_kept<O: Outlet<Entry>>(
    line: &mut O,
    sent: &mut Vec<Entry>,
    entry: Entry,
    kept: Entry,
) -> Mem<()>
    requires same { kept ≡ entry }
    requires room { vec_len sent.old + 1 ≤ vec_capacity sent.old }
    ensures sent { OnOk result (sent.new.items ≡ sent.old.items ++ entry ∷ []) }
    ensures same { OnErr result (sent.new.items ≡ sent.old.items) }
    ensures too { AreSentToo (O.sent line.old) (O.sent line.new) sent.old.items sent.new.items }
    ensures lane { O.outlet line.new ≡ O.outlet line.old }
    ensures left { O.left line.new ≡ O.left line.old }
{
    match line.send(entry) {
        Ok(()) => {
            log_one(sent, kept);
            Ok(())
        }
        Err(fault) => {
            drop(fault);
            Err(NoMemory)
        }
    }
}

// Sends the entry, and logs it. For want of memory neither is done.
#[tactic(auto, using(crate::proofs::Sent::sent_behind, crate::proofs::Sent::sent_none))]
fn send_one<O: Outlet<Entry>>(line: &mut O, sent: &mut Vec<Entry>, entry: Entry) -> Mem<()>
    ensures sent { OnOk result (sent.new.items ≡ sent.old.items ++ entry ∷ []) }
    ensures same { OnErr result (sent.new.items ≡ sent.old.items) }
    ensures too { AreSentToo (O.sent line.old) (O.sent line.new) sent.old.items sent.new.items }
    ensures lane { O.outlet line.new ≡ O.outlet line.old }
    ensures left { O.left line.new ≡ O.left line.old }
{
    let Ok(kept) = entry.copy() else {
        return Err(NoMemory);
    };
    let Ok(()) = make_room(sent) else {
        return Err(NoMemory);
    };
    send_kept(line, sent, entry, kept)
}

// Sends what was said in a turn, where so many entries of the incarnation were sent before it. For want of memory the first of
// them are sent.
pub(crate) fn send_all<O: Outlet<Entry>>(
    line: &mut O,
    sent: &mut Vec<Entry>,
    incarnation: u64,
    count: u64,
    bodies: Vec<Body>,
) -> Mem<u64>
    ensures sent { OnOk result (sent.new.items ≡ sent.old.items ++ numbered incarnation (1 + count) bodies.items) }
    ensures count { IfOk result (λ n. n ≡ count + length bodies.items) }
    ensures prefix { OnErr result (IsPrefix sent.new.items (sent.old.items ++ numbered incarnation (1 + count) bodies.items)) }
    ensures too { AreSentToo (O.sent line.old) (O.sent line.new) sent.old.items sent.new.items }
    ensures lane { O.outlet line.new ≡ O.outlet line.old }
    ensures left { O.left line.new ≡ O.left line.old }
{
    let mut number = count;
    for body in bodies {
        number = next(number)?;
        send_one(
            line,
            sent,
            Entry {
                incarnation,
                number,
                body,
            },
        )?;
    }
    Ok(number)
}

// There is no memory for a number past the range.
pub(crate) fn next(number: u64) -> Mem<u64>
    ensures { IfOk result (λ n. n ≡ 1 + number) }
{
    match number.checked_add(1) {
        Some(number) => Ok(number),
        None => Err(NoMemory),
    }
}
