//! What slots have, as lines.
ghost use Rattle.std.specs.Prelude.{◌≡◌, ◌⊎◌, ◌<◌, ◌^◌, ℕ, List, Err, IfOk, OnErr, IsErrOf, length, map, option_map};
ghost use Rattle.do_disk.specs.Disk.{Rose};
ghost use Rattle.do_host.specs.Dump.{alarm_text, dump_text, pairs_text, slots_text};
ghost use Rattle.do_host.specs.Written.{Writes};

use crate::run_end::RunEnd;
use crate::slot_lines::{alarm_line, object_line, pair_line};
use crate::stored::Stored;
use do_disk::Sink;
use do_value::{Mem, Value};
use host_core::SlotReport;
use line_server::put;
use std::alloc::Global;
use storage_map::{Alarm, Identity, Key};

// Writes what each slot has, from slot 0 on.
pub(crate) fn dump_slots<S, W: Sink>(
    alloc: Global,
    rows: &[SlotReport<S>],
    storages: Vec<Stored>,
    out: &mut W,
) -> Result<(), RunEnd>
    requires many { length rows.now ≡ length storages.items }
    requires few { length storages.items < 2 ^ 32 }
    ensures writes { Writes (W.taken out.old) (W.taken out.new) (slots_text 0 (map (λ row. row.identity) rows.now) storages.items) result }
    ensures stop { OnErr result ((result ≡ Err RunEnd.WriteFailed) ⊎ (result ≡ Err RunEnd.NoMemory)) }
    ensures failed { IsErrOf result RunEnd.WriteFailed → Rose (W.faults_of out.old) (W.faults_of out.new) }
    ensures steady { (IsErrOf result RunEnd.WriteFailed → ⊥) → W.faults_of out.new ≡ W.faults_of out.old }
{
    let mut slot: u32 = 0;
    for stored in storages {
        let object = rows[slot as usize].identity.as_ref();
        dump(alloc, slot, object, stored, out)?;
        slot += 1;
    }
    Ok(())
}

// Writes the object, its pairs and its alarm, a line each. A slot without an object has no line.
fn dump<W: Sink>(
    alloc: Global,
    slot: u32,
    object: Option<&Identity>,
    stored: Stored,
    out: &mut W,
) -> Result<(), RunEnd>
    ensures writes { Writes (W.taken out.old) (W.taken out.new) (dump_text slot (option_map (λ object. object.now) object.entry) stored) result }
    ensures stop { OnErr result ((result ≡ Err RunEnd.WriteFailed) ⊎ (result ≡ Err RunEnd.NoMemory)) }
    ensures failed { IsErrOf result RunEnd.WriteFailed → Rose (W.faults_of out.old) (W.faults_of out.new) }
    ensures steady { (IsErrOf result RunEnd.WriteFailed → ⊥) → W.faults_of out.new ≡ W.faults_of out.old }
{
    let Some(object) = object else {
        return Ok(());
    };
    let Stored { pairs, alarm } = stored;
    put_line(object_line(alloc, slot, object), out)?;
    dump_pairs(alloc, slot, pairs, out)?;
    dump_alarm(alloc, slot, alarm, out)
}

// Writes the pairs, in their order.
fn dump_pairs<W: Sink>(
    alloc: Global,
    slot: u32,
    pairs: Vec<(Key, Value)>,
    out: &mut W,
) -> Result<(), RunEnd>
    ensures writes { Writes (W.taken out.old) (W.taken out.new) (pairs_text slot pairs.items) result }
    ensures stop { OnErr result ((result ≡ Err RunEnd.WriteFailed) ⊎ (result ≡ Err RunEnd.NoMemory)) }
    ensures failed { IsErrOf result RunEnd.WriteFailed → Rose (W.faults_of out.old) (W.faults_of out.new) }
    ensures steady { (IsErrOf result RunEnd.WriteFailed → ⊥) → W.faults_of out.new ≡ W.faults_of out.old }
{
    for pair in pairs {
        let (key, value) = pair;
        put_line(pair_line(alloc, slot, key.as_str(), &value), out)?;
    }
    Ok(())
}

fn dump_alarm<W: Sink>(
    alloc: Global,
    slot: u32,
    alarm: Option<Alarm>,
    out: &mut W,
) -> Result<(), RunEnd>
    ensures writes { Writes (W.taken out.old) (W.taken out.new) (alarm_text slot alarm) result }
    ensures stop { OnErr result ((result ≡ Err RunEnd.WriteFailed) ⊎ (result ≡ Err RunEnd.NoMemory)) }
    ensures failed { IsErrOf result RunEnd.WriteFailed → Rose (W.faults_of out.old) (W.faults_of out.new) }
    ensures steady { (IsErrOf result RunEnd.WriteFailed → ⊥) → W.faults_of out.new ≡ W.faults_of out.old }
{
    match alarm {
        Some(alarm) => put_line(alarm_line(alloc, slot, alarm), out),
        None => Ok(()),
    }
}

// Writes a line, where there was memory for it.
pub(crate) fn put_line<W: Sink>(line: Mem<Vec<u8>>, out: &mut W) -> Result<(), RunEnd>
    ensures writes { (text : List ℕ) → IfOk line (λ bytes. bytes.items ≡ text) → Writes (W.taken out.old) (W.taken out.new) text result }
    ensures stop { OnErr result ((result ≡ Err RunEnd.WriteFailed) ⊎ (result ≡ Err RunEnd.NoMemory)) }
    ensures failed { IsErrOf result RunEnd.WriteFailed → Rose (W.faults_of out.old) (W.faults_of out.new) }
    ensures steady { (IsErrOf result RunEnd.WriteFailed → ⊥) → W.faults_of out.new ≡ W.faults_of out.old }
{
    let line = line?;
    put(out, line.as_slice())?;
    Ok(())
}
