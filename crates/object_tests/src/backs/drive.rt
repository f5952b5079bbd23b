//! A back, step by step.
ghost use Rattle.output_gate.specs.Serving.{CanServe};

use crate::backs::given::entry_of;
use crate::backs::tell::{tell_log, tell_message, tell_notice, tell_pairs, tell_step};
use batch_journal::Journal;
use do_disk::{Disk, Fails, MemDisk, Pick};
use do_value::Mem;
use lane::{Inlet, Outlet, Plain};
use object_storage::Storage;
use output_gate::Back;
use serde_json::Value as Json;
use std::alloc::Global;
use std::test::Fail;
use storage_map::{Options, Reading, StoreAsk};
use test_rows::{Telling, count, word};
use timeline::{Entry, Message, Notice, Stepped};

/// The lanes of a back.
struct Lanes {
    line: Plain<Entry>,
    notices: Plain<Notice>,
    out: Plain<Message>,
}

// Written out, so that letting one go is proved once.
impl Drop for Lanes {
    fn drop(self) {
        let Lanes { line, notices, out } = self;
        drop(line);
        drop(notices);
        drop(out);
    }
}

impl Lanes {
    // The object says this next.
    fn say(&mut self, alloc: Global, step: &Json) -> Result<(), Fail> {
        let entry = entry_of(alloc, step)?;
        match self.line.send(entry) {
            Ok(()) => Ok(()),
            Err(_) => Err("no memory")?,
        }
    }

    // What a step has told the front.
    fn tell_noticed(&mut self, alloc: Global, line: &mut Telling) {
        if let Some(notice) = self.notices.take() {
            tell_notice(alloc, line, &notice);
        }
    }

    // What a step has let leave.
    fn tell_sent(&mut self, alloc: Global, line: &mut Telling) {
        if let Some(message) = self.out.take() {
            tell_message(alloc, line, &message);
        }
    }
}

fn take<D: Disk>(back: &mut Back<D>, lanes: &mut Lanes) -> Mem<Stepped>
    requires { CanServe D.moment_of D.left_since D.told D.image D.faults_of back.old }
    ensures { CanServe D.moment_of D.left_since D.told D.image D.faults_of back.new }
{
    back.take(&mut lanes.line, &mut lanes.notices)
}

fn flush<D: Disk>(back: &mut Back<D>) -> Mem<Stepped>
    requires { CanServe D.moment_of D.left_since D.told D.image D.faults_of back.old }
    ensures { CanServe D.moment_of D.left_since D.told D.image D.faults_of back.new }
{
    Ok(back.flush())
}

fn release<D: Disk>(back: &mut Back<D>, lanes: &mut Lanes) -> Mem<Stepped>
    requires { CanServe D.moment_of D.left_since D.told D.image D.faults_of back.old }
    ensures { CanServe D.moment_of D.left_since D.told D.image D.faults_of back.new }
{
    back.release(&mut lanes.notices, &mut lanes.out)
}

fn mend<D: Disk>(alloc: Global, back: &mut Back<D>, lanes: &mut Lanes) -> Mem<Stepped>
    requires { CanServe D.moment_of D.left_since D.told D.image D.faults_of back.old }
    ensures { CanServe D.moment_of D.left_since D.told D.image D.faults_of back.new }
{
    back.mend(alloc, &mut lanes.notices)
}

// The step that the word names.
fn step<D: Disk>(alloc: Global, back: &mut Back<D>, lanes: &mut Lanes, name: &str) -> Mem<Stepped>
    requires { CanServe D.moment_of D.left_since D.told D.image D.faults_of back.old }
    ensures { CanServe D.moment_of D.left_since D.told D.image D.faults_of back.new }
{
    match name {
        "take" => take(back, lanes),
        "flush" => flush(back),
        "release" => release(back, lanes),
        _ => mend(alloc, back, lanes),
    }
}

// What the step that was named has done.
fn tell_done(
    alloc: Global,
    lanes: &mut Lanes,
    name: &str,
    stepped: Mem<Stepped>,
    line: &mut Telling,
) -> Result<(), Fail> {
    let Ok(stepped) = stepped else {
        return Err("no memory")?;
    };
    line.say(name);
    line.say(" ");
    tell_step(line, stepped);
    lanes.tell_noticed(alloc, line);
    lanes.tell_sent(alloc, line);
    line.say("; ");
    Ok(())
}

// A step of the case: what the object says next, or a step of the back.
fn go<D: Disk>(
    alloc: Global,
    back: &mut Back<D>,
    lanes: &mut Lanes,
    case_step: &Json,
    line: &mut Telling,
) -> Result<(), Fail>
    requires { CanServe D.moment_of D.left_since D.told D.image D.faults_of back.old }
    ensures { CanServe D.moment_of D.left_since D.told D.image D.faults_of back.new }
{
    match case_step.as_str() {
        None => lanes.say(alloc, case_step),
        Some(name) => {
            let stepped = step(alloc, back, lanes, name);
            tell_done(alloc, lanes, name, stepped, line)
        }
    }
}

// The step at this place of the case, where there is one.
fn go_at<D: Disk>(
    alloc: Global,
    back: &mut Back<D>,
    lanes: &mut Lanes,
    row: &Json,
    at: usize,
    line: &mut Telling,
) -> Result<(), Fail>
    requires { CanServe D.moment_of D.left_since D.told D.image D.faults_of back.old }
    ensures { CanServe D.moment_of D.left_since D.told D.image D.faults_of back.new }
{
    match row.get(at) {
        Some(case_step) => go(alloc, back, lanes, case_step, line),
        None => Ok(()),
    }
}

// The steps of the case, which are at most 61.
fn go_through<D: Disk>(
    alloc: Global,
    back: &mut Back<D>,
    lanes: &mut Lanes,
    row: &Json,
    line: &mut Telling,
) -> Result<(), Fail>
    requires { CanServe D.moment_of D.left_since D.told D.image D.faults_of back.old }
    ensures { CanServe D.moment_of D.left_since D.told D.image D.faults_of back.new }
{
    for at in 3..64 {
        go_at(alloc, back, lanes, row, at, line)?;
    }
    Ok(())
}

// The same, over lanes of its own.
fn go_alone<D: Disk>(
    alloc: Global,
    back: &mut Back<D>,
    row: &Json,
    line: &mut Telling,
) -> Result<(), Fail>
    requires { CanServe D.moment_of D.left_since D.told D.image D.faults_of back.old }
    ensures { CanServe D.moment_of D.left_since D.told D.image D.faults_of back.new }
{
    let mut lanes = Lanes {
        line: Plain::new(alloc),
        notices: Plain::new(alloc),
        out: Plain::new(alloc),
    };
    go_through(alloc, back, &mut lanes, row, line)
}

// The same, and then the log.
fn go_and_tell<D: Disk>(
    alloc: Global,
    back: &mut Back<D>,
    row: &Json,
    line: &mut Telling,
) -> Result<(), Fail>
    requires { CanServe D.moment_of D.left_since D.told D.image D.faults_of back.old }
    ensures { CanServe D.moment_of D.left_since D.told D.image D.faults_of back.new }
{
    go_alone(alloc, back, row, line)?;
    tell_log(alloc, line, back.log());
    Ok(())
}

// Mounts this disk, drives a back over it through the steps of the case, tells the log, and gives the disk.
fn drive<D: Disk + Drop>(
    alloc: Global,
    disk: D,
    row: &Json,
    line: &mut Telling,
) -> Result<D, Fail> {
    let Ok(mounted) = Journal::mount(alloc, disk, 4096) else {
        return Err("not mounted")?;
    };
    let Ok(mut back) = Back::new(alloc, mounted) else {
        return Err("no memory for a back")?;
    };
    let went = go_and_tell(alloc, &mut back, row, line);
    let disk = back.into_parts().disk;
    went?;
    Ok(disk)
}

fn pick_of(row: &Json) -> Pick {
    match word(row, 2) {
        "read" => Pick::AsRead,
        "synced" => Pick::AsSynced,
        _ => Pick::Torn(u8::try_from(count(row, 2)).unwrap_or(0)),
    }
}

// The calls that fail: those that are listed, or all from one on.
fn fails_of(alloc: Global, row: &Json) -> Result<Fails, Fail> {
    let Some(fails) = row.get(1).and_then(Json::as_array) else {
        return Ok(Fails::From(count(row, 1)));
    };
    let mut calls = Vec::new(alloc);
    for call in fails {
        calls.push(call.as_u64().unwrap_or(0))?;
    }
    Ok(Fails::Listed(calls))
}

// All that the storage on this disk has, as a mounting finds it.
fn all_in<D: Disk + Drop>(alloc: Global, disk: D) -> Result<Reading, Fail> {
    let Ok(mounted) = Journal::mount(alloc, disk, 4096) else {
        return Err("not mounted")?;
    };
    let Ok(mut storage) = Storage::new(alloc, mounted.journal, mounted.index) else {
        return Err("no memory")?;
    };
    match storage.answer(&StoreAsk::List(Options::every())) {
        Ok(reading) => Ok(reading),
        Err(_) => Err("not read")?,
    }
}

// What a crash leaves.
fn tell_left(alloc: Global, disk: MemDisk, row: &Json, line: &mut Telling) -> Result<(), Fail> {
    let left = disk.crash(pick_of(row))?;
    tell_pairs(line, &all_in(alloc, left)?);
    Ok(())
}

/// `[FAILS, PICK, STEP..]` behind a word: a back over an empty disk whose calls fail so, what each step does, the log, and what a
/// crash then leaves.
pub(crate) fn answer(alloc: Global, row: &Json) -> Result<String, Fail> {
    let mut line = Telling::new(alloc);
    let disk = MemDisk::new(Vec::new(alloc), fails_of(alloc, row)?);
    let disk = drive(alloc, disk, row, &mut line)?;
    line.say("; left");
    tell_left(alloc, disk, row, &mut line)?;
    line.into_text()
}
