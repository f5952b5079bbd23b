//! Runs over the disks of some slots, one after the other, with crashes between them.
use crate::counts;
use crate::given::{depot_of, number_of, sink_of, source_of, tell_bytes, tell_sorted};
use do_disk::{HoldGate, MemDisk, MemSink, MemSource, Pick};
use do_host::{Ran, Report, run};
use serde_json::Value as Json;
use std::alloc::Global;
use std::sync::Wait;
use std::test::Fail;
use std::thread::Threads;
use test_rows::{Telling, count, word};

/// How many slots there may be.
const SLOTS: usize = 256;

// The number of no slot.
const NOBODY: u32 = 0xffff_ffff;

/// The file that the next run's disk of each slot holds, and the disks that the last run left, from slot 0 on.
pub(crate) struct Runs {
    files: Vec<Vec<u8>>,
    disks: Vec<MemDisk>,
}

// Written out, so that letting one go is proved once.
impl Drop for Runs {
    fn drop(self) {
        let Runs { files, disks } = self;
        drop(files);
        drop(disks);
    }
}

impl Runs {
    /// Empty files, and no run yet.
    pub(crate) fn new(alloc: Global) -> Result<Runs, Fail> {
        Ok(Runs {
            files: no_files(alloc)?,
            disks: Vec::new(alloc),
        })
    }
}

fn no_files(alloc: Global) -> Result<Vec<Vec<u8>>, Fail> {
    let mut files = Vec::new(alloc);
    for _ in 0..SLOTS {
        files.push(Vec::new(alloc))?;
    }
    Ok(files)
}

/// `file HEX SLOT CHANGE` makes the slot's file, `change SLOT CHANGE` changes it, `empty` makes all empty, `run WORDS GIVEN` runs over them, and
/// `crash PICK` or `keep PICK` makes them what a crash after that run leaves. Slot 0's file is told in hexadecimal behind `crash`.
pub(crate) fn answer<T: Threads + Wait + Copy + Send + Sync>(
    rt: &T,
    alloc: Global,
    runs: &mut Runs,
    row: &Json,
    line: &mut Telling,
) -> Result<(), Fail> {
    match word(row, 0) {
        "empty" => runs.files = no_files(alloc)?,
        "file" => set_file(alloc, runs, row)?,
        "change" => change_file(runs, row),
        "keep" => {
            crash(alloc, runs, row)?;
            line.say("kept");
        }
        "crash" => {
            crash(alloc, runs, row)?;
            let file = runs.files.first().map_or(&[][..], |file| file.as_slice());
            line.tell(hex::encode(alloc, file));
        }
        _ => tell_run(rt, alloc, runs, row, line)?,
    }
    Ok(())
}

fn set_file(alloc: Global, runs: &mut Runs, row: &Json) -> Result<(), Fail> {
    let mut bytes = hex::decode(alloc, word(row, 1).as_bytes())?;
    if let Some(change) = row.get(3) {
        change_bytes(&mut bytes, change);
    }
    if let Some(file) = runs.files.get_mut(count(row, 2) as usize) {
        *file = bytes;
    }
    Ok(())
}

fn change_file(runs: &mut Runs, row: &Json) {
    let Some(change) = row.get(2) else {
        return;
    };
    if let Some(file) = runs.files.get_mut(count(row, 1) as usize) {
        change_bytes(file, change);
    }
}

// `{"cut": n}` leaves the first n bytes, `{"turn": p}` turns the lowest bit of the byte at p, `{"open": p}` makes that byte A5, and
// `{"at": p, "byte": b}` makes it b.
fn change_bytes(bytes: &mut Vec<u8>, change: &Json) {
    if let Some(left) = number_of(change, "cut") {
        bytes.truncate(left as usize);
    }
    if let Some(at) = number_of(change, "turn") {
        if let Some(byte) = bytes.get_mut(at as usize) {
            *byte ^= 1;
        }
    }
    if let Some(at) = number_of(change, "open") {
        if let Some(byte) = bytes.get_mut(at as usize) {
            *byte = 0xa5;
        }
    }
    if let Some(at) = number_of(change, "at") {
        if let Some(byte) = bytes.get_mut(at as usize) {
            *byte = u8::try_from(number_of(change, "byte").unwrap_or(0)).unwrap_or(0);
        }
    }
}

fn pick_of(row: &Json) -> Pick {
    match word(row, 1) {
        "read" => Pick::AsRead,
        "synced" => Pick::AsSynced,
        _ => Pick::Torn(u8::try_from(count(row, 1)).unwrap_or(0)),
    }
}

// Each file is what a crash after the last run leaves of its disk.
fn crash(alloc: Global, runs: &mut Runs, row: &Json) -> Result<(), Fail> {
    let many = runs.disks.len();
    for last in 0..many {
        let Some(disk) = runs.disks.pop() else {
            return Ok(());
        };
        let left = disk.crash(pick_of(row))?;
        if let Some(file) = runs.files.get_mut(many - 1 - last) {
            *file = left.content().to_vec(alloc)?;
        }
    }
    Ok(())
}

fn words_of(alloc: Global, row: &Json) -> Result<Vec<String>, Fail> {
    let mut words = Vec::new(alloc);
    for text in word(row, 1).split(' ') {
        if !text.is_empty() {
            words.push(String::from_str(alloc, text)?)?;
        }
    }
    Ok(words)
}

// Where the case says `hold`, the turns of slot 0 are held until one of slot 1 begins, for so many looks.
fn gate_of(given: &Json) -> HoldGate {
    match given.get("hold").and_then(Json::as_u64) {
        Some(looks) => HoldGate::new(0, 1, looks),
        None => HoldGate::new(NOBODY, NOBODY, 0),
    }
}

// Runs the words over the files, and tells the status, how many slots were mounted, and the output. Where turns were held, it tells the lines sorted,
// and whether the turns of both slots met.
fn tell_run<T: Threads + Wait + Copy + Send + Sync>(
    rt: &T,
    alloc: Global,
    runs: &mut Runs,
    row: &Json,
    line: &mut Telling,
) -> Result<(), Fail> {
    let words = words_of(alloc, row)?;
    let nothing = Json::Null;
    let given = row.get(2).unwrap_or(&nothing);
    let mut depot = depot_of(alloc, given, &runs.files)?;
    let source = source_of(alloc, given)?;
    let sink = sink_of(alloc, given);
    let gate = gate_of(given);
    let mut report = Report::new(alloc);
    let ran = run(
        rt,
        alloc,
        &words,
        &mut depot,
        source,
        sink,
        &gate,
        &mut report,
    );
    if given.get("hold").is_some() {
        tell_sorted(alloc, line, ran.out.taken())?;
        line.say(if gate.met() { "met" } else { "not met" });
    } else {
        tell_end(alloc, &ran, &report, line);
    }
    counts::tell(given, &report, line);
    runs.disks = disks_of(alloc, report)?;
    Ok(())
}

fn tell_end(
    alloc: Global,
    ran: &Ran<MemSource, MemSink>,
    report: &Report<MemDisk>,
    line: &mut Telling,
) {
    line.tell(format!(in alloc; "{} over {} slots: ", ran.status, report.slots.len()));
    tell_bytes(line, ran.out.taken());
}

// The disks of the slots after a run, that of the one that wasn't mounted last.
fn disks_of(alloc: Global, report: Report<MemDisk>) -> Result<Vec<MemDisk>, Fail> {
    let mut report = report;
    let mut disks = Vec::new(alloc);
    for _ in 0..report.slots.len() {
        let Some(row) = report.slots.pop() else {
            return Ok(disks);
        };
        disks.insert(0, row.store)?;
    }
    if let Some(disk) = report.unopened.take() {
        disks.push(disk)?;
    }
    Ok(disks)
}
