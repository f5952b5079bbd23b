//! Runs of the workers alone, with nothing done after them, over disks and streams in memory.
mod given;
mod left;
mod replies;

ghost use Rattle.std.specs.Prelude.{◌≤◌};

use crate::workers::given::{empty_disks, never, run};
use crate::workers::left::undone;
use crate::workers::replies::{many_lines, replied};
use do_disk::{FreeGate, HoldGate, MemSink, MemSource, TurnGate};
use do_tree::Checked;
use std::alloc::Global;
use std::fmt::Write;
use std::sync::Wait;
use std::test::Fail;
use std::thread::Threads;
use test_rows::{CABINET, PUT_AND_READ, Telling};

// How many bytes are read or written at once.
const PIECE: usize = 4_096;

// How often the gate of two workers looks for the second object.
const LOOKS: u64 = 1_000_000_000;

// A hundred increments of one counter.
fn adds(alloc: Global) -> Result<String, Fail> {
    let mut input = String::new(alloc);
    for line in 1..=100 {
        writeln!(input, "[\"call\",{},\"C\",\"a\",\"add\",[]]", line)?;
    }
    Ok(input)
}

// What so many workers print over so many empty slots, and how many things they leave to do.
fn told_by<G: TurnGate + Sync, T: Threads + Wait + Copy + Send + Sync>(
    rt: &T,
    alloc: Global,
    checked: &Checked,
    gate: &G,
    slots: u32,
    input: &str,
    workers: u32,
) -> Result<(String, usize), Fail>
    requires { 1 ≤ workers }
{
    let disks = empty_disks(alloc, slots)?;
    let source = MemSource::new(input.as_bytes().to_vec(alloc)?, PIECE, never(alloc));
    let sink = MemSink::new(alloc, PIECE, never(alloc));
    let ran = run(rt, alloc, checked, gate, disks, source, sink, workers)?;
    let left = undone(alloc, checked, ran)?;
    let output = String::from_utf8(left.sink.taken().to_vec(alloc)?).unwrap_or(String::new(alloc));
    Ok((output, left.things))
}

// One worker over two slots answers all lines and leaves nothing to do.
fn one_worker<T: Threads + Wait + Copy + Send + Sync>(
    rt: &T,
    alloc: Global,
) -> Result<String, Fail> {
    let checked = given::script(alloc, CABINET)?;
    let input = adds(alloc)?;
    let (output, things) = told_by(rt, alloc, &checked, &FreeGate, 2, input.as_str(), 1)?;
    let mut told = output;
    write!(told, "{} things left to do", things)?;
    Ok(told)
}

// Two workers over two objects: the turns of the first are held until one of the second begins, on the other worker.
fn two_workers_meet<T: Threads + Wait + Copy + Send + Sync>(
    rt: &T,
    alloc: Global,
) -> Result<String, Fail> {
    let checked = given::script(alloc, PUT_AND_READ)?;
    let input = many_lines(alloc, 2)?;
    let gate = HoldGate::new(0, 1, LOOKS);
    let (output, things) = told_by(rt, alloc, &checked, &gate, 2, input.as_str(), 2)?;
    let (replies, others) = replied(alloc, output.as_str(), 2)?;
    let met = if gate.met() { "met" } else { "not met" };
    Ok(format!(in alloc;
        "turns have {}, {} lines have their reply, {} lines are others, {} things left to do",
        met, replies, others, things
    )?)
}

// Eight workers over sixteen objects answer each of so many lines, in whatever order, and leave nothing to do.
fn many_workers<T: Threads + Wait + Copy + Send + Sync>(
    rt: &T,
    alloc: Global,
    lines: u32,
) -> Result<String, Fail> {
    let checked = given::script(alloc, PUT_AND_READ)?;
    let input = many_lines(alloc, lines)?;
    let (output, things) = told_by(rt, alloc, &checked, &FreeGate, 16, input.as_str(), 8)?;
    let (replies, others) = replied(alloc, output.as_str(), lines)?;
    Ok(format!(in alloc;
        "{} lines have their reply, {} lines are others, {} things left to do",
        replies, others, things
    )?)
}

/// `run`: what each run tells, on lines of its own.
pub(crate) fn answer<T: Threads + Wait + Copy + Send + Sync>(
    rt: &T,
    alloc: Global,
) -> Result<String, Fail> {
    let mut line = Telling::new(alloc);
    line.say(one_worker(rt, alloc)?.as_str());
    line.say("\n");
    line.say(two_workers_meet(rt, alloc)?.as_str());
    for _ in 0..10 {
        line.say("\n");
        line.say(many_workers(rt, alloc, 10_000)?.as_str());
    }
    line.into_text()
}
