//! Cases of the host as a whole, over disks and streams in memory, and runs of its workers. A case is a line of JSON, and a line answers
//! it, but for those of the workers.
#![tactic(auto)]

mod counts;
mod each;
mod given;
mod requests;
mod runs;
mod workers;

use runs::Runs;
use serde_json::Value as Json;
use std::alloc::Global;
use std::sync::Wait;
use std::test::Fail;
use std::thread::Threads;
use test_rows::{Telling, row_of, word};

// What answers the cases behind it.
#[derive(Drop)]
enum Part {
    Host,
    Workers,
}

// What the cases go on with.
struct State {
    part: Part,
    runs: Runs,
}

// Written out, so that letting one go is proved once.
impl Drop for State {
    fn drop(self) {
        let State { part: _, runs } = self;
        drop(runs);
    }
}

// `part NAME`
fn choose(alloc: Global, state: &mut State, name: &str) -> Result<String, Fail> {
    state.part = match name {
        "host" | "devices" | "stops" | "journals" | "texts" | "lines" | "streams" => Part::Host,
        "workers" => Part::Workers,
        _ => Err("no part")?,
    };
    Ok(format!(in alloc; "part {name}")?)
}

fn answer_host<T: Threads + Wait + Copy + Send + Sync>(
    rt: &T,
    alloc: Global,
    runs: &mut Runs,
    row: &Json,
) -> Result<String, Fail> {
    let mut line = Telling::new(alloc);
    let answered = match word(row, 0) {
        "lines" => requests::answer(alloc, row, &mut line),
        "print" => requests::answer_print(alloc, row, &mut line),
        "each" => each::answer(rt, alloc, runs, row, &mut line),
        _ => runs::answer(rt, alloc, runs, row, &mut line),
    };
    answered?;
    line.into_text()
}

fn answer<T: Threads + Wait + Copy + Send + Sync>(
    rt: &T,
    alloc: Global,
    state: &mut State,
    row: &Json,
) -> Result<String, Fail> {
    if word(row, 0) == "part" {
        return choose(alloc, state, word(row, 1));
    }
    match state.part {
        Part::Host => answer_host(rt, alloc, &mut state.runs, row),
        Part::Workers => workers::answer(rt, alloc),
    }
}

// The answer to a line's case, or the heading that it is.
fn answer_line<T: Threads + Wait + Copy + Send + Sync>(
    rt: &T,
    alloc: Global,
    state: &mut State,
    text: &str,
) -> Result<String, Fail> {
    match row_of(alloc, text) {
        Some(row) => answer(rt, alloc, state, &row),
        None => Ok(String::from_str(alloc, text)?),
    }
}

fn main(rt: HostRuntime) -> Result<(), Fail> {
    let alloc = rt.alloc();
    let mut state = State {
        part: Part::Host,
        runs: Runs::new(alloc)?,
    };
    for line in rt.lines(alloc) {
        let line = line?;
        let told = answer_line(&rt, alloc, &mut state, line.as_str())?;
        println!(rt; "{told}")?;
    }
    Ok(())
}
