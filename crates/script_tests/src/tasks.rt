//! Cases of tasks, turn by turn over the texts of scripts.
mod given;
pub(crate) mod sent;
mod told;

use crate::tasks::given::Running;
use serde_json::Value as Json;
use std::alloc::Global;
use std::test::Fail;
use test_rows::{count, named, word};

/// The script and the class whose methods are started, and the task that was started last.
pub(crate) struct State {
    text: &'static str,
    class: String,
    running: Option<Running>,
}

// Written out, so that letting one go is proved once.
impl Drop for State {
    fn drop(self) {
        let State {
            text: _,
            class,
            running,
        } = self;
        drop(class);
        drop(running);
    }
}

impl State {
    pub(crate) fn new(alloc: Global) -> State {
        State {
            text: "",
            class: String::new(alloc),
            running: None,
        }
    }
}

// `use SCRIPT CLASS`
fn choose(alloc: Global, state: &mut State, row: &Json) -> Result<String, Fail> {
    state.text = named(word(row, 1)).ok_or("no script")?;
    state.class = String::from_str(alloc, word(row, 2))?;
    Ok(String::from_str(alloc, word(row, 2))?)
}

// The answer, so many times.
fn go_on_often(alloc: Global, running: Running, row: &Json, times: u64) -> Result<Running, Fail> {
    let mut running = running;
    for _ in 0..times {
        running = running.go_on(alloc, row)?;
    }
    Ok(running)
}

// The task after the case: `start ..`, `times N ANSWER`, or an answer.
fn turn(alloc: Global, state: &mut State, row: &Json) -> Result<Running, Fail> {
    if word(row, 0) == "start" {
        return Running::start(alloc, state.text, state.class.as_str(), row);
    }
    let running = state.running.take().ok_or("no task")?;
    match (word(row, 0), row.get(2)) {
        ("times", Some(given)) => go_on_often(alloc, running, given, count(row, 1)),
        _ => running.go_on(alloc, row),
    }
}

pub(crate) fn answer(alloc: Global, state: &mut State, row: &Json) -> Result<String, Fail> {
    if word(row, 0) == "use" {
        return choose(alloc, state, row);
    }
    let running = turn(alloc, state, row)?;
    let line = told::told(alloc, &running.outcome)?;
    state.running = Some(running);
    Ok(line)
}
