//! Cases of the text of scripts, of operators, of the evaluator's parts, of tasks, and of what steps cost. A case is a line of JSON, and
//! a line answers it, but for those of costs.
#![tactic(auto)]

mod costs;
mod evaluator;
mod operators;
mod shared;
mod tasks;
mod texts;
mod tokens;

use script_vars::Vars;
use serde_json::Value as Json;
use std::alloc::Global;
use std::test::Fail;
use test_rows::{Telling, row_of, word};

// What answers the cases behind it.
#[derive(Drop)]
enum Part {
    Scripts,
    Evaluator,
    Tasks,
    Costs,
}

// What the cases go on with.
struct State {
    part: Part,
    vars: Vars,
    tasks: tasks::State,
}

// Written out, so that letting one go is proved once.
impl Drop for State {
    fn drop(self) {
        let State {
            part: _,
            vars,
            tasks,
        } = self;
        drop(vars);
        drop(tasks);
    }
}

// `part NAME`
fn choose(alloc: Global, state: &mut State, name: &str) -> Result<String, Fail> {
    state.part = match name {
        "scripts" => Part::Scripts,
        "evaluator" => Part::Evaluator,
        "tasks" => Part::Tasks,
        "costs" => Part::Costs,
        _ => Err("no part")?,
    };
    Ok(format!(in alloc; "part {name}")?)
}

fn answer_scripts(alloc: Global, row: &Json) -> Result<String, Fail> {
    let mut line = Telling::new(alloc);
    let answered = match word(row, 0) {
        "tokens" => tokens::answer_sums(alloc, row, &mut line),
        "each" => tokens::answer_each(alloc, row, &mut line),
        "keywords" => {
            tokens::answer_keywords(&mut line);
            Ok(())
        }
        "parse" => texts::answer_parse(alloc, row, &mut line),
        "check" => texts::answer_check(alloc, row, &mut line),
        "print" => texts::answer_print(alloc, row, &mut line),
        _ => operators::answer(alloc, row, &mut line),
    };
    answered?;
    line.into_text()
}

fn answer(rt: &HostRuntime, alloc: Global, state: &mut State, row: &Json) -> Result<String, Fail> {
    if word(row, 0) == "part" {
        return choose(alloc, state, word(row, 1));
    }
    match state.part {
        Part::Scripts => answer_scripts(alloc, row),
        Part::Evaluator => evaluator::answer(alloc, &mut state.vars, row),
        Part::Tasks => tasks::answer(alloc, &mut state.tasks, row),
        Part::Costs => costs::answer(rt, alloc, row),
    }
}

// The answer to a line's case, or the heading that it is.
fn answer_line(
    rt: &HostRuntime,
    alloc: Global,
    state: &mut State,
    text: &str,
) -> Result<String, Fail> {
    match row_of(alloc, text) {
        Some(row) => answer(rt, alloc, state, &row),
        None => Ok(String::from_str(alloc, text)?),
    }
}

fn answer_lines(rt: &HostRuntime, alloc: Global, state: &mut State) -> Result<(), Fail> {
    for line in rt.lines(alloc) {
        let line = line?;
        let told = answer_line(rt, alloc, state, line.as_str())?;
        println!(rt; "{told}")?;
    }
    Ok(())
}

fn main(rt: HostRuntime) -> Result<(), Fail> {
    let alloc = rt.alloc();
    shared::nodes_are_shared_among_threads();
    tasks::sent::a_task_may_go_to_another_thread();
    let mut state = State {
        part: Part::Scripts,
        vars: Vars::new(alloc),
        tasks: tasks::State::new(alloc),
    };
    let answered = answer_lines(&rt, alloc, &mut state);
    drop(state);
    answered
}
