//! The halves of an object and the switch, driven by hand. A case is a line of JSON, and a line answers it.
#![tactic(auto)]

mod backs;
mod fronts;
mod switches;

use serde_json::Value as Json;
use std::alloc::Global;
use std::test::Fail;
use test_rows::{row_of, word};

// What answers the cases behind it.
#[derive(Drop)]
enum Part {
    Backs,
    Fronts,
    Switches,
}

// `part NAME`
fn choose(alloc: Global, part: &mut Part, name: &str) -> Result<String, Fail> {
    *part = match name {
        "backs" => Part::Backs,
        "fronts" => Part::Fronts,
        "switches" => Part::Switches,
        _ => Err("no part")?,
    };
    Ok(format!(in alloc; "part {name}")?)
}

fn answer(alloc: Global, part: &mut Part, row: &Json) -> Result<String, Fail> {
    if word(row, 0) == "part" {
        return choose(alloc, part, word(row, 1));
    }
    match part {
        Part::Backs => backs::answer(alloc, row),
        Part::Fronts => fronts::answer(alloc, row),
        Part::Switches => switches::answer(alloc, row),
    }
}

// The answer to a line's case, or the heading that it is.
fn answer_line(alloc: Global, part: &mut Part, text: &str) -> Result<String, Fail> {
    match row_of(alloc, text) {
        Some(row) => answer(alloc, part, &row),
        None => Ok(String::from_str(alloc, text)?),
    }
}

fn main(rt: HostRuntime) -> Result<(), Fail> {
    let alloc = rt.alloc();
    let mut part = Part::Backs;
    for line in rt.lines(alloc) {
        let line = line?;
        let told = answer_line(alloc, &mut part, line.as_str())?;
        println!(rt; "{told}")?;
    }
    Ok(())
}
