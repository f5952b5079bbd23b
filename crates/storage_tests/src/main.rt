//! Cases of values, of the storage of one object and of journals. A case is a line of JSON, and a line answers it.
#![tactic(auto)]

mod journals;
mod kept;
mod limits;
mod stores;
mod tell;
mod values;

use do_value::Value;
use serde_json::Value as Json;
use std::alloc::Global;
use std::test::Fail;
use storage_cache::Cache;
use storage_map::Index;
use test_rows::{Telling, row_of, word};
use write_batcher::Batcher;

// What answers the cases behind it.
#[derive(Drop)]
enum Part {
    Storage,
    Journals,
}

// What the cases go on with.
struct State {
    part: Part,
    values: Vec<Value>,
    stores: stores::Stores,
    cache: Cache,
    batcher: Batcher,
}

// Written out, so that letting one go is proved once.
impl Drop for State {
    fn drop(self) {
        let State {
            part: _,
            values,
            stores,
            cache,
            batcher,
        } = self;
        drop(values);
        drop(stores);
        drop(cache);
        drop(batcher);
    }
}

// `part NAME`
fn choose(alloc: Global, state: &mut State, name: &str) -> Result<String, Fail> {
    state.part = match name {
        "storage" => Part::Storage,
        "journals" => Part::Journals,
        _ => Err("no part")?,
    };
    Ok(format!(in alloc; "part {name}")?)
}

fn answer_storage(alloc: Global, state: &mut State, row: &Json) -> Result<String, Fail> {
    let mut line = Telling::new(alloc);
    let answered = match word(row, 0) {
        "value" => values::answer(alloc, &mut state.values, row, &mut line),
        "store" => stores::answer(alloc, &mut state.stores, row, &mut line),
        "kept" => kept::answer(alloc, &mut state.cache, row, &mut line),
        "batch" => limits::answer_batch(alloc, &mut state.batcher, row, &mut line),
        _ => limits::answer(alloc, row, &mut line),
    };
    answered?;
    line.into_text()
}

fn answer(alloc: Global, state: &mut State, row: &Json) -> Result<String, Fail> {
    if word(row, 0) == "part" {
        return choose(alloc, state, word(row, 1));
    }
    match state.part {
        Part::Storage => answer_storage(alloc, state, row),
        Part::Journals => journals::answer(alloc, row),
    }
}

// The answer to a line's case, or the heading that it is.
fn answer_line(alloc: Global, state: &mut State, text: &str) -> Result<String, Fail> {
    match row_of(alloc, text) {
        Some(row) => answer(alloc, state, &row),
        None => Ok(String::from_str(alloc, text)?),
    }
}

fn main(rt: HostRuntime) -> Result<(), Fail> {
    let alloc = rt.alloc();
    let mut state = State {
        part: Part::Storage,
        values: Vec::new(alloc),
        stores: stores::Stores::new(alloc)?,
        cache: Cache::new(alloc, Index::new(alloc))?,
        batcher: Batcher::new(alloc),
    };
    for line in rt.lines(alloc) {
        let line = line?;
        let told = answer_line(alloc, &mut state, line.as_str())?;
        println!(rt; "{told}")?;
    }
    Ok(())
}
