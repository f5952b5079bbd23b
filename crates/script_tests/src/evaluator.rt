//! Cases of the evaluator's parts: variables, places, and calls of the storage.
mod asks;
mod places;
mod variables;

use script_vars::Vars;
use serde_json::Value as Json;
use std::alloc::Global;
use std::test::Fail;
use test_rows::{Telling, word};

pub(crate) fn answer(alloc: Global, vars: &mut Vars, row: &Json) -> Result<String, Fail> {
    let mut line = Telling::new(alloc);
    let answered = match word(row, 0) {
        "storage" | "handle" => asks::answer(alloc, row, &mut line),
        "put" | "push" => places::answer_write(alloc, row, &mut line),
        "read" | "moved" => places::answer_read(alloc, row, &mut line),
        _ => variables::answer(alloc, vars, row, &mut line),
    };
    answered?;
    line.into_text()
}
