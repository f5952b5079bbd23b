//! What steps of scripts cost: each method of a script runs some turns of a loop, and the time of a turn is told.
mod cases;
mod runs;

use crate::costs::cases::{CASES, Case, SCRIPT};
use crate::costs::runs::{Made, check_text, make, run};
use do_tree::Checked;
use serde_json::Value as Json;
use std::alloc::Global;
use std::test::Fail;
use std::time::Instant;
use test_rows::{Telling, count, word};

// Runs a case so many rounds. What its method returns is added to the line, and standard error is told the time.
fn measure(
    rt: &HostRuntime,
    alloc: Global,
    checked: &Checked,
    case: Case,
    rounds: u64,
    line: &mut Telling,
) -> Result<(), Fail> {
    let (name, turns, size) = case;
    let Made { args, fields } = make(alloc, checked, turns, size)?;
    let start = Instant::now(rt)?;
    let mut result = 0;
    for _ in 0..rounds {
        result = run(alloc, checked, name, &args, &fields)?;
    }
    let spent = start.elapsed(rt)?;
    line.tell(format!(in alloc; "{name} {turns} {size}: {result}"));
    eprintln!(rt;
        "{name} {turns} {size}: {} microseconds in {rounds} rounds",
        spent.as_micros()
    )?;
    Ok(())
}

/// `costs ROUNDS NAME`: each case so many rounds, a line each; with a name those of one method.
pub(crate) fn answer(rt: &HostRuntime, alloc: Global, row: &Json) -> Result<String, Fail> {
    let checked = check_text(alloc, SCRIPT)?;
    let wanted = word(row, 2);
    let mut line = Telling::new(alloc);
    for case in CASES {
        if !wanted.is_empty() && case.0 != wanted {
            continue;
        }
        if !line.is_empty() {
            line.say("\n");
        }
        measure(rt, alloc, &checked, case, count(row, 1), &mut line)?;
    }
    line.into_text()
}
