//! A case of the switch.
use crate::switches::given::{input, is_line, left, message, script, small};
use crate::switches::table::Table;
use do_disk::{Fails, MemSource};
use do_tree::Checked;
use line_server::Lines;
use mailbox::SwitchFault;
use serde_json::Value as Json;
use std::alloc::Global;
use std::test::Fail;
use test_rows::{Telling, count, named, word};
use timeline::Stepped;

// What the switch does at a step, or why it stops.
fn tell_did(alloc: Global, did: Result<Stepped, SwitchFault>, line: &mut Telling) {
    match did {
        Ok(Stepped::Did) => {}
        Ok(Stepped::Nothing) => line.say("; nothing"),
        Err(fault) => line.tell(format!(in alloc; "; {fault:?}")),
    }
}

// The next line of the input is accepted, a message is routed, what is left is printed, or an object says something.
fn go(
    alloc: Global,
    checked: &Checked,
    lines: &mut Lines<MemSource>,
    table: &mut Table,
    step: &Json,
) -> Result<Result<Stepped, SwitchFault>, Fail> {
    if is_line(step) {
        let Ok(Some(line)) = lines.next() else {
            return Err("no line")?;
        };
        return Ok(table.accept(checked, line).map(|_| Stepped::Did));
    }
    if word(step, 0) == "left" {
        return Ok(table.finish(left(alloc, step)?).map(|_| Stepped::Did));
    }
    if step.get(0).is_none() {
        return Ok(table.route(checked));
    }
    table.say(small(step, 0) as usize, message(alloc, step)?)?;
    Ok(Ok(Stepped::Did))
}

fn go_through(
    alloc: Global,
    checked: &Checked,
    lines: &mut Lines<MemSource>,
    table: &mut Table,
    row: &Json,
    line: &mut Telling,
) -> Result<(), Fail> {
    for at in 3..64 {
        if let Some(step) = row.get(at) {
            let did = go(alloc, checked, lines, table, step)?;
            tell_did(alloc, did, line);
            table.tell_got(alloc, line);
        }
    }
    Ok(())
}

/// `["switch", SCRIPT, WRITE, STEP..]`: a switch of two slots without an object, whose writes fail from this one on; what each object
/// gets at each step; and what is written. A step is a line of the input, what an object says, `[]` where the switch takes a message,
/// or `["left", ..]`.
pub(crate) fn answer(alloc: Global, row: &Json) -> Result<String, Fail> {
    let text = named(word(row, 1)).ok_or("no script")?;
    let checked = script(alloc, text)?;
    let source = MemSource::new(input(alloc, row)?, 4096, Fails::Listed(Vec::new(alloc)));
    let mut lines = Lines::new(alloc, source);
    let mut table = Table::open(alloc, &checked, Fails::From(count(row, 2)))?;
    let mut line = Telling::new(alloc);
    go_through(alloc, &checked, &mut lines, &mut table, row, &mut line)?;
    line.say(" | ");
    table.tell_written(&mut line)?;
    line.into_text()
}
