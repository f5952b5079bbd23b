//! The variables of a task.
use do_tree::Name;
use do_value::{Text, Value};
use script_vars::{Bound, Vars};
use serde_json::Value as Json;
use std::alloc::Global;
use std::test::Fail;
use test_rows::{Telling, tell_value, value, word};

fn named(alloc: Global, row: &Json, at: usize) -> Result<Vec<Name>, Fail> {
    let mut named = Vec::new(alloc);
    for name in word(row, at).split(' ') {
        let text = Text::new(alloc, name)?;
        named.push(Name { at: 0, text })?;
    }
    Ok(named)
}

fn values(alloc: Global, row: &Json, at: usize) -> Result<Vec<Value>, Fail> {
    match value(alloc, row, at)? {
        Value::List(items) => Ok(items.into_values()?),
        _ => Ok(Vec::new(alloc)),
    }
}

// What a name stands for.
fn tell(line: &mut Telling, name: &str, bound: Option<&Bound>) {
    line.say(name);
    line.say(" ");
    match bound {
        None => line.say("nothing"),
        Some(Bound::Handle) => line.say("handle"),
        Some(Bound::Context) => line.say("context"),
        Some(Bound::Environment) => line.say("environment"),
        Some(Bound::Value(value)) => tell_value(line, value),
    }
    line.say("; ");
}

/// `enter`, `leave`, `declare NAME VALUE`, `set NAME VALUE`, `take NAME`, `parameters NAMES VALUES`, `constructor NAMES`,
/// `transaction NAME`; then what the names stand for that the case ends with.
pub(crate) fn answer(
    alloc: Global,
    vars: &mut Vars,
    row: &Json,
    line: &mut Telling,
) -> Result<(), Fail> {
    match word(row, 0) {
        "new" => *vars = Vars::new(alloc),
        "enter" => vars.enter()?,
        "leave" => vars.leave(),
        "declare" => vars.declare(&Text::new(alloc, word(row, 1))?, value(alloc, row, 2)?)?,
        "set" => vars.set(word(row, 1), value(alloc, row, 2)?),
        "take" => tell_taken(line, vars.take(word(row, 1))),
        "parameters" => {
            let arguments = values(alloc, row, 2)?;
            vars.parameters(&named(alloc, row, 1)?, arguments)?;
        }
        "constructor" => vars.constructor(&named(alloc, row, 1)?)?,
        "transaction" => vars.enter_with(&Text::new(alloc, word(row, 1))?, Bound::Handle)?,
        _ => {}
    }
    for name in word(row, 3).split(' ') {
        if !name.is_empty() {
            tell(line, name, vars.get(name));
        }
    }
    Ok(())
}

fn tell_taken(line: &mut Telling, taken: Option<Value>) {
    line.say("took ");
    match taken {
        Some(value) => tell_value(line, &value),
        None => line.say("nothing"),
    }
    line.say("; ");
}
