//! Scripts are checked, and their methods are run.
ghost use Rattle.std.specs.Prelude.{IfSome};
ghost use Rattle.do_tree.specs.Checked.{tree_of};
ghost use Rattle.script_eval.specs.Tasks.{HasMethod};

use do_check::check;
use do_parse::parse;
use do_tree::Checked;
use do_value::{Fields, Num, Value};
use script_eval::{Outcome, Task};
use std::alloc::Global;
use std::test::Fail;

/// What the methods are run with: their arguments, and the fields of their object.
#[derive(Drop)]
pub(crate) struct Made {
    pub args: Value,
    pub fields: Fields,
}

/// The script of a text.
pub(crate) fn check_text(alloc: Global, text: &str) -> Result<Checked, Fail> {
    match parse(alloc, text.as_bytes()) {
        Ok(script) => match check(alloc, script) {
            Ok(checked) => Ok(checked),
            Err(_) => Err("refused by the check")?,
        },
        Err(_) => Err("refused by the parser")?,
    }
}

// The number of the method of this name in the first class.
fn number_of(checked: &Checked, name: &str) -> Option<u32>
    ensures { IfSome result (HasMethod (tree_of checked.now) 0) }
{
    checked.method(0, name)
}

// A method of the first class runs with these arguments to its end.
fn finish(
    alloc: Global,
    checked: &Checked,
    name: &str,
    args: Vec<Value>,
    fields: Fields,
) -> Result<Made, Fail> {
    let Some(method) = number_of(checked, name) else {
        return Err("no method")?;
    };
    match Task::start(alloc, checked, 0, method, args, fields, 0)? {
        Outcome::Done { value, fields, .. } => Ok(Made {
            args: value,
            fields,
        }),
        _ => Err("the method isn't done")?,
    }
}

/// What the methods are run with for so many turns, whose lists and record have so many items.
pub(crate) fn make(alloc: Global, checked: &Checked, turns: i64, size: i64) -> Result<Made, Fail> {
    let args = vec![in alloc; Value::Num(Num::new(turns)?), Value::Num(Num::new(size)?)]?;
    let Value::Rec(none) = Value::fields(Vec::new(alloc))? else {
        return Err("no record")?;
    };
    finish(alloc, checked, "make", args, none)
}

/// A method runs once, and returns this number.
pub(crate) fn run(
    alloc: Global,
    checked: &Checked,
    name: &str,
    args: &Value,
    fields: &Fields,
) -> Result<i64, Fail> {
    let Value::List(items) = args.copy()? else {
        return Err("no list")?;
    };
    let made = finish(alloc, checked, name, items.into_values()?, fields.copy()?)?;
    Ok(number_in(&made.args).ok_or("no number")?)
}

fn number_in(value: &Value) -> Option<i64> {
    match value {
        Value::Num(number) => Some(number.get()),
        _ => None,
    }
}
