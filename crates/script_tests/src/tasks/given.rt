//! Tasks turn by turn, and what their asks are answered.
ghost use Rattle.std.specs.Prelude.{◌≡◌, ◌<◌, length, IfOk, IfSome};
ghost use Rattle.do_tree.specs.Checked.{tree_of};
ghost use Rattle.script_eval.specs.Tasks.{HasMethod};
ghost use Rattle.script_tests.specs.Waits.{class_or};
ghost use Rattle.storage_map.specs.Ops.{IsOp};

use do_check::check;
use do_parse::parse;
use do_tree::Checked;
use do_value::{Fields, Num, Value};
use script_eval::{Answer, Outcome, Task};
use serde_json::Value as Json;
use std::alloc::Global;
use std::test::Fail;
use storage_map::{Alarm, Key, Map, Op, Options, Reading, StoreAsk};
use test_rows::{count, flag, number, value, word};

/// The moment at which each task starts.
const START: i64 = 1_000;

/// The moment at which each task goes on.
const LATER: i64 = 2_000;

// The list of values at this place of the case.
fn values(alloc: Global, row: &Json, at: usize) -> Result<Vec<Value>, Fail> {
    match value(alloc, row, at)? {
        Value::List(items) => Ok(items.into_values()?),
        _ => Ok(Vec::new(alloc)),
    }
}

// The fields of an object at this place of the case, none where no record is there.
fn fields(alloc: Global, row: &Json, at: usize) -> Result<Fields, Fail> {
    match value(alloc, row, at)? {
        Value::Rec(fields) => Ok(fields),
        _ => match Value::fields(Vec::new(alloc))? {
            Value::Rec(none) => Ok(none),
            _ => Err("no record")?,
        },
    }
}

fn put(alloc: Global, key: &str, number: i64) -> Result<Op, Fail>
    ensures { IfOk result IsOp }
{
    let (key, number) = (Key::new(alloc, key)?, Num::new(number)?);
    Ok(Op::put(key, Value::Num(number))?)
}

// A listing of the keys with the numbers behind them, from this place of the case on.
fn pairs(alloc: Global, row: &Json, reverse: bool) -> Result<Reading, Fail> {
    let mut map = Map::new(alloc);
    for pair in 0..4 {
        let at = 1 + 2 * pair;
        if row.get(at).is_some() {
            map.apply_op(&put(alloc, word(row, at), number(row, at + 1))?)?;
        }
    }
    let all = Options {
        start: None,
        after: None,
        end: None,
        prefix: None,
        reverse,
        limit: None,
    };
    Ok(map.reading(&StoreAsk::List(all))?)
}

// The alarm of this time, or none.
fn alarm(row: &Json) -> Option<Alarm> {
    let time = row.get(1).and_then(Json::as_u64)?;
    Some(Alarm::new(i64::from(u32::try_from(time).unwrap_or(0)), 0))
}

// The answer that the case gives: its word, and what belongs to it.
fn answer(alloc: Global, row: &Json) -> Result<Answer, Fail> {
    Ok(match word(row, 0) {
        "one" => Answer::Read(Reading::One(value(alloc, row, 1)?)),
        "pairs" => Answer::Read(pairs(alloc, row, false)?),
        "reversed" => Answer::Read(pairs(alloc, row, true)?),
        "alarm" => Answer::Read(Reading::Alarm(alarm(row))),
        "count" => Answer::Read(Reading::Count(count(row, 1))),
        "thrown" => Answer::Thrown(value(alloc, row, 1)?),
        _ => Answer::Value(value(alloc, row, 1)?),
    })
}

// The script of a text that is right.
fn script(alloc: Global, text: &str) -> Result<Checked, Fail> {
    match parse(alloc, text.as_bytes()) {
        Ok(script) => match check(alloc, script) {
            Ok(checked) => Ok(checked),
            Err(_) => Err("refused by the check")?,
        },
        Err(_) => Err("refused by the parser")?,
    }
}

// The number of a class's method, the constructor and the alarm handler among them.
#[tactic(auto, using(crate::proofs::Found::constructor_there, crate::proofs::Found::alarm_there, crate::proofs::Found::method_there))]
fn found(checked: &Checked, class: u32, method: &str) -> Option<u32>
    ensures { IfSome result (HasMethod (tree_of checked.now) class) }
{
    match method {
        "constructor" => checked.constructor(class),
        "alarm" => checked.alarm(class),
        _ => checked.method(class, method),
    }
}

/// A task after one of its turns, with its script and the number of its class.
pub(crate) struct Running {
    checked: Checked,
    class: u32,
    pub(crate) outcome: Outcome,
    ghost there: { class < length (tree_of checked).classes },
    ghost kept: { class_or class outcome ≡ class },
}

// Written out, so that letting one go is proved once.
impl Drop for Running {
    fn drop(self) {
        let Running {
            checked,
            class: _,
            outcome,
        } = self;
        drop(checked);
        drop(outcome);
    }
}

impl Running {
    /// The first turn of a task: `start METHOD ARGUMENTS FIELDS`.
    #[tactic(auto, using(crate::proofs::Found::class_within, crate::proofs::Found::class_kept))]
    pub(crate) fn start(
        alloc: Global,
        text: &str,
        class: &str,
        row: &Json,
    ) -> Result<Running, Fail> {
        let checked = script(alloc, text)?;
        let class = checked.class(class).ok_or("no class")?;
        let method = found(&checked, class, word(row, 1)).ok_or("no method")?;
        let (args, with) = (values(alloc, row, 2)?, fields(alloc, row, 3)?);
        let outcome = Task::start(alloc, &checked, class, method, args, with, START)?;
        Ok(Running {
            checked,
            class,
            outcome,
        })
    }

    /// The next turn, on an object with the fields of the case's record `with`, or with those that the last turn left.
    #[tactic(auto, using(crate::proofs::Found::has_class, crate::proofs::Found::class_kept))]
    pub(crate) fn go_on(self, alloc: Global, row: &Json) -> Result<Running, Fail> {
        let Running {
            checked,
            class,
            outcome,
        } = self;
        let Outcome::Paused { task, fields, .. } = outcome else {
            return Err("no pause")?;
        };
        let answer = answer(alloc, row)?;
        let fields = match flag(row, 2) {
            true => self::fields(alloc, row, 3)?,
            false => fields,
        };
        let outcome = task.resume(alloc, &checked, answer, fields, LATER)?;
        Ok(Running {
            checked,
            class,
            outcome,
        })
    }
}
