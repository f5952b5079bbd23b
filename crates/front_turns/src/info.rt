//! What the handler of an alarm is called with.
ghost use Rattle.std.specs.Prelude.{◌≡◌, ◌<◌, [], ◌∷◌, ◌++◌, IfOk, OnOk, codes, not, ◌==◌, pos};
ghost use Rattle.do_value.specs.Seen.{pairs_in, tree_of, trees_in};
ghost use Rattle.do_value.specs.Tree as tree;
ghost use Rattle.do_value.specs.Tree.{Tree};
ghost use Rattle.timeline.specs.Steps.{alarm_info};

use do_value::{Mem, NoMemory, Num, Text, Value};
use std::alloc::Global;

// One pair more.
fn put(alloc: Global, pairs: &mut Vec<(Text, Value)>, key: &str, value: Value) -> Mem<()>
    ensures { OnOk result (pairs_in pairs.new.items ≡ pairs_in pairs.old.items ++ (key.now, tree_of value) ∷ []) }
{
    let Ok(key) = Text::new(alloc, key) else {
        return Err(NoMemory);
    };
    if pairs.push((key, value)).is_err() {
        return Err(NoMemory);
    }
    Ok(())
}

// A number of a few bits, as a value.
fn number(retry: u8) -> Value
    ensures { tree_of result ≡ tree.number (pos retry) }
{
    match Num::new(retry as i64) {
        Ok(retry) => Value::Num(retry),
        Err(_) => unreachable!(),
    }
}

// Whether it is tried again, and how often it was.
fn pairs_of(alloc: Global, retry: u8) -> Mem<Vec<(Text, Value)>>
    ensures { IfOk result (λ pairs. pairs_in pairs.items
        ≡ (codes "isRetry", tree.boolean (not (retry == 0))) ∷ (codes "retryCount", tree.number (pos retry)) ∷ []) }
{
    let mut pairs = Vec::new(alloc);
    put(alloc, &mut pairs, "isRetry", Value::Bool(retry != 0))?;
    put(alloc, &mut pairs, "retryCount", number(retry))?;
    Ok(pairs)
}

// The same as one value.
fn info_of(alloc: Global, retry: u8) -> Mem<Value>
    ensures { IfOk result (λ value. tree_of value ≡ alarm_info retry) }
{
    let pairs = pairs_of(alloc, retry)?;
    match Value::fields(pairs) {
        Ok(value) => Ok(value),
        Err(_) => Err(NoMemory),
    }
}

// The arguments of a handler.
pub(crate) fn arguments(alloc: Global, retry: u8) -> Mem<Vec<Value>>
    ensures { IfOk result (λ values. trees_in values.items ≡ alarm_info retry ∷ []) }
{
    let value = info_of(alloc, retry)?;
    let mut values = Vec::new(alloc);
    if values.push(value).is_err() {
        return Err(NoMemory);
    }
    Ok(values)
}
