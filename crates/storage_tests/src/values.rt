//! Values on a stack. A case makes one or changes the topmost, which is then told with its size and its depth.
use do_value::{Args, BuildFault, Fields, Items, Text, Value};
use serde_json::Value as Json;
use std::alloc::Global;
use std::test::Fail;
use test_rows::{Telling, count, tell_value, value, word};

pub(crate) fn answer(
    alloc: Global,
    values: &mut Vec<Value>,
    row: &Json,
    line: &mut Telling,
) -> Result<(), Fail> {
    match word(row, 1) {
        "new" => values.push(value(alloc, row, 2)?)?,
        "copy" => copy_top(values)?,
        "open" => open(values, row)?,
        "close" => close(values, row)?,
        "wrap" => wrap(alloc, values, line)?,
        "drop" => {
            let _ = values.pop();
        }
        "bytes" => tell_bytes(alloc, values.as_slice(), line)?,
        "same" => tell_same(values.as_slice(), line),
        "text" => tell_text_copy(alloc, word(row, 2), line)?,
        _ => change(alloc, values, row, line)?,
    }
    tell_top(values.as_slice(), line);
    Ok(())
}

fn copy_top(values: &mut Vec<Value>) -> Result<(), Fail> {
    if let Some(top) = values.last() {
        let copy = top.copy()?;
        values.push(copy)?;
    }
    Ok(())
}

// The list or the record is put on the stack that stands at this place of the topmost, which has `undefined` there from then on.
fn open(values: &mut Vec<Value>, row: &Json) -> Result<(), Fail> {
    let top = values.pop().unwrap_or(Value::Undefined);
    let (top, part) = match top {
        Value::List(mut items) => {
            let part = items.take(count(row, 2) as usize)?;
            (Value::List(items), part)
        }
        other => (other, None),
    };
    values.push(top)?;
    values.push(part.unwrap_or(Value::Undefined))?;
    Ok(())
}

// The topmost is put at this place of the list below it.
fn close(values: &mut Vec<Value>, row: &Json) -> Result<(), Fail> {
    let part = values.pop().unwrap_or(Value::Undefined);
    let top = match values.pop().unwrap_or(Value::Undefined) {
        Value::List(mut items) => {
            let _ = put_there(&mut items, count(row, 2) as usize, part);
            Value::List(items)
        }
        other => other,
    };
    values.push(top)?;
    Ok(())
}

// The list of the topmost alone comes in its place.
fn wrap(alloc: Global, values: &mut Vec<Value>, line: &mut Telling) -> Result<(), Fail> {
    let mut items = Vec::new(alloc);
    items.push(values.pop().unwrap_or(Value::Undefined))?;
    match Value::list(items) {
        Ok(list) => values.push(list)?,
        Err(fault) => tell_built(line, Err(fault)),
    }
    Ok(())
}

fn change(
    alloc: Global,
    values: &mut Vec<Value>,
    row: &Json,
    line: &mut Telling,
) -> Result<(), Fail> {
    let top = match values.pop().unwrap_or(Value::Undefined) {
        Value::List(mut items) => {
            change_items(alloc, &mut items, row, line)?;
            Value::List(items)
        }
        Value::Rec(mut fields) => {
            change_fields(alloc, &mut fields, row, line)?;
            Value::Rec(fields)
        }
        other => other,
    };
    values.push(top)?;
    Ok(())
}

fn change_items(
    alloc: Global,
    items: &mut Items,
    row: &Json,
    line: &mut Telling,
) -> Result<(), Fail> {
    match word(row, 1) {
        "push" => tell_built(line, items.push(value(alloc, row, 2)?)),
        "put" => {
            let value = value(alloc, row, 3)?;
            tell_built(line, put_there(items, count(row, 2) as usize, value))
        }
        _ => tell_taken(line, items.take(count(row, 2) as usize)?),
    }
    Ok(())
}

// Nothing is put where no item is there.
fn put_there(items: &mut Items, place: usize, value: Value) -> Result<(), BuildFault> {
    if place < items.len() {
        items.put(place, value)
    } else {
        Ok(())
    }
}

fn change_fields(
    alloc: Global,
    fields: &mut Fields,
    row: &Json,
    line: &mut Telling,
) -> Result<(), Fail> {
    match word(row, 1) {
        "put" => {
            let name = Text::new(alloc, word(row, 2))?;
            tell_built(line, fields.put(name, value(alloc, row, 3)?))
        }
        "has" => {
            let found = fields.copy()?.get(word(row, 2)).is_some();
            tell_flag(line, found)
        }
        _ => tell_taken(line, fields.take(word(row, 2))?),
    }
    Ok(())
}

fn tell_flag(line: &mut Telling, flag: bool) {
    line.say(if flag { "yes: " } else { "no: " });
}

fn tell_built(line: &mut Telling, built: Result<(), BuildFault>) {
    if let Err(fault) = built {
        line.tell(format!(in line.alloc(); "{fault:?}: "));
    }
}

fn tell_taken(line: &mut Telling, taken: Option<Value>) {
    match &taken {
        Some(value) => tell_value(line, value),
        None => line.say("nothing"),
    }
    line.say(" taken: ");
}

fn tell_top(values: &[Value], line: &mut Telling) {
    if let Some(top) = values.last() {
        tell_value(line, top);
        let (size, depth) = (top.size(), top.depth());
        line.tell(format!(in line.alloc(); ", {size} bytes, {depth} levels"));
    }
}

fn tell_bytes(alloc: Global, values: &[Value], line: &mut Telling) -> Result<(), Fail> {
    let mut bytes = Vec::new(alloc);
    if let Some(top) = values.last() {
        top.encode(&mut bytes)?;
    }
    line.tell(format!(in alloc; "{:?}: ", bytes.as_slice()));
    Ok(())
}

// Whether the two topmost are equal.
fn tell_same(values: &[Value], line: &mut Telling) {
    match values {
        [.., below, top] => tell_flag(line, top.equal(below)),
        _ => {}
    }
}

// A text against its copy, and how many arguments a copy of it alone has.
fn tell_text_copy(alloc: Global, text: &str, line: &mut Telling) -> Result<(), Fail> {
    let text = Text::new(alloc, text)?;
    let copy = text.copy()?;
    tell_flag(line, copy.equal(&text));
    let order = copy.order(&text);
    let mut values = Vec::new(alloc);
    values.push(Value::Text(text))?;
    let args = Args::new(values).copy()?;
    line.tell(format!(in alloc; "{order:?}, {}: ", args.values().len()));
    Ok(())
}
