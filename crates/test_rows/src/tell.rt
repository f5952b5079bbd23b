//! Values as the programs of cases print them: like a script's, with texts in single quotes.
use crate::telling::Telling;
use do_value::{Fields, Items, Value};

/// A text of more bytes is told by their number.
const MOST: usize = 100;

/// Adds the value to the line.
#[cycle(tell)]
pub fn tell_value(line: &mut Telling, value: &Value) {
    match value {
        Value::Undefined => line.say("undefined"),
        Value::Null => line.say("null"),
        Value::Bool(true) => line.say("true"),
        Value::Bool(false) => line.say("false"),
        Value::Num(n) => tell_number(line, n.get()),
        Value::Text(text) => tell_text(line, text.as_str()),
        Value::List(items) => tell_list(line, items),
        Value::Rec(fields) => tell_record(line, fields),
    }
}

#[cycle(tell)]
fn tell_list(line: &mut Telling, list: &Items) {
    line.say("[");
    let mut first = true;
    for part in list.as_slice() {
        if !first {
            line.say(",");
        }
        first = false;
        tell_value(line, part);
    }
    line.say("]");
}

/// Adds the record to the line.
#[cycle(tell)]
pub fn tell_record(line: &mut Telling, of: &Fields) {
    line.say("{");
    let mut first = true;
    for (key, part) in of.as_slice() {
        if !first {
            line.say(",");
        }
        first = false;
        line.say(key.as_str());
        line.say(":");
        tell_value(line, part);
    }
    line.say("}");
}

/// Adds the text to the line, in single quotes, or how many bytes it has.
pub fn tell_text(line: &mut Telling, text: &str) {
    if text.len() > MOST {
        line.tell(format!(in line.alloc(); "({} bytes)", text.len()));
    } else {
        line.say("'");
        line.say(text);
        line.say("'");
    }
}

/// Adds the number to the line.
pub fn tell_number(line: &mut Telling, n: i64) {
    line.tell(format!(in line.alloc(); "{n}"));
}
