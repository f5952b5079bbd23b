//! Operators, and calls of their arguments.
use do_value::{BinOp, Builtin, UnOp, Value};
use script_ops::{OpFault, binary, builtin, truth, unary};
use serde_json::Value as Json;
use std::alloc::Global;
use std::test::Fail;
use test_rows::{Telling, tell_value, value, word};

fn binary_of(name: &str) -> Option<BinOp> {
    match name {
        "+" => Some(BinOp::Add),
        "-" => Some(BinOp::Sub),
        "*" => Some(BinOp::Mul),
        "/" => Some(BinOp::Div),
        "%" => Some(BinOp::Rem),
        "<" => Some(BinOp::Less),
        "<=" => Some(BinOp::LessEq),
        ">" => Some(BinOp::Greater),
        ">=" => Some(BinOp::GreaterEq),
        "===" => Some(BinOp::Same),
        "!==" => Some(BinOp::Differs),
        _ => None,
    }
}

fn call_of(name: &str) -> Option<Builtin> {
    match name {
        "length" => Some(Builtin::Length),
        "includes" => Some(Builtin::Includes),
        "indexOf" => Some(Builtin::IndexOf),
        "slice" => Some(Builtin::Slice),
        "startsWith" => Some(Builtin::StartsWith),
        "endsWith" => Some(Builtin::EndsWith),
        "split" => Some(Builtin::Split),
        "Object.keys" => Some(Builtin::Keys),
        "Array.isArray" => Some(Builtin::IsArray),
        "String" => Some(Builtin::ToText),
        "Number" => Some(Builtin::ToNumber),
        "Error" => Some(Builtin::MakeError),
        _ => None,
    }
}

// The values from this place of the case on.
fn values(alloc: Global, row: &Json, from: usize) -> Result<Vec<Value>, Fail> {
    let mut values = Vec::new(alloc);
    for at in from..from.saturating_add(4) {
        if row.get(at).is_some() {
            values.push(value(alloc, row, at)?)?;
        }
    }
    Ok(values)
}

fn tell(line: &mut Telling, answer: &Result<Value, OpFault>) {
    match answer {
        Ok(value) => tell_value(line, value),
        Err(OpFault::Throw(value)) => {
            line.say("throws ");
            tell_value(line, value);
        }
        Err(OpFault::NoMemory) => line.refuse(),
    }
}

/// `truth VALUE`, `before OPERATOR VALUE`, `between OPERATOR VALUE VALUE`, `call NAME VALUES`
pub(crate) fn answer(alloc: Global, row: &Json, line: &mut Telling) -> Result<(), Fail> {
    match word(row, 0) {
        "truth" => line.say(if truth(&value(alloc, row, 1)?) {
            "true"
        } else {
            "false"
        }),
        "before" => {
            let op = if word(row, 1) == "-" {
                UnOp::Neg
            } else {
                UnOp::Not
            };
            tell(line, &unary(alloc, op, &value(alloc, row, 2)?));
        }
        "between" => {
            let op = binary_of(word(row, 1)).ok_or("no operator")?;
            let (left, right) = (value(alloc, row, 2)?, value(alloc, row, 3)?);
            tell(line, &binary(alloc, op, &left, &right));
        }
        _ => {
            let which = call_of(word(row, 1)).ok_or("no call")?;
            let args = values(alloc, row, 2)?;
            tell(line, &builtin(alloc, which, args.as_slice()));
        }
    }
    Ok(())
}
