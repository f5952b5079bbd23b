//! The lines that `gen` serves.
ghost use Rattle.std.specs.Prelude.{◌≡◌, ◌++◌, IfOk, OnOk};
ghost use Rattle.serde_json.specs.View.{view};
ghost use Rattle.do_host.specs.Generator as spec;

use do_value::{Mem, NoMemory};
use line_server::json_text;
use serde_json::{Value as Json, json};
use std::alloc::{AllocError, Global};

// The sequence of the numbers.
const FACTOR: u64 = 6_364_136_223_846_793_005;

const STEP: u64 = 1_442_695_040_888_963_407;

// A number's upper 4 bits name an object, and 10 bits below its upper 14 are what is added.
const NAME: u64 = 1 << 60;

const AMOUNT: u64 = 1 << 40;

const AMOUNTS: u64 = 1_024;

// The lines that the seed makes, so many.
pub(crate) fn made_lines(alloc: Global, seed: u64, count: u64) -> Mem<Vec<u8>>
    ensures { IfOk result (λ bytes. bytes.items ≡ spec.made_lines seed count) }
{
    let mut bytes = Vec::new(alloc);
    let mut number = seed;
    for line in 0..count {
        number = next_number(number);
        add_call(alloc, &mut bytes, line + 1, number)?;
    }
    Ok(bytes)
}

fn next_number(number: u64) -> u64
    ensures { result ≡ spec.next_number number }
{
    number.wrapping_mul(FACTOR).wrapping_add(STEP)
}

// Puts the line of the call that the number makes behind the others.
fn add_call(alloc: Global, bytes: &mut Vec<u8>, line: u64, number: u64) -> Mem<()>
    ensures { OnOk result (bytes.new.items ≡ bytes.old.items ++ spec.call_line line number) }
{
    let Ok(json) = call_json(alloc, line, number) else {
        return Err(NoMemory);
    };
    let Ok(text) = json_text(alloc, &json) else {
        return Err(NoMemory);
    };
    match bytes.extend_from_slice(text.as_slice()) {
        Ok(()) => Ok(()),
        Err(_) => Err(NoMemory),
    }
}

// `["call",line,"G",name,"add",[amount]]`
fn call_json(alloc: Global, line: u64, number: u64) -> Result<Json, AllocError>
    ensures { IfOk result (λ json. view json ≡ spec.call_json line number) }
{
    let name = (number / NAME).to_string(alloc)?;
    let amount = number / AMOUNT % AMOUNTS;
    json!(in alloc; ["call", line, "G", name.as_str(), "add", [amount]])
}
