//! Printing of output lines.
ghost use Rattle.std.specs.Prelude.{◌≡◌, ◌++◌, ◌∷◌, [], IfOk, Ok, false};
ghost use Rattle.serde_json.specs.View.{view};
ghost use Rattle.serde_json.specs.Written.{compact_text, has_float};
ghost use Rattle.line_server.specs.Cut.{line_end};
ghost use Rattle.line_server.specs.Text.{json_of_out, text};
ghost use Rattle.line_server.specs.Text as spec;
ghost use Rattle.line_server.specs.declared.out_line.WaitLine.TheVariants as wait;

use crate::error_text::error_json;
use crate::out_line::{OutLine, WaitLine, Why};
use do_value::{Mem, NoMemory, Text, Value};
use do_wire::to_json;
use serde_json::{Value as Json, json};
use std::alloc::{AllocError, Global};

/// The bytes of the line: compact JSON (RFC 8259) and an LF.
pub fn print(alloc: Global, line: &OutLine) -> Mem<Vec<u8>>
    ensures { IfOk result (λ bytes. bytes.items ≡ text line.now) }
{
    let json = line_json(alloc, line)?;
    made(json_text(alloc, &json))
}

fn line_json(alloc: Global, line: &OutLine) -> Mem<Json>
    ensures { IfOk result (λ json. view json ≡ json_of_out line.now) }
{
    match line {
        OutLine::Reply { number, value } => reply_json(alloc, *number, value),
        OutLine::Error { number, failure } => error_json(alloc, *number, failure),
        OutLine::Fetch {
            k,
            class,
            name,
            value,
        } => fetch_json(alloc, *k, class, name, value),
        OutLine::Refused { line, why } => refused_json(alloc, *line, *why),
        OutLine::Waiting { number, on } => waiting_json(alloc, *number, on),
    }
}

fn reply_json(alloc: Global, number: i64, value: &Value) -> Mem<Json>
    ensures { IfOk result (λ json. view json ≡ spec.reply_json number value.now) }
{
    let value = to_json(alloc, value)?;
    match json!(in alloc; ["reply", number, value]) {
        Ok(json) => Ok(json),
        Err(_) => Err(NoMemory),
    }
}

fn fetch_json(alloc: Global, k: u64, class: &Text, name: &Text, value: &Value) -> Mem<Json>
    ensures { IfOk result (λ json. view json ≡ spec.fetch_json k class.now name.now value.now) }
{
    let value = to_json(alloc, value)?;
    match json!(in alloc; ["fetch", k, class.as_str(), name.as_str(), value]) {
        Ok(json) => Ok(json),
        Err(_) => Err(NoMemory),
    }
}

fn refused_json(alloc: Global, line: u64, why: Why) -> Mem<Json>
    ensures { IfOk result (λ json. view json ≡ spec.refused_json line why) }
{
    let word = why_word(why);
    made(json!(in alloc; ["refused", line, word]))
}

fn why_word(why: Why) -> &'static str
    ensures { result.now ≡ spec.why_word why }
{
    match why {
        Why::Long => "long",
        Why::Json => "json",
        Why::Shape => "shape",
        Why::Tick => "tick",
        Why::Fetch => "fetch",
    }
}

fn waiting_json(alloc: Global, number: i64, on: &WaitLine) -> Mem<Json>
    ensures { IfOk result (λ json. view json ≡ spec.waiting_json number on.now) }
{
    match on {
        WaitLine::Fetch(k) => made(for_fetch(alloc, number, *k)),
        WaitLine::Call { class, name } => made(for_call(alloc, number, class, name)),
        WaitLine::Block => made(for_block(alloc, number)),
    }
}

// `["waiting",n,"fetch",k]`.
fn for_fetch(alloc: Global, number: i64, k: u64) -> Result<Json, AllocError>
    ensures { IfOk result (λ json. view json ≡ spec.waiting_json number (wait.Fetch k)) }
{
    json!(in alloc; ["waiting", number, "fetch", k])
}

// `["waiting",n,"call",class,name]`.
fn for_call(alloc: Global, number: i64, class: &Text, name: &Text) -> Result<Json, AllocError>
    ensures { IfOk result (λ json. view json ≡ spec.waiting_json number (wait.Call class.now name.now)) }
{
    json!(in alloc; ["waiting", number, "call", class.as_str(), name.as_str()])
}

// `["waiting",n,"block"]`.
fn for_block(alloc: Global, number: i64) -> Result<Json, AllocError>
    ensures { IfOk result (λ json. view json ≡ spec.waiting_json number wait.Block) }
{
    json!(in alloc; ["waiting", number, "block"])
}

// What was made, or want of memory.
pub(crate) fn made<T>(answer: Result<T, AllocError>) -> Mem<T>
    ensures { IfOk result (λ value. answer ≡ Ok value) }
{
    match answer {
        Ok(value) => Ok(value),
        Err(_) => Err(NoMemory),
    }
}

/// The bytes of a line of this JSON, which has no float: compact JSON (RFC 8259) and an LF.
pub fn json_text(alloc: Global, json: &Json) -> Result<Vec<u8>, AllocError>
    requires no_float { has_float (view json.now) ≡ false }
    ensures line { IfOk result (λ bytes. bytes.items ≡ compact_text (view json.now) ++ line_end ∷ []) }
{
    let mut bytes = json.to_string(alloc)?.into_bytes();
    bytes.push(b'\n')?;
    Ok(bytes)
}
