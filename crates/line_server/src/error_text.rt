//! Printing of why a request has no value.
ghost use Rattle.std.specs.Prelude.{◌≡◌, IfOk};
ghost use Rattle.serde_json.specs.View.{view};
ghost use Rattle.line_server.specs.Text as spec;

use crate::text::made;
use do_value::{Mem, NoMemory, Value};
use do_wire::to_json;
use serde_json::{Value as Json, json};
use std::alloc::Global;
use timeline::{Cause, Failure};

// `["error",n,word,..]`.
pub(crate) fn error_json(alloc: Global, number: i64, failure: &Failure) -> Mem<Json>
    ensures { IfOk result (λ json. view json ≡ spec.error_json number failure.now) }
{
    match failure {
        Failure::NoClass => word_json(alloc, number, "NoClass"),
        Failure::NoMethod => word_json(alloc, number, "NoMethod"),
        Failure::NoSlot { slots } => { made(json!(in alloc; ["error", number, "NoSlot", *slots])) }
        Failure::NoFetch => word_json(alloc, number, "NoFetch"),
        Failure::Thrown(value) => thrown_json(alloc, number, value),
        Failure::Exceeded => word_json(alloc, number, "Exceeded"),
        Failure::Reset(cause) => reset_json(alloc, number, *cause),
        Failure::Down { before, after } => {
            made(json!(in alloc; ["error", number, "Down", *before, *after]))
        }
    }
}

// `["error",n,word]`.
fn word_json(alloc: Global, number: i64, word: &str) -> Mem<Json>
    ensures { IfOk result (λ json. view json ≡ spec.error_word number word.now) }
{
    made(json!(in alloc; ["error", number, word]))
}

fn thrown_json(alloc: Global, number: i64, value: &Value) -> Mem<Json>
    ensures { IfOk result (λ json. view json ≡ spec.thrown_json number value.now) }
{
    let value = to_json(alloc, value)?;
    match json!(in alloc; ["error", number, "Thrown", value]) {
        Ok(json) => Ok(json),
        Err(_) => Err(NoMemory),
    }
}

fn reset_json(alloc: Global, number: i64, cause: Cause) -> Mem<Json>
    ensures { IfOk result (λ json. view json ≡ spec.reset_json number cause) }
{
    let cause = cause_json(alloc, cause)?;
    match json!(in alloc; ["error", number, "Reset", cause]) {
        Ok(json) => Ok(json),
        Err(_) => Err(NoMemory),
    }
}

// `["disk",before,after]`, `["full",needed,limit]`, or the word of another cause alone.
fn cause_json(alloc: Global, cause: Cause) -> Mem<Json>
    ensures { IfOk result (λ json. view json ≡ spec.cause_json cause) }
{
    match cause {
        Cause::Disk { before, after } => made(json!(in alloc; ["disk", before, after])),
        Cause::Full { needed, limit } => made(json!(in alloc; ["full", needed, limit])),
        Cause::Exceeded => made(json!(in alloc; ["exceeded"])),
        Cause::StartThrew => made(json!(in alloc; ["start"])),
        Cause::BlockThrew => made(json!(in alloc; ["block"])),
    }
}
