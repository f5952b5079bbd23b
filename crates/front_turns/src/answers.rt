//! What a task is answered.
ghost use Rattle.std.specs.Prelude.{◌≡◌, IfOk};
ghost use Rattle.script_ops.specs.Answers.{error_of};
ghost use Rattle.script_mean.specs.Storing.{value_of};
ghost use Rattle.timeline.specs.Steps as steps;
ghost use Rattle.front_turns.specs.Held.{retry_of};

use do_value::{Mem, Value};
use script_mean::Answer;
use script_ops::{CallFailure, Refusal, build_error};
use std::alloc::Global;
use storage_map::{Alarm, Reading};
use timeline::Failure;

// The error that a refusal throws.
pub(crate) fn error(alloc: Global, refusal: Refusal) -> Mem<Value>
    ensures { IfOk result (λ value. value ≡ value_of (error_of refusal)) }
{
    build_error(alloc, refusal)
}

// What is thrown where a call or a fetch failed.
fn refusal_of(failure: &Failure) -> Refusal
    ensures { steps.failed failure.now ≡ steps.throws (error_of result) }
{
    match failure {
        Failure::NoClass => Refusal::CallFailed(CallFailure::NoClass),
        Failure::NoMethod => Refusal::CallFailed(CallFailure::NoMethod),
        Failure::NoSlot { .. } => Refusal::CallFailed(CallFailure::NoSlot),
        Failure::NoFetch => Refusal::FetchFailed,
        Failure::Thrown(_) => Refusal::CallFailed(CallFailure::Thrown),
        Failure::Exceeded => Refusal::CallFailed(CallFailure::Exceeded),
        Failure::Reset(_) => Refusal::CallFailed(CallFailure::Reset),
        Failure::Down { .. } => Refusal::CallFailed(CallFailure::Down),
    }
}

// What the answer to a call or a fetch gives to its task.
pub(crate) fn answer_of(alloc: Global, outcome: Result<Value, Failure>) -> Mem<Answer>
    ensures { IfOk result (λ answer. answer ≡ steps.answer_of outcome) }
{
    match outcome {
        Ok(value) => Ok(Answer::Value(value)),
        Err(failure) => {
            let value = error(alloc, refusal_of(&failure))?;
            Ok(Answer::Thrown(value))
        }
    }
}

// A handler that runs sees no alarm until one is set or cleared.
pub(crate) fn hidden(handler: Option<Alarm>, touched: bool, answer: Answer) -> Answer
    ensures { result ≡ steps.hides (retry_of handler) touched answer }
{
    if handler.is_none() || touched {
        return answer;
    }
    match answer {
        Answer::Read(Reading::Alarm(_)) => Answer::Read(Reading::Alarm(None)),
        Answer::Read(reading) => Answer::Read(reading),
        Answer::Value(value) => Answer::Value(value),
        Answer::Thrown(value) => Answer::Thrown(value),
    }
}
