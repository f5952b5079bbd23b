// From a line's bytes to its request.
ghost use Rattle.std.specs.Prelude.{◌≡◌, ◌<◌, ◌^◌, IfOk, IfSome, IsTrue, map, option_map};
ghost use Rattle.serde_json.specs.View.{view};
ghost use Rattle.line_server.specs.Asked.{call_in, evict_in, fetched_in, two_parts, three_parts, six_parts, parts_ask, asked_in};
ghost use Rattle.line_server.specs.Requests.{json_of_line, or_json, or_shape};
ghost use Rattle.line_server.specs.Bodies.{asked_of, body_seen, is_in_range, is_body};

use crate::parts::{is_word, object, text, value, values, whole};
use crate::refusal::Refusal;
use crate::request::Request;
use do_value::{Mem, NoMemory};
use serde_json::Value as Json;
use std::alloc::Global;

// The request of a line that isn't too long, or why it is none.
pub(crate) fn read_body(alloc: Global, line: &[u8]) -> Mem<Result<Request, Refusal>>
    ensures body { IfOk result (λ body. body_seen body ≡ or_json (json_of_line line.now)) }
    ensures range { IfOk result (λ body. IsTrue (is_body body)) }
{
    let Ok(text) = str::from_utf8(line) else {
        return Ok(Err(Refusal::Json));
    };
    match Json::from_str(alloc, text) {
        Ok(json) => shaped(alloc, &json),
        Err(error) if error.is_memory() => Err(NoMemory),
        Err(_) => Ok(Err(Refusal::Json)),
    }
}

fn shaped(alloc: Global, json: &Json) -> Mem<Result<Request, Refusal>>
    ensures body { IfOk result (λ body. body_seen body ≡ or_shape (asked_in (view json.now))) }
    ensures range { IfOk result (λ body. IsTrue (is_body body)) }
{
    match request(alloc, json)? {
        Some(request) => Ok(Ok(request)),
        None => Ok(Err(Refusal::Shape)),
    }
}

fn request(alloc: Global, json: &Json) -> Mem<Option<Request>>
    ensures asks { IfOk result (λ o. option_map asked_of o ≡ asked_in (view json.now)) }
    ensures range { IfOk result (λ o. IfSome o (λ request. IsTrue (is_in_range request))) }
{
    match json.as_array() {
        Some(parts) => of_parts(alloc, parts.as_slice()),
        None => Ok(None),
    }
}

fn of_parts(alloc: Global, parts: &[Json]) -> Mem<Option<Request>>
    ensures asks { IfOk result (λ o. option_map asked_of o ≡ parts_ask (map view parts.now)) }
    ensures range { IfOk result (λ o. IfSome o (λ request. IsTrue (is_in_range request))) }
{
    match parts {
        [word, number] => Ok(two(word, number)),
        [word, first, second] => three(alloc, word, first, second),
        [word, number, class, name, method, args] => {
            six(alloc, word, number, class, name, method, args)
        }
        _ => Ok(None),
    }
}

fn two(word: &Json, number: &Json) -> Option<Request>
    ensures asks { option_map asked_of result ≡ two_parts (view word.now) (view number.now) }
    ensures range { IfSome result (λ request. IsTrue (is_in_range request)) }
{
    if is_word(word, "tick") {
        let time = whole(number)?;
        Some(Request::Tick(time as i64))
    } else if is_word(word, "fetch-failed") {
        let k = whole(number)?;
        Some(Request::FetchFailed { k })
    } else {
        None
    }
}

fn three(alloc: Global, word: &Json, first: &Json, second: &Json) -> Mem<Option<Request>>
    ensures asks { IfOk result (λ o. option_map asked_of o ≡ three_parts (view word.now) (view first.now) (view second.now)) }
    ensures range { IfOk result (λ o. IfSome o (λ request. IsTrue (is_in_range request))) }
{
    if is_word(word, "fetched") {
        fetched(alloc, first, second)
    } else if is_word(word, "evict") {
        evict(alloc, first, second)
    } else {
        Ok(None)
    }
}

fn fetched(alloc: Global, number: &Json, json: &Json) -> Mem<Option<Request>>
    ensures asks { IfOk result (λ o. option_map asked_of o ≡ fetched_in (view number.now) (view json.now)) }
    ensures range { IfOk result (λ o. IfSome o (λ request. IsTrue (is_in_range request))) }
{
    let Some(k) = whole(number) else {
        return Ok(None);
    };
    match value(alloc, json)? {
        Some(value) => Ok(Some(Request::Fetched { k, value })),
        None => Ok(None),
    }
}

fn evict(alloc: Global, class: &Json, name: &Json) -> Mem<Option<Request>>
    ensures asks { IfOk result (λ o. option_map asked_of o ≡ evict_in (view class.now) (view name.now)) }
    ensures range { IfOk result (λ o. IfSome o (λ request. IsTrue (is_in_range request))) }
{
    match object(alloc, class, name)? {
        Some(to) => Ok(Some(Request::Evict(to))),
        None => Ok(None),
    }
}

fn six(
    alloc: Global,
    word: &Json,
    number: &Json,
    class: &Json,
    name: &Json,
    method: &Json,
    args: &Json,
) -> Mem<Option<Request>>
    ensures asks { IfOk result (λ o. option_map asked_of o
        ≡ six_parts (view word.now) (view number.now) (view class.now) (view name.now) (view method.now) (view args.now)) }
    ensures range { IfOk result (λ o. IfSome o (λ request. IsTrue (is_in_range request))) }
{
    if is_word(word, "call") {
        call(alloc, number, class, name, method, args)
    } else {
        Ok(None)
    }
}

fn call(
    alloc: Global,
    number: &Json,
    class: &Json,
    name: &Json,
    method: &Json,
    args: &Json,
) -> Mem<Option<Request>>
    ensures asks { IfOk result (λ o. option_map asked_of o
        ≡ call_in (view number.now) (view class.now) (view name.now) (view method.now) (view args.now)) }
    ensures range { IfOk result (λ o. IfSome o (λ request. IsTrue (is_in_range request))) }
{
    let Some(number) = whole(number) else {
        return Ok(None);
    };
    let Some(to) = object(alloc, class, name)? else {
        return Ok(None);
    };
    let Some(method) = text(alloc, method)? else {
        return Ok(None);
    };
    match values(alloc, args)? {
        Some(args) => Ok(Some(Request::Call {
            number: number as i64,
            to,
            method,
            args,
        })),
        None => Ok(None),
    }
}
