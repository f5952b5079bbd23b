//! What the tokens of texts and numbers stand for.
ghost use Rattle.std.specs.Prelude.{◌≡◌, ◌<◌, ◌≤◌, ◌-◌, ◌++◌, ◌∷◌, [], length, slice_index, take, drop, pos};
ghost use Rattle.do_value.specs.Limits.{most_number};
ghost use Rattle.do_lex.specs.Lexemes.{IsNumber, escaped, text_value, number_value};
ghost use Rattle.do_lex.specs.Limits.{most_script_bytes};
ghost use Rattle.do_parse.specs.Then.{IsMade};

use crate::stop::Stop;
use do_value::{BuildFault, Num, Text};
use std::alloc::Global;
use std::str;

/// What an escape stands for, by its second byte.
fn escaped(byte: u8) -> u8
    ensures { result ≡ escaped byte }
{
    match byte {
        b'n' => b'\n',
        b'r' => b'\r',
        b't' => b'\t',
        _ => byte,
    }
}

/// A byte of a text, and how many bytes stand for it.
#[derive(Clone, Copy)]
struct Piece {
    byte: u8,
    len: usize,
}

/// The first byte of a text, by an escape or by itself.
fn first_of(inside: &[u8]) -> Piece
    requires { 0 < length inside.now }
    ensures value { text_value inside.now ≡ result.byte ∷ text_value (drop result.len inside.now) }
    ensures some { 0 < result.len }
    ensures within { result.len ≤ length inside.now }
{
    if inside[0] != b'\\' {
        return Piece {
            byte: inside[0],
            len: 1,
        };
    }
    if inside.len() < 2 {
        return Piece {
            byte: inside[0],
            len: 1,
        };
    }
    Piece {
        byte: escaped(inside[1]),
        len: 2,
    }
}

/// The bytes between a text's quotes, with the escapes read.
fn unescaped(alloc: Global, inside: &[u8]) -> Result<Vec<u8>, Stop>
    ensures { IsMade (λ bytes. bytes.items) (text_value inside.now) result }
{
    let mut bytes = Vec::new(alloc);
    let mut at = 0;
    while at < inside.len() {
        let unit = first_of(&inside[at..]);
        bytes.push(unit.byte)?;
        at += unit.len;
    }
    Ok(bytes)
}

/// What stands between the first byte and the last, which are ASCII.
fn between_quotes(quoted: &str) -> &str
    requires first { slice_index quoted.now 0 < 128 }
    requires last { slice_index quoted.now (length quoted.now - 1) < 128 }
    ensures { result.now ≡ take (length quoted.now - 2) (drop 1 quoted.now) }
{
    if quoted.len() < 2 {
        return "";
    }
    &quoted[1..quoted.len() - 1]
}

/// What the token of a text stands for.
pub(crate) fn text_of(alloc: Global, token: &str) -> Result<Text, Stop>
    requires short { length token.now ≤ most_script_bytes }
    requires first { slice_index token.now 0 < 128 }
    requires last { slice_index token.now (length token.now - 1) < 128 }
    ensures { IsMade (λ text. text) (text_value (take (length token.now - 2) (drop 1 token.now))) result }
{
    let inside = between_quotes(token);
    let bytes = unescaped(alloc, inside.as_bytes())?;
    match str::from_utf8(&bytes) {
        Ok(text) => new_text(alloc, text),
        // what a text stands for is UTF-8, as the text is
        Err(_) => unreachable!(),
    }
}

/// A text in memory of its own, which is no longer than a script may be.
pub(crate) fn new_text(alloc: Global, text: &str) -> Result<Text, Stop>
    requires { length text.now ≤ most_script_bytes }
    ensures { IsMade (λ made. made) text.now result }
{
    match Text::new(alloc, text) {
        Ok(text) => Ok(text),
        Err(BuildFault::NoMemory) => Err(Stop::NoMemory),
        // so many bytes are within the limit of texts
        Err(BuildFault::TooDeep | BuildFault::TooLarge { .. }) => unreachable!(),
    }
}

/// The number that the digits write, which is one of this language.
pub(crate) fn number_of(digits: &str) -> Num
    requires number { IsNumber digits.now }
    requires small { number_value digits.now ≤ most_number }
    ensures { result ≡ pos (number_value digits.now) }
{
    let Ok(value) = digits.parse::<u64>() else {
        unreachable!()
    };
    match Num::new(value as i64) {
        Ok(number) => number,
        Err(_) => unreachable!(),
    }
}
