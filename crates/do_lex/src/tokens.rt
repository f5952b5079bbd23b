//! The reader of tokens.
ghost use Rattle.std.specs.Prelude.{◌≡◌, ◌-◌, ◌<◌, ◌≤◌, length, take, slice_index, slice_range};
ghost use Rattle.std.specs.Str.Lossy.{utf8_valid_len};
ghost use Rattle.do_lex.specs.Limits.{most_script_bytes};
ghost use Rattle.do_lex.specs.Next.{IsNext, reach};

use crate::fault::LexFault;
use crate::kind::Kind;
use crate::pieces::{Answer, answer_from};
use std::marker::Model;
use std::str;

/// A token: its kind, the slice of the script that it is, and the places in bytes from 0 at which it
/// begins and past which it ends.
#[derive(Clone, Copy, Debug)]
pub struct Token<'a> {
    pub kind: Kind,
    pub text: &'a str,
    pub at: u32,
    pub end: u32,
}

/// Reads a script token by token, without memory.
#[derive(Drop)]
pub struct Tokens<'a> {
    text: &'a [u8],
    front: &'a str,
    at: usize,
}

impl<'a> Model for Tokens<'a> {
    ghost use Rattle.std.specs.Prelude.{◌≡◌, ◌≤◌, length, take};
    ghost use Rattle.std.specs.Str.Lossy.{utf8_valid_len};
    ghost use Rattle.do_lex.specs.Place.{Cursor};
    ghost use Rattle.do_lex.specs.Limits.{most_script_bytes};

    ghost Value = { Cursor };

    ghost view = { λ t. record { text = t.text.now; at = t.at } };

    ghost invariant = { λ t. (t.front.now ≡ take (utf8_valid_len t.text.now) t.text.now)
        × (length t.front.now ≡ utf8_valid_len t.text.now)
        × (t.at ≤ length t.front.now)
        × (length t.front.now ≤ length t.text.now)
        × (length t.text.now ≤ most_script_bytes) };
}

/// How far one has to read for an answer, in a script of `len` bytes.
fn reach(answer: Answer, len: usize) -> usize
    ensures { result ≡ reach len answer }
{
    match answer {
        Ok(Some(span)) => span.end,
        Ok(None) => len,
        Err(LexFault::BadChar(at) | LexFault::OpenText(at) | LexFault::LongNumber(at)) => {
            at as usize
        }
    }
}

/// The longest front that is well-formed UTF-8.
fn well_formed(text: &[u8]) -> &str
    ensures front { result.now ≡ take (utf8_valid_len text.now) text.now }
    ensures len { length result.now ≡ utf8_valid_len text.now }
    ensures within { length result.now ≤ length text.now }
{
    match str::from_utf8(text) {
        Ok(front) => front,
        Err(fault) => str::from_utf8(&text[..fault.valid_up_to()]).unwrap(),
    }
}

/// The part of a text from one place to another, each of them beside an ASCII byte.
fn part(front: &str, at: usize, end: usize) -> &str
    requires some { at < end }
    requires within { end ≤ length front.now }
    requires first { slice_index front.now at < 128 }
    requires last { slice_index front.now (end - 1) < 128 }
    ensures { result.now ≡ slice_range front.now at end }
{
    &front[at..end]
}

impl<'a> Tokens<'a> {
    ghost use Rattle.do_lex.specs.Place.{Cursor};
    ghost use Rattle.do_lex.specs.Cursor.{answer_of, IfToken, IfNoToken};

    /// A reader that begins at the first byte. The text may be any bytes, at most [`LONGEST_SCRIPT`](crate::LONGEST_SCRIPT).
    pub fn new(text: &'a [u8]) -> Tokens<'a>
        requires { length text.now ≤ most_script_bytes }
        ensures text { result.text ≡ text.now }
        ensures start { result.at ≡ 0 }
    {
        Tokens {
            text,
            front: well_formed(text),
            at: 0,
        }
    }

    /// The next token, `None` at the end of the script, or the first fault from here on. After a fault
    /// each further call gives that fault again, and after the end each gives `None`.
    pub fn next(&mut self) -> Result<Option<Token<'a>>, LexFault>
        // It is what the lexical grammar says.
        ensures exact { IsNext self.old.text self.old.at (answer_of result) }

        // A token's text is the slice of its span, and spans ascend.
        ensures slice { IfToken result (λ t. t.text.now ≡ slice_range self.old.text t.at t.end) }
        ensures ascends { IfToken result (λ t. self.old.at ≤ t.at) }
        ensures some { IfToken result (λ t. t.at < t.end) }
        ensures within { IfToken result (λ t. t.end ≤ length self.old.text) }

        // The reader goes on behind the token, and stays where there is none.
        ensures text { self.new.text ≡ self.old.text }
        ensures behind { IfToken result (λ t. self.new.at ≡ t.end) }
        ensures stays { IfNoToken result (self.new ≡ self.old) }

        // So each further call gives the same.
        ensures again { IfNoToken result (IsNext self.new.text self.new.at (answer_of result)) }
    {
        let answer = answer_from(self.text, self.at);
        let malformed = self.front.len();
        if malformed < reach(answer, self.text.len()) {
            return Err(LexFault::BadChar(malformed as u32));
        }
        match answer {
            Err(fault) => Err(fault),
            Ok(None) => Ok(None),
            Ok(Some(span)) => {
                self.at = span.end;
                Ok(Some(Token {
                    kind: span.kind,
                    text: part(self.front, span.at, span.end),
                    at: span.at as u32,
                    end: span.end as u32,
                }))
            }
        }
    }
}
