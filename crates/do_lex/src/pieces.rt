//! Separators and tokens, one at a time, in bytes that need not be UTF-8.
ghost use Rattle.std.specs.Prelude.{◌≡◌, ◌==◌, ℕ, ◌+◌, ◌<◌, ◌≤◌, ◌^◌, ◌↔◌, drop, length, reverse, slice_index, IsTrue, IfSome, IfNone};
ghost use Rattle.std.specs.Char.{is_ascii_digit};
ghost use Rattle.std.specs.List.{prefix_len};
ghost use Rattle.do_value.specs.Limits.{most_number};
ghost use Rattle.do_lex.specs.Bytes as spec;
ghost use Rattle.do_lex.specs.Kind as spec_kind;
ghost use Rattle.do_lex.specs.Lexemes.{IsNumber, IsFirst, EndsAt, number_value};
ghost use Rattle.do_lex.specs.Ending.{end_of_text};
ghost use Rattle.do_lex.specs.Limits.{most_script_bytes};
ghost use Rattle.do_lex.specs.Longest.{IsLongest};
ghost use Rattle.do_lex.specs.Next.{opening_of, token, begins, IsSeparator, NoSeparator, IsWordAnswer, IsNumberAnswer, IsTextAnswer, mark_answer, Stands, Gives};

use crate::bytes::{
    is_blank, is_letter_or_digit, is_line_end, is_quote, is_word_byte, is_word_start,
};
use crate::fault::LexFault;
use crate::inside::{Escapes, inside_len};
use crate::kind::{Kind, mark_at, word_kind};
use do_value::MOST_NUMBER;
use std::str;

/// The most bytes that a script has.
pub const LONGEST_SCRIPT: usize = 262_144;

/// Where a token stands.
#[derive(Clone, Copy)]
pub struct Span {
    pub kind: Kind,
    pub at: usize,
    pub end: usize,
}

/// A token, none at the end of the script, or a fault.
pub(crate) type Answer = Result<Option<Span>, LexFault>;

/// What begins with some bytes.
#[derive(Clone, Copy)]
pub(crate) enum Opening {
    End,
    Blank,
    LineComment,
    BlockComment,
    Quote,
    Digit,
    Letter,
    Other,
}

fn opening_of(bytes: &[u8]) -> Opening
    ensures { result ≡ opening_of bytes.now }
{
    let Some(first) = bytes.first().copied() else {
        return Opening::End;
    };
    if is_blank(first) {
        Opening::Blank
    } else if is_quote(first) {
        Opening::Quote
    } else if first.is_ascii_digit() {
        Opening::Digit
    } else if is_word_start(first) {
        Opening::Letter
    } else if first == b'/' {
        match bytes.get(1) {
            Some(b'/') => Opening::LineComment,
            Some(b'*') => Opening::BlockComment,
            _ => Opening::Other,
        }
    } else {
        Opening::Other
    }
}

/// How many bytes stand before the end of the line.
fn line_len(bytes: &[u8]) -> usize
    ensures { result ≡ prefix_len (λ b. spec.is_in_line b) bytes.now }
{
    bytes.iter().take_while(|b| !is_line_end(**b)).count()
}

fn word_len(bytes: &[u8]) -> usize
    ensures { result ≡ prefix_len spec.is_word_byte bytes.now }
{
    bytes.iter().take_while(|b| is_word_byte(**b)).count()
}

fn digits_len(bytes: &[u8]) -> usize
    ensures { result ≡ prefix_len is_ascii_digit bytes.now }
{
    bytes.iter().take_while(|b| b.is_ascii_digit()).count()
}

/// How many bytes the longest number at the front has.
fn number_len(bytes: &[u8]) -> usize
    requires { opening_of bytes.now ≡ Opening.Digit }
    ensures { IsLongest IsNumber bytes.now result }
{
    if bytes.starts_with(b"0") {
        1
    } else {
        digits_len(bytes)
    }
}

/// Whether the digits stand for a number that is not too great.
fn fits(digits: &[u8]) -> bool
    requires { IsNumber digits.now }
    ensures { IsTrue result ↔ (number_value digits.now ≤ most_number) }
{
    let Ok(text) = str::from_utf8(digits) else {
        return false;
    };
    match text.parse::<u64>() {
        Ok(value) => value <= MOST_NUMBER as u64,
        Err(_) => false,
    }
}

/// Where the first `*/` begins.
fn comment_end(inside: &[u8]) -> Option<usize>
    ensures found { IfSome result (IsFirst (EndsAt inside.now)) }
    ensures within { IfSome result (λ i. i + 2 ≤ length inside.now) }
    ensures none { IfNone result ((i : ℕ) → EndsAt inside.now i → ⊥) }
{
    inside.windows(2).position(|pair| pair == b"*/".as_slice())
}

/// How many bytes the separator at the front has.
fn separator_len(bytes: &[u8]) -> Option<usize>
    ensures found { IfSome result (IsSeparator bytes.now) }
    ensures within { IfSome result (λ n. (0 < n) × (n ≤ length bytes.now)) }
    ensures none { IfNone result (NoSeparator bytes.now) }
{
    match opening_of(bytes) {
        Opening::Blank => Some(1),
        Opening::LineComment => Some(line_len(bytes)),
        Opening::BlockComment => Some(comment_end(&bytes[2..])? + 4),
        _ => None,
    }
}

/// The token of this kind that begins at a place and has `n` bytes.
fn token(kind: Kind, at: usize, n: usize) -> Answer
    requires { at + n < 2 ^ 64 }
    ensures { result ≡ token kind at n }
{
    Ok(Some(Span {
        kind,
        at,
        end: at + n,
    }))
}

/// Whether this byte comes first.
fn begins(bytes: &[u8], first: u8) -> bool
    ensures { result ≡ begins (λ b. b == first) bytes.now }
{
    match bytes.first() {
        Some(b) => *b == first,
        None => false,
    }
}

/// Whether a letter or a digit comes first.
fn goes_on(bytes: &[u8]) -> bool
    ensures { result ≡ begins spec.is_letter_or_digit bytes.now }
{
    match bytes.first() {
        Some(b) => is_letter_or_digit(*b),
        None => false,
    }
}

fn word(bytes: &[u8], at: usize) -> Answer
    requires opening { opening_of bytes.now ≡ Opening.Letter }
    requires room { at + length bytes.now ≤ most_script_bytes }
    ensures { IsWordAnswer bytes.now at result }
{
    let n = word_len(bytes);
    token(word_kind(&bytes[..n]), at, n)
}

fn number(bytes: &[u8], at: usize) -> Answer
    requires opening { opening_of bytes.now ≡ Opening.Digit }
    requires room { at + length bytes.now ≤ most_script_bytes }
    ensures { IsNumberAnswer bytes.now at result }
{
    let n = number_len(bytes);
    if !fits(&bytes[..n]) {
        Err(LexFault::LongNumber(at as u32))
    } else if goes_on(&bytes[n..]) {
        Err(LexFault::BadChar((at + n) as u32))
    } else {
        token(Kind::Number, at, n)
    }
}

fn text(bytes: &[u8], at: usize) -> Answer
    requires opening { opening_of bytes.now ≡ Opening.Quote }
    requires room { at + length bytes.now ≤ most_script_bytes }
    ensures { IsTextAnswer (slice_index bytes.now 0) (drop 1 bytes.now) at result }
{
    let quote = bytes[0];
    let inside = &bytes[1..];
    let n = inside_len(inside, quote, Escapes::Any);
    let good = inside_len(inside, quote, Escapes::Known);
    if !begins(&inside[n..], quote) {
        Err(LexFault::OpenText(at as u32))
    } else if !begins(&inside[good..], quote) {
        Err(LexFault::BadChar((at + 1 + good) as u32))
    } else {
        token(Kind::Text, at, good + 2)
    }
}

fn mark(bytes: &[u8], at: usize) -> Answer
    requires { at + length bytes.now ≤ most_script_bytes }
    ensures { result ≡ mark_answer (spec_kind.mark_at bytes.now) at }
{
    match mark_at(bytes) {
        Some(mark) => token(Kind::Mark(mark), at, mark.text().len()),
        None => Err(LexFault::BadChar(at as u32)),
    }
}

/// What the bytes at a place give, where no separator comes first.
fn answer_at(bytes: &[u8], at: usize) -> Answer
    requires no_separator { NoSeparator bytes.now }
    requires room { at + length bytes.now ≤ most_script_bytes }
    ensures { Stands bytes.now at result }
{
    match opening_of(bytes) {
        Opening::Letter => word(bytes, at),
        Opening::Digit => number(bytes, at),
        Opening::Quote => text(bytes, at),
        Opening::BlockComment => Err(LexFault::OpenText(at as u32)),
        Opening::Other => mark(bytes, at),
        // The two separators don't stand here.
        Opening::End | Opening::Blank | Opening::LineComment => Ok(None),
    }
}

/// What a script gives from a place on, taken byte by byte.
pub(crate) fn answer_from(text: &[u8], from: usize) -> Answer
    requires within { from ≤ length text.now }
    requires room { length text.now ≤ most_script_bytes }
    ensures { Gives (drop from text.now) from result }
{
    let mut at = from;
    while let Some(n) = separator_len(&text[at..]) {
        at += n;
    }
    answer_at(&text[at..], at)
}

/// How many bytes a text has, without the blanks that it ends in. A comment is no blank.
pub fn end_of_text(text: &[u8]) -> usize
    ensures value { result ≡ end_of_text text.now }
    ensures within { result ≤ length text.now }
{
    text.len() - blanks_behind(text)
}

/// How many blanks a text ends in.
fn blanks_behind(text: &[u8]) -> usize
    ensures blanks { result ≡ prefix_len spec.is_blank (reverse text.now) }
    ensures within { result ≤ length text.now }
{
    text.iter().rev().take_while(|b| is_blank(**b)).count()
}
