//! The public call.
ghost use Rattle.std.specs.Prelude.{◌≡◌, ◌<◌, IfOk, IfErr, Err, length};
ghost use Rattle.do_lex.specs.Limits.{most_script_bytes};
ghost use Rattle.do_parse.specs.Fault.{IsFault, of_token, wrong_at};
ghost use Rattle.do_tree.specs.Accepts.{IsScriptText};
ghost use Rattle.do_tree.specs.Seen.{script_of};
ghost use Rattle.do_tree.specs.Tree as tree;

use crate::cursor::Cursor;
use crate::cut::cut;
use crate::fault::{ParseFault, ParseKind};
use crate::stop::Stop;
use do_lex::{LONGEST_SCRIPT, LexFault, end_of_text};
use do_tree::Script;
use std::alloc::Global;

/// The tree of a script, or the first fault of the text. A text of more than 262,144 bytes is refused at once. Else the
/// first fault in the order of the text counts: a token's own fault, or a token for which no script begins with the tokens
/// up to it, or one that more than 64 phrases hold.
pub fn parse(alloc: Global, text: &[u8]) -> Result<Script, ParseFault>
    ensures accepts { IfOk result (λ script. IsScriptText text.now (script_of script)) }
    ensures only { IfOk result (λ script. (other : tree.Script) → IsScriptText text.now other → other ≡ script_of script) }
    ensures refuses { IfErr result (λ fault. IsFault text.now fault) }
    ensures too_long { most_script_bytes < length text.now
        → result ≡ Err (record { place = most_script_bytes; kind = ParseKind.TooLong }) }
{
    if text.len() > LONGEST_SCRIPT {
        return Err(ParseFault {
            place: LONGEST_SCRIPT as u32,
            kind: ParseKind::TooLong,
        });
    }
    let Ok(lexed) = cut(alloc, text) else {
        return Err(no_memory());
    };
    let mut cursor = Cursor::new(alloc, &lexed.tokens);
    match cursor.script() {
        Ok(script) => match lexed.fault {
            None => Ok(script),
            Some(fault) => Err(of_token(fault)),
        },
        Err(Stop::Unexpected) => {
            let end = end_of_text(text) as u32;
            Err(wrong_at(cursor.next(), lexed.fault, end))
        }
        Err(Stop::TooNested) => Err(ParseFault {
            place: cursor.place(),
            kind: ParseKind::TooNested,
        }),
        Err(Stop::NoMemory) => Err(no_memory()),
    }
}

fn no_memory() -> ParseFault
    ensures { result ≡ record { place = 0; kind = ParseKind.NoMemory } }
{
    ParseFault {
        place: 0,
        kind: ParseKind::NoMemory,
    }
}

/// The fault of a token.
fn of_token(fault: LexFault) -> ParseFault
    ensures { result ≡ of_token fault }
{
    match fault {
        LexFault::BadChar(place) => ParseFault {
            place,
            kind: ParseKind::BadChar,
        },
        LexFault::OpenText(place) => ParseFault {
            place,
            kind: ParseKind::OpenText,
        },
        LexFault::LongNumber(place) => ParseFault {
            place,
            kind: ParseKind::LongNumber,
        },
    }
}

/// The fault where no script begins with what is left: at the token that is next, else at the text's own fault, else at
/// the text's end.
fn wrong_at(next: Option<u32>, fault: Option<LexFault>, end: u32) -> ParseFault
    ensures { result ≡ wrong_at next fault end }
{
    match (next, fault) {
        (Some(place), _) => ParseFault {
            place,
            kind: ParseKind::Unexpected,
        },
        (None, Some(fault)) => of_token(fault),
        (None, None) => ParseFault {
            place: end,
            kind: ParseKind::Unexpected,
        },
    }
}
