//! The inside of texts.
ghost use Rattle.std.specs.Prelude.{◌≡◌, ℕ, IfSome, IfNone};
ghost use Rattle.do_lex.specs.Lexemes.{IsInside, IsUnit, escapes_of};
ghost use Rattle.do_lex.specs.Longest.{IsLongest};

use crate::bytes::is_line_end;

/// Which characters may follow a backslash.
#[derive(Clone, Copy)]
pub(crate) enum Escapes {
    /// Any, but for the end of a line.
    Any,
    /// The six of the language.
    Known,
}

impl Escapes {
    fn allow(self, b: u8) -> bool
        ensures { result ≡ escapes_of self b }
    {
        match self {
            Escapes::Any => !is_line_end(b),
            Escapes::Known => {
                b == b'\\' || b == b'"' || b == b'\'' || b == b'n' || b == b'r' || b == b't'
            }
        }
    }
}

/// How many bytes the plain byte or the escape at the front has.
fn unit_len(bytes: &[u8], quote: u8, escapes: Escapes) -> Option<usize>
    ensures found { IfSome result (λ n. IsUnit quote (escapes_of escapes) bytes.now n) }
    ensures none { IfNone result ((n : ℕ) → IsUnit quote (escapes_of escapes) bytes.now n → ⊥) }
{
    let first = *bytes.first()?;
    if first == b'\\' {
        let second = *bytes.get(1)?;
        if escapes.allow(second) { Some(2) } else { None }
    } else if first == quote || is_line_end(first) {
        None
    } else {
        Some(1)
    }
}

/// How many bytes at the front are plain or belong to an escape.
pub(crate) fn inside_len(bytes: &[u8], quote: u8, escapes: Escapes) -> usize
    ensures { IsLongest (IsInside quote (escapes_of escapes)) bytes.now result }
{
    let mut len = 0;
    while let Some(n) = unit_len(&bytes[len..], quote, escapes) {
        len += n;
    }
    len
}
