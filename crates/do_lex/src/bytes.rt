//! Classes of bytes.
ghost use Rattle.std.specs.Prelude.{◌≡◌};
ghost use Rattle.do_lex.specs.Bytes as spec;

/// Space, tab, CR and LF.
pub(crate) fn is_blank(b: u8) -> bool
    ensures { result ≡ spec.is_blank b }
{
    b == b' ' || b == b'\t' || b == b'\r' || b == b'\n'
}

/// CR and LF.
pub(crate) fn is_line_end(b: u8) -> bool
    ensures { result ≡ spec.is_line_end b }
{
    b == b'\r' || b == b'\n'
}

/// The two quotes that a text may stand in.
pub(crate) fn is_quote(b: u8) -> bool
    ensures { result ≡ spec.is_quote b }
{
    b == b'"' || b == b'\''
}

/// A byte that a word may begin with.
pub(crate) fn is_word_start(b: u8) -> bool
    ensures { result ≡ spec.is_word_start b }
{
    b.is_ascii_alphabetic() || b == b'_' || b == b'$'
}

/// A byte that a word may hold.
pub(crate) fn is_word_byte(b: u8) -> bool
    ensures { result ≡ spec.is_word_byte b }
{
    is_word_start(b) || b.is_ascii_digit()
}

/// A byte that may not follow a number at once.
pub(crate) fn is_letter_or_digit(b: u8) -> bool
    ensures { result ≡ spec.is_letter_or_digit b }
{
    b.is_ascii_alphabetic() || b.is_ascii_digit()
}
