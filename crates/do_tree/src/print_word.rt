//! The tokens of a text that is printed.
ghost use Rattle.std.specs.Prelude.{◌≡◌, [], ◌∷◌, ◌++◌, OnOk};
ghost use Rattle.do_lex.specs.Next.{begins};
ghost use Rattle.std.specs.List.{list_all};
ghost use Rattle.do_lex.specs.Bytes as bytes;
ghost use Rattle.do_lex.specs.declared.kind.Keyword.TheVariants as keys;
ghost use Rattle.do_lex.specs.declared.kind.Mark.TheVariants as marks;
ghost use Rattle.do_tree.specs.Grammar.{binding_key, chain_mark};
ghost use Rattle.do_tree.specs.Print.{a_key, a_mark, count_of, gap, is_word, keyword, mark_edge, needs_space, number, operator_mark, quote_of, quoted, quoted_in, text_of_byte, text_of_bytes, tokens_of_caught, tokens_of_option_name, unary_mark, word};
ghost use Rattle.do_tree.specs.Seen.{named_of, option_named_of};
ghost use Rattle.do_tree.specs.Written.{comma_if, write, write_all, written_of};

use crate::expr::Chain;
use crate::script::Name;
use crate::stmt::Binding;
use do_lex::{Keyword, Mark};
use do_value::{BinOp, Mem, NoMemory, Num, UnOp};

/// What a token ends with: whether it and the next one must be kept apart turns on it.
#[derive(Clone, Copy, Debug, PartialEq, Eq)]
pub enum Edge {
    /// A word or a keyword.
    Word,
    Number,
    /// The mark `-`.
    Minus,
    /// A text, or any other mark.
    Other,
}

/// The text that was printed, and what its last token ends with.
#[derive(Drop)]
pub struct Printed {
    pub edge: Edge,
    pub text: Vec<u8>,
}

fn is_letter(byte: u8) -> bool
    ensures { result ≡ bytes.is_word_start byte }
{
    byte.is_ascii_alphabetic() || byte == b'_' || byte == b'$'
}

fn is_word_byte(byte: u8) -> bool
    ensures { result ≡ bytes.is_word_byte byte }
{
    is_letter(byte) || byte.is_ascii_digit()
}

fn is_letter_or_digit(byte: u8) -> bool
    ensures { result ≡ bytes.is_letter_or_digit byte }
{
    byte.is_ascii_alphabetic() || byte.is_ascii_digit()
}

/// Whether a token would be cut otherwise if it stood at once behind one that ends so.
fn needs_space(before: Edge, text: &[u8]) -> bool
    ensures { result ≡ needs_space before text.now }
{
    match text {
        [] => false,
        [first, ..] => match before {
            Edge::Word => is_word_byte(*first),
            Edge::Number => is_letter_or_digit(*first),
            Edge::Minus => *first == b'-',
            Edge::Other => false,
        },
    }
}

/// What stands between the two.
fn gap(before: Edge, text: &[u8]) -> &'static str
    ensures { result.now ≡ gap before text.now }
{
    if needs_space(before, text) { " " } else { "" }
}

/// Appends the bytes.
fn append(out: &mut Vec<u8>, text: &str) -> Mem<()>
    ensures { OnOk result (out.new.items ≡ out.old.items ++ text.now) }
{
    match out.extend_from_slice(text.as_bytes()) {
        Ok(()) => Ok(()),
        Err(_) => Err(NoMemory),
    }
}

/// Appends the byte.
fn push(out: &mut Vec<u8>, byte: u8) -> Mem<()>
    ensures { OnOk result (out.new.items ≡ out.old.items ++ byte ∷ []) }
{
    match out.push(byte) {
        Ok(()) => Ok(()),
        Err(_) => Err(NoMemory),
    }
}

/// Prints the token.
fn put(out: &mut Printed, edge: Edge, text: &str) -> Mem<()>
    ensures { OnOk result (written_of out.new ≡ write (written_of out.old) (record { edge = edge; text = text.now })) }
{
    append(&mut out.text, gap(out.edge, text.as_bytes()))?;
    append(&mut out.text, text)?;
    out.edge = edge;
    Ok(())
}

/// Prints the word.
pub fn put_word(out: &mut Printed, text: &str) -> Mem<()>
    ensures { OnOk result (written_of out.new ≡ write (written_of out.old) (word text.now)) }
{
    put(out, Edge::Word, text)
}

/// Prints the keyword.
pub fn put_key(out: &mut Printed, key: Keyword) -> Mem<()>
    ensures { OnOk result (written_of out.new ≡ write (written_of out.old) (keyword key)) }
{
    put(out, Edge::Word, key.text())
}

/// Prints the mark.
pub fn put_mark(out: &mut Printed, mark: Mark) -> Mem<()>
    ensures { OnOk result (written_of out.new ≡ write (written_of out.old) (a_mark mark)) }
{
    put(out, mark_edge(mark), mark.text())
}

/// Prints the comma before an element, unless none has begun yet.
pub fn put_comma(out: &mut Printed, begun: bool) -> Mem<()>
    ensures { OnOk result (written_of out.new ≡ write_all (written_of out.old) (comma_if begun)) }
{
    if begun {
        return put_mark(out, Mark::Comma);
    }
    Ok(())
}

fn mark_edge(mark: Mark) -> Edge
    ensures { result ≡ mark_edge mark }
{
    match mark {
        Mark::Minus => Edge::Minus,
        _ => Edge::Other,
    }
}

/// Prints the name.
pub fn put_name(out: &mut Printed, name: &Name) -> Mem<()>
    ensures { OnOk result (written_of out.new ≡ write (written_of out.old) (word (named_of name.now).text)) }
{
    put_word(out, name.text.as_str())
}

/// Prints the number, in decimal.
pub fn put_number(out: &mut Printed, value: Num) -> Mem<()>
    ensures { OnOk result (written_of out.new ≡ write (written_of out.old) (number value)) }
{
    let number = value.get();
    let text = match format!(in *out.text.allocator(); "{number}") {
        Ok(text) => text,
        Err(_) => return Err(NoMemory),
    };
    put(out, Edge::Number, text.as_str())
}

/// How often the byte stands in the text.
fn count_of(byte: u8, text: &[u8]) -> usize
    ensures { result ≡ count_of byte text.now }
{
    text.iter().filter(|b| **b == byte).count()
}

/// The quote that the text has fewer of.
fn quote_of(text: &[u8]) -> u8
    ensures { result ≡ quote_of text.now }
{
    if count_of(b'"', text) <= count_of(b'\'', text) {
        b'"'
    } else {
        b'\''
    }
}

/// Appends the bytes of a text that stands between these quotes.
fn append_escaped(out: &mut Vec<u8>, quote: u8, text: &[u8]) -> Mem<()>
    ensures { OnOk result (out.new.items ≡ out.old.items ++ text_of_bytes quote text.now) }
{
    for byte in text {
        append_byte(out, quote, *byte)?;
    }
    Ok(())
}

/// Appends a byte of a text, as its escape where it needs one.
fn append_byte(out: &mut Vec<u8>, quote: u8, byte: u8) -> Mem<()>
    ensures { OnOk result (out.new.items ≡ out.old.items ++ text_of_byte quote byte) }
{
    if byte == b'\\' || byte == quote {
        push(out, b'\\')?;
        return push(out, byte);
    }
    match byte {
        b'\n' => append(out, "\\n"),
        b'\r' => append(out, "\\r"),
        _ => push(out, byte),
    }
}

/// Appends the text between quotes.
fn append_quoted(out: &mut Vec<u8>, quote: u8, text: &[u8]) -> Mem<()>
    ensures { OnOk result (out.new.items ≡ out.old.items ++ quoted_in quote text.now) }
{
    push(out, quote)?;
    append_escaped(out, quote, text)?;
    push(out, quote)
}

/// Prints the text, between the quote that it has fewer of.
pub fn put_quoted(out: &mut Printed, text: &str) -> Mem<()>
    ensures { OnOk result (written_of out.new ≡ write (written_of out.old) (quoted text.now)) }
{
    let bytes = text.as_bytes();
    append_quoted(&mut out.text, quote_of(bytes), bytes)?;
    out.edge = Edge::Other;
    Ok(())
}

fn begins_as_word(text: &[u8]) -> bool
    ensures { result ≡ begins bytes.is_word_start text.now }
{
    match text {
        [] => false,
        [first, ..] => is_letter(*first),
    }
}

fn has_word_bytes(text: &[u8]) -> bool
    ensures { result ≡ list_all bytes.is_word_byte text.now }
{
    for byte in text {
        if !is_word_byte(*byte) {
            return false;
        }
    }
    true
}

/// Whether the text has the shape of a word.
fn is_word(text: &[u8]) -> bool
    ensures { result ≡ is_word text.now }
{
    begins_as_word(text) && has_word_bytes(text)
}

/// Prints the key of a pair: as a word where it can be.
pub fn put_record_key(out: &mut Printed, text: &str) -> Mem<()>
    ensures { OnOk result (written_of out.new ≡ write (written_of out.old) (a_key text.now)) }
{
    if is_word(text.as_bytes()) {
        return put_word(out, text);
    }
    put_quoted(out, text)
}

/// The mark between the operands of a chain.
pub fn chain_mark(chain: Chain) -> Mark
    ensures { result ≡ chain_mark chain }
{
    match chain {
        Chain::And => Mark::And,
        Chain::Or => Mark::Or,
        Chain::Coalesce => Mark::Coalesce,
    }
}

/// The mark of an operator.
pub fn operator_mark(op: BinOp) -> Mark
    ensures { result ≡ operator_mark op }
{
    match op {
        BinOp::Same => Mark::Same,
        BinOp::Differs => Mark::Differs,
        BinOp::Less => Mark::Less,
        BinOp::LessEq => Mark::LessEq,
        BinOp::Greater => Mark::Greater,
        BinOp::GreaterEq => Mark::GreaterEq,
        BinOp::Add => Mark::Plus,
        BinOp::Sub => Mark::Minus,
        BinOp::Mul => Mark::Star,
        BinOp::Div => Mark::Slash,
        BinOp::Rem => Mark::Percent,
    }
}

/// The mark of an operator of one operand.
pub fn unary_mark(op: UnOp) -> Mark
    ensures { result ≡ unary_mark op }
{
    match op {
        UnOp::Neg => Mark::Minus,
        UnOp::Not => Mark::Not,
    }
}

/// The word that binds a name.
pub fn binding_key(binding: Binding) -> Keyword
    ensures { result ≡ binding_key binding }
{
    match binding {
        Binding::Let => Keyword::Let,
        Binding::Const => Keyword::Const,
    }
}

/// Prints the name, if there is one.
pub fn put_option_name(out: &mut Printed, name: &Option<Name>) -> Mem<()>
    ensures { OnOk result (written_of out.new ≡ write_all (written_of out.old) (tokens_of_option_name (option_named_of name.now))) }
{
    match name {
        Some(name) => put_name(out, name),
        None => Ok(()),
    }
}

/// Prints the name that a `catch` has, if there is one.
pub fn put_caught(out: &mut Printed, name: &Option<Name>) -> Mem<()>
    ensures { OnOk result (written_of out.new ≡ write_all (written_of out.old) (tokens_of_caught (option_named_of name.now))) }
{
    match name {
        Some(name) => {
            put_mark(out, Mark::OpenParen)?;
            put_name(out, name)?;
            put_mark(out, Mark::CloseParen)
        }
        None => Ok(()),
    }
}

/// Prints the statement of this keyword alone.
pub fn put_exit(out: &mut Printed, key: Keyword) -> Mem<()>
    ensures { OnOk result (written_of out.new ≡ write_all (written_of out.old) (keyword key ∷ a_mark marks.Semicolon ∷ [])) }
{
    put_key(out, key)?;
    put_mark(out, Mark::Semicolon)
}

/// Prints what a `for` that binds a name by this keyword begins with.
pub fn put_for(out: &mut Printed, key: Keyword, name: &Name) -> Mem<()>
    ensures { OnOk result (written_of out.new ≡ write_all (written_of out.old)
        (keyword keys.For ∷ a_mark marks.OpenParen ∷ keyword key ∷ word (named_of name.now).text ∷ [])) }
{
    put_key(out, Keyword::For)?;
    put_mark(out, Mark::OpenParen)?;
    put_key(out, key)?;
    put_name(out, name)
}
