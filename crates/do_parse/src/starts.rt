//! What begins with a token, told by its kind.
ghost use Rattle.std.specs.Prelude.{◌≡◌};
ghost use Rattle.do_parse.specs.Starts as spec;

use do_lex::{Keyword, Kind, Mark};
use do_tree::Binding;

/// What an expression begins with.
#[derive(Clone, Copy, Debug, PartialEq, Eq)]
pub(crate) enum ExprStart {
    Minus,
    Not,
    Await,
    Number,
    Text,
    True,
    False,
    Null,
    Undefined,
    This,
    Name,
    Group,
    List,
    Record,
    New,
    /// No expression begins so.
    Nothing,
}

/// What a statement begins with.
#[derive(Clone, Copy, Debug, PartialEq, Eq)]
pub(crate) enum StmtStart {
    Block,
    If,
    While,
    For,
    Try,
    Throw,
    Return,
    Break,
    Continue,
    /// An expression, or no statement.
    Simple,
}

/// What is written behind a place.
#[derive(Clone, Copy, Debug, PartialEq, Eq)]
pub(crate) enum WriteStart {
    Assign,
    AddAssign,
    SubAssign,
    Increment,
    Decrement,
    Nothing,
}

fn expr_mark(mark: Mark) -> ExprStart
    ensures { result ≡ spec.expr_mark mark }
{
    match mark {
        Mark::Minus => ExprStart::Minus,
        Mark::Not => ExprStart::Not,
        Mark::OpenParen => ExprStart::Group,
        Mark::OpenBracket => ExprStart::List,
        Mark::OpenBrace => ExprStart::Record,
        _ => ExprStart::Nothing,
    }
}

fn expr_key(keyword: Keyword) -> ExprStart
    ensures { result ≡ spec.expr_key keyword }
{
    match keyword {
        Keyword::Await => ExprStart::Await,
        Keyword::True => ExprStart::True,
        Keyword::False => ExprStart::False,
        Keyword::Null => ExprStart::Null,
        Keyword::Undefined => ExprStart::Undefined,
        Keyword::This => ExprStart::This,
        Keyword::New => ExprStart::New,
        _ => ExprStart::Nothing,
    }
}

/// What expression begins with a token of this kind.
pub(crate) fn expr_start(kind: Option<Kind>) -> ExprStart
    ensures { result ≡ spec.expr_start kind }
{
    match kind {
        Some(Kind::Word) => ExprStart::Name,
        Some(Kind::Number) => ExprStart::Number,
        Some(Kind::Text) => ExprStart::Text,
        Some(Kind::Mark(mark)) => expr_mark(mark),
        Some(Kind::Keyword(keyword)) => expr_key(keyword),
        None => ExprStart::Nothing,
    }
}

fn stmt_key(keyword: Keyword) -> StmtStart
    ensures { result ≡ spec.stmt_key keyword }
{
    match keyword {
        Keyword::If => StmtStart::If,
        Keyword::While => StmtStart::While,
        Keyword::For => StmtStart::For,
        Keyword::Try => StmtStart::Try,
        Keyword::Throw => StmtStart::Throw,
        Keyword::Return => StmtStart::Return,
        Keyword::Break => StmtStart::Break,
        Keyword::Continue => StmtStart::Continue,
        _ => StmtStart::Simple,
    }
}

/// What statement begins with a token of this kind.
pub(crate) fn stmt_start(kind: Option<Kind>) -> StmtStart
    ensures { result ≡ spec.stmt_start kind }
{
    match kind {
        Some(Kind::Mark(Mark::OpenBrace)) => StmtStart::Block,
        Some(Kind::Keyword(keyword)) => stmt_key(keyword),
        _ => StmtStart::Simple,
    }
}

/// The word of a declaration, where the item is one.
pub(crate) fn binding_start(kind: Option<Kind>) -> Option<Binding>
    ensures { result ≡ spec.binding_start kind }
{
    match kind {
        Some(Kind::Keyword(Keyword::Let)) => Some(Binding::Let),
        Some(Kind::Keyword(Keyword::Const)) => Some(Binding::Const),
        _ => None,
    }
}

/// What is written behind a place.
pub(crate) fn write_start(kind: Option<Kind>) -> WriteStart
    ensures { result ≡ spec.write_start kind }
{
    match kind {
        Some(Kind::Mark(Mark::Assign)) => WriteStart::Assign,
        Some(Kind::Mark(Mark::AddAssign)) => WriteStart::AddAssign,
        Some(Kind::Mark(Mark::SubAssign)) => WriteStart::SubAssign,
        Some(Kind::Mark(Mark::Increment)) => WriteStart::Increment,
        Some(Kind::Mark(Mark::Decrement)) => WriteStart::Decrement,
        _ => WriteStart::Nothing,
    }
}
