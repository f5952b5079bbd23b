//! The kinds of tokens.
ghost use Rattle.std.specs.Prelude.{◌≡◌};
ghost use Rattle.do_lex.specs.Kind as spec;

/// What a token is.
#[derive(Clone, Copy, Debug, PartialEq, Eq)]
pub enum Kind {
    /// A word that is no keyword.
    Word,
    /// A keyword. After a dot and as a record's key it serves as a word.
    Keyword(Keyword),
    /// A whole number, in decimal digits without a leading zero.
    Number,
    /// A text, with its quotes.
    Text,
    /// A mark.
    Mark(Mark),
}

/// The keywords.
#[derive(Clone, Copy, Debug, PartialEq, Eq)]
pub enum Keyword {
    Import,
    Export,
    Class,
    Extends,
    Constructor,
    Super,
    Async,
    Await,
    Let,
    Const,
    If,
    Else,
    While,
    For,
    Try,
    Catch,
    Throw,
    Return,
    Break,
    Continue,
    True,
    False,
    Null,
    Undefined,
    This,
    New,
}

/// The marks, longest first.
#[derive(Clone, Copy, Debug, PartialEq, Eq)]
pub enum Mark {
    /// `===`
    Same,
    /// `!==`
    Differs,
    /// `=>`
    Arrow,
    /// `<=`
    LessEq,
    /// `>=`
    GreaterEq,
    /// `&&`
    And,
    /// `||`
    Or,
    /// `??`
    Coalesce,
    /// `++`
    Increment,
    /// `--`
    Decrement,
    /// `+=`
    AddAssign,
    /// `-=`
    SubAssign,
    /// `{`
    OpenBrace,
    /// `}`
    CloseBrace,
    /// `(`
    OpenParen,
    /// `)`
    CloseParen,
    /// `[`
    OpenBracket,
    /// `]`
    CloseBracket,
    /// `;`
    Semicolon,
    /// `,`
    Comma,
    /// `.`
    Dot,
    /// `:`
    Colon,
    /// `?`
    Question,
    /// `=`
    Assign,
    /// `<`
    Less,
    /// `>`
    Greater,
    /// `+`
    Plus,
    /// `-`
    Minus,
    /// `*`
    Star,
    /// `/`
    Slash,
    /// `%`
    Percent,
    /// `!`
    Not,
}

impl Keyword {
    /// Every keyword.
    pub const ALL: [Keyword; 26] = [
        Keyword::Import,
        Keyword::Export,
        Keyword::Class,
        Keyword::Extends,
        Keyword::Constructor,
        Keyword::Super,
        Keyword::Async,
        Keyword::Await,
        Keyword::Let,
        Keyword::Const,
        Keyword::If,
        Keyword::Else,
        Keyword::While,
        Keyword::For,
        Keyword::Try,
        Keyword::Catch,
        Keyword::Throw,
        Keyword::Return,
        Keyword::Break,
        Keyword::Continue,
        Keyword::True,
        Keyword::False,
        Keyword::Null,
        Keyword::Undefined,
        Keyword::This,
        Keyword::New,
    ];

    /// The word itself.
    pub fn text(self) -> &'static str
        ensures { result.now ≡ spec.keyword_text self }
    {
        match self {
            Keyword::Import => "import",
            Keyword::Export => "export",
            Keyword::Class => "class",
            Keyword::Extends => "extends",
            Keyword::Constructor => "constructor",
            Keyword::Super => "super",
            Keyword::Async => "async",
            Keyword::Await => "await",
            Keyword::Let => "let",
            Keyword::Const => "const",
            Keyword::If => "if",
            Keyword::Else => "else",
            Keyword::While => "while",
            Keyword::For => "for",
            Keyword::Try => "try",
            Keyword::Catch => "catch",
            Keyword::Throw => "throw",
            Keyword::Return => "return",
            Keyword::Break => "break",
            Keyword::Continue => "continue",
            Keyword::True => "true",
            Keyword::False => "false",
            Keyword::Null => "null",
            Keyword::Undefined => "undefined",
            Keyword::This => "this",
            Keyword::New => "new",
        }
    }
}

impl Mark {
    /// Every mark, longest first.
    pub const ALL: [Mark; 32] = [
        Mark::Same,
        Mark::Differs,
        Mark::Arrow,
        Mark::LessEq,
        Mark::GreaterEq,
        Mark::And,
        Mark::Or,
        Mark::Coalesce,
        Mark::Increment,
        Mark::Decrement,
        Mark::AddAssign,
        Mark::SubAssign,
        Mark::OpenBrace,
        Mark::CloseBrace,
        Mark::OpenParen,
        Mark::CloseParen,
        Mark::OpenBracket,
        Mark::CloseBracket,
        Mark::Semicolon,
        Mark::Comma,
        Mark::Dot,
        Mark::Colon,
        Mark::Question,
        Mark::Assign,
        Mark::Less,
        Mark::Greater,
        Mark::Plus,
        Mark::Minus,
        Mark::Star,
        Mark::Slash,
        Mark::Percent,
        Mark::Not,
    ];

    /// The mark's characters.
    pub fn text(self) -> &'static str
        ensures { result.now ≡ spec.mark_text self }
    {
        match self {
            Mark::Same => "===",
            Mark::Differs => "!==",
            Mark::Arrow => "=>",
            Mark::LessEq => "<=",
            Mark::GreaterEq => ">=",
            Mark::And => "&&",
            Mark::Or => "||",
            Mark::Coalesce => "??",
            Mark::Increment => "++",
            Mark::Decrement => "--",
            Mark::AddAssign => "+=",
            Mark::SubAssign => "-=",
            Mark::OpenBrace => "{",
            Mark::CloseBrace => "}",
            Mark::OpenParen => "(",
            Mark::CloseParen => ")",
            Mark::OpenBracket => "[",
            Mark::CloseBracket => "]",
            Mark::Semicolon => ";",
            Mark::Comma => ",",
            Mark::Dot => ".",
            Mark::Colon => ":",
            Mark::Question => "?",
            Mark::Assign => "=",
            Mark::Less => "<",
            Mark::Greater => ">",
            Mark::Plus => "+",
            Mark::Minus => "-",
            Mark::Star => "*",
            Mark::Slash => "/",
            Mark::Percent => "%",
            Mark::Not => "!",
        }
    }
}

/// The keyword that is this word.
fn keyword_of(word: &[u8]) -> Option<Keyword>
    ensures { result ≡ spec.keyword_of word.now }
{
    Keyword::ALL
        .iter()
        .copied()
        .find(|keyword| keyword.text().as_bytes() == word)
}

/// Whether the word is a keyword.
pub fn is_keyword(word: &str) -> bool
    ensures { result ≡ spec.is_keyword word.now }
{
    keyword_of(word.as_bytes()).is_some()
}

/// The kind of a word.
pub(crate) fn word_kind(word: &[u8]) -> Kind
    ensures { result ≡ spec.word_kind word.now }
{
    match keyword_of(word) {
        Some(keyword) => Kind::Keyword(keyword),
        None => Kind::Word,
    }
}

/// The longest mark that the bytes begin with.
pub(crate) fn mark_at(bytes: &[u8]) -> Option<Mark>
    ensures { result ≡ spec.mark_at bytes.now }
{
    Mark::ALL
        .iter()
        .copied()
        .find(|mark| bytes.starts_with(mark.text().as_bytes()))
}
