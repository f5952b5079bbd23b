//! The tokens that are left, and the phrases of one token.
ghost use Rattle.std.specs.Prelude.{◌≡◌, ◌<◌, ◌≤◌, ◌↔◌, ◌^◌, ℕ, List, Option, Some, IsTrue, drop, length, Ok, codes};
ghost use Rattle.do_lex.specs.declared.tokens.Token.{Token};
ghost use Rattle.do_lex.specs.declared.kind.Kind.TheVariants as kinds;
ghost use Rattle.do_lex.specs.Limits.{most_script_bytes};
ghost use Rattle.do_parse.specs.Parsed.{Parses, Anything};
ghost use Rattle.do_parse.specs.Sound.{AreSound};
ghost use Rattle.do_parse.specs.Starts as starts;
ghost use Rattle.do_parse.specs.Taken.{IsPeeked, IsTaken, token_next, IsName, IsAnyName, IsTextName, IsGivenText};
ghost use Rattle.do_parse.specs.Lists.{Starting};
ghost use Rattle.do_parse.specs.Trees.{expr_at};
ghost use Rattle.do_parse.specs.Then.{At, with_tree, IsMade};
ghost use Rattle.do_tree.specs.Grammar.{TakesMark, TakesKey, TakesWord, IsPrim};
ghost use Rattle.do_tree.specs.Seen.{named_of};

use crate::made::number;
use crate::starts::{ExprStart, expr_start};
use crate::stop::Stop;
use crate::text::{new_text, number_of, text_of};
use do_lex::{Keyword, Kind, Mark, Token};
use do_tree::{Expr, Name};
use std::alloc::Global;
use std::marker::Model;
use std::sync::Arc;

/// The tokens of a script that are left. Contracts see them as a list.
#[derive(Drop)]
pub(crate) struct Cursor<'a> {
    tokens: &'a [Token<'a>],
    at: usize,
    alloc: Global,
}

impl<'a> Model for Cursor<'a> {
    ghost use Rattle.std.specs.Prelude.{List, ◌≤◌, drop, length};
    ghost use Rattle.do_lex.specs.declared.tokens.Token.{Token};
    ghost use Rattle.do_parse.specs.Sound.{AreSound};

    ghost Value = { List Token };

    ghost view = { λ c. drop c.at c.tokens.now };

    ghost invariant = { λ c. (c.at ≤ length c.tokens.now) × AreSound c.tokens.now };
}

impl<'a> Cursor<'a> {
    /// All the tokens are left.
    pub(crate) fn new(alloc: Global, tokens: &'a [Token<'a>]) -> Cursor<'a>
        requires { AreSound tokens.now }
        ensures { result ≡ tokens.now }
    {
        Cursor {
            tokens,
            at: 0,
            alloc,
        }
    }

    /// Nothing is done here: the clause says what is known of the tokens that are left.
    pub(crate) fn sound(&self)
        ensures { AreSound self.now }
    {
        let _at = self.at;
    }

    /// Where the tree's nodes lie.
    pub(crate) fn alloc(&self) -> Global {
        self.alloc
    }

    /// The kind of the token that is next, `None` where none is left.
    pub(crate) fn kind(&self) -> Option<Kind>
        ensures { result ≡ starts.kind_next self.now }
    {
        match self.tokens.get(self.at) {
            Some(token) => Some(token.kind),
            None => None,
        }
    }

    /// The place of the token that is next, `None` where none is left.
    pub(crate) fn next(&self) -> Option<u32>
        ensures { result ≡ starts.at_next self.now }
    {
        match self.tokens.get(self.at) {
            Some(token) => Some(token.at),
            None => None,
        }
    }

    /// The place of the token that is next, 0 where none is left.
    pub(crate) fn place(&self) -> u32
        ensures { result ≡ starts.place_next self.now }
    {
        match self.tokens.get(self.at) {
            Some(token) => token.at,
            None => 0,
        }
    }

    /// Whether the next token has this kind.
    pub(crate) fn next_is(&self, kind: Kind) -> bool
        ensures { IsTrue result ↔ (starts.kind_next self.now ≡ Some kind) }
    {
        self.kind() == Some(kind)
    }

    /// What expression begins with the next token.
    pub(crate) fn expr_start(&self) -> ExprStart
        ensures { result ≡ starts.expr_start (starts.kind_next self.now) }
    {
        expr_start(self.kind())
    }

    /// The next token, where it has this kind.
    fn take(&mut self, kind: Kind) -> Result<Token<'a>, Stop>
        ensures { IsTaken kind self.old self.new result }
    {
        match self.tokens.get(self.at) {
            Some(token) if token.kind == kind => {
                let taken = *token;
                self.at += 1;
                Ok(taken)
            }
            _ => Err(Stop::Unexpected),
        }
    }

    /// The next token, where one is left.
    fn first(&self) -> Option<Token<'a>>
        ensures { result ≡ token_next self.now }
    {
        self.tokens.get(self.at).copied()
    }

    /// The next token stays, where it has this kind.
    fn peek(&self, kind: Kind) -> Result<Token<'a>, Stop>
        ensures { IsPeeked kind self.now result }
    {
        if !self.next_is(kind) {
            return Err(Stop::Unexpected);
        }
        match self.first() {
            Some(token) => Ok(token),
            None => Err(Stop::Unexpected),
        }
    }

    /// The next token is behind, where one was left.
    fn skip(&mut self)
        ensures { self.new ≡ drop 1 self.old }
    {
        if self.at < self.tokens.len() {
            self.at += 1;
        }
    }

    /// A mark, and its place.
    pub(crate) fn mark(&mut self, mark: Mark, depth: u32) -> Result<u32, Stop>
        requires { depth ≤ 64 }
        ensures { Parses (At (TakesMark mark depth)) Anything self.old self.new result }
    {
        let token = self.take(Kind::Mark(mark))?;
        Ok(token.at)
    }

    /// A keyword, and its place.
    pub(crate) fn key(&mut self, keyword: Keyword, depth: u32) -> Result<u32, Stop>
        requires { depth ≤ 64 }
        ensures { Parses (At (TakesKey keyword depth)) Anything self.old self.new result }
    {
        let token = self.take(Kind::Keyword(keyword))?;
        Ok(token.at)
    }

    /// A word that is given, and its place.
    pub(crate) fn word(&mut self, word: &str, depth: u32) -> Result<u32, Stop>
        requires { depth ≤ 64 }
        ensures { Parses (At (TakesWord word.now depth)) Anything self.old self.new result }
    {
        let token = self.peek(Kind::Word)?;
        if token.text == word {
            self.skip();
            return Ok(token.at);
        }
        Err(Stop::Unexpected)
    }

    /// A word that is no keyword.
    pub(crate) fn name(&mut self, depth: u32) -> Result<Name, Stop>
        requires { depth ≤ 64 }
        ensures { Parses (IsName depth) Anything self.old self.new (with_tree named_of result) }
    {
        self.sound();
        let token = self.take(Kind::Word)?;
        name_of(self.alloc, token.at, token.text)
    }

    /// Any word, a keyword too.
    pub(crate) fn any_word(&mut self, depth: u32) -> Result<Name, Stop>
        requires { depth ≤ 64 }
        ensures { Parses (IsAnyName depth) Anything self.old self.new (with_tree named_of result) }
    {
        self.sound();
        let Some(token) = self.first() else {
            return Err(Stop::Unexpected);
        };
        if !is_word(token.kind) {
            return Err(Stop::Unexpected);
        }
        self.skip();
        name_of(self.alloc, token.at, token.text)
    }

    /// A number.
    pub(crate) fn number(&mut self, depth: u32) -> Result<Arc<Expr>, Stop>
        requires { depth ≤ 64 }
        ensures { Parses (Starting kinds.Number (IsPrim depth)) Anything self.old self.new (with_tree expr_at result) }
    {
        self.sound();
        let token = self.take(Kind::Number)?;
        number(self.alloc, token.at, number_of(token.text))
    }

    /// A text, with what it stands for.
    pub(crate) fn text(&mut self, depth: u32) -> Result<Name, Stop>
        requires { depth ≤ 64 }
        ensures { Parses (IsTextName depth) Anything self.old self.new (with_tree named_of result) }
    {
        self.sound();
        let token = self.take(Kind::Text)?;
        let text = text_of(self.alloc, token.text)?;
        Ok(Name { at: token.at, text })
    }

    /// The text of the module that scripts import from.
    pub(crate) fn module_text(&mut self, depth: u32) -> Result<u32, Stop>
        requires { depth ≤ 64 }
        ensures { Parses (IsGivenText (codes "cloudflare:workers") depth) Anything self.old self.new result }
    {
        self.sound();
        let token = self.peek(Kind::Text)?;
        let found = text_of(self.alloc, token.text)?;
        if found.as_str() == "cloudflare:workers" {
            self.skip();
            return Ok(token.at);
        }
        Err(Stop::Unexpected)
    }
}

fn is_word(kind: Kind) -> bool
    ensures { result ≡ starts.is_word kind }
{
    match kind {
        Kind::Word | Kind::Keyword(_) => true,
        _ => false,
    }
}

/// A name in memory of its own, which is no longer than a script may be.
pub(crate) fn name_of(alloc: Global, at: u32, text: &str) -> Result<Name, Stop>
    requires { length text.now ≤ most_script_bytes }
    ensures { IsMade (λ name. named_of name) (record { at = at; text = text.now }) result }
{
    match new_text(alloc, text) {
        Ok(text) => Ok(Name { at, text }),
        Err(stop) => Err(stop),
    }
}
