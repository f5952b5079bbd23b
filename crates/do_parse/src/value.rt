//! Expressions: literals, names, and what stands in brackets.
ghost use Rattle.std.specs.Prelude.{◌≡◌, ◌≤◌, ◌+◌};
ghost use Rattle.do_lex.specs.declared.kind.Kind.TheVariants as kinds;
ghost use Rattle.do_lex.specs.declared.kind.Mark.TheVariants as marks;
ghost use Rattle.do_lex.specs.declared.kind.Keyword.TheVariants as keys;
ghost use Rattle.do_parse.specs.Follow.{behind_option, behind_element};
ghost use Rattle.do_parse.specs.Lists.{BeginsWith, CommaList, IsOnePair, Starting};
ghost use Rattle.do_parse.specs.Parsed.{Parses, Anything, ends_by};
ghost use Rattle.do_parse.specs.Pieces.{IsKeyPair, IsOptionValue, IsPairValue, bool_key};
ghost use Rattle.do_parse.specs.Then.{with_tree};
ghost use Rattle.do_parse.specs.Trees.{expr_at, exprs_at, pairs_at, pair_of, option_expr_at};
ghost use Rattle.do_tree.specs.Grammar.{IsExpr, IsPrim, IsOptionExpr};
ghost use Rattle.do_tree.specs.Seen.{named_of};

use crate::cursor::Cursor;
use crate::level::bool_key as key_of;
use crate::made::{
    boolean, group, list, new_error, null, number, record, text, this, undefined, variable,
};
use crate::starts::ExprStart;
use crate::stop::Stop;
use do_lex::{Keyword, Kind, Mark};
use do_tree::{Expr, Name, Pair};
use std::sync::Arc;

impl<'a> Cursor<'a> {
    /// A value without operators and steps.
    #[cycle(parser)]
    pub(crate) fn prim(&mut self, depth: u32) -> Result<Arc<Expr>, Stop>
        requires { depth ≤ 64 }
        ensures { Parses (IsPrim depth) Anything self.old self.new (with_tree expr_at result) }
    {
        match self.expr_start() {
            ExprStart::Number => self.number(depth),
            ExprStart::Text => self.text_value(depth),
            ExprStart::True => self.boolean(true, depth),
            ExprStart::False => self.boolean(false, depth),
            ExprStart::Null => self.null(depth),
            ExprStart::Undefined => self.undefined(depth),
            ExprStart::This => self.this(depth),
            ExprStart::Name => self.variable(depth),
            ExprStart::Group => self.group(depth),
            ExprStart::List => self.list(depth),
            ExprStart::Record => self.record(depth),
            ExprStart::New => self.new_error(depth),
            ExprStart::Minus | ExprStart::Not | ExprStart::Await | ExprStart::Nothing => {
                Err(Stop::Unexpected)
            }
        }
    }

    fn text_value(&mut self, depth: u32) -> Result<Arc<Expr>, Stop>
        requires { depth ≤ 64 }
        ensures { Parses (Starting kinds.Text (IsPrim depth)) Anything self.old self.new (with_tree expr_at result) }
    {
        let value = self.text(depth)?;
        text(self.alloc(), value)
    }

    fn boolean(&mut self, value: bool, depth: u32) -> Result<Arc<Expr>, Stop>
        requires { depth ≤ 64 }
        ensures { Parses (Starting (kinds.Keyword (bool_key value)) (IsPrim depth)) Anything self.old self.new (with_tree expr_at result) }
    {
        let at = self.key(key_of(value), depth)?;
        boolean(self.alloc(), at, value)
    }

    fn null(&mut self, depth: u32) -> Result<Arc<Expr>, Stop>
        requires { depth ≤ 64 }
        ensures { Parses (Starting (kinds.Keyword keys.Null) (IsPrim depth)) Anything self.old self.new (with_tree expr_at result) }
    {
        let at = self.key(Keyword::Null, depth)?;
        null(self.alloc(), at)
    }

    fn undefined(&mut self, depth: u32) -> Result<Arc<Expr>, Stop>
        requires { depth ≤ 64 }
        ensures { Parses (Starting (kinds.Keyword keys.Undefined) (IsPrim depth)) Anything self.old self.new (with_tree expr_at result) }
    {
        let at = self.key(Keyword::Undefined, depth)?;
        undefined(self.alloc(), at)
    }

    fn this(&mut self, depth: u32) -> Result<Arc<Expr>, Stop>
        requires { depth ≤ 64 }
        ensures { Parses (Starting (kinds.Keyword keys.This) (IsPrim depth)) Anything self.old self.new (with_tree expr_at result) }
    {
        let at = self.key(Keyword::This, depth)?;
        this(self.alloc(), at)
    }

    fn variable(&mut self, depth: u32) -> Result<Arc<Expr>, Stop>
        requires { depth ≤ 64 }
        ensures { Parses (Starting kinds.Word (IsPrim depth)) Anything self.old self.new (with_tree expr_at result) }
    {
        let name = self.name(depth)?;
        variable(self.alloc(), name)
    }

    /// An expression in parentheses.
    #[cycle(parser)]
    fn group(&mut self, depth: u32) -> Result<Arc<Expr>, Stop>
        requires { depth ≤ 64 }
        ensures { Parses (Starting (kinds.Mark marks.OpenParen) (IsPrim depth)) Anything self.old self.new (with_tree expr_at result) }
    {
        let at = self.mark(Mark::OpenParen, depth)?;
        let inside = self.expr(depth + 1)?;
        self.mark(Mark::CloseParen, depth)?;
        group(self.alloc(), at, inside)
    }

    #[cycle(parser)]
    fn list(&mut self, depth: u32) -> Result<Arc<Expr>, Stop>
        requires { depth ≤ 64 }
        ensures { Parses (Starting (kinds.Mark marks.OpenBracket) (IsPrim depth)) Anything self.old self.new (with_tree expr_at result) }
    {
        let at = self.mark(Mark::OpenBracket, depth)?;
        let items = self.exprs(depth)?;
        self.mark(Mark::CloseBracket, depth)?;
        list(self.alloc(), at, items)
    }

    /// The items of a list, up to its closing bracket.
    #[cycle(parser)]
    fn exprs(&mut self, depth: u32) -> Result<Vec<Arc<Expr>>, Stop>
        requires { depth ≤ 64 }
        ensures { Parses (CommaList (IsExpr (depth + 1)) depth) (BeginsWith (kinds.Mark marks.CloseBracket))
            self.old self.new (with_tree (λ items. exprs_at items.items) result) }
    {
        let mut items = Vec::new(self.alloc());
        while !self.next_is(Kind::Mark(Mark::CloseBracket)) {
            let item = self.expr(depth + 1)?;
            items.push(item)?;
            if !self.next_is(Kind::Mark(Mark::Comma)) {
                return Ok(items);
            }
            self.mark(Mark::Comma, depth)?;
        }
        Ok(items)
    }

    #[cycle(parser)]
    fn record(&mut self, depth: u32) -> Result<Arc<Expr>, Stop>
        requires { depth ≤ 64 }
        ensures { Parses (Starting (kinds.Mark marks.OpenBrace) (IsPrim depth)) Anything self.old self.new (with_tree expr_at result) }
    {
        let at = self.mark(Mark::OpenBrace, depth)?;
        let pairs = self.pairs(depth)?;
        self.mark(Mark::CloseBrace, depth)?;
        record(self.alloc(), at, pairs)
    }

    /// The pairs of a record, up to its closing brace.
    #[cycle(parser)]
    fn pairs(&mut self, depth: u32) -> Result<Vec<Pair>, Stop>
        requires { depth ≤ 64 }
        ensures { Parses (CommaList (IsOnePair depth) depth) (BeginsWith (kinds.Mark marks.CloseBrace))
            self.old self.new (with_tree (λ pairs. pairs_at pairs.items) result) }
    {
        let mut pairs = Vec::new(self.alloc());
        while !self.next_is(Kind::Mark(Mark::CloseBrace)) {
            let pair = self.pair(depth)?;
            pairs.push(pair)?;
            if !self.next_is(Kind::Mark(Mark::Comma)) {
                return Ok(pairs);
            }
            self.mark(Mark::Comma, depth)?;
        }
        Ok(pairs)
    }

    /// A pair: a key with its value, or a name alone.
    #[cycle(parser)]
    fn pair(&mut self, depth: u32) -> Result<Pair, Stop>
        requires { depth ≤ 64 }
        ensures { Parses (IsOnePair depth) (ends_by (behind_element marks.CloseBrace)) self.old self.new (with_tree pair_of result) }
    {
        if self.next_is(Kind::Text) {
            return self.text_pair(depth);
        }
        if self.next_is(Kind::Word) {
            return self.name_pair(depth);
        }
        self.keyword_pair(depth)
    }

    #[cycle(parser)]
    fn text_pair(&mut self, depth: u32) -> Result<Pair, Stop>
        requires { depth ≤ 64 }
        ensures { Parses (Starting kinds.Text (IsOnePair depth)) (ends_by (behind_element marks.CloseBrace)) self.old self.new (with_tree pair_of result) }
    {
        let key = self.text(depth)?;
        let value = self.pair_value(depth)?;
        Ok(Pair {
            key,
            value: Some(value),
        })
    }

    /// A pair whose key is a name, which may be all of it.
    #[cycle(parser)]
    fn name_pair(&mut self, depth: u32) -> Result<Pair, Stop>
        requires { depth ≤ 64 }
        ensures { Parses (Starting kinds.Word (IsOnePair depth)) (ends_by (behind_element marks.CloseBrace)) self.old self.new (with_tree pair_of result) }
    {
        let key = self.name(depth)?;
        let value = self.option_value(depth)?;
        Ok(Pair { key, value })
    }

    #[cycle(parser)]
    fn keyword_pair(&mut self, depth: u32) -> Result<Pair, Stop>
        requires { depth ≤ 64 }
        ensures { Parses (IsKeyPair depth) (ends_by (behind_element marks.CloseBrace)) self.old self.new (with_tree pair_of result) }
    {
        let key = self.any_word(depth)?;
        let value = self.pair_value(depth)?;
        Ok(Pair {
            key,
            value: Some(value),
        })
    }

    /// `: VALUE`, where it stands.
    #[cycle(parser)]
    fn option_value(&mut self, depth: u32) -> Result<Option<Arc<Expr>>, Stop>
        requires { depth ≤ 64 }
        ensures { Parses (IsOptionValue depth) (ends_by (behind_element marks.CloseBrace)) self.old self.new (with_tree option_expr_at result) }
    {
        if self.next_is(Kind::Mark(Mark::Colon)) {
            let value = self.pair_value(depth)?;
            Ok(Some(value))
        } else {
            Ok(None)
        }
    }

    #[cycle(parser)]
    fn pair_value(&mut self, depth: u32) -> Result<Arc<Expr>, Stop>
        requires { depth ≤ 64 }
        ensures { Parses (IsPairValue depth) (ends_by (behind_element marks.CloseBrace)) self.old self.new (with_tree expr_at result) }
    {
        self.mark(Mark::Colon, depth)?;
        self.expr(depth + 1)
    }

    /// `new Error(MESSAGE)`, where the message may be missing.
    #[cycle(parser)]
    fn new_error(&mut self, depth: u32) -> Result<Arc<Expr>, Stop>
        requires { depth ≤ 64 }
        ensures { Parses (Starting (kinds.Keyword keys.New) (IsPrim depth)) Anything self.old self.new (with_tree expr_at result) }
    {
        let at = self.key(Keyword::New, depth)?;
        self.word("Error", depth)?;
        self.mark(Mark::OpenParen, depth)?;
        let message = self.option_expr(depth)?;
        self.mark(Mark::CloseParen, depth)?;
        new_error(self.alloc(), at, message)
    }

    /// An expression, where the next token begins one.
    #[cycle(parser)]
    pub(crate) fn option_expr(&mut self, depth: u32) -> Result<Option<Arc<Expr>>, Stop>
        requires { depth ≤ 64 }
        ensures { Parses (IsOptionExpr depth) (ends_by behind_option) self.old self.new (with_tree option_expr_at result) }
    {
        match self.expr_start() {
            ExprStart::Nothing => Ok(None),
            _ => {
                let value = self.expr(depth + 1)?;
                Ok(Some(value))
            }
        }
    }
}
