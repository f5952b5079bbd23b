//! Expressions: operators before a value, and paths.
ghost use Rattle.std.specs.Prelude.{◌≡◌, ◌≤◌, ◌+◌};
ghost use Rattle.do_lex.specs.declared.kind.Kind.TheVariants as kinds;
ghost use Rattle.do_lex.specs.declared.kind.Mark.TheVariants as marks;
ghost use Rattle.do_lex.specs.declared.kind.Keyword.TheVariants as keys;
ghost use Rattle.do_parse.specs.Chained.{IsStepped};
ghost use Rattle.do_parse.specs.Follow.{behind_un, behind_element};
ghost use Rattle.do_parse.specs.Lists.{BeginsWith, CommaList, IsLink, IsOneArg, Repeat, Starting};
ghost use Rattle.do_parse.specs.Parsed.{Parses, Anything, ends_by};
ghost use Rattle.do_parse.specs.Pieces.{IsCallbackHead};
ghost use Rattle.do_parse.specs.Starts as starts;
ghost use Rattle.do_parse.specs.Then.{Placed, with_tree};
ghost use Rattle.do_parse.specs.Trees.{expr_at, links_at, link_of, args_at, arg_of, head_of};
ghost use Rattle.do_tree.specs.Grammar.{IsUn, IsPost, IsOptionName};
ghost use Rattle.do_tree.specs.Seen.{option_named_of};

use crate::cursor::Cursor;
use crate::expr::MOST_INSIDE;
use crate::made::{awaited, path, unary};
use crate::nodes::callback_of;
use crate::starts::ExprStart;
use crate::stop::Stop;
use do_lex::{Keyword, Kind, Mark};
use do_tree::{Arg, Expr, Link, Name};
use do_value::UnOp;
use std::sync::Arc;

/// `async (NAME) =>`, with the place of its first token.
#[derive(Drop)]
pub(crate) struct CallbackHead {
    pub(crate) at: u32,
    pub(crate) parameter: Option<Name>,
}

impl<'a> Cursor<'a> {
    /// An operator before a value, or a value with its path.
    #[cycle(parser)]
    pub(crate) fn un(&mut self, depth: u32) -> Result<Arc<Expr>, Stop>
        requires { depth ≤ 65 }
        ensures { Parses (IsUn depth) (ends_by behind_un) self.old self.new (with_tree expr_at result) }
    {
        if depth > MOST_INSIDE {
            return Err(self.too_deep());
        }
        match self.expr_start() {
            ExprStart::Minus => self.negative(depth),
            ExprStart::Not => self.opposite(depth),
            ExprStart::Await => self.awaiting(depth),
            _ => self.post(depth),
        }
    }

    #[cycle(parser)]
    fn negative(&mut self, depth: u32) -> Result<Arc<Expr>, Stop>
        requires { depth ≤ 64 }
        ensures { Parses (Starting (kinds.Mark marks.Minus) (IsUn depth)) (ends_by behind_un) self.old self.new (with_tree expr_at result) }
    {
        let at = self.mark(Mark::Minus, depth)?;
        let value = self.un(depth + 1)?;
        unary(self.alloc(), at, UnOp::Neg, value)
    }

    #[cycle(parser)]
    fn opposite(&mut self, depth: u32) -> Result<Arc<Expr>, Stop>
        requires { depth ≤ 64 }
        ensures { Parses (Starting (kinds.Mark marks.Not) (IsUn depth)) (ends_by behind_un) self.old self.new (with_tree expr_at result) }
    {
        let at = self.mark(Mark::Not, depth)?;
        let value = self.un(depth + 1)?;
        unary(self.alloc(), at, UnOp::Not, value)
    }

    #[cycle(parser)]
    fn awaiting(&mut self, depth: u32) -> Result<Arc<Expr>, Stop>
        requires { depth ≤ 64 }
        ensures { Parses (Starting (kinds.Keyword keys.Await) (IsUn depth)) (ends_by behind_un) self.old self.new (with_tree expr_at result) }
    {
        let at = self.key(Keyword::Await, depth)?;
        let value = self.un(depth + 1)?;
        awaited(self.alloc(), at, value)
    }

    /// A value, and the steps of a path behind it.
    #[cycle(parser)]
    fn post(&mut self, depth: u32) -> Result<Arc<Expr>, Stop>
        requires { depth ≤ 64 }
        ensures { Parses (IsPost depth) (ends_by behind_un) self.old self.new (with_tree expr_at result) }
    {
        let at = self.place();
        let base = self.prim(depth)?;
        let steps = self.links(depth)?;
        if steps.as_slice().is_empty() {
            return Ok(base);
        }
        path(self.alloc(), at, base, steps)
    }

    /// The steps of a path.
    #[cycle(parser)]
    fn links(&mut self, depth: u32) -> Result<Vec<Link>, Stop>
        requires { depth ≤ 64 }
        ensures { Parses (Repeat (IsLink depth)) (ends_by behind_un) self.old self.new (with_tree (λ links. links_at links.items) result) }
    {
        let mut links = Vec::new(self.alloc());
        while begins_link(self.kind()) {
            let link = self.link(depth)?;
            links.push(link)?;
        }
        Ok(links)
    }

    /// One step of a path.
    #[cycle(parser)]
    fn link(&mut self, depth: u32) -> Result<Link, Stop>
        requires { depth ≤ 64 }
        ensures { Parses (IsLink depth) Anything self.old self.new (with_tree link_of result) }
    {
        if self.next_is(Kind::Mark(Mark::OpenBracket)) {
            return self.index(depth);
        }
        if self.next_is(Kind::Mark(Mark::OpenParen)) {
            return self.call(depth);
        }
        self.field(depth)
    }

    fn field(&mut self, depth: u32) -> Result<Link, Stop>
        requires { depth ≤ 64 }
        ensures { Parses (Starting (kinds.Mark marks.Dot) (IsLink depth)) Anything self.old self.new (with_tree link_of result) }
    {
        self.mark(Mark::Dot, depth)?;
        let name = self.any_word(depth)?;
        Ok(Link::Field(name))
    }

    #[cycle(parser)]
    fn index(&mut self, depth: u32) -> Result<Link, Stop>
        requires { depth ≤ 64 }
        ensures { Parses (Starting (kinds.Mark marks.OpenBracket) (IsLink depth)) Anything self.old self.new (with_tree link_of result) }
    {
        let at = self.mark(Mark::OpenBracket, depth)?;
        let index = self.expr(depth + 1)?;
        self.mark(Mark::CloseBracket, depth)?;
        Ok(Link::Index { at, index })
    }

    #[cycle(parser)]
    fn call(&mut self, depth: u32) -> Result<Link, Stop>
        requires { depth ≤ 64 }
        ensures { Parses (Starting (kinds.Mark marks.OpenParen) (IsLink depth)) Anything self.old self.new (with_tree link_of result) }
    {
        let at = self.mark(Mark::OpenParen, depth)?;
        let args = self.args(depth)?;
        self.mark(Mark::CloseParen, depth)?;
        Ok(Link::Call { at, args })
    }

    /// The arguments of a call, up to its closing parenthesis.
    #[cycle(parser)]
    fn args(&mut self, depth: u32) -> Result<Vec<Arg>, Stop>
        requires { depth ≤ 64 }
        ensures { Parses (CommaList (IsOneArg depth) depth) (BeginsWith (kinds.Mark marks.CloseParen))
            self.old self.new (with_tree (λ args. args_at args.items) result) }
    {
        let mut args = Vec::new(self.alloc());
        while !self.next_is(Kind::Mark(Mark::CloseParen)) {
            let arg = self.arg(depth)?;
            args.push(arg)?;
            if !self.next_is(Kind::Mark(Mark::Comma)) {
                return Ok(args);
            }
            self.mark(Mark::Comma, depth)?;
        }
        Ok(args)
    }

    /// An argument: an expression or a callback.
    #[cycle(parser)]
    fn arg(&mut self, depth: u32) -> Result<Arg, Stop>
        requires { depth ≤ 64 }
        ensures { Parses (IsOneArg depth) (ends_by (behind_element marks.CloseParen)) self.old self.new (with_tree arg_of result) }
    {
        if self.next_is(Kind::Keyword(Keyword::Async)) {
            self.callback(depth)
        } else {
            let value = self.expr(depth + 1)?;
            Ok(Arg::Value(value))
        }
    }

    #[cycle(parser)]
    fn callback(&mut self, depth: u32) -> Result<Arg, Stop>
        requires { depth ≤ 64 }
        ensures { Parses (Starting (kinds.Keyword keys.Async) (IsOneArg depth)) Anything self.old self.new (with_tree arg_of result) }
    {
        let head = self.callback_head(depth)?;
        let body = self.block(depth)?;
        callback_of(self.alloc(), head, body)
    }

    /// `async (NAME) =>`, where the name may be missing.
    fn callback_head(&mut self, depth: u32) -> Result<CallbackHead, Stop>
        requires { depth ≤ 64 }
        ensures { Parses (Placed (IsCallbackHead depth)) Anything self.old self.new (with_tree head_of result) }
    {
        let at = self.key(Keyword::Async, depth)?;
        self.mark(Mark::OpenParen, depth)?;
        let parameter = self.option_name(depth)?;
        self.mark(Mark::CloseParen, depth)?;
        self.mark(Mark::Arrow, depth)?;
        Ok(CallbackHead { at, parameter })
    }

    fn option_name(&mut self, depth: u32) -> Result<Option<Name>, Stop>
        requires { depth ≤ 64 }
        ensures { Parses (IsOptionName depth) (BeginsWith (kinds.Mark marks.CloseParen)) self.old self.new (with_tree option_named_of result) }
    {
        if self.next_is(Kind::Word) {
            let name = self.name(depth)?;
            Ok(Some(name))
        } else {
            Ok(None)
        }
    }
}

fn begins_link(kind: Option<Kind>) -> bool
    ensures { result ≡ starts.begins_link kind }
{
    match kind {
        Some(Kind::Mark(Mark::Dot | Mark::OpenBracket | Mark::OpenParen)) => true,
        _ => false,
    }
}
