//! Statements: `for`, and expressions that are run or written to a place.
ghost use Rattle.std.specs.Prelude.{◌≡◌, ◌≤◌, ◌+◌};
ghost use Rattle.do_lex.specs.declared.kind.Kind.TheVariants as kinds;
ghost use Rattle.do_lex.specs.declared.kind.Keyword.TheVariants as keys;
ghost use Rattle.do_parse.specs.Follow.{behind_simple};
ghost use Rattle.do_parse.specs.Lists.{Starting};
ghost use Rattle.do_parse.specs.Parsed.{Parses, Anything, ends_by};
ghost use Rattle.do_parse.specs.Pieces.{IsForHead, IsForRest, IsForOfRest, IsMarkExpr, IsWrite, IsSimpleStmt};
ghost use Rattle.do_parse.specs.Taken.{IsBinding};
ghost use Rattle.do_parse.specs.Then.{with_tree};
ghost use Rattle.do_parse.specs.Trees.{bound_of, expr_at, simple_at, stmt_at, written_of};
ghost use Rattle.do_tree.specs.Grammar.{IsStmt, IsSimple};
ghost use Rattle.do_tree.specs.Seen.{named_of};

use crate::cursor::Cursor;
use crate::level::binding_key;
use crate::nodes::{for_of_steps, share_simple, share_stmt, simple_of};
use crate::starts::{WriteStart, write_start};
use crate::stop::Stop;
use do_lex::{Keyword, Kind, Mark};
use do_tree::{Binding, Expr, Name, Simple, Stmt, Write};
use std::sync::Arc;

/// `for (let NAME`, or with `const`, with the place of its first token.
#[derive(Drop)]
pub(crate) struct ForHead {
    pub(crate) at: u32,
    pub(crate) binding: Binding,
    pub(crate) name: Name,
}

impl<'a> Cursor<'a> {
    #[cycle(parser)]
    pub(crate) fn for_stmt(&mut self, depth: u32) -> Result<Arc<Stmt>, Stop>
        requires { depth ≤ 64 }
        ensures { Parses (Starting (kinds.Keyword keys.For) (IsStmt depth)) Anything self.old self.new (with_tree stmt_at result) }
    {
        let head = self.for_head(depth)?;
        let ForHead { at, binding, name } = head;
        if binding == Binding::Let && self.next_is(Kind::Mark(Mark::Assign)) {
            self.for_rest(at, name, depth)
        } else {
            self.for_of_rest(at, binding, name, depth)
        }
    }

    /// `for (let NAME`, or with `const`.
    fn for_head(&mut self, depth: u32) -> Result<ForHead, Stop>
        requires { depth ≤ 64 }
        ensures { Parses (IsForHead depth) Anything self.old self.new (with_tree bound_of result) }
    {
        let at = self.key(Keyword::For, depth)?;
        self.mark(Mark::OpenParen, depth)?;
        let binding = self.binding(depth)?;
        let name = self.name(depth)?;
        Ok(ForHead { at, binding, name })
    }

    /// The word that binds a name.
    fn binding(&mut self, depth: u32) -> Result<Binding, Stop>
        requires { depth ≤ 64 }
        ensures { Parses (IsBinding depth) Anything self.old self.new result }
    {
        let binding = if self.next_is(Kind::Keyword(Keyword::Const)) {
            Binding::Const
        } else {
            Binding::Let
        };
        self.key(binding_key(binding), depth)?;
        Ok(binding)
    }

    /// `= FIRST; TEST; STEP) BODY`.
    #[cycle(parser)]
    fn for_rest(&mut self, at: u32, name: Name, depth: u32) -> Result<Arc<Stmt>, Stop>
        requires { depth ≤ 64 }
        ensures { Parses (IsForRest depth at (named_of name)) Anything self.old self.new (with_tree stmt_at result) }
    {
        self.mark(Mark::Assign, depth)?;
        let first = self.expr_then(Mark::Semicolon, depth)?;
        let test = self.expr_then(Mark::Semicolon, depth)?;
        let step = self.simple(depth)?;
        self.mark(Mark::CloseParen, depth)?;
        let body = self.stmt(depth + 1)?;
        for_of_steps(self.alloc(), at, name, first, test, step, body)
    }

    /// `of LIST) BODY`.
    #[cycle(parser)]
    fn for_of_rest(
        &mut self,
        at: u32,
        binding: Binding,
        name: Name,
        depth: u32,
    ) -> Result<Arc<Stmt>, Stop>
        requires { depth ≤ 64 }
        ensures { Parses (IsForOfRest depth at binding (named_of name)) Anything self.old self.new (with_tree stmt_at result) }
    {
        self.word("of", depth)?;
        let list = self.expr_then(Mark::CloseParen, depth)?;
        let body = self.stmt(depth + 1)?;
        share_stmt(
            self.alloc(),
            Stmt::ForOf {
                at,
                binding,
                name,
                list,
                body,
            },
        )
    }

    /// An expression that is run, or a write, and its semicolon.
    #[cycle(parser)]
    pub(crate) fn simple_stmt(&mut self, depth: u32) -> Result<Arc<Stmt>, Stop>
        requires { depth ≤ 64 }
        ensures { Parses (IsSimpleStmt depth) Anything self.old self.new (with_tree stmt_at result) }
    {
        let simple = self.simple(depth)?;
        self.mark(Mark::Semicolon, depth)?;
        simple_of(self.alloc(), simple)
    }

    /// An expression that is run, or a write to a place.
    #[cycle(parser)]
    fn simple(&mut self, depth: u32) -> Result<Arc<Simple>, Stop>
        requires { depth ≤ 64 }
        ensures { Parses (IsSimple depth) (ends_by behind_simple) self.old self.new (with_tree simple_at result) }
    {
        let at = self.place();
        let place = self.expr(depth + 1)?;
        let write = self.write(depth)?;
        share_simple(self.alloc(), at, place, write)
    }

    /// What is written behind a place.
    #[cycle(parser)]
    fn write(&mut self, depth: u32) -> Result<Write, Stop>
        requires { depth ≤ 64 }
        ensures { Parses (IsWrite depth) (ends_by behind_simple) self.old self.new (with_tree written_of result) }
    {
        match write_start(self.kind()) {
            WriteStart::Assign => {
                let value = self.written(Mark::Assign, depth)?;
                Ok(Write::Value(value))
            }
            WriteStart::AddAssign => {
                let value = self.written(Mark::AddAssign, depth)?;
                Ok(Write::Sum(value))
            }
            WriteStart::SubAssign => {
                let value = self.written(Mark::SubAssign, depth)?;
                Ok(Write::Difference(value))
            }
            WriteStart::Increment => {
                self.mark(Mark::Increment, depth)?;
                Ok(Write::OneMore)
            }
            WriteStart::Decrement => {
                self.mark(Mark::Decrement, depth)?;
                Ok(Write::OneLess)
            }
            WriteStart::Nothing => Ok(Write::Nothing),
        }
    }

    /// A mark and the value behind it.
    #[cycle(parser)]
    fn written(&mut self, mark: Mark, depth: u32) -> Result<Arc<Expr>, Stop>
        requires { depth ≤ 64 }
        ensures { Parses (IsMarkExpr mark depth) (ends_by behind_simple) self.old self.new (with_tree expr_at result) }
    {
        self.mark(mark, depth)?;
        self.expr(depth + 1)
    }
}
