//! Blocks, their items, and statements.
ghost use Rattle.std.specs.Prelude.{◌≡◌, ◌≤◌, ◌+◌, true};
ghost use Rattle.do_lex.specs.declared.kind.Kind.TheVariants as kinds;
ghost use Rattle.do_lex.specs.declared.kind.Mark.TheVariants as marks;
ghost use Rattle.do_lex.specs.declared.kind.Keyword.TheVariants as keys;
ghost use Rattle.do_parse.specs.Follow.{behind_expr};
ghost use Rattle.do_parse.specs.Lists.{BeginsWith, IsItem, Repeat, Starting};
ghost use Rattle.do_parse.specs.Parsed.{Parses, Anything, ends_by};
ghost use Rattle.do_parse.specs.Pieces.{IsBlockAt, IsInitial, InParens, IsExprThen};
ghost use Rattle.do_parse.specs.Deep.{stmt_stop_at};
ghost use Rattle.do_parse.specs.Starts as starts;
ghost use Rattle.do_parse.specs.Taken.{IsBinding};
ghost use Rattle.do_parse.specs.Then.{with_tree};
ghost use Rattle.do_parse.specs.Trees.{block_at, expr_at, item_of, items_at, option_expr_at, option_stmt_at, stmt_at};
ghost use Rattle.do_tree.specs.Grammar.{IsStmt, IsElse, IsCaught, binding_key};
ghost use Rattle.do_tree.specs.Seen.{option_named_of};

use crate::cursor::Cursor;
use crate::expr::MOST_INSIDE;
use crate::level::binding_key as key_of;
use crate::nodes::{block_of, share_block, share_stmt};
use crate::starts::{ExprStart, StmtStart, binding_start, stmt_start};
use crate::stop::Stop;
use do_lex::{Keyword, Kind, Mark};
use do_tree::{Binding, Block, Expr, Item, Name, Stmt};
use std::sync::Arc;

impl<'a> Cursor<'a> {
    /// `{ .. }`.
    #[cycle(parser)]
    pub(crate) fn block(&mut self, depth: u32) -> Result<Arc<Block>, Stop>
        requires { depth ≤ 64 }
        ensures { Parses (IsBlockAt depth) Anything self.old self.new (with_tree block_at result) }
    {
        let at = self.mark(Mark::OpenBrace, depth)?;
        let items = self.items(depth)?;
        self.mark(Mark::CloseBrace, depth)?;
        share_block(self.alloc(), at, items)
    }

    /// The items of a block, up to its closing brace.
    #[cycle(parser)]
    pub(crate) fn items(&mut self, depth: u32) -> Result<Vec<Item>, Stop>
        requires { depth ≤ 64 }
        ensures { Parses (Repeat (IsItem depth)) (BeginsWith (kinds.Mark marks.CloseBrace))
            self.old self.new (with_tree (λ items. items_at items.items) result) }
    {
        let mut items = Vec::new(self.alloc());
        while !self.next_is(Kind::Mark(Mark::CloseBrace)) {
            let item = self.item(depth)?;
            items.push(item)?;
        }
        Ok(items)
    }

    /// A declaration or a statement.
    #[cycle(parser)]
    fn item(&mut self, depth: u32) -> Result<Item, Stop>
        requires { depth ≤ 64 }
        ensures { Parses (IsItem depth) Anything self.old self.new (with_tree item_of result) }
    {
        match binding_start(self.kind()) {
            Some(binding) => self.declaration(binding, depth),
            None => {
                let stmt = self.stmt(depth + 1)?;
                Ok(Item::Stmt(stmt))
            }
        }
    }

    #[cycle(parser)]
    fn declaration(&mut self, binding: Binding, depth: u32) -> Result<Item, Stop>
        requires { depth ≤ 64 }
        ensures { Parses (Starting (kinds.Keyword (binding_key binding)) (IsItem depth)) Anything self.old self.new (with_tree item_of result) }
    {
        let at = self.key(key_of(binding), depth)?;
        let name = self.name(depth)?;
        let value = self.initial(binding, depth)?;
        self.mark(Mark::Semicolon, depth)?;
        Ok(Item::Declare {
            at,
            binding,
            name,
            value,
        })
    }

    /// `= EXPR`, which may be missing behind `let`.
    #[cycle(parser)]
    fn initial(&mut self, binding: Binding, depth: u32) -> Result<Option<Arc<Expr>>, Stop>
        requires { depth ≤ 64 }
        ensures { Parses (IsInitial binding depth) (BeginsWith (kinds.Mark marks.Semicolon)) self.old self.new (with_tree option_expr_at result) }
    {
        if binding == Binding::Let && !self.next_is(Kind::Mark(Mark::Assign)) {
            return Ok(None);
        }
        self.mark(Mark::Assign, depth)?;
        let value = self.expr(depth + 1)?;
        Ok(Some(value))
    }

    /// A statement.
    #[cycle(parser)]
    pub(crate) fn stmt(&mut self, depth: u32) -> Result<Arc<Stmt>, Stop>
        requires { depth ≤ 65 }
        ensures { Parses (IsStmt depth) Anything self.old self.new (with_tree stmt_at result) }
    {
        if depth > MOST_INSIDE {
            return Err(self.stmt_too_deep());
        }
        match stmt_start(self.kind()) {
            StmtStart::Block => self.block_stmt(depth),
            StmtStart::If => self.if_stmt(depth),
            StmtStart::While => self.while_stmt(depth),
            StmtStart::For => self.for_stmt(depth),
            StmtStart::Try => self.try_stmt(depth),
            StmtStart::Throw => self.throw_stmt(depth),
            StmtStart::Return => self.return_stmt(depth),
            StmtStart::Break => self.break_stmt(depth),
            StmtStart::Continue => self.continue_stmt(depth),
            StmtStart::Simple => self.simple_stmt(depth),
        }
    }

    /// Why no statement is read that would be held by too many phrases.
    fn stmt_too_deep(&self) -> Stop
        ensures { result ≡ stmt_stop_at (starts.kind_next self.now) }
    {
        match stmt_start(self.kind()) {
            StmtStart::Simple => self.too_deep(),
            _ => Stop::TooNested,
        }
    }

    #[cycle(parser)]
    fn block_stmt(&mut self, depth: u32) -> Result<Arc<Stmt>, Stop>
        requires { depth ≤ 64 }
        ensures { Parses (Starting (kinds.Mark marks.OpenBrace) (IsStmt depth)) Anything self.old self.new (with_tree stmt_at result) }
    {
        let block = self.block(depth)?;
        block_of(self.alloc(), block)
    }

    #[cycle(parser)]
    fn if_stmt(&mut self, depth: u32) -> Result<Arc<Stmt>, Stop>
        requires { depth ≤ 64 }
        ensures { Parses (Starting (kinds.Keyword keys.If) (IsStmt depth)) Anything self.old self.new (with_tree stmt_at result) }
    {
        let at = self.key(Keyword::If, depth)?;
        let test = self.in_parens(depth)?;
        let then = self.stmt(depth + 1)?;
        let other = self.else_part(depth)?;
        share_stmt(
            self.alloc(),
            Stmt::If {
                at,
                test,
                then,
                other,
            },
        )
    }

    /// `else` and its statement, where an `else` is next.
    #[cycle(parser)]
    fn else_part(&mut self, depth: u32) -> Result<Option<Arc<Stmt>>, Stop>
        requires { depth ≤ 64 }
        ensures { Parses (IsElse depth) Anything self.old self.new (with_tree option_stmt_at result) }
    {
        if !self.next_is(Kind::Keyword(Keyword::Else)) {
            return Ok(None);
        }
        self.key(Keyword::Else, depth)?;
        let other = self.stmt(depth + 1)?;
        Ok(Some(other))
    }

    /// `( EXPR )`.
    #[cycle(parser)]
    fn in_parens(&mut self, depth: u32) -> Result<Arc<Expr>, Stop>
        requires { depth ≤ 64 }
        ensures { Parses (InParens depth) Anything self.old self.new (with_tree expr_at result) }
    {
        self.mark(Mark::OpenParen, depth)?;
        self.expr_then(Mark::CloseParen, depth)
    }

    /// An expression and the mark behind it.
    #[cycle(parser)]
    pub(crate) fn expr_then(&mut self, mark: Mark, depth: u32) -> Result<Arc<Expr>, Stop>
        requires depth { depth ≤ 64 }
        requires mark { behind_expr (kinds.Mark mark) ≡ true }
        ensures { Parses (IsExprThen mark depth) Anything self.old self.new (with_tree expr_at result) }
    {
        let expr = self.expr(depth + 1)?;
        self.mark(mark, depth)?;
        Ok(expr)
    }

    #[cycle(parser)]
    fn while_stmt(&mut self, depth: u32) -> Result<Arc<Stmt>, Stop>
        requires { depth ≤ 64 }
        ensures { Parses (Starting (kinds.Keyword keys.While) (IsStmt depth)) Anything self.old self.new (with_tree stmt_at result) }
    {
        let at = self.key(Keyword::While, depth)?;
        let test = self.in_parens(depth)?;
        let body = self.stmt(depth + 1)?;
        share_stmt(self.alloc(), Stmt::While { at, test, body })
    }

    #[cycle(parser)]
    fn try_stmt(&mut self, depth: u32) -> Result<Arc<Stmt>, Stop>
        requires { depth ≤ 64 }
        ensures { Parses (Starting (kinds.Keyword keys.Try) (IsStmt depth)) Anything self.old self.new (with_tree stmt_at result) }
    {
        let at = self.key(Keyword::Try, depth)?;
        let body = self.block(depth)?;
        self.key(Keyword::Catch, depth)?;
        let name = self.caught(depth)?;
        let handler = self.block(depth)?;
        share_stmt(
            self.alloc(),
            Stmt::Try {
                at,
                body,
                name,
                handler,
            },
        )
    }

    /// `(NAME)` behind `catch`, where it stands.
    fn caught(&mut self, depth: u32) -> Result<Option<Name>, Stop>
        requires { depth ≤ 64 }
        ensures { Parses (IsCaught depth) (BeginsWith (kinds.Mark marks.OpenBrace)) self.old self.new (with_tree option_named_of result) }
    {
        if self.next_is(Kind::Mark(Mark::OpenBrace)) {
            return Ok(None);
        }
        self.mark(Mark::OpenParen, depth)?;
        let name = self.name(depth)?;
        self.mark(Mark::CloseParen, depth)?;
        Ok(Some(name))
    }

    #[cycle(parser)]
    fn throw_stmt(&mut self, depth: u32) -> Result<Arc<Stmt>, Stop>
        requires { depth ≤ 64 }
        ensures { Parses (Starting (kinds.Keyword keys.Throw) (IsStmt depth)) Anything self.old self.new (with_tree stmt_at result) }
    {
        let at = self.key(Keyword::Throw, depth)?;
        let value = self.expr_then(Mark::Semicolon, depth)?;
        share_stmt(self.alloc(), Stmt::Throw { at, value })
    }

    #[cycle(parser)]
    fn return_stmt(&mut self, depth: u32) -> Result<Arc<Stmt>, Stop>
        requires { depth ≤ 64 }
        ensures { Parses (Starting (kinds.Keyword keys.Return) (IsStmt depth)) Anything self.old self.new (with_tree stmt_at result) }
    {
        let at = self.key(Keyword::Return, depth)?;
        let value = self.option_expr(depth)?;
        self.mark(Mark::Semicolon, depth)?;
        share_stmt(self.alloc(), Stmt::Return { at, value })
    }

    fn break_stmt(&mut self, depth: u32) -> Result<Arc<Stmt>, Stop>
        requires { depth ≤ 64 }
        ensures { Parses (Starting (kinds.Keyword keys.Break) (IsStmt depth)) Anything self.old self.new (with_tree stmt_at result) }
    {
        let at = self.key(Keyword::Break, depth)?;
        self.mark(Mark::Semicolon, depth)?;
        share_stmt(self.alloc(), Stmt::Break { at })
    }

    fn continue_stmt(&mut self, depth: u32) -> Result<Arc<Stmt>, Stop>
        requires { depth ≤ 64 }
        ensures { Parses (Starting (kinds.Keyword keys.Continue) (IsStmt depth)) Anything self.old self.new (with_tree stmt_at result) }
    {
        let at = self.key(Keyword::Continue, depth)?;
        self.mark(Mark::Semicolon, depth)?;
        share_stmt(self.alloc(), Stmt::Continue { at })
    }
}
