//! Expressions: choices, chains and operators.
ghost use Rattle.std.specs.Prelude.{◌≡◌, ◌≤◌, ◌+◌, ℕ, Option, Some, None};
ghost use Rattle.do_parse.specs.Chained.{IsBehindTest, IsChained, IsEither, behind_chain};
ghost use Rattle.do_parse.specs.Follow.{behind_expr, behind_short, behind_operand, behind_strict, behind_tighter};
ghost use Rattle.do_parse.specs.Levels.{level_of};
ghost use Rattle.do_parse.specs.Lists.{Repeat, Starting, IsNextOperand, IsOperand};
ghost use Rattle.do_parse.specs.Parsed.{Parses, ends_by};
ghost use Rattle.do_parse.specs.Starts as starts;
ghost use Rattle.do_parse.specs.Deep.{stop_at};
ghost use Rattle.do_parse.specs.Then.{with_tree};
ghost use Rattle.do_parse.specs.Trees.{expr_at, exprs_at, operands_at};
ghost use Rattle.do_tree.specs.Grammar.{IsExpr, IsShort, IsOperandOf, IsStrict, IsTighter};

use crate::cursor::Cursor;
use crate::level::{Level, chain_mark, operator_mark, operator_next};
use crate::made::{choice, lazy, strict};
use crate::starts::ExprStart;
use crate::stop::Stop;
use do_lex::{Kind, Mark};
use do_tree::{Chain, Expr, Operand};
use std::sync::Arc;

/// The most phrases that hold a token.
pub(crate) const MOST_INSIDE: u32 = 64;

impl<'a> Cursor<'a> {
    /// Why no expression is read that would be held by too many phrases.
    pub(crate) fn too_deep(&self) -> Stop
        ensures { result ≡ stop_at (starts.kind_next self.now) }
    {
        match self.expr_start() {
            ExprStart::Nothing => Stop::Unexpected,
            _ => Stop::TooNested,
        }
    }

    /// An expression: a choice, or what a choice tests.
    #[cycle(parser)]
    pub(crate) fn expr(&mut self, depth: u32) -> Result<Arc<Expr>, Stop>
        requires { depth ≤ 65 }
        ensures { Parses (IsExpr depth) (ends_by behind_expr) self.old self.new (with_tree expr_at result) }
    {
        if depth > MOST_INSIDE {
            return Err(self.too_deep());
        }
        let at = self.place();
        let test = self.short(depth)?;
        if self.next_is(Kind::Mark(Mark::Question)) {
            self.choice(at, test, depth)
        } else {
            Ok(test)
        }
    }

    /// The two sides of a choice, behind its test.
    #[cycle(parser)]
    fn choice(&mut self, at: u32, test: Arc<Expr>, depth: u32) -> Result<Arc<Expr>, Stop>
        requires { depth ≤ 64 }
        ensures { Parses (IsBehindTest depth at (expr_at test)) (ends_by behind_expr) self.old self.new (with_tree expr_at result) }
    {
        self.mark(Mark::Question, depth)?;
        let yes = self.expr(depth + 1)?;
        self.mark(Mark::Colon, depth)?;
        let no = self.expr(depth + 1)?;
        choice(self.alloc(), at, test, yes, no)
    }

    /// A chain of `??`, or one of `||` over chains of `&&`.
    #[cycle(parser)]
    fn short(&mut self, depth: u32) -> Result<Arc<Expr>, Stop>
        requires { depth ≤ 64 }
        ensures { Parses (IsShort depth) (ends_by behind_short) self.old self.new (with_tree expr_at result) }
    {
        let at = self.place();
        let first = self.strict(Level::Equal, depth)?;
        if self.next_is(Kind::Mark(Mark::Coalesce)) {
            self.chain(Chain::Coalesce, at, first, depth)
        } else {
            self.either(at, first, depth)
        }
    }

    /// Chains of `&&` and `||`, behind their first operand.
    #[cycle(parser)]
    fn either(&mut self, at: u32, first: Arc<Expr>, depth: u32) -> Result<Arc<Expr>, Stop>
        requires { depth ≤ 64 }
        ensures { Parses (IsEither depth at (expr_at first)) (ends_by behind_short) self.old self.new (with_tree expr_at result) }
    {
        let first = self.chain(Chain::And, at, first, depth)?;
        self.chain(Chain::Or, at, first, depth)
    }

    /// A chain, behind its first operand, which may be all of it.
    #[cycle(parser)]
    fn chain(
        &mut self,
        chain: Chain,
        at: u32,
        first: Arc<Expr>,
        depth: u32,
    ) -> Result<Arc<Expr>, Stop>
        requires { depth ≤ 64 }
        ensures { Parses (IsChained chain depth at (expr_at first)) (ends_by (behind_chain chain)) self.old self.new (with_tree expr_at result) }
    {
        let rest = self.chain_rest(chain, depth)?;
        if rest.as_slice().is_empty() {
            return Ok(first);
        }
        lazy(self.alloc(), at, chain, first, rest)
    }

    /// The operands of a chain from the second on, each behind its mark.
    #[cycle(parser)]
    fn chain_rest(&mut self, chain: Chain, depth: u32) -> Result<Vec<Arc<Expr>>, Stop>
        requires { depth ≤ 64 }
        ensures { Parses (Repeat (IsNextOperand chain depth)) (ends_by (behind_chain chain))
            self.old self.new (with_tree (λ rest. exprs_at rest.items) result) }
    {
        let mut rest = Vec::new(self.alloc());
        while self.next_is(Kind::Mark(chain_mark(chain))) {
            let value = self.next_operand(chain, depth)?;
            rest.push(value)?;
        }
        Ok(rest)
    }

    /// The mark of a chain, and the operand behind it.
    #[cycle(parser)]
    fn next_operand(&mut self, chain: Chain, depth: u32) -> Result<Arc<Expr>, Stop>
        requires { depth ≤ 64 }
        ensures { Parses (IsNextOperand chain depth) (ends_by (behind_operand chain)) self.old self.new (with_tree expr_at result) }
    {
        self.mark(chain_mark(chain), depth)?;
        self.operand(chain, depth)
    }

    /// An operand of a chain: of `||` a chain of `&&`.
    #[cycle(parser)]
    fn operand(&mut self, chain: Chain, depth: u32) -> Result<Arc<Expr>, Stop>
        requires { depth ≤ 64 }
        ensures { Parses (IsOperandOf chain depth) (ends_by (behind_operand chain)) self.old self.new (with_tree expr_at result) }
    {
        let at = self.place();
        let first = self.strict(Level::Equal, depth)?;
        match chain {
            Chain::Or => self.chain(Chain::And, at, first, depth),
            Chain::And | Chain::Coalesce => Ok(first),
        }
    }

    /// Operands of one level with its operators between them.
    #[cycle(parser)]
    fn strict(&mut self, level: Level, depth: u32) -> Result<Arc<Expr>, Stop>
        requires { depth ≤ 64 }
        ensures { Parses (IsStrict (level_of level) depth) (ends_by (behind_strict (level_of level))) self.old self.new (with_tree expr_at result) }
    {
        let at = self.place();
        let first = self.tighter(level, depth)?;
        let rest = self.operands(level, depth)?;
        if rest.as_slice().is_empty() {
            return Ok(first);
        }
        strict(self.alloc(), at, first, rest)
    }

    /// The operands of a level from the second on, each behind its operator.
    #[cycle(parser)]
    fn operands(&mut self, level: Level, depth: u32) -> Result<Vec<Operand>, Stop>
        requires { depth ≤ 64 }
        ensures { Parses (Repeat (IsOperand (level_of level) depth)) (ends_by (behind_strict (level_of level)))
            self.old self.new (with_tree (λ rest. operands_at rest.items) result) }
    {
        let mut rest = Vec::new(self.alloc());
        while let Some(op) = operator_next(level, self.kind()) {
            self.mark(operator_mark(op), depth)?;
            let value = self.tighter(level, depth)?;
            rest.push(Operand { op, value })?;
        }
        Ok(rest)
    }

    /// An operand of a level: what the next tighter level gives.
    #[cycle(parser)]
    fn tighter(&mut self, level: Level, depth: u32) -> Result<Arc<Expr>, Stop>
        requires { depth ≤ 64 }
        ensures { Parses (IsTighter (level_of level) depth) (ends_by (behind_tighter (level_of level))) self.old self.new (with_tree expr_at result) }
    {
        match level {
            Level::Equal => self.strict(Level::Order, depth),
            Level::Order => self.strict(Level::Sum, depth),
            Level::Sum => self.strict(Level::Product, depth),
            Level::Product => self.un(depth + 1),
        }
    }
}
