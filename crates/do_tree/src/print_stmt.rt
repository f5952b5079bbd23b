//! Statements as text, as expressions in `print_expr`.
#![tactic(auto, using(std::proofs::lemmas::Grind::common_steps, crate::proofs::Writing::write_all_append))]

ghost use Rattle.std.specs.Prelude.{◌≡◌, [], ◌∷◌, ◌++◌, OnOk};
ghost use Rattle.do_lex.specs.declared.kind.Mark.TheVariants as marks;
ghost use Rattle.do_tree.specs.Nodes.{block_in, option_expr_in, option_stmt_in, simple_of};
ghost use Rattle.do_tree.specs.Print.{a_mark, keyword, tokens_of_block, tokens_of_expr, tokens_of_items, tokens_of_other, tokens_of_simple};
ghost use Rattle.do_tree.specs.Print.{tokens_of_stmt, tokens_of_test};
ghost use Rattle.do_tree.specs.Seen.{expr_of, items_in, named_of, option_named_of, stmt_of, with_item};
ghost use Rattle.do_tree.specs.Tree as tree;
ghost use Rattle.do_tree.specs.Tree.{no_items};
ghost use Rattle.do_tree.specs.Written.{write_all, written_of};

use crate::expr::Expr;
use crate::print_expr::{print_expr, print_initial, print_option};
use crate::print_word::{
    Printed, binding_key, put_caught, put_exit, put_for, put_key, put_mark, put_name, put_word,
};
use crate::script::Name;
use crate::stmt::{Binding, Block, Item, Simple, Stmt, Write};
use do_lex::{Keyword, Mark};
use do_value::Mem;
use std::sync::Arc;

/// Prints the items of a block.
#[cycle(print)]
#[tactic(auto, using(std::proofs::lemmas::Grind::common_steps, crate::proofs::Writing::write_all_append, crate::proofs::Writing::items_more))]
pub fn print_items(out: &mut Printed, items: &[Item]) -> Mem<()>
    ensures { OnOk result (written_of out.new ≡ write_all (written_of out.old) (tokens_of_items (items_in items.now))) }
{
    for item in items {
        print_item(out, item)?;
    }
    Ok(())
}

/// Prints an item of a block.
#[cycle(print)]
fn print_item(out: &mut Printed, item: &Item) -> Mem<()>
    ensures { OnOk result (written_of out.new ≡ write_all (written_of out.old) (tokens_of_items (with_item item.now no_items))) }
{
    match item {
        Item::Declare {
            binding,
            name,
            value,
            ..
        } => {
            put_key(out, binding_key(*binding))?;
            put_name(out, name)?;
            print_initial(out, value)?;
            put_mark(out, Mark::Semicolon)
        }
        Item::Stmt(stmt) => print_stmt(out, stmt),
    }
}

/// Prints the statement.
#[cycle(print)]
#[tactic(auto, using(std::proofs::lemmas::Grind::common_steps, crate::proofs::Writing::write_all_append, crate::proofs::Rows::hidden_items, crate::proofs::Rows::hidden_option))]
fn print_stmt(out: &mut Printed, stmt: &Stmt) -> Mem<()>
    ensures { OnOk result (written_of out.new ≡ write_all (written_of out.old) (tokens_of_stmt (stmt_of stmt.now))) }
{
    match stmt {
        Stmt::Block(block) => print_block(out, block),
        Stmt::If {
            test,
            then,
            other,
            ..
        } => {
            print_tested(out, Keyword::If, test, then)?;
            print_other(out, other)
        }
        Stmt::While { test, body, .. } => print_tested(out, Keyword::While, test, body),
        Stmt::For {
            name,
            first,
            test,
            step,
            body,
            ..
        } => print_for(out, name, first, test, step, body),
        Stmt::ForOf {
            binding,
            name,
            list,
            body,
            ..
        } => print_for_of(out, *binding, name, list, body),
        Stmt::Try {
            body,
            name,
            handler,
            ..
        } => print_try(out, body, name, handler),
        Stmt::Throw { value, .. } => print_throw(out, value),
        Stmt::Return { value, .. } => print_return(out, value),
        Stmt::Break { .. } => put_exit(out, Keyword::Break),
        Stmt::Continue { .. } => put_exit(out, Keyword::Continue),
        Stmt::Simple(simple) => print_step(out, simple),
    }
}

/// Prints a keyword, a test and the statement that stands behind it.
#[cycle(print)]
fn print_tested(out: &mut Printed, key: Keyword, test: &Expr, body: &Stmt) -> Mem<()>
    ensures { OnOk result (written_of out.new ≡ write_all (written_of out.old)
        (keyword key ∷ a_mark marks.OpenParen ∷ (tokens_of_expr (expr_of test.now) ++ a_mark marks.CloseParen ∷ tokens_of_stmt (stmt_of body.now)))) }
{
    put_key(out, key)?;
    print_test(out, test)?;
    print_stmt(out, body)
}

/// Prints the loop with a first value, a test and a step.
#[cycle(print)]
fn print_for(
    out: &mut Printed,
    name: &Name,
    first: &Expr,
    test: &Expr,
    step: &Simple,
    body: &Stmt,
) -> Mem<()>
    ensures { OnOk result (written_of out.new ≡ write_all (written_of out.old)
        (tokens_of_stmt (tree.for 0 (named_of name.now) (expr_of first.now) (expr_of test.now) (simple_of step.now) (stmt_of body.now)))) }
{
    put_for(out, Keyword::Let, name)?;
    put_mark(out, Mark::Assign)?;
    print_ended(out, first)?;
    print_ended(out, test)?;
    print_simple(out, step)?;
    put_mark(out, Mark::CloseParen)?;
    print_stmt(out, body)
}

/// Prints the loop over a list.
#[cycle(print)]
fn print_for_of(
    out: &mut Printed,
    binding: Binding,
    name: &Name,
    list: &Expr,
    body: &Stmt,
) -> Mem<()>
    ensures { OnOk result (written_of out.new ≡ write_all (written_of out.old)
        (tokens_of_stmt (tree.for_of 0 binding (named_of name.now) (expr_of list.now) (stmt_of body.now)))) }
{
    put_for(out, binding_key(binding), name)?;
    put_word(out, "of")?;
    print_expr(out, list)?;
    put_mark(out, Mark::CloseParen)?;
    print_stmt(out, body)
}

/// Prints the block and the handler of what it throws.
#[cycle(print)]
fn print_try(out: &mut Printed, body: &Block, name: &Option<Name>, handler: &Block) -> Mem<()>
    ensures { OnOk result (written_of out.new ≡ write_all (written_of out.old)
        (tokens_of_stmt (tree.try 0 (block_in body.now) (option_named_of name.now) (block_in handler.now)))) }
{
    put_key(out, Keyword::Try)?;
    print_block(out, body)?;
    put_key(out, Keyword::Catch)?;
    put_caught(out, name)?;
    print_block(out, handler)
}

/// Prints the expression and a semicolon.
#[cycle(print)]
fn print_ended(out: &mut Printed, expr: &Expr) -> Mem<()>
    ensures { OnOk result (written_of out.new ≡ write_all (written_of out.old) (tokens_of_expr (expr_of expr.now) ++ a_mark marks.Semicolon ∷ [])) }
{
    print_expr(out, expr)?;
    put_mark(out, Mark::Semicolon)
}

/// Prints the throw of a value.
#[cycle(print)]
fn print_throw(out: &mut Printed, value: &Expr) -> Mem<()>
    ensures { OnOk result (written_of out.new ≡ write_all (written_of out.old) (tokens_of_stmt (tree.throw 0 (expr_of value.now)))) }
{
    put_key(out, Keyword::Throw)?;
    print_ended(out, value)
}

/// Prints the return of a value, if it has one.
#[cycle(print)]
fn print_return(out: &mut Printed, value: &Option<Arc<Expr>>) -> Mem<()>
    ensures { OnOk result (written_of out.new ≡ write_all (written_of out.old) (tokens_of_stmt (tree.return 0 (option_expr_in value.now)))) }
{
    put_key(out, Keyword::Return)?;
    print_option(out, value)?;
    put_mark(out, Mark::Semicolon)
}

/// Prints a test between parentheses.
#[cycle(print)]
fn print_test(out: &mut Printed, test: &Expr) -> Mem<()>
    ensures { OnOk result (written_of out.new ≡ write_all (written_of out.old) (tokens_of_test (expr_of test.now))) }
{
    put_mark(out, Mark::OpenParen)?;
    print_expr(out, test)?;
    put_mark(out, Mark::CloseParen)
}

/// Prints what an `if` does otherwise, if there is something.
#[cycle(print)]
fn print_other(out: &mut Printed, other: &Option<Arc<Stmt>>) -> Mem<()>
    ensures { OnOk result (written_of out.new ≡ write_all (written_of out.old) (tokens_of_other (option_stmt_in other.now))) }
{
    match other {
        Some(other) => {
            put_key(out, Keyword::Else)?;
            print_stmt(out, other)
        }
        None => Ok(()),
    }
}

/// Prints a block.
#[cycle(print)]
pub fn print_block(out: &mut Printed, block: &Block) -> Mem<()>
    ensures { OnOk result (written_of out.new ≡ write_all (written_of out.old) (tokens_of_block (block_in block.now))) }
{
    put_mark(out, Mark::OpenBrace)?;
    print_items(out, &block.items)?;
    put_mark(out, Mark::CloseBrace)
}

/// Prints an expression that is run for itself, or a write, and a semicolon.
#[cycle(print)]
fn print_step(out: &mut Printed, simple: &Simple) -> Mem<()>
    ensures { OnOk result (written_of out.new ≡ write_all (written_of out.old) (tokens_of_stmt (tree.simple (simple_of simple.now)))) }
{
    print_simple(out, simple)?;
    put_mark(out, Mark::Semicolon)
}

/// Prints an expression that is run for itself, or a write.
#[cycle(print)]
fn print_simple(out: &mut Printed, simple: &Simple) -> Mem<()>
    ensures { OnOk result (written_of out.new ≡ write_all (written_of out.old) (tokens_of_simple (simple_of simple.now))) }
{
    print_expr(out, &simple.place)?;
    match &simple.write {
        Write::Nothing => Ok(()),
        Write::Value(value) => {
            put_mark(out, Mark::Assign)?;
            print_expr(out, value)
        }
        Write::Sum(value) => {
            put_mark(out, Mark::AddAssign)?;
            print_expr(out, value)
        }
        Write::Difference(value) => {
            put_mark(out, Mark::SubAssign)?;
            print_expr(out, value)
        }
        Write::OneMore => put_mark(out, Mark::Increment),
        Write::OneLess => put_mark(out, Mark::Decrement),
    }
}
