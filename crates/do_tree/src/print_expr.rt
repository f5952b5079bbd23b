//! Expressions as text. The functions go down the tree together with those on statements. No node's place is printed:
//! where a contract makes a node of its parts, its place is 0.
#![tactic(auto, using(std::proofs::lemmas::Grind::common_steps, crate::proofs::Writing::write_all_append))]

ghost use Rattle.std.specs.Prelude.{◌≡◌, OnOk};
ghost use Rattle.do_tree.specs.Nodes.{args_in, exprs_in, links_in, operands_in, option_expr_in, pairs_in, with_arg, with_link};
ghost use Rattle.do_tree.specs.Print.{tokens_of_args, tokens_of_chained, tokens_of_elements, tokens_of_expr, tokens_of_initial, tokens_of_links};
ghost use Rattle.do_tree.specs.Print.{tokens_of_operands, tokens_of_option_expr, tokens_of_pair, tokens_of_pairs};
ghost use Rattle.do_tree.specs.Seen.{expr_of, named_of};
ghost use Rattle.do_tree.specs.Tree as tree;
ghost use Rattle.do_tree.specs.Tree.{no_args, no_links};
ghost use Rattle.do_tree.specs.Written.{write_all, written_of};

use crate::expr::{Arg, Chain, Expr, Link, Operand, Pair};
use crate::print_stmt::print_block;
use crate::print_word::{
    Printed, chain_mark, operator_mark, put_comma, put_key, put_mark, put_name, put_number,
    put_option_name, put_quoted, put_record_key, put_word, unary_mark,
};
use do_lex::{Keyword, Mark};
use do_value::{Mem, UnOp};
use std::sync::Arc;

/// Prints the expression.
#[cycle(print)]
#[tactic(auto, using(std::proofs::lemmas::Grind::common_steps, crate::proofs::Writing::write_all_append, crate::proofs::Rows::hidden_exprs, crate::proofs::Rows::hidden_operands, crate::proofs::Rows::hidden_links, crate::proofs::Rows::hidden_pairs, crate::proofs::Rows::hidden_option))]
pub fn print_expr(out: &mut Printed, expr: &Expr) -> Mem<()>
    ensures { OnOk result (written_of out.new ≡ write_all (written_of out.old) (tokens_of_expr (expr_of expr.now))) }
{
    match expr {
        Expr::Choice { test, yes, no, .. } => print_choice(out, test, yes, no),
        Expr::Lazy {
            chain,
            first,
            rest,
            ..
        } => {
            print_expr(out, first)?;
            print_chained(out, *chain, rest)
        }
        Expr::Strict { first, rest, .. } => {
            print_expr(out, first)?;
            print_operands(out, rest)
        }
        Expr::Unary { op, value, .. } => print_unary(out, *op, value),
        Expr::Await { value, .. } => print_await(out, value),
        Expr::Path { base, links, .. } => {
            print_expr(out, base)?;
            print_links(out, links)
        }
        Expr::Number { value, .. } => put_number(out, *value),
        Expr::Text { value, .. } => put_quoted(out, value.as_str()),
        Expr::Bool { value: true, .. } => put_key(out, Keyword::True),
        Expr::Bool { value: false, .. } => put_key(out, Keyword::False),
        Expr::Null { .. } => put_key(out, Keyword::Null),
        Expr::Undefined { .. } => put_key(out, Keyword::Undefined),
        Expr::This { .. } => put_key(out, Keyword::This),
        Expr::Variable(name) => put_name(out, name),
        Expr::Group { inside, .. } => print_group(out, inside),
        Expr::List { items, .. } => print_list(out, items),
        Expr::Record { pairs, .. } => print_record(out, pairs),
        Expr::NewError { message, .. } => print_new_error(out, message),
    }
}

/// Prints the choice between two expressions.
#[cycle(print)]
fn print_choice(out: &mut Printed, test: &Expr, yes: &Expr, no: &Expr) -> Mem<()>
    ensures { OnOk result (written_of out.new ≡ write_all (written_of out.old)
        (tokens_of_expr (tree.choice 0 (expr_of test.now) (expr_of yes.now) (expr_of no.now)))) }
{
    print_expr(out, test)?;
    put_mark(out, Mark::Question)?;
    print_expr(out, yes)?;
    put_mark(out, Mark::Colon)?;
    print_expr(out, no)
}

/// Prints the operator and its operand.
#[cycle(print)]
fn print_unary(out: &mut Printed, op: UnOp, value: &Expr) -> Mem<()>
    ensures { OnOk result (written_of out.new ≡ write_all (written_of out.old) (tokens_of_expr (tree.unary 0 op (expr_of value.now)))) }
{
    put_mark(out, unary_mark(op))?;
    print_expr(out, value)
}

/// Prints the wait for a value.
#[cycle(print)]
fn print_await(out: &mut Printed, value: &Expr) -> Mem<()>
    ensures { OnOk result (written_of out.new ≡ write_all (written_of out.old) (tokens_of_expr (tree.await 0 (expr_of value.now)))) }
{
    put_key(out, Keyword::Await)?;
    print_expr(out, value)
}

/// Prints the expression between parentheses.
#[cycle(print)]
fn print_group(out: &mut Printed, inside: &Expr) -> Mem<()>
    ensures { OnOk result (written_of out.new ≡ write_all (written_of out.old) (tokens_of_expr (tree.group 0 (expr_of inside.now)))) }
{
    put_mark(out, Mark::OpenParen)?;
    print_expr(out, inside)?;
    put_mark(out, Mark::CloseParen)
}

/// Prints the list of these elements.
#[cycle(print)]
fn print_list(out: &mut Printed, items: &[Arc<Expr>]) -> Mem<()>
    ensures { OnOk result (written_of out.new ≡ write_all (written_of out.old) (tokens_of_expr (tree.list 0 (exprs_in items.now)))) }
{
    put_mark(out, Mark::OpenBracket)?;
    print_elements(out, items)?;
    put_mark(out, Mark::CloseBracket)
}

/// Prints the record of these pairs.
#[cycle(print)]
fn print_record(out: &mut Printed, pairs: &[Pair]) -> Mem<()>
    ensures { OnOk result (written_of out.new ≡ write_all (written_of out.old) (tokens_of_expr (tree.rec 0 (pairs_in pairs.now)))) }
{
    put_mark(out, Mark::OpenBrace)?;
    print_pairs(out, pairs)?;
    put_mark(out, Mark::CloseBrace)
}

/// Prints the new error, with its message if it has one.
#[cycle(print)]
fn print_new_error(out: &mut Printed, message: &Option<Arc<Expr>>) -> Mem<()>
    ensures { OnOk result (written_of out.new ≡ write_all (written_of out.old) (tokens_of_expr (tree.new_error 0 (option_expr_in message.now)))) }
{
    put_key(out, Keyword::New)?;
    put_word(out, "Error")?;
    put_mark(out, Mark::OpenParen)?;
    print_option(out, message)?;
    put_mark(out, Mark::CloseParen)
}

/// Prints the expression, if there is one.
#[cycle(print)]
pub fn print_option(out: &mut Printed, expr: &Option<Arc<Expr>>) -> Mem<()>
    ensures { OnOk result (written_of out.new ≡ write_all (written_of out.old) (tokens_of_option_expr (option_expr_in expr.now))) }
{
    match expr {
        Some(expr) => print_expr(out, expr),
        None => Ok(()),
    }
}

/// Prints the value that a declaration gives, if there is one.
#[cycle(print)]
pub fn print_initial(out: &mut Printed, value: &Option<Arc<Expr>>) -> Mem<()>
    ensures { OnOk result (written_of out.new ≡ write_all (written_of out.old) (tokens_of_initial (option_expr_in value.now))) }
{
    match value {
        Some(value) => {
            put_mark(out, Mark::Assign)?;
            print_expr(out, value)
        }
        None => Ok(()),
    }
}

/// Prints the operands of a chain from the second on.
#[cycle(print)]
fn print_chained(out: &mut Printed, chain: Chain, rest: &[Arc<Expr>]) -> Mem<()>
    ensures { OnOk result (written_of out.new ≡ write_all (written_of out.old) (tokens_of_chained chain (exprs_in rest.now))) }
{
    for expr in rest {
        put_mark(out, chain_mark(chain))?;
        print_expr(out, expr)?;
    }
    Ok(())
}

/// Prints the operands of strict operators from the second on.
#[cycle(print)]
fn print_operands(out: &mut Printed, rest: &[Operand]) -> Mem<()>
    ensures { OnOk result (written_of out.new ≡ write_all (written_of out.old) (tokens_of_operands (operands_in rest.now))) }
{
    for operand in rest {
        put_mark(out, operator_mark(operand.op))?;
        print_expr(out, &operand.value)?;
    }
    Ok(())
}

/// Prints the elements of a list.
#[cycle(print)]
#[tactic(auto, using(std::proofs::lemmas::Grind::common_steps, crate::proofs::Writing::write_all_append, crate::proofs::Writing::next_expr))]
fn print_elements(out: &mut Printed, elements: &[Arc<Expr>]) -> Mem<()>
    ensures { OnOk result (written_of out.new ≡ write_all (written_of out.old) (tokens_of_elements (exprs_in elements.now))) }
{
    let mut begun = false;
    for expr in elements {
        put_comma(out, begun)?;
        begun = true;
        print_expr(out, expr)?;
    }
    Ok(())
}

/// Prints the steps of a path.
#[cycle(print)]
#[tactic(auto, using(std::proofs::lemmas::Grind::common_steps, crate::proofs::Writing::write_all_append, crate::proofs::Writing::links_more))]
fn print_links(out: &mut Printed, links: &[Link]) -> Mem<()>
    ensures { OnOk result (written_of out.new ≡ write_all (written_of out.old) (tokens_of_links (links_in links.now))) }
{
    for link in links {
        print_link(out, link)?;
    }
    Ok(())
}

/// Prints a step of a path.
#[cycle(print)]
#[tactic(auto, using(std::proofs::lemmas::Grind::common_steps, crate::proofs::Writing::write_all_append, crate::proofs::Rows::hidden_args))]
fn print_link(out: &mut Printed, link: &Link) -> Mem<()>
    ensures { OnOk result (written_of out.new ≡ write_all (written_of out.old) (tokens_of_links (with_link link.now no_links))) }
{
    match link {
        Link::Field(name) => {
            put_mark(out, Mark::Dot)?;
            put_name(out, name)
        }
        Link::Index { index, .. } => {
            put_mark(out, Mark::OpenBracket)?;
            print_expr(out, index)?;
            put_mark(out, Mark::CloseBracket)
        }
        Link::Call { args, .. } => {
            put_mark(out, Mark::OpenParen)?;
            print_args(out, args)?;
            put_mark(out, Mark::CloseParen)
        }
    }
}

/// Prints arguments.
#[cycle(print)]
#[tactic(auto, using(std::proofs::lemmas::Grind::common_steps, crate::proofs::Writing::write_all_append, crate::proofs::Writing::next_arg))]
fn print_args(out: &mut Printed, args: &[Arg]) -> Mem<()>
    ensures { OnOk result (written_of out.new ≡ write_all (written_of out.old) (tokens_of_args (args_in args.now))) }
{
    let mut begun = false;
    for arg in args {
        put_comma(out, begun)?;
        begun = true;
        print_arg(out, arg)?;
    }
    Ok(())
}

/// Prints an argument.
#[cycle(print)]
#[tactic(auto, using(std::proofs::lemmas::Grind::common_steps, crate::proofs::Writing::write_all_append, crate::proofs::Rows::hidden_items))]
fn print_arg(out: &mut Printed, arg: &Arg) -> Mem<()>
    ensures { OnOk result (written_of out.new ≡ write_all (written_of out.old) (tokens_of_args (with_arg arg.now no_args))) }
{
    match arg {
        Arg::Value(value) => print_expr(out, value),
        Arg::Callback(callback) => {
            put_key(out, Keyword::Async)?;
            put_mark(out, Mark::OpenParen)?;
            put_option_name(out, &callback.parameter)?;
            put_mark(out, Mark::CloseParen)?;
            put_mark(out, Mark::Arrow)?;
            print_block(out, &callback.body)
        }
    }
}

/// Prints the pairs of a record.
#[cycle(print)]
#[tactic(auto, using(std::proofs::lemmas::Grind::common_steps, crate::proofs::Writing::write_all_append, crate::proofs::Writing::next_pair))]
fn print_pairs(out: &mut Printed, pairs: &[Pair]) -> Mem<()>
    ensures { OnOk result (written_of out.new ≡ write_all (written_of out.old) (tokens_of_pairs (pairs_in pairs.now))) }
{
    let mut begun = false;
    for pair in pairs {
        put_comma(out, begun)?;
        begun = true;
        print_pair(out, pair)?;
    }
    Ok(())
}

/// Prints a pair of a record.
#[cycle(print)]
fn print_pair(out: &mut Printed, pair: &Pair) -> Mem<()>
    ensures { OnOk result (written_of out.new ≡ write_all (written_of out.old) (tokens_of_pair (named_of pair.now.key) (option_expr_in pair.now.value))) }
{
    match &pair.value {
        Some(value) => {
            put_record_key(out, pair.key.text.as_str())?;
            put_mark(out, Mark::Colon)?;
            print_expr(out, value)
        }
        None => put_name(out, &pair.key),
    }
}
