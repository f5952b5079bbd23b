//! Paths, the names that they begin with, and the places that are written to.
#![tactic(auto, using(std::proofs::lemmas::Grind::common_steps, crate::proofs::Append::least_append))]

ghost use Rattle.std.specs.Prelude.{◌≡◌, ◌&&◌, is_some};
ghost use Rattle.do_check.specs.First.{least};
ghost use Rattle.do_check.specs.Parts.{constant_faults, is_constant, root_faults, use_faults, written_faults};
ghost use Rattle.do_check.specs.Sight.{option_root, scope_in, use_of};
ghost use Rattle.do_tree.specs.Asking.{is_path};
ghost use Rattle.do_tree.specs.Forms.{is_call_first, owner_form, sort_in};
ghost use Rattle.do_tree.specs.Names.{are_own_steps, are_part_steps, begins_call, is_place, is_place_from, name_of, place_of};
ghost use Rattle.do_tree.specs.Nodes.{links_in, with_link};
ghost use Rattle.do_tree.specs.Scope.{root_of};
ghost use Rattle.do_tree.specs.Seen.{expr_of, named_of};

use crate::found::{Found, keep_when};
use crate::named::find;
use crate::scope::{Scope, Use};
use crate::sort::Sort;
use crate::stage::is_call;
use crate::words::{owner_form, word_form};
use do_lex::is_keyword;
use do_tree::{CheckKind, Expr, Link, Name};

/// Where a path begins, the name that it begins with, if any, and what it serves for.
#[derive(Clone, Copy)]
pub struct Path<'a> {
    pub at: u32,
    pub root: Option<&'a Name>,
    pub serves: Use,
}

/// What an expression is there for.
pub fn check_use(scope: &Scope, serves: Use, expr: &Expr, found: Found) -> Found
    ensures { result ≡ least found (use_faults (scope_in scope.now) (use_of serves) (expr_of expr.now)) }
{
    match serves {
        Use::Written => check_written(scope, expr, found),
        Use::Awaited(at) => keep_when(found, !is_path(expr), at, CheckKind::AwaitOfSync),
        Use::Value | Use::Alone | Use::Identifier => found,
    }
}

/// What is written to.
fn check_written(scope: &Scope, expr: &Expr, found: Found) -> Found
    ensures { result ≡ least found (written_faults (scope_in scope.now) (expr_of expr.now)) }
{
    if is_place(expr) {
        check_constant(scope, name_of(expr), found)
    } else {
        keep_when(found, true, place_of(expr), CheckKind::BadTarget)
    }
}

/// A write to what begins with this name.
pub fn check_constant(scope: &Scope, root: Option<&Name>, found: Found) -> Found
    ensures { result ≡ least found (constant_faults (scope_in scope.now) (option_root root.entry)) }
{
    match root {
        Some(name) => keep_when(
            found,
            is_constant(scope, name),
            name.at,
            CheckKind::ConstAssigned,
        ),
        None => found,
    }
}

fn is_constant(scope: &Scope, name: &Name) -> bool
    ensures { result ≡ is_constant (sort_in (scope_in scope.now).names (named_of name.now).text) }
{
    matches!(find(&scope.names, name.text.as_str()), Some(Sort::Constant))
}

/// Whether the expression is a variable, `this`, or a path.
fn is_path(expr: &Expr) -> bool
    ensures { result ≡ is_path (expr_of expr.now) }
{
    matches!(
        expr,
        Expr::Path { .. } | Expr::Variable(_) | Expr::This { .. }
    )
}

/// Whether the expression is a variable, `this.NAME`, or a part of one.
#[tactic(auto, using(std::proofs::lemmas::Grind::common_steps, crate::proofs::Walked::place_path))]
fn is_place(expr: &Expr) -> bool
    ensures { result ≡ is_place (expr_of expr.now) }
{
    match expr {
        Expr::Variable(_) => true,
        Expr::Path { base, links, .. } => is_place_from(base, links),
        _ => false,
    }
}

fn is_place_from(base: &Expr, links: &[Link]) -> bool
    ensures { result ≡ is_place_from (expr_of base.now) (links_in links.now) }
{
    match base {
        Expr::Variable(_) => are_part_steps(links),
        Expr::This { .. } => are_own_steps(links),
        _ => false,
    }
}

/// Steps from `this` to a place: a name that is no keyword, and steps to a part.
fn are_own_steps(links: &[Link]) -> bool
    ensures { result ≡ are_own_steps (links_in links.now) }
{
    match links.split_first() {
        Some((link, rest)) => are_own_steps_from(link, rest),
        None => false,
    }
}

/// As `are_own_steps`, of a step and those behind it.
fn are_own_steps_from(link: &Link, rest: &[Link]) -> bool
    ensures { result ≡ are_own_steps (with_link link.now (links_in rest.now)) }
{
    match link {
        Link::Field(name) => {
            let part = are_part_steps(rest);
            !is_keyword(name.text.as_str()) && part
        }
        Link::Index { .. } | Link::Call { .. } => false,
    }
}

/// Steps to a part: no calls.
#[tactic(auto, using(std::proofs::lemmas::Grind::common_steps, crate::proofs::Walked::call_stops, crate::proofs::Walked::step_passes))]
fn are_part_steps(links: &[Link]) -> bool
    ensures { result ≡ are_part_steps (links_in links.now) }
{
    for link in links {
        if is_call(link) {
            return false;
        }
    }
    true
}

/// The name that a place begins with, if any.
fn name_of(expr: &Expr) -> Option<&Name>
    ensures { option_root result ≡ name_of (expr_of expr.now) }
{
    match expr {
        Expr::Path { base, .. } => root_of(base),
        _ => root_of(expr),
    }
}

/// The name that the expression is, if it is one.
pub fn root_of(expr: &Expr) -> Option<&Name>
    ensures { option_root result ≡ root_of (expr_of expr.now) }
{
    match expr {
        Expr::Variable(name) => Some(name),
        _ => None,
    }
}

/// The place of an expression.
fn place_of(expr: &Expr) -> u32
    ensures { result ≡ place_of (expr_of expr.now) }
{
    match expr {
        Expr::Choice { at, .. }
        | Expr::Lazy { at, .. }
        | Expr::Strict { at, .. }
        | Expr::Unary { at, .. }
        | Expr::Await { at, .. }
        | Expr::Path { at, .. }
        | Expr::Number { at, .. }
        | Expr::Text { at, .. }
        | Expr::Bool { at, .. }
        | Expr::Null { at }
        | Expr::Undefined { at }
        | Expr::This { at }
        | Expr::Group { at, .. }
        | Expr::List { at, .. }
        | Expr::Record { at, .. }
        | Expr::NewError { at, .. } => *at,
        Expr::Variable(name) => name.at,
    }
}

/// The name that a path begins with.
pub fn check_root(scope: &Scope, root: Option<&Name>, links: &[Link], found: Found) -> Found
    ensures { result ≡ least found (root_faults (scope_in scope.now) (option_root root.entry) (links_in links.now)) }
{
    match root {
        Some(name) => {
            let unbound = find(&scope.names, name.text.as_str()).is_none()
                && !begins_call(name, links);
            keep_when(found, unbound, name.at, CheckKind::Unbound)
        }
        None => found,
    }
}

/// Whether a name and these steps begin a call of the language's own.
fn begins_call(name: &Name, links: &[Link]) -> bool
    ensures { result ≡ begins_call (named_of name.now).text (links_in links.now) }
{
    match links.split_first() {
        Some((link, rest)) => begins_call_at(name, link, rest),
        None => false,
    }
}

/// As `begins_call`, of a step and those behind it.
fn begins_call_at(name: &Name, link: &Link, rest: &[Link]) -> bool
    ensures { result ≡ begins_call (named_of name.now).text (with_link link.now (links_in rest.now)) }
{
    match link {
        Link::Call { .. } => word_form(name.text.as_str()).is_some(),
        Link::Field(field) => begins_call_of(name, field, rest),
        Link::Index { .. } => false,
    }
}

/// Whether a name, a field of it and these steps begin a call of the language's own.
fn begins_call_of(owner: &Name, field: &Name, rest: &[Link]) -> bool
    ensures { result ≡ (is_some (owner_form (named_of owner.now).text (named_of field.now).text) && is_call_first (links_in rest.now)) }
{
    let known = owner_form(owner.text.as_str(), field.text.as_str()).is_some();
    let called = is_call_first(rest);
    known && called
}

/// Whether these steps begin with a call.
fn is_call_first(links: &[Link]) -> bool
    ensures { result ≡ is_call_first (links_in links.now) }
{
    match links.split_first() {
        Some((link, _)) => is_call(link),
        None => false,
    }
}
