//! What comes next in a path.
ghost use Rattle.std.specs.Prelude.{ℕ, ◌≡◌, ◌+◌, ◌^◌, ◌<◌, ◌≤◌, IfOk, IsTrue, length};
ghost use Rattle.do_tree.specs.Nodes.{links_in as list_in, with_link};
ghost use Rattle.do_tree.specs.Seen.{expr_of};
ghost use Rattle.do_tree.specs.Tree.{Links, field};
ghost use Rattle.script_mean.specs.Paths.{is_called};
ghost use Rattle.script_paths.specs.Ahead.{front, front_of, links_seen};
ghost use Rattle.script_steps.specs.Parts.{links_from, links_in};

use do_tree::{Expr, Link};
use do_value::{Mem, Text};
use script_steps::again;
use std::sync::Arc;

/// What a path goes on with.
#[derive(Drop)]
pub(crate) enum Ahead {
    /// Nothing: the path is at its end.
    End,
    /// A field of this name, which isn't called.
    Field(Text),
    /// The call of the method of this name.
    Method(Text),
    /// An index.
    Index(Arc<Expr>),
    /// A call of what the path has come to.
    Call,
}

/// What a path goes on with at that place.
pub(crate) fn ahead_at(node: &Expr, place: usize) -> Mem<Ahead>
    ensures front { IfOk result (λ a. front (links_in (expr_of node.now) place) ≡ front_of a) }
    ensures room { IfOk result (λ a. place + links_seen a < 2 ^ 64) }
{
    first_of(links_after(node, place))
}

/// The links of a path from that place on.
pub(crate) fn links_after(node: &Expr, place: usize) -> &[Link]
    ensures links { links_in (expr_of node.now) place ≡ list_in result.now }
    ensures room { place + length result.now < 2 ^ 64 }
{
    match node {
        Expr::Path { links, .. } => past(links, place),
        _ => &[],
    }
}

/// The links behind so many.
fn past(links: &[Link], place: usize) -> &[Link]
    ensures links { links_from place (list_in links.now) ≡ list_in result.now }
    ensures room { place + length result.now < 2 ^ 64 }
{
    if place <= links.len() {
        &links[place..]
    } else {
        &[]
    }
}

/// What the links begin with.
fn first_of(links: &[Link]) -> Mem<Ahead>
    ensures front { IfOk result (λ a. front (list_in links.now) ≡ front_of a) }
    ensures seen { IfOk result (λ a. links_seen a ≤ length links.now) }
{
    match links.split_first() {
        Some((link, rest)) => first_before(link, rest),
        None => Ok(Ahead::End),
    }
}

/// The same of a link and those behind it.
fn first_before(link: &Link, rest: &[Link]) -> Mem<Ahead>
    ensures front { IfOk result (λ a. front (with_link link.now (list_in rest.now)) ≡ front_of a) }
    ensures seen { IfOk result (λ a. links_seen a ≤ 1 + length rest.now) }
{
    match link {
        Link::Field(name) => field_before(&name.text, rest),
        Link::Index { index, .. } => Ok(Ahead::Index(again(index)?)),
        Link::Call { .. } => Ok(Ahead::Call),
    }
}

/// The same of a field of this name, and the links behind it.
fn field_before(name: &Text, rest: &[Link]) -> Mem<Ahead>
    ensures front { IfOk result (λ a. (at : ℕ) → front (field (record { at = at; text = name.now }) (list_in rest.now)) ≡ front_of a) }
    ensures seen { IfOk result (λ a. links_seen a ≤ 1 + length rest.now) }
{
    let name = name.copy()?;
    if begins_with_call(rest) {
        Ok(Ahead::Method(name))
    } else {
        Ok(Ahead::Field(name))
    }
}

/// Whether the links begin with a call.
pub(crate) fn begins_with_call(links: &[Link]) -> bool
    ensures called { result ≡ is_called (list_in links.now) }
    ensures some { IsTrue result → 1 ≤ length links.now }
{
    match links.split_first() {
        Some((link, _)) => is_call(link),
        None => false,
    }
}

/// Whether a link is a call.
pub(crate) fn is_call(link: &Link) -> bool
    ensures { (rest : Links) → is_called (with_link link.now rest) ≡ result }
{
    matches!(link, Link::Call { .. })
}
