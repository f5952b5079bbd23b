//! How many expressions a path is, by its links.
ghost use Rattle.std.specs.Prelude.{◌≡◌, ◌+◌, ◌≤◌, length, unwrap_or};
ghost use Rattle.do_tree.specs.Nodes.{links_in as list_in, with_link};
ghost use Rattle.do_tree.specs.Seen.{named_of};
ghost use Rattle.do_tree.specs.Tree.{field};
ghost use Rattle.script_mean.specs.Paths.{parts, parts_behind_call, parts_behind_two_calls, parts_from, pushes};
ghost use Rattle.script_mean.specs.Paths.{parts_of_itself, parts_of_own, parts_of_push, parts_of_value};
ghost use Rattle.script_steps.specs.Paths.{point_of};

use crate::link::{begins_with_call, is_call};
use do_tree::{Link, Name};
use script_steps::Point;

/// Whether the first call of a path is one of `push`.
pub(crate) fn pushes(links: &[Link]) -> bool
    ensures { result ≡ pushes (list_in links.now) }
{
    let mut rest = links;
    while let [link, after @ ..] = rest {
        if let Some(answer) = push_at(link, after) {
            return answer;
        }
        rest = after;
    }
    false
}

/// Whether the first call is one of `push`, if it is the one of this link and of those behind it.
fn push_at(link: &Link, after: &[Link]) -> Option<bool>
    ensures { pushes (with_link link.now (list_in after.now)) ≡ unwrap_or result (pushes (list_in after.now)) }
{
    match link {
        Link::Field(name) => {
            if begins_with_call(after) {
                Some(name.text.as_str() == "push")
            } else {
                None
            }
        }
        Link::Index { .. } => None,
        Link::Call { .. } => Some(false),
    }
}

/// How many expressions the steps are. A call is one with the field before it.
#[tactic(auto, using(crate::proofs::Counted::parts_past_call, crate::proofs::Counted::parts_past_step))]
pub(crate) fn parts(links: &[Link]) -> usize
    ensures count { result ≡ parts (list_in links.now) }
    ensures room { result ≤ length links.now }
{
    let mut count = 0;
    let mut rest = links;
    while let [link, after @ ..] = rest {
        if !is_call(link) {
            count += 1;
        }
        rest = after;
    }
    count
}

/// How many there are behind the first call.
#[tactic(auto, using(crate::proofs::Counted::behind_this_call, crate::proofs::Counted::behind_later_call))]
pub(crate) fn parts_behind_call(links: &[Link]) -> usize
    ensures count { result ≡ parts_behind_call (list_in links.now) }
    ensures room { result ≤ length links.now }
{
    let mut rest = links;
    while let [link, after @ ..] = rest {
        if is_call(link) {
            return parts(after);
        }
        rest = after;
    }
    0
}

/// How many there are behind the second call.
#[tactic(auto, using(crate::proofs::Counted::behind_this_and_next, crate::proofs::Counted::behind_later_calls))]
pub(crate) fn parts_behind_two_calls(links: &[Link]) -> usize
    ensures count { result ≡ parts_behind_two_calls (list_in links.now) }
    ensures room { result ≤ length links.now }
{
    let mut rest = links;
    while let [link, after @ ..] = rest {
        if is_call(link) {
            return parts_behind_call(after);
        }
        rest = after;
    }
    0
}

/// How many expressions a path is that pushes to a place.
pub(crate) fn parts_of_push(links: &[Link]) -> usize
    ensures count { result ≡ parts_of_push (list_in links.now) }
    ensures room { result ≤ 1 + length links.now }
{
    1 + parts_behind_call(links)
}

/// How many expressions a path is that begins with another one.
pub(crate) fn parts_of_value(links: &[Link]) -> usize
    ensures { result ≡ parts_of_value (list_in links.now) }
{
    match links.split_first() {
        Some((link, rest)) => parts_from_value(link, rest),
        None => 1,
    }
}

/// The same with the first of its links.
fn parts_from_value(link: &Link, rest: &[Link]) -> usize
    ensures { result ≡ parts_of_value (with_link link.now (list_in rest.now)) }
{
    match link {
        Link::Field(_) | Link::Index { .. } | Link::Call { .. } => 1 + parts(rest),
    }
}

/// How many expressions a path is from a field of the object itself on.
fn parts_of_own(name: &str, links: &[Link]) -> usize
    ensures { result ≡ parts_of_own name.now (list_in links.now) }
{
    if name == "ctx" {
        1 + parts_behind_call(links)
    } else if name == "env" {
        1 + parts_behind_two_calls(links)
    } else if pushes(links) {
        parts_of_push(links)
    } else {
        1 + parts(links)
    }
}

/// How many expressions a path is from the object itself on.
fn parts_of_itself(links: &[Link]) -> usize
    ensures { result ≡ parts_of_itself (list_in links.now) }
{
    match links.split_first() {
        Some((link, rest)) => parts_from_first(link, rest),
        None => 1,
    }
}

/// The same with the first of its links. One that is called is a helper, whatever its name.
fn parts_from_first(link: &Link, rest: &[Link]) -> usize
    ensures { result ≡ parts_of_itself (with_link link.now (list_in rest.now)) }
{
    match link {
        Link::Field(name) => parts_from_field(name, rest),
        _ => 1,
    }
}

fn parts_from_field(name: &Name, rest: &[Link]) -> usize
    ensures { result ≡ parts_of_itself (field (named_of name.now) (list_in rest.now)) }
{
    if begins_with_call(rest) {
        1 + parts(rest)
    } else {
        parts_of_own(name.text.as_str(), rest)
    }
}

/// How many expressions a path is from this point on.
pub(crate) fn parts_from(point: &Point, links: &[Link]) -> usize
    ensures { result ≡ parts_from (point_of point.now) (list_in links.now) }
{
    match point {
        Point::Itself => parts_of_itself(links),
        Point::Environment | Point::Class(_) => 1 + parts_behind_two_calls(links),
        Point::Holds(_) => 1 + parts(links),
        _ => 1 + parts_behind_call(links),
    }
}
