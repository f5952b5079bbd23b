//! The links of paths, and the arguments of their calls.
ghost use Rattle.std.specs.Prelude.{◌≡◌, ◌+◌, ◌^◌, ◌<◌, IfSome, option_map};
ghost use Rattle.do_tree.specs.Nodes.{args_in as args_of_all, links_in as links_of_all};
ghost use Rattle.do_tree.specs.Seen.{expr_of};
ghost use Rattle.script_steps.specs.Parts.{args_from, args_in, links_from, links_in, with_next, with_next_arg};

use do_tree::{Arg, Expr, Link};

/// The link at that place of a path. There is none past the last, and none in what is no path.
#[tactic(auto, using(crate::proofs::Links::path_links, crate::proofs::Links::links_from_none))]
pub fn link_at(node: &Expr, place: usize) -> Option<&Link>
    ensures link { links_in (expr_of node.now) place ≡ with_next (option_map (λ l. l.now) result) (links_in (expr_of node.now) (place + 1)) }
    ensures room { IfSome result (λ l. place + 1 < 2 ^ 64) }
{
    match node {
        Expr::Path { links, .. } => link_in(links, place),
        _ => None,
    }
}

// The link at that place of the links of a path.
#[tactic(auto, using(crate::proofs::Links::links_past, crate::proofs::Links::links_at))]
fn link_in(links: &[Link], place: usize) -> Option<&Link>
    ensures link { links_from place (links_of_all links.now) ≡ with_next (option_map (λ l. l.now) result) (links_from (place + 1) (links_of_all links.now)) }
    ensures room { IfSome result (λ l. place + 1 < 2 ^ 64) }
{
    if place >= links.len() {
        return None;
    }
    Some(&links[place])
}

/// The argument at that place of the call at that link of a path. There is none past the last, and none of what is no call.
#[tactic(auto, using(crate::proofs::Links::no_link, crate::proofs::Links::args_from_none))]
pub fn arg_at(node: &Expr, link: usize, place: usize) -> Option<&Arg>
    ensures arg { args_in (expr_of node.now) link place ≡ with_next_arg (option_map (λ a. a.now) result) (args_in (expr_of node.now) link (place + 1)) }
    ensures room { IfSome result (λ a. place + 1 < 2 ^ 64) }
{
    match link_at(node, link) {
        Some(Link::Call { args, .. }) => arg_in(args, place),
        _ => None,
    }
}

// The argument at that place of the arguments of a call.
#[tactic(auto, using(crate::proofs::Links::args_past, crate::proofs::Links::args_at))]
fn arg_in(args: &[Arg], place: usize) -> Option<&Arg>
    ensures arg { args_from place (args_of_all args.now) ≡ with_next_arg (option_map (λ a. a.now) result) (args_from (place + 1) (args_of_all args.now)) }
    ensures room { IfSome result (λ a. place + 1 < 2 ^ 64) }
{
    if place >= args.len() {
        return None;
    }
    Some(&args[place])
}
