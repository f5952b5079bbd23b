//! The first argument of a call.
ghost use Rattle.std.specs.Prelude.{◌≡◌, IfOk, option_map};
ghost use Rattle.do_tree.specs.Nodes.{args_in as list_in, with_arg, with_link};
ghost use Rattle.do_tree.specs.Seen.{expr_of};
ghost use Rattle.do_tree.specs.Tree.{Args, Links};
ghost use Rattle.script_paths.specs.Ahead.{callback_of, first_callback, first_value};
ghost use Rattle.script_steps.specs.Parts.{args_in, args_of};

use crate::link::links_after;
use do_tree::{Arg, Callback, Expr, Link};
use do_value::Mem;
use script_steps::again;
use std::sync::Arc;

/// The callback that is the first argument of the call at that link, if it is one.
pub(crate) fn callback_at(node: &Expr, link: usize) -> Mem<Option<Arc<Callback>>>
    ensures { IfOk result (λ found. first_callback (args_in (expr_of node.now) link 0) ≡ option_map (λ c. callback_of c.value) found) }
{
    match args_at(node, link).split_first() {
        Some((arg, _)) => callback_in(arg),
        None => Ok(None),
    }
}

/// The argument, if it is a callback.
fn callback_in(arg: &Arg) -> Mem<Option<Arc<Callback>>>
    ensures { IfOk result (λ found. (rest : Args) → first_callback (with_arg arg.now rest) ≡ option_map (λ c. callback_of c.value) found) }
{
    match arg {
        Arg::Callback(callback) => Ok(Some(again(callback)?)),
        Arg::Value(_) => Ok(None),
    }
}

/// The expression that is the first argument of the call at that link, if it is one.
pub(crate) fn value_at(node: &Expr, link: usize) -> Mem<Option<Arc<Expr>>>
    ensures { IfOk result (λ found. first_value (args_in (expr_of node.now) link 0) ≡ option_map (λ e. expr_of e.value) found) }
{
    match args_at(node, link).split_first() {
        Some((arg, _)) => value_in(arg),
        None => Ok(None),
    }
}

/// The argument, if it is an expression.
fn value_in(arg: &Arg) -> Mem<Option<Arc<Expr>>>
    ensures { IfOk result (λ found. (rest : Args) → first_value (with_arg arg.now rest) ≡ option_map (λ e. expr_of e.value) found) }
{
    match arg {
        Arg::Value(value) => Ok(Some(again(value)?)),
        Arg::Callback(_) => Ok(None),
    }
}

/// The arguments of the call at that link; none where there is no call.
fn args_at(node: &Expr, link: usize) -> &[Arg]
    ensures { args_in (expr_of node.now) link 0 ≡ list_in result.now }
{
    match links_after(node, link).split_first() {
        Some((link, _)) => args_of(link),
        None => &[],
    }
}

/// The arguments of a link, if it is a call.
fn args_of(link: &Link) -> &[Arg]
    ensures { (rest : Links) → args_of (with_link link.now rest) ≡ list_in result.now }
{
    match link {
        Link::Call { args, .. } => args,
        _ => &[],
    }
}
