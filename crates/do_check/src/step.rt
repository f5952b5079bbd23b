//! The faults of a path at each of its steps.
#![tactic(auto, using(std::proofs::lemmas::Grind::common_steps, crate::proofs::Append::least_append))]

ghost use Rattle.std.specs.Prelude.{◌≡◌, ◌&&◌, codes};
ghost use Rattle.do_check.specs.First.{least};
ghost use Rattle.do_check.specs.Parts.{calling_faults, end_faults, idle_faults, listed_faults, outside_faults, stage_faults, step_faults};
ghost use Rattle.do_check.specs.Sight.{form_of, path_in, scope_in, stage_of, use_of};
ghost use Rattle.do_tree.specs.Asking.{has_key, is_awaitable, is_whole, may_end};
ghost use Rattle.do_tree.specs.Forms.{among};
ghost use Rattle.do_tree.specs.Names.{outside_words};
ghost use Rattle.do_tree.specs.Nodes.{args_in, links_in, pairs_in, with_arg, with_link};
ghost use Rattle.do_tree.specs.Seen.{class_of, expr_of, named_of};
ghost use Rattle.do_tree.specs.Tree.{Args, value_arg};

use crate::asking::{check_called, is_alone, is_identifier, is_written, waits};
use crate::found::{Found, keep_when};
use crate::methods::Methods;
use crate::path::{Path, check_constant};
use crate::scope::{Scope, Use};
use crate::stage::{Form, Stage, is_end};
use do_tree::{Arg, CheckKind, Expr, Link, Name, Pair};

/// A path that has come to a stage, with these steps to go.
pub fn check_stage(scope: &Scope, path: &Path, stage: &Stage, links: &[Link], found: Found) -> Found
    ensures { result ≡ least found (stage_faults (scope_in scope.now) (path_in path.now) (stage_of stage.now) (links_in links.now)) }
{
    let found = check_called(scope, path, stage, links, found);
    check_step(scope, path, stage, links, found)
}

/// What is told by the first of the steps to go.
fn check_step(scope: &Scope, path: &Path, stage: &Stage, links: &[Link], found: Found) -> Found
    ensures { result ≡ least found (step_faults (scope_in scope.now) (path_in path.now) (stage_of stage.now) (links_in links.now)) }
{
    match links.split_first() {
        Some((link, rest)) => check_link(scope, path, stage, link, rest, found),
        None => check_end(scope, path, stage, found),
    }
}

/// As `check_step`, of a step and those behind it.
fn check_link(
    scope: &Scope,
    path: &Path,
    stage: &Stage,
    link: &Link,
    rest: &[Link],
    found: Found,
) -> Found
    ensures { result ≡ least found (step_faults (scope_in scope.now) (path_in path.now) (stage_of stage.now) (with_link link.now (links_in rest.now))) }
{
    match link {
        Link::Field(name) => {
            if is_end(rest) {
                check_outside(path, stage, name, found)
            } else {
                found
            }
        }
        Link::Index { .. } => found,
        Link::Call { args, .. } => check_calling(scope, path, stage, args, found),
    }
}

/// A write to this.ctx or this.env.
fn check_outside(path: &Path, stage: &Stage, name: &Name, found: Found) -> Found
    ensures { result ≡ least found (outside_faults (path_in path.now) (stage_of stage.now) (named_of name.now)) }
{
    let outside = matches!(stage, Stage::Itself)
        && is_written(path.serves)
        && is_outside_word(name.text.as_str());
    keep_when(found, outside, name.at, CheckKind::Reserved)
}

fn is_outside_word(name: &str) -> bool
    ensures { result ≡ among outside_words name.now }
{
    "ctx" == name || "env" == name
}

/// A path that is about to be called.
fn check_calling(scope: &Scope, path: &Path, stage: &Stage, args: &[Arg], found: Found) -> Found
    ensures { result ≡ least found (calling_faults (scope_in scope.now) (path_in path.now) (stage_of stage.now) (args_in args.now)) }
{
    match stage {
        Stage::Part {
            is_place: true,
            name,
        } => {
            if "push" == name.text.as_str() {
                check_constant(scope, path.root, found)
            } else {
                found
            }
        }
        Stage::Callee(Form::Lists) | Stage::Callee(Form::HandleLists) => check_listed(args, found),
        _ => found,
    }
}

/// The options of a list.
fn check_listed(args: &[Arg], found: Found) -> Found
    ensures { result ≡ least found (listed_faults (args_in args.now)) }
{
    match args.split_first() {
        Some((arg, _)) => check_first(arg, found),
        None => found,
    }
}

/// The first argument of a list.
fn check_first(arg: &Arg, found: Found) -> Found
    ensures { (rest : Args) → result ≡ least found (listed_faults (with_arg arg.now rest)) }
{
    match arg {
        Arg::Value(value) => check_options(value, found),
        Arg::Callback(_) => found,
    }
}

#[tactic(auto, using(std::proofs::lemmas::Grind::common_steps, crate::proofs::Walked::options_faults))]
fn check_options(options: &Expr, found: Found) -> Found
    ensures { (rest : Args) → result ≡ least found (listed_faults (value_arg (expr_of options.now) rest)) }
{
    match options {
        Expr::Record { at, pairs } => {
            let twice = has_both(pairs);
            keep_when(found, twice, *at, CheckKind::StartTwice)
        }
        _ => found,
    }
}

/// Whether the pairs have both keys that a list may start from.
fn has_both(pairs: &[Pair]) -> bool
    ensures { result ≡ (has_key (pairs_in pairs.now) (codes "start") && has_key (pairs_in pairs.now) (codes "startAfter")) }
{
    let start = has_key(pairs, "start");
    let start_after = has_key(pairs, "startAfter");
    start && start_after
}

fn has_key(pairs: &[Pair], key: &str) -> bool
    ensures { result ≡ has_key (pairs_in pairs.now) key.now }
{
    for pair in pairs {
        if pair.key.text.as_str() == key {
            return true;
        }
    }
    false
}

/// A path's end.
fn check_end(scope: &Scope, path: &Path, stage: &Stage, found: Found) -> Found
    ensures { result ≡ least found (end_faults (scope_in scope.now) (path_in path.now) (stage_of stage.now)) }
{
    let found = keep_when(found, !is_whole(path, stage), path.at, CheckKind::Form);
    check_idle(scope, path.serves, stage, found)
}

/// Whether what a path comes to in the end is an expression.
fn is_whole(path: &Path, stage: &Stage) -> bool
    ensures { result ≡ is_whole (path_in path.now) (stage_of stage.now) }
{
    match stage {
        Stage::Context | Stage::Environment => is_written(path.serves) && path.root.is_none(),
        Stage::Word(_) | Stage::Own(_) | Stage::Part { .. } | Stage::Place | Stage::Value => true,
        Stage::Called(form) => may_end(path.serves, form),
        _ => false,
    }
}

/// Whether a call of the form may be the whole of a path that serves for this.
fn may_end(serves: Use, form: &Form) -> bool
    ensures { result ≡ may_end (use_of serves) (form_of form.now) }
{
    match form {
        Form::RollsBack => is_alone(serves),
        Form::Identifies(_) => is_identifier(serves),
        Form::Opens(_) => false,
        _ => true,
    }
}

/// An await of what isn't to be awaited.
fn check_idle(scope: &Scope, serves: Use, stage: &Stage, found: Found) -> Found
    ensures { result ≡ least found (idle_faults (scope_in scope.now) (use_of serves) (stage_of stage.now)) }
{
    match serves {
        Use::Awaited(at) => keep_when(
            found,
            !is_awaitable(scope.methods, stage),
            at,
            CheckKind::AwaitOfSync,
        ),
        _ => found,
    }
}

fn is_awaitable(methods: &Methods, stage: &Stage) -> bool
    ensures { result ≡ is_awaitable (class_of methods.now.class.now) (stage_of stage.now) }
{
    match stage {
        Stage::Called(form) => waits(methods, form),
        _ => false,
    }
}
