//! Calls that are to be awaited, and those that may not stand where they do.
#![tactic(auto, using(std::proofs::lemmas::Grind::common_steps, crate::proofs::Append::least_append))]

ghost use Rattle.std.specs.Prelude.{◌≡◌, ◌&&◌, not};
ghost use Rattle.do_check.specs.First.{least};
ghost use Rattle.do_check.specs.Parts.{called_faults, is_block, member_faults};
ghost use Rattle.do_check.specs.Sight.{form_of, path_in, scope_in, stage_of, use_of};
ghost use Rattle.do_tree.specs.Asking.{is_alone, is_awaited, is_help, is_identifier, is_met, is_outside, is_written, leaves_transaction, may_stand, waits};
ghost use Rattle.do_tree.specs.Forms.{ends};
ghost use Rattle.do_tree.specs.Nodes.{links_in};
ghost use Rattle.do_tree.specs.Seen.{class_of};

use crate::found::{Found, keep_when};
use crate::methods::Methods;
use crate::path::Path;
use crate::scope::{Scope, Use};
use crate::stage::{Form, Stage, is_end};
use do_tree::{CheckKind, Link};

/// A path that has come to the call of a form.
pub fn check_called(
    scope: &Scope,
    path: &Path,
    stage: &Stage,
    links: &[Link],
    found: Found,
) -> Found
    ensures { result ≡ least found (called_faults (scope_in scope.now) (path_in path.now) (stage_of stage.now) (links_in links.now)) }
{
    let Stage::Called(form) = stage else {
        return found;
    };
    let found = check_member(scope.methods, form, found);
    let missing = is_missing(scope, path, form, links);
    let found = keep_when(found, missing, path.at, CheckKind::NotAwaited);
    let outside = leaves(scope, path, form, links);
    let found = keep_when(found, outside, path.at, CheckKind::InTransaction);
    let inner = nests(scope, form);
    keep_when(found, inner, path.at, CheckKind::InBlock)
}

/// Whether the call is to be awaited and isn't.
fn is_missing(scope: &Scope, path: &Path, form: &Form, links: &[Link]) -> bool
    ensures { result ≡ (waits (scope_in scope.now).class (form_of form.now)
        && not (is_met (scope_in scope.now) (path_in path.now) (form_of form.now) (links_in links.now))) }
{
    let waits = waits(scope.methods, form);
    let met = is_met(scope, path, form, links);
    waits && !met
}

/// Whether the call may not stand in the transaction around it.
fn leaves(scope: &Scope, path: &Path, form: &Form, links: &[Link]) -> bool
    ensures { result ≡ ((scope_in scope.now).transaction && leaves_transaction (path_in path.now) (form_of form.now) (links_in links.now)) }
{
    let leaves = leaves_transaction(path, form, links);
    scope.in_transaction && leaves
}

/// Whether the call is a block inside another's callback.
fn nests(scope: &Scope, form: &Form) -> bool
    ensures { result ≡ ((scope_in scope.now).block && is_block (form_of form.now)) }
{
    let block = matches!(form, Form::Blocks);
    scope.in_block && block
}

/// A call of a method of the object.
fn check_member(methods: &Methods, form: &Form, found: Found) -> Found
    ensures { result ≡ least found (member_faults (class_of methods.now.class.now) (form_of form.now)) }
{
    match form {
        Form::Helps(name) => {
            let absent = !methods.has(name.text.as_str());
            keep_when(found, absent, name.at, CheckKind::NoMember)
        }
        _ => found,
    }
}

/// Whether a call of the form is to be awaited.
pub fn waits(methods: &Methods, form: &Form) -> bool
    ensures { result ≡ waits (class_of methods.now.class.now) (form_of form.now) }
{
    match form {
        Form::RollsBack | Form::Identifies(_) | Form::Opens(_) | Form::Computes => false,
        Form::Helps(name) => methods.has_async(name.text.as_str()),
        _ => true,
    }
}

/// Whether a call that is to be awaited is, or may stand without.
#[tactic(auto, using(std::proofs::lemmas::Grind::common_steps, crate::proofs::Walked::met_here, crate::proofs::Walked::met_behind))]
fn is_met(scope: &Scope, path: &Path, form: &Form, links: &[Link]) -> bool
    ensures { result ≡ is_met (scope_in scope.now) (path_in path.now) (form_of form.now) (links_in links.now) }
{
    if !is_end(links) {
        return false;
    }
    let awaited = is_awaited(path.serves);
    let stands = stands_alone(scope, path.serves, form);
    awaited || stands
}

/// Whether the call stands as a statement, and may.
fn stands_alone(scope: &Scope, serves: Use, form: &Form) -> bool
    ensures { result ≡ (is_alone (use_of serves) && may_stand (scope_in scope.now) (form_of form.now)) }
{
    let alone = is_alone(serves);
    let may = may_stand(scope, form);
    alone && may
}

/// Whether what is to be awaited may stand as a statement without.
fn may_stand(scope: &Scope, form: &Form) -> bool
    ensures { result ≡ may_stand (scope_in scope.now) (form_of form.now) }
{
    match form {
        Form::Writes | Form::HandleWrites => true,
        Form::Blocks => scope.last,
        _ => false,
    }
}

fn is_awaited(serves: Use) -> bool
    ensures { result ≡ is_awaited (use_of serves) }
{
    matches!(serves, Use::Awaited(_))
}

pub fn is_alone(serves: Use) -> bool
    ensures { result ≡ is_alone (use_of serves) }
{
    matches!(serves, Use::Alone)
}

pub fn is_written(serves: Use) -> bool
    ensures { result ≡ is_written (use_of serves) }
{
    matches!(serves, Use::Written)
}

pub fn is_identifier(serves: Use) -> bool
    ensures { result ≡ is_identifier (use_of serves) }
{
    matches!(serves, Use::Identifier)
}

/// Whether a call may not stand in a transaction.
fn leaves_transaction(path: &Path, form: &Form, links: &[Link]) -> bool
    ensures { result ≡ leaves_transaction (path_in path.now) (form_of form.now) (links_in links.now) }
{
    let helps = awaits_help(path, form, links);
    is_outside(form) || helps
}

/// Whether a method of the object is called and awaited.
fn awaits_help(path: &Path, form: &Form, links: &[Link]) -> bool
    ensures { result ≡ (is_help (form_of form.now) && is_awaited (path_in path.now).serves && ends (links_in links.now)) }
{
    match form {
        Form::Helps(_) => {
            let awaited = is_awaited(path.serves);
            let end = is_end(links);
            awaited && end
        }
        _ => false,
    }
}

/// Whether a call of the form asks or stores, and isn't one of a transaction's handle.
fn is_outside(form: &Form) -> bool
    ensures { result ≡ is_outside (form_of form.now) }
{
    match form {
        Form::Reads
        | Form::Lists
        | Form::Writes
        | Form::Transacts
        | Form::Blocks
        | Form::Reaches
        | Form::Fetches => true,
        _ => false,
    }
}
