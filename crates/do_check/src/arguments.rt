//! The first argument of a call, which some forms ask for.
#![tactic(auto, using(std::proofs::lemmas::Grind::common_steps, crate::proofs::Append::least_append))]

ghost use Rattle.std.specs.Prelude.{◌≡◌};
ghost use Rattle.do_check.specs.Sight.{form_of, names_of, option_text, role_of, stage_of};
ghost use Rattle.do_tree.specs.Forms.{fits, has_callback, has_identifier, identified, identified_class, identified_from, identified_in};
ghost use Rattle.do_tree.specs.Forms.{is_class, is_one_call, takes_callback};
ghost use Rattle.do_tree.specs.Nodes.{args_in, links_in, with_arg, with_link};
ghost use Rattle.do_tree.specs.Seen.{expr_of, named_of, option_named_of};
ghost use Rattle.do_tree.specs.Tree.{Args};

use crate::named::Names;
use crate::scope::Role;
use crate::stage::{Form, Stage, field_of_itself, is_end, start};
use do_tree::{Arg, Expr, Link, Name};

/// Whether the first argument is what the form asks for.
pub fn fits(names: &Names, form: &Form, args: &[Arg]) -> bool
    ensures { result ≡ fits (names_of names.now) (form_of form.now) (args_in args.now) }
{
    match form {
        Form::Transacts => takes_callback(Role::Transaction, args),
        Form::Blocks => takes_callback(Role::Block, args),
        Form::Opens(class) => identifies(names, class, args),
        _ => true,
    }
}

/// Whether the first argument is the callback of a transaction or of a block.
fn takes_callback(role: Role, args: &[Arg]) -> bool
    ensures { result ≡ has_callback (role_of role) (args_in args.now) }
{
    match args.split_first() {
        Some((arg, _)) => is_callback(role, arg),
        None => false,
    }
}

/// Whether the argument is the callback of a transaction or of a block.
fn is_callback(role: Role, arg: &Arg) -> bool
    ensures { (rest : Args) → result ≡ has_callback (role_of role) (with_arg arg.now rest) }
{
    match arg {
        Arg::Callback(callback) => takes_parameter(role, &callback.parameter),
        Arg::Value(_) => false,
    }
}

/// Whether the callback that is there for this has such a parameter.
pub fn takes_parameter(role: Role, parameter: &Option<Name>) -> bool
    ensures { result ≡ takes_callback (role_of role) (option_named_of parameter.now) }
{
    match role {
        Role::Transaction => parameter.is_some(),
        Role::Block => parameter.is_none(),
        Role::Plain | Role::Identifier => false,
    }
}

/// Whether the first argument identifies an object of the class.
fn identifies(names: &Names, class: &Name, args: &[Arg]) -> bool
    ensures { result ≡ has_identifier (names_of names.now) (named_of class.now).text (args_in args.now) }
{
    match args.split_first() {
        Some((arg, _)) => is_identifier(names, class, arg),
        None => false,
    }
}

/// Whether the argument identifies an object of the class.
fn is_identifier(names: &Names, class: &Name, arg: &Arg) -> bool
    ensures { (rest : Args) → result ≡ has_identifier (names_of names.now) (named_of class.now).text (with_arg arg.now rest) }
{
    match arg {
        Arg::Value(value) => is_of_class(class, identified_class(names, value)),
        Arg::Callback(_) => false,
    }
}

fn is_of_class(class: &Name, other: Option<&Name>) -> bool
    ensures { result ≡ is_class (named_of class.now).text (option_text other.entry) }
{
    match other {
        Some(other) => class.text.as_str() == other.text.as_str(),
        None => false,
    }
}

/// The class X, of an expression that is E.X.idFromName(..).
#[tactic(auto, using(std::proofs::lemmas::Grind::common_steps, crate::proofs::Walked::identified_path))]
fn identified_class<'a>(names: &Names, value: &'a Expr) -> Option<&'a Name>
    ensures { option_text result ≡ identified_class (names_of names.now) (expr_of value.now) }
{
    match value {
        Expr::Path { base, links, .. } => identified_from(start(names, base), links),
        _ => None,
    }
}

fn identified_from<'a>(stage: Stage<'a>, links: &'a [Link]) -> Option<&'a Name>
    ensures { option_text result ≡ identified_from (stage_of stage.entry) (links_in links.now) }
{
    match links.split_first() {
        Some((link, rest)) => identified_behind(stage, link, rest),
        None => None,
    }
}

/// As `identified_from`, of a step and those behind it.
fn identified_behind<'a>(stage: Stage<'a>, link: &'a Link, rest: &'a [Link]) -> Option<&'a Name>
    ensures { option_text result ≡ identified_from (stage_of stage.entry) (with_link link.now (links_in rest.now)) }
{
    match (stage, link) {
        (Stage::Itself, Link::Field(name)) => identified(field_of_itself(name), rest),
        (Stage::Environment, Link::Field(class)) => identified_in(class, rest),
        _ => None,
    }
}

fn identified<'a>(stage: Stage<'a>, links: &'a [Link]) -> Option<&'a Name>
    ensures { option_text result ≡ identified (stage_of stage.entry) (links_in links.now) }
{
    match links.split_first() {
        Some((link, rest)) => identified_at(stage, link, rest),
        None => None,
    }
}

/// As `identified`, of a step and those behind it.
fn identified_at<'a>(stage: Stage<'a>, link: &'a Link, rest: &'a [Link]) -> Option<&'a Name>
    ensures { option_text result ≡ identified (stage_of stage.entry) (with_link link.now (links_in rest.now)) }
{
    match (stage, link) {
        (Stage::Environment, Link::Field(class)) => identified_in(class, rest),
        _ => None,
    }
}

/// The class, of the steps .idFromName(..) behind it.
fn identified_in<'a>(class: &'a Name, links: &[Link]) -> Option<&'a Name>
    ensures { option_text result ≡ identified_in (named_of class.now).text (links_in links.now) }
{
    match links.split_first() {
        Some((link, rest)) => identified_by(class, link, rest),
        None => None,
    }
}

/// As `identified_in`, of a step and those behind it.
fn identified_by<'a>(class: &'a Name, link: &Link, rest: &[Link]) -> Option<&'a Name>
    ensures { option_text result ≡ identified_in (named_of class.now).text (with_link link.now (links_in rest.now)) }
{
    match link {
        Link::Field(method) => {
            if "idFromName" == method.text.as_str() && is_one_call(rest) {
                Some(class)
            } else {
                None
            }
        }
        Link::Index { .. } | Link::Call { .. } => None,
    }
}

/// Whether the steps are one call.
fn is_one_call(links: &[Link]) -> bool
    ensures { result ≡ is_one_call (links_in links.now) }
{
    match links.split_first() {
        Some((link, rest)) => is_one_call_at(link, rest),
        None => false,
    }
}

/// As `is_one_call`, of a step and those behind it.
fn is_one_call_at(link: &Link, rest: &[Link]) -> bool
    ensures { result ≡ is_one_call (with_link link.now (links_in rest.now)) }
{
    match link {
        Link::Call { .. } => is_end(rest),
        Link::Field(_) | Link::Index { .. } => false,
    }
}
