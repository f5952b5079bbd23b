//! What a path has come to.
#![tactic(auto, using(std::proofs::lemmas::Grind::common_steps, crate::proofs::Append::least_append))]

ghost use Rattle.std.specs.Prelude.{◌≡◌, option_map};
ghost use Rattle.do_check.specs.Sight.{form_of, names_of, role_of, stage_of};
ghost use Rattle.do_tree.specs.Forms.{after_call, after_field, after_index, called_of, callee_of, context, ends, field_of_called, gives_value};
ghost use Rattle.do_tree.specs.Forms.{is_call_first, itself, role_of as role_at, sort_in, start, start_name};
ghost use Rattle.do_tree.specs.Nodes.{args_in, links_in, with_link};
ghost use Rattle.do_tree.specs.Seen.{expr_of, named_of};
ghost use Rattle.do_tree.specs.Tree.{Links};

use crate::arguments::fits;
use crate::named::{Names, find};
use crate::scope::Role;
use crate::sort::Sort;
use crate::words::{
    class_form, handle_form, is_language_word, is_method, owner_form, storage_form, word_form,
};
use do_lex::is_keyword;
use do_tree::{Arg, Expr, Link, Name};

/// A form of a call.
#[derive(Clone, Copy)]
pub enum Form<'a> {
    /// Storage that is read.
    Reads,
    /// Storage that is listed.
    Lists,
    /// Storage that is written.
    Writes,
    Transacts,
    Blocks,
    /// The same of a transaction's handle.
    HandleReads,
    HandleLists,
    HandleWrites,
    RollsBack,
    /// A method of the object itself.
    Helps(&'a Name),
    /// The identifier of an object of this class.
    Identifies(&'a Name),
    /// An object of this class.
    Opens(&'a Name),
    /// A method of another object.
    Reaches,
    Fetches,
    /// What asks nothing.
    Computes,
}

/// What a path has come to.
#[derive(Clone, Copy)]
pub enum Stage<'a> {
    /// `this`
    Itself,
    /// `this.ctx`
    Context,
    Storage,
    /// `this.env`
    Environment,
    /// A class of the environment.
    OfClass(&'a Name),
    /// The handle of a transaction.
    Handle,
    /// A word of the language.
    Word(&'a Name),
    /// `this.NAME`
    Own(&'a Name),
    /// A field of a place, or of another value.
    Part { is_place: bool, name: &'a Name },
    Place,
    Value,
    /// A form but for its call.
    Callee(Form<'a>),
    /// The call of a form.
    Called(Form<'a>),
    /// What is no form.
    Lost,
}

/// What a path begins with.
pub fn start<'a>(names: &Names, expr: &'a Expr) -> Stage<'a>
    ensures { stage_of result ≡ start (names_of names.now) (expr_of expr.now) }
{
    match expr {
        Expr::This { .. } => Stage::Itself,
        Expr::Variable(name) => start_name(names, name),
        _ => Stage::Value,
    }
}

/// What a name begins.
pub fn start_name<'a>(names: &Names, name: &'a Name) -> Stage<'a>
    ensures { stage_of result ≡ start_name (named_of name.now).text (sort_in (names_of names.now) (named_of name.now).text) }
{
    match find(names, name.text.as_str()) {
        Some(Sort::Variable) | Some(Sort::Constant) => Stage::Place,
        Some(Sort::Transacting) => Stage::Handle,
        Some(Sort::GivenCtx) => Stage::Context,
        Some(Sort::GivenEnv) => Stage::Environment,
        None => {
            if is_language_word(name.text.as_str()) {
                Stage::Word(name)
            } else {
                Stage::Place
            }
        }
    }
}

/// What a path comes to by `.NAME`.
pub fn after_field<'a>(stage: Stage<'a>, name: &'a Name) -> Stage<'a>
    ensures { stage_of result ≡ after_field (stage_of stage.entry) (named_of name.now) }
{
    let text = name.text.as_str();
    match stage {
        Stage::Itself => field_of_itself(name),
        Stage::Context => field_of_context(name),
        Stage::Storage => callee_of(storage_form(text)),
        Stage::Environment => Stage::OfClass(name),
        Stage::OfClass(class) => callee_of(class_form(class, text)),
        Stage::Handle => callee_of(handle_form(text)),
        Stage::Word(owner) => callee_of(owner_form(owner.text.as_str(), text)),
        Stage::Own(_) | Stage::Place => Stage::Part {
            is_place: true,
            name,
        },
        Stage::Part { is_place, .. } => Stage::Part { is_place, name },
        Stage::Value => Stage::Part {
            is_place: false,
            name,
        },
        Stage::Called(form) => field_of_called(form, name),
        Stage::Callee(_) | Stage::Lost => Stage::Lost,
    }
}

/// What a path comes to by `[INDEX]`.
pub fn after_index<'a>(stage: Stage<'a>) -> Stage<'a>
    ensures { stage_of result ≡ after_index (stage_of stage.entry) }
{
    match stage {
        Stage::Own(_) | Stage::Place | Stage::Part { is_place: true, .. } => Stage::Place,
        Stage::Value
        | Stage::Part {
            is_place: false,
            ..
        } => Stage::Value,
        Stage::Called(form) => {
            if gives_value(&form) {
                Stage::Value
            } else {
                Stage::Lost
            }
        }
        _ => Stage::Lost,
    }
}

/// What a path comes to by `(ARGS)`.
pub fn after_call<'a>(names: &Names, stage: Stage<'a>, args: &[Arg]) -> Stage<'a>
    ensures { stage_of result ≡ after_call (names_of names.now) (stage_of stage.entry) (args_in args.now) }
{
    match stage {
        Stage::Callee(form) => {
            if fits(names, &form, args) {
                Stage::Called(form)
            } else {
                Stage::Lost
            }
        }
        Stage::Own(name) => Stage::Called(Form::Helps(name)),
        Stage::Part { is_place, name } => {
            if is_method(is_place, name.text.as_str()) {
                Stage::Called(Form::Computes)
            } else {
                Stage::Lost
            }
        }
        Stage::Word(word) => called_of(word_form(word.text.as_str())),
        _ => Stage::Lost,
    }
}

/// What the first argument of a call at this stage is there for.
pub fn role_of(stage: &Stage) -> Role
    ensures { role_of result ≡ role_at (stage_of stage.now) }
{
    match stage {
        Stage::Callee(Form::Transacts) => Role::Transaction,
        Stage::Callee(Form::Blocks) => Role::Block,
        Stage::Callee(Form::Opens(_)) => Role::Identifier,
        _ => Role::Plain,
    }
}

/// Whether a call of the form has a value, at once or when it is awaited.
pub fn gives_value(form: &Form) -> bool
    ensures { result ≡ gives_value (form_of form.now) }
{
    !matches!(form, Form::RollsBack | Form::Identifies(_) | Form::Opens(_))
}

fn callee_of<'a>(form: Option<Form<'a>>) -> Stage<'a>
    ensures { stage_of result ≡ callee_of (option_map form_of form.entry) }
{
    match form {
        Some(form) => Stage::Callee(form),
        None => Stage::Lost,
    }
}

fn called_of<'a>(form: Option<Form<'a>>) -> Stage<'a>
    ensures { stage_of result ≡ called_of (option_map form_of form.entry) }
{
    match form {
        Some(form) => Stage::Called(form),
        None => Stage::Lost,
    }
}

pub fn field_of_itself<'a>(name: &'a Name) -> Stage<'a>
    ensures { stage_of result ≡ after_field itself (named_of name.now) }
{
    if "ctx" == name.text.as_str() {
        Stage::Context
    } else if "env" == name.text.as_str() {
        Stage::Environment
    } else if is_keyword(name.text.as_str()) {
        Stage::Lost
    } else {
        Stage::Own(name)
    }
}

fn field_of_context<'a>(name: &'a Name) -> Stage<'a>
    ensures { stage_of result ≡ after_field context (named_of name.now) }
{
    if "storage" == name.text.as_str() {
        Stage::Storage
    } else if "blockConcurrencyWhile" == name.text.as_str() {
        Stage::Callee(Form::Blocks)
    } else {
        Stage::Lost
    }
}

fn field_of_called<'a>(form: Form<'a>, name: &'a Name) -> Stage<'a>
    ensures { stage_of result ≡ field_of_called (form_of form.entry) (named_of name.now).text }
{
    if let Form::Opens(_) = form {
        return Stage::Callee(Form::Reaches);
    }
    if gives_value(&form) {
        Stage::Part {
            is_place: false,
            name,
        }
    } else {
        Stage::Lost
    }
}

/// Whether there are no more steps.
#[tactic(auto, using(crate::proofs::Walked::ends_empty))]
pub fn is_end(links: &[Link]) -> bool
    ensures { result ≡ ends (links_in links.now) }
{
    links.is_empty()
}

/// Whether the step is a call.
pub fn is_call(link: &Link) -> bool
    ensures { (rest : Links) → result ≡ is_call_first (with_link link.now rest) }
{
    matches!(link, Link::Call { .. })
}
