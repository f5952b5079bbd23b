//! The text of a script.
#![tactic(auto, using(std::proofs::lemmas::Grind::common_steps, crate::proofs::Writing::write_all_append))]

ghost use Rattle.std.specs.Prelude.{◌≡◌, ◌++◌, IfOk, OnOk, map};
ghost use Rattle.do_tree.specs.Print.{import_tokens, imported_tokens, text_of_script, tokens_of_class, tokens_of_class_head, tokens_of_classes, tokens_of_ctx_env, tokens_of_exported, tokens_of_head, tokens_of_import, tokens_of_method, tokens_of_methods, tokens_of_more_names, tokens_of_names, tokens_of_signature};
ghost use Rattle.do_tree.specs.Seen.{class_of, method_of, named_of, script_of};
ghost use Rattle.do_tree.specs.Written.{write_all, written_of};

use crate::print_stmt::print_items;
use crate::print_word::{Edge, Printed, put_key, put_mark, put_name, put_quoted, put_word};
use crate::script::{Class, Method, MethodKind, Name, Script};
use do_lex::{Keyword, Mark};
use do_value::Mem;

impl Script {
    /// The text of the script: its tokens, with a space between two only where they need it.
    pub fn print(&self) -> Mem<Vec<u8>>
        ensures { IfOk result (λ text. text.items ≡ text_of_script (script_of self.now)) }
    {
        let mut out = Printed {
            edge: Edge::Other,
            text: Vec::new(*self.classes.allocator()),
        };
        print_import(&mut out, self.import)?;
        print_classes(&mut out, &self.classes)?;
        Ok(out.text)
    }
}

fn print_import(out: &mut Printed, import: Option<u32>) -> Mem<()>
    ensures { OnOk result (written_of out.new ≡ write_all (written_of out.old) (tokens_of_import import)) }
{
    match import {
        Some(_) => print_import_line(out),
        None => Ok(()),
    }
}

/// The import that a script may begin with.
fn print_import_line(out: &mut Printed) -> Mem<()>
    ensures { OnOk result (written_of out.new ≡ write_all (written_of out.old) import_tokens) }
{
    print_imported(out)?;
    put_word(out, "from")?;
    put_quoted(out, "cloudflare:workers")?;
    put_mark(out, Mark::Semicolon)
}

/// What is imported.
fn print_imported(out: &mut Printed) -> Mem<()>
    ensures { OnOk result (written_of out.new ≡ write_all (written_of out.old) imported_tokens) }
{
    put_key(out, Keyword::Import)?;
    put_mark(out, Mark::OpenBrace)?;
    put_word(out, "DurableObject")?;
    put_mark(out, Mark::CloseBrace)
}

fn print_classes(out: &mut Printed, classes: &[Class]) -> Mem<()>
    ensures { OnOk result (written_of out.new ≡ write_all (written_of out.old) (tokens_of_classes (map class_of classes.now))) }
{
    for class in classes {
        print_class(out, class)?;
    }
    Ok(())
}

fn print_class(out: &mut Printed, class: &Class) -> Mem<()>
    ensures { OnOk result (written_of out.new ≡ write_all (written_of out.old) (tokens_of_class (class_of class.now))) }
{
    print_class_head(out, &class.name)?;
    print_methods(out, &class.methods)?;
    put_mark(out, Mark::CloseBrace)
}

/// What stands before a class's methods.
fn print_class_head(out: &mut Printed, name: &Name) -> Mem<()>
    ensures { OnOk result (written_of out.new ≡ write_all (written_of out.old) (tokens_of_class_head (named_of name.now))) }
{
    print_exported(out, name)?;
    put_key(out, Keyword::Extends)?;
    put_word(out, "DurableObject")?;
    put_mark(out, Mark::OpenBrace)
}

/// The class's name, with the words before it.
fn print_exported(out: &mut Printed, name: &Name) -> Mem<()>
    ensures { OnOk result (written_of out.new ≡ write_all (written_of out.old) (tokens_of_exported (named_of name.now))) }
{
    put_key(out, Keyword::Export)?;
    put_key(out, Keyword::Class)?;
    put_name(out, name)
}

fn print_methods(out: &mut Printed, methods: &[Method]) -> Mem<()>
    ensures { OnOk result (written_of out.new ≡ write_all (written_of out.old) (tokens_of_methods (map method_of methods.now))) }
{
    for method in methods {
        print_method(out, method)?;
    }
    Ok(())
}

fn print_method(out: &mut Printed, method: &Method) -> Mem<()>
    ensures { OnOk result (written_of out.new ≡ write_all (written_of out.old) (tokens_of_method (method_of method.now))) }
{
    print_head(out, method)?;
    print_items(out, &method.body.items)?;
    put_mark(out, Mark::CloseBrace)
}

/// What stands before a method's body.
fn print_head(out: &mut Printed, method: &Method) -> Mem<()>
    ensures { OnOk result (written_of out.new ≡ write_all (written_of out.old) (tokens_of_head method.now.kind (method_of method.now))) }
{
    match method.kind {
        MethodKind::Constructor => {
            put_key(out, Keyword::Constructor)?;
            print_ctx_env(out)?;
            put_mark(out, Mark::OpenBrace)?;
            put_key(out, Keyword::Super)?;
            print_ctx_env(out)?;
            put_mark(out, Mark::Semicolon)
        }
        MethodKind::Sync => print_signature(out, method),
        MethodKind::Async => {
            put_key(out, Keyword::Async)?;
            print_signature(out, method)
        }
    }
}

/// The parameters of each constructor, which it hands on.
fn print_ctx_env(out: &mut Printed) -> Mem<()>
    ensures { OnOk result (written_of out.new ≡ write_all (written_of out.old) tokens_of_ctx_env) }
{
    put_mark(out, Mark::OpenParen)?;
    put_word(out, "ctx")?;
    put_mark(out, Mark::Comma)?;
    put_word(out, "env")?;
    put_mark(out, Mark::CloseParen)
}

/// A method's name and parameters, and the brace that opens its body.
fn print_signature(out: &mut Printed, method: &Method) -> Mem<()>
    ensures { OnOk result (written_of out.new ≡ write_all (written_of out.old) (tokens_of_signature (method_of method.now))) }
{
    put_name(out, &method.name)?;
    put_mark(out, Mark::OpenParen)?;
    print_names(out, &method.parameters)?;
    put_mark(out, Mark::CloseParen)?;
    put_mark(out, Mark::OpenBrace)
}

/// Names with commas between them.
fn print_names(out: &mut Printed, names: &[Name]) -> Mem<()>
    ensures { OnOk result (written_of out.new ≡ write_all (written_of out.old) (tokens_of_names (map named_of names.now))) }
{
    match names {
        [] => Ok(()),
        [first, rest @ ..] => {
            put_name(out, first)?;
            print_more_names(out, rest)
        }
    }
}

/// Names with a comma before each.
fn print_more_names(out: &mut Printed, names: &[Name]) -> Mem<()>
    ensures { OnOk result (written_of out.new ≡ write_all (written_of out.old) (tokens_of_more_names (map named_of names.now))) }
{
    for name in names {
        put_mark(out, Mark::Comma)?;
        put_name(out, name)?;
    }
    Ok(())
}
