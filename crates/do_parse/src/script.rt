//! Classes, their methods, and the whole script.
ghost use Rattle.std.specs.Prelude.{◌≡◌, ◌≤◌, ◌<◌, ◌^◌, ◌+◌, [], length, map, IfOk};
ghost use Rattle.do_lex.specs.declared.kind.Kind.TheVariants as kinds;
ghost use Rattle.do_lex.specs.declared.kind.Mark.TheVariants as marks;
ghost use Rattle.do_lex.specs.declared.kind.Keyword.TheVariants as keys;
ghost use Rattle.do_parse.specs.Lists.{BeginsWith, Repeat, Starting, items_from};
ghost use Rattle.do_parse.specs.Parsed.{Parses, Anything};
ghost use Rattle.do_parse.specs.Pieces.{IsClassHead, IsImportEnd, IsMethodRest, IsNextName, IsSignature, IsSuperCall, IsWhole, NothingLeft, ctx_env_at, constructor_tree};
ghost use Rattle.do_parse.specs.Then.{IsMade, with_tree};
ghost use Rattle.do_parse.specs.Trees.{class_head_of, items_at, names_at, signature_of};
ghost use Rattle.do_tree.specs.Grammar.{AreClasses, AreNames, TakesCtxEnv, IsMember, IsClass, IsImport};
ghost use Rattle.do_tree.specs.Seen.{class_of, method_of, named_of, script_of};

use crate::cursor::{Cursor, name_of};
use crate::nodes::share_block;
use crate::stop::Stop;
use do_lex::{Keyword, Kind, Mark};
use do_tree::{Class, Item, Method, MethodKind, Name, Script};
use std::alloc::Global;

/// `NAME ( NAMES )`.
#[derive(Drop)]
pub(crate) struct Signature {
    pub(crate) name: Name,
    pub(crate) parameters: Vec<Name>,
}

/// `export class NAME extends DurableObject {`, with the place of its first token.
#[derive(Drop)]
pub(crate) struct ClassHead {
    pub(crate) at: u32,
    pub(crate) name: Name,
}

impl<'a> Cursor<'a> {
    /// A whole script, behind which nothing stands.
    pub(crate) fn script(&mut self) -> Result<Script, Stop>
        ensures parses { Parses IsWhole NothingLeft self.old self.new (with_tree script_of result) }
        ensures end { IfOk result (λ _. self.new ≡ []) }
    {
        let import = self.import()?;
        let classes = self.classes()?;
        Ok(Script { import, classes })
    }

    /// The import, where one stands, with its place.
    fn import(&mut self) -> Result<Option<u32>, Stop>
        ensures { Parses IsImport (BeginsWith (kinds.Keyword keys.Export)) self.old self.new result }
    {
        if self.next_is(Kind::Keyword(Keyword::Export)) {
            return Ok(None);
        }
        let at = self.key(Keyword::Import, 0)?;
        self.mark(Mark::OpenBrace, 0)?;
        self.word("DurableObject", 0)?;
        self.mark(Mark::CloseBrace, 0)?;
        self.import_end()?;
        Ok(Some(at))
    }

    /// `from "cloudflare:workers";`.
    fn import_end(&mut self) -> Result<u32, Stop>
        ensures { Parses IsImportEnd Anything self.old self.new result }
    {
        self.word("from", 0)?;
        let at = self.module_text(0)?;
        self.mark(Mark::Semicolon, 0)?;
        Ok(at)
    }

    /// The classes up to the end, one at least.
    fn classes(&mut self) -> Result<Vec<Class>, Stop>
        ensures parses { Parses AreClasses NothingLeft self.old self.new (with_tree (λ classes. map class_of classes.items) result) }
        ensures end { IfOk result (λ _. self.new ≡ []) }
        ensures few { IfOk result (λ classes. length classes.items < 2 ^ 32) }
    {
        self.sound();
        let mut classes = Vec::new(self.alloc());
        let first = self.class()?;
        classes.push(first)?;
        while self.kind().is_some() {
            let class = self.class()?;
            classes.push(class)?;
        }
        Ok(classes)
    }

    fn class(&mut self) -> Result<Class, Stop>
        ensures { Parses IsClass Anything self.old self.new (with_tree class_of result) }
    {
        let head = self.class_head()?;
        self.sound();
        let methods = self.members()?;
        self.mark(Mark::CloseBrace, 0)?;
        Ok(Class {
            at: head.at,
            name: head.name,
            methods,
        })
    }

    /// `export class NAME extends DurableObject {`.
    fn class_head(&mut self) -> Result<ClassHead, Stop>
        ensures { Parses IsClassHead Anything self.old self.new (with_tree class_head_of result) }
    {
        let at = self.key(Keyword::Export, 0)?;
        self.key(Keyword::Class, 0)?;
        let name = self.name(0)?;
        self.key(Keyword::Extends, 0)?;
        self.word("DurableObject", 0)?;
        self.mark(Mark::OpenBrace, 0)?;
        Ok(ClassHead { at, name })
    }

    /// The members of a class, up to its closing brace.
    fn members(&mut self) -> Result<Vec<Method>, Stop>
        ensures parses { Parses (Repeat IsMember) (BeginsWith (kinds.Mark marks.CloseBrace))
            self.old self.new (with_tree (λ methods. map method_of methods.items) result) }
        // Each method has a token.
        ensures few { IfOk result (λ methods. length methods.items ≤ length self.old) }
    {
        let mut methods = Vec::new(self.alloc());
        while !self.next_is(Kind::Mark(Mark::CloseBrace)) {
            let method = self.member()?;
            methods.push(method)?;
        }
        Ok(methods)
    }

    /// A constructor or a method.
    fn member(&mut self) -> Result<Method, Stop>
        ensures { Parses IsMember Anything self.old self.new (with_tree method_of result) }
    {
        if self.next_is(Kind::Keyword(Keyword::Constructor)) {
            return self.constructor();
        }
        if self.next_is(Kind::Keyword(Keyword::Async)) {
            return self.async_method();
        }
        self.sync_method()
    }

    fn constructor(&mut self) -> Result<Method, Stop>
        ensures { Parses (Starting (kinds.Keyword keys.Constructor) IsMember) Anything self.old self.new (with_tree method_of result) }
    {
        let at = self.key(Keyword::Constructor, 0)?;
        let parameters = self.ctx_env()?;
        let brace = self.mark(Mark::OpenBrace, 0)?;
        let _super = self.super_call()?;
        let items = self.items(0)?;
        self.mark(Mark::CloseBrace, 0)?;
        constructor_of(self.alloc(), at, parameters, brace, items)
    }

    /// `super(ctx, env);`.
    fn super_call(&mut self) -> Result<Vec<Name>, Stop>
        ensures { Parses IsSuperCall Anything self.old self.new (with_tree (λ names. names_at names.items) result) }
    {
        self.key(Keyword::Super, 0)?;
        let names = self.ctx_env()?;
        self.mark(Mark::Semicolon, 0)?;
        Ok(names)
    }

    /// `(ctx, env)`.
    fn ctx_env(&mut self) -> Result<Vec<Name>, Stop>
        ensures { Parses TakesCtxEnv Anything self.old self.new (with_tree (λ names. names_at names.items) result) }
    {
        self.mark(Mark::OpenParen, 0)?;
        let ctx = self.word("ctx", 0)?;
        self.mark(Mark::Comma, 0)?;
        let env = self.word("env", 0)?;
        self.mark(Mark::CloseParen, 0)?;
        ctx_and_env(self.alloc(), ctx, env)
    }

    fn async_method(&mut self) -> Result<Method, Stop>
        ensures { Parses (Starting (kinds.Keyword keys.Async) IsMember) Anything self.old self.new (with_tree method_of result) }
    {
        let at = self.key(Keyword::Async, 0)?;
        self.method_rest(at, MethodKind::Async)
    }

    fn sync_method(&mut self) -> Result<Method, Stop>
        ensures { Parses (Starting kinds.Word IsMember) Anything self.old self.new (with_tree method_of result) }
    {
        let at = self.place();
        self.method_rest(at, MethodKind::Sync)
    }

    /// A method, behind the words before its name.
    fn method_rest(&mut self, at: u32, kind: MethodKind) -> Result<Method, Stop>
        ensures { Parses (IsMethodRest at kind) Anything self.old self.new (with_tree method_of result) }
    {
        let signature = self.signature()?;
        let body = self.block(0)?;
        Ok(Method {
            at,
            kind,
            name: signature.name,
            parameters: signature.parameters,
            body,
        })
    }

    /// `NAME ( NAMES )`.
    fn signature(&mut self) -> Result<Signature, Stop>
        ensures { Parses IsSignature Anything self.old self.new (with_tree signature_of result) }
    {
        let name = self.name(0)?;
        self.mark(Mark::OpenParen, 0)?;
        let parameters = self.names()?;
        self.mark(Mark::CloseParen, 0)?;
        Ok(Signature { name, parameters })
    }

    /// Names with commas between them, up to a closing parenthesis.
    fn names(&mut self) -> Result<Vec<Name>, Stop>
        ensures { Parses AreNames (BeginsWith (kinds.Mark marks.CloseParen)) self.old self.new (with_tree (λ names. names_at names.items) result) }
    {
        let mut names = Vec::new(self.alloc());
        if self.next_is(Kind::Mark(Mark::CloseParen)) {
            return Ok(names);
        }
        let first = self.name(0)?;
        names.push(first)?;
        while self.next_is(Kind::Mark(Mark::Comma)) {
            let name = self.next_name()?;
            names.push(name)?;
        }
        Ok(names)
    }

    /// A comma and the name behind it.
    fn next_name(&mut self) -> Result<Name, Stop>
        ensures { Parses IsNextName Anything self.old self.new (with_tree named_of result) }
    {
        self.mark(Mark::Comma, 0)?;
        self.name(0)
    }
}

/// The two parameters of a constructor, at their places.
fn ctx_and_env(alloc: Global, ctx: u32, env: u32) -> Result<Vec<Name>, Stop>
    ensures { IsMade (λ names. names_at names.items) (ctx_env_at ctx env) result }
{
    let mut names = Vec::new(alloc);
    let ctx = name_of(alloc, ctx, "ctx")?;
    names.push(ctx)?;
    let env = name_of(alloc, env, "env")?;
    names.push(env)?;
    Ok(names)
}

/// A constructor.
fn constructor_of(
    alloc: Global,
    at: u32,
    parameters: Vec<Name>,
    brace: u32,
    items: Vec<Item>,
) -> Result<Method, Stop>
    ensures { IsMade (λ method. method_of method) (constructor_tree at (names_at parameters.items) (items_from (items_at items.items))) result }
{
    let name = name_of(alloc, at, "constructor")?;
    let body = share_block(alloc, brace, items)?;
    Ok(Method {
        at,
        kind: MethodKind::Constructor,
        name,
        parameters,
        body,
    })
}
