//! The methods of a class, to be looked up among many.
#![tactic(auto, using(std::proofs::lemmas::Grind::common_steps, crate::proofs::Append::least_append))]

ghost use Rattle.std.specs.Prelude.{◌≡◌, IfOk, map};
ghost use Rattle.std.specs.List.{list_any};
ghost use Rattle.do_check.specs.Told.{Tells};
ghost use Rattle.do_tree.specs.Asking.{is_async, is_async_named};
ghost use Rattle.do_tree.specs.Lookup.{is_constructor, is_named};
ghost use Rattle.do_tree.specs.Names.{has_method};
ghost use Rattle.do_tree.specs.Seen.{class_of, method_of};

use crate::known::{no_texts, note_when};
use do_tree::{Class, Method, MethodKind};
use do_value::Mem;
use std::alloc::Global;
use std::collections::BTreeSet;

/// A class, with sorted sets of the names of its methods and of its async ones. A constructor has no name.
#[derive(Drop)]
pub struct Methods<'a> {
    pub class: &'a Class,
    pub names: BTreeSet<String>,
    pub asyncs: BTreeSet<String>,
    ghost tells_names: { Tells names is_named (map method_of class.now.methods.items) },
    ghost tells_asyncs: { Tells asyncs is_async_named (map method_of class.now.methods.items) },
}

impl<'a> Methods<'a> {
    /// The methods of the class.
    pub fn of(alloc: Global, class: &'a Class) -> Mem<Methods<'a>>
        ensures { IfOk result (λ methods. methods.class.now ≡ class.now) }
    {
        let names = names_of(alloc, &class.methods)?;
        let asyncs = asyncs_of(alloc, &class.methods)?;
        Ok(Methods {
            class,
            names,
            asyncs,
        })
    }

    /// Whether the class has a method of this name.
    pub fn has(&self, name: &str) -> bool
        ensures { result ≡ has_method (class_of self.now.class.now) name.now }
    {
        self.names.contains(name)
    }

    /// Whether the class has an async method of this name.
    pub fn has_async(&self, name: &str) -> bool
        ensures { result ≡ list_any (is_async_named name.now) (class_of self.now.class.now).methods }
    {
        self.asyncs.contains(name)
    }
}

/// The names of the methods.
fn names_of(alloc: Global, methods: &[Method]) -> Mem<BTreeSet<String>>
    ensures { IfOk result (λ names. Tells names is_named (map method_of methods.now)) }
{
    let mut names = no_texts(alloc);
    for method in methods {
        let named = !is_constructor(method.kind);
        note_when(alloc, &mut names, named, method.name.text.as_str())?;
    }
    Ok(names)
}

/// The names of the async methods.
fn asyncs_of(alloc: Global, methods: &[Method]) -> Mem<BTreeSet<String>>
    ensures { IfOk result (λ names. Tells names is_async_named (map method_of methods.now)) }
{
    let mut names = no_texts(alloc);
    for method in methods {
        note_when(
            alloc,
            &mut names,
            is_async(method.kind),
            method.name.text.as_str(),
        )?;
    }
    Ok(names)
}

pub fn is_constructor(kind: MethodKind) -> bool
    ensures { result ≡ is_constructor kind }
{
    matches!(kind, MethodKind::Constructor)
}

fn is_async(kind: MethodKind) -> bool
    ensures { result ≡ is_async kind }
{
    matches!(kind, MethodKind::Async)
}
