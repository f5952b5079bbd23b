//! The classes and methods of a script, by their names.
ghost use Rattle.std.specs.Prelude.{◌≡◌, ◌^◌, ◌<◌, length, position};
ghost use Rattle.std.specs.Str.{bytes_eq};
ghost use Rattle.do_tree.specs.Lookup.{is_constructor, is_named};
ghost use Rattle.do_tree.specs.Faults.{IsFaultless};
ghost use Rattle.do_tree.specs.Seen.{method_of, script_of};

use crate::script::{Class, Method, MethodKind, Script};

/// A script in which the check finds no fault. Its classes and methods are looked up by their names. Contracts see its
/// tree, as `tree_of`.
#[derive(Drop)]
pub struct Checked {
    script: Script,
    ghost faultless: { IsFaultless (script_of script) },
}

impl Checked {
    ghost use Rattle.do_tree.specs.Checked.{tree_of, methods_in};
    ghost use Rattle.do_tree.specs.Lookup.{class_named, constructor_of, alarm_of, method_named};

    /// The script, in which the check is to find no fault.
    pub fn new(script: Script) -> Checked
        requires { IsFaultless (script_of script) }
        ensures { tree_of result ≡ script_of script }
    {
        Checked { script }
    }

    /// The script itself.
    pub fn script(&self) -> &Script
        ensures tree { script_of result.now ≡ tree_of self.now }
        ensures faultless { IsFaultless (tree_of self.now) }
    {
        &self.script
    }

    /// The number of the class of this name, `None` exactly where the script has none.
    pub fn class(&self, name: &str) -> Option<u32>
        ensures { result ≡ class_named (tree_of self.now) name.now }
    {
        match class_place(&self.script.classes, name) {
            Some(place) => Some(place as u32),
            None => None,
        }
    }

    /// The number of the method of this name in a class, as callers name it, `None` exactly where the class
    /// has none. The constructor and the alarm handler are no methods to callers.
    pub fn method(&self, class: u32, name: &str) -> Option<u32>
        ensures { result ≡ method_named (tree_of self.now) class name.now }
    {
        if name == "alarm" {
            return None;
        }
        match method_place(self.methods(class), name) {
            Some(place) => Some(place as u32),
            None => None,
        }
    }

    /// The number under which a class's constructor runs, `None` exactly where it has none.
    pub fn constructor(&self, class: u32) -> Option<u32>
        ensures { result ≡ constructor_of (tree_of self.now) class }
    {
        match constructor_place(self.methods(class)) {
            Some(place) => Some(place as u32),
            None => None,
        }
    }

    /// The number under which a class's alarm handler runs, `None` exactly where it has none.
    pub fn alarm(&self, class: u32) -> Option<u32>
        ensures { result ≡ alarm_of (tree_of self.now) class }
    {
        match method_place(self.methods(class), "alarm") {
            Some(place) => Some(place as u32),
            None => None,
        }
    }

    /// The methods of a class, none where there is no such class.
    fn methods(&self, class: u32) -> &[Method]
        ensures methods { result.now ≡ methods_in self.now class }
        ensures few { length result.now < 2 ^ 32 }
    {
        match self.script.classes.get(class as usize) {
            Some(class) => class.methods.as_slice(),
            None => &[],
        }
    }
}

/// Where the class of this name stands.
fn class_place(classes: &[Class], name: &str) -> Option<usize>
    ensures { result ≡ position (λ class. bytes_eq class.name.text name.now) classes.now }
{
    classes
        .iter()
        .position(|class| class.name.text.as_str() == name)
}

fn is_constructor(kind: MethodKind) -> bool
    ensures { result ≡ is_constructor kind }
{
    match kind {
        MethodKind::Constructor => true,
        MethodKind::Sync | MethodKind::Async => false,
    }
}

/// Where the method of this name stands, which is no constructor.
fn method_place(methods: &[Method], name: &str) -> Option<usize>
    ensures { result ≡ position (λ m. is_named name.now (method_of m)) methods.now }
{
    methods.iter().position(|m| !is_constructor(m.kind) && m.name.text.as_str() == name)
}

/// Where the constructor stands.
fn constructor_place(methods: &[Method]) -> Option<usize>
    ensures { result ≡ position (λ m. is_constructor m.kind) methods.now }
{
    methods.iter().position(|m| is_constructor(m.kind))
}
