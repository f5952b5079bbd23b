//! Scripts, classes and methods.
ghost use Rattle.std.specs.Prelude.{◌^◌, ◌<◌, length};

use crate::stmt::Block;
use do_value::Text;
use std::sync::Arc;

/// A whole script.
#[derive(Drop)]
pub struct Script {
    /// The place of the import, if there is one.
    pub import: Option<u32>,
    pub classes: Vec<Class>,
    ghost few: { length classes.items < 2 ^ 32 },
}

/// `export class NAME extends DurableObject { .. }`.
#[derive(Drop)]
pub struct Class {
    pub at: u32,
    pub name: Name,
    /// The methods and constructors, in the order of the text. A method's number is its place in it.
    pub methods: Vec<Method>,
    ghost few: { length methods.items < 2 ^ 32 },
}

/// What a method is.
#[derive(Clone, Copy, Debug, PartialEq, Eq)]
pub enum MethodKind {
    /// `constructor(ctx, env)`, whose body begins with `super(ctx, env);`, which the tree leaves out.
    Constructor,
    /// A method that asks nothing.
    Sync,
    /// An `async` method.
    Async,
}

/// A method or a constructor. A constructor has the name `constructor` and the parameters `ctx` and `env`.
#[derive(Drop)]
pub struct Method {
    pub at: u32,
    pub kind: MethodKind,
    pub name: Name,
    pub parameters: Vec<Name>,
    pub body: Arc<Block>,
}

/// A name where it is declared or used.
#[derive(Drop)]
pub struct Name {
    pub at: u32,
    pub text: Text,
}
