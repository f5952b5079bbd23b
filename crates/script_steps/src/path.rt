//! Paths while they run: what they have come to, what they call, and what is still to run of them.
use do_tree::{Callback, Expr};
use do_value::{BinOp, Text, Value};
use script_places::Step;
use std::sync::Arc;

/// Whether an `await` stands before an expression, or before a call.
#[derive(Clone, Copy, Debug, Drop, PartialEq, Eq)]
pub enum Await {
    /// One does.
    Present,
    /// None does.
    Absent,
}

/// Where a place begins.
#[derive(Drop)]
pub enum Root {
    /// With the variable of this name.
    Variable(Text),
    /// With the field of this name of the object itself.
    Own(Text),
}

/// What a path has come to.
#[derive(Drop)]
pub enum Point {
    /// The object itself.
    Itself,
    /// The object's context.
    Context,
    /// The context's storage.
    Storage,
    /// The environment.
    Environment,
    /// A class of the environment.
    Class(Text),
    /// A transaction's handle.
    Handle,
    /// A word of the language.
    Word(Text),
    /// A value.
    Holds(Value),
}

/// What is called once its arguments are evaluated.
#[derive(Drop)]
pub enum Callee {
    /// A method of the storage.
    Storage(Await, Text),
    /// A method of a transaction's handle.
    Handle(Await, Text),
    /// A helper: a method of the object itself.
    Object(Await, Text),
    /// A method of a value, which is the first argument.
    Value(Text),
    /// A word of the language.
    Word(Text),
    /// A part, which is named second, of a word of the language.
    Owner(Text, Text),
    /// `push` to a place.
    Place(Root, Vec<Step>),
    /// A transaction with this body.
    Transaction(Arc<Callback>),
    /// A block with this body.
    Block(Await, Arc<Callback>),
    /// The object of this class whose name is the first argument: the path, its link whose call takes the identifier, and
    /// the link that comes next.
    Identifier(Await, Text, Arc<Expr>, usize, usize),
    /// The object of this class and name: the path, and the link that names its method.
    Instance(Await, Text, Value, Arc<Expr>, usize),
    /// The method of the second name of the object of this class and name.
    Method(Text, Text, Value),
}

/// What is done with a place once its indexes are evaluated.
#[derive(Drop)]
pub enum Writing {
    /// `=`
    Assigns(Arc<Expr>),
    /// `+=` and `-=`
    Updates(BinOp, Arc<Expr>),
    /// `++` and `--`: so much is added.
    Moves(i64),
}

/// A part of a path or of a write that is still to run once the part inside it has given a value. A place in a path is the
/// node of the path and the number of the link that comes next.
#[derive(Drop)]
pub enum PathFrame {
    /// A path from a value on.
    Walk(Await, Arc<Expr>, usize),
    /// A path whose index is evaluated, with the value that it indexes.
    Index(Await, Value, Arc<Expr>, usize),
    /// A call whose argument is evaluated: what is called, the arguments so far, the path and the call's link, and the
    /// argument that comes next.
    Call(Callee, Vec<Value>, Arc<Expr>, usize, usize),
    /// The place of a push, whose index is evaluated.
    PushIndex(Root, Vec<Step>, Arc<Expr>, usize),
    /// The place of a write, whose index is evaluated.
    PlaceIndex(Writing, Root, Vec<Step>, Arc<Expr>, usize),
    /// `=`, whose value is evaluated.
    Assign(Root, Vec<Step>),
    /// `+=` and `-=`, whose right side is evaluated, with what the place was before.
    Update(Root, Vec<Step>, BinOp, Value),
}
