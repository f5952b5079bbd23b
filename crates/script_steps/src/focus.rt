//! What is to be done next.
use crate::frame::{Between, Frame};
use crate::path::{Await, Callee, PathFrame, Point, Root, Writing};
use do_tree::{Block, Expr, Simple, Stmt};
use do_value::{Text, Value};
use script_places::Step;
use script_vars::Vars;
use std::sync::Arc;

/// How a part ended.
#[derive(Drop)]
pub enum Outcome {
    /// It gave this value, which is `undefined` for a statement.
    Gave(Value),
    /// It threw this value.
    Threw(Value),
    /// The method or the callback around it returns this value.
    Returned(Value),
    /// The loop around it ends.
    Broke,
    /// The loop around it goes on with its next turn.
    Continued,
}

/// What is to be done next. What needs the variables, the object's fields, the storage or the other methods of the class
/// is done by the machine that has them.
#[derive(Drop)]
pub enum Focus {
    /// A part ended so: the frame around it goes on.
    Ended(Outcome),
    /// An expression is to be evaluated.
    Value(Await, Arc<Expr>),
    /// The variable is to be read that this expression names.
    Variable(Arc<Expr>),
    /// The variable of this name is to be read, for which a step is charged.
    Named(Text),
    /// A statement is to be run.
    Run(Arc<Stmt>),
    /// The items of a block from this place on are to be run.
    Body(Arc<Block>, usize),
    /// A block is to be run, with names of its own.
    Block(Arc<Block>),
    /// The name that the item at this place of the block declares is to be bound to this value.
    Declare(Arc<Block>, usize, Value),
    /// A loop is to be run from its test on: its test, its body, and what stands between two turns.
    Loop(Arc<Expr>, Arc<Stmt>, Between),
    /// `for (let NAME = FIRST; TEST; STEP) BODY` is to be run from its test on, its name bound to this value.
    Count(Arc<Stmt>, Value),
    /// The body of `for (let NAME of LIST) BODY` is to be run, its name bound to this value.
    Visit(Arc<Stmt>, Value),
    /// The handler of a `try` is to be run, its name, if it has one, bound to this thrown value.
    Handle(Arc<Stmt>, Value),
    /// An expression that is run for itself, or a write to a place, is to be run.
    Simple(Arc<Simple>),
    /// The place of this statement is to be found, and written, once its step is charged.
    Write(Arc<Simple>),
    /// A block is left, and its names with it, and ended so.
    Leave(Outcome),
    /// A part of a path is handed the value that it waits for.
    Handed(Box<PathFrame>, Value),
    /// A path goes on from this point with this link.
    Walk(Await, Point, Arc<Expr>, usize),
    /// The arguments of a call are to be evaluated: what is called, the arguments so far, the path and the call's link, and
    /// the argument that comes next.
    Arguments(Callee, Vec<Value>, Arc<Expr>, usize, usize),
    /// A call with these arguments.
    Call(Callee, Vec<Value>),
    /// The rest of the place of a push, and the push.
    Push(Root, Vec<Step>, Arc<Expr>, usize),
    /// The rest of the place of a write, and the write.
    Place(Writing, Root, Vec<Step>, Arc<Expr>, usize),
    /// A write to a place that is found.
    Written(Writing, Root, Vec<Step>),
    /// The place is to have this value.
    Assign(Root, Vec<Step>, Value),
    /// A helper ended so: its caller goes on with its own variables.
    Return(Await, Vars, Outcome),
    /// The body of a transaction ended so.
    Commit(Outcome),
    /// The body of a block ended so.
    Unblock(Await, Outcome),
}

/// How a part unfolds. So many steps are charged, and then the focus is done.
#[derive(Drop)]
pub enum Move {
    /// Nothing is left of the part but its focus.
    Then(usize, Focus),
    /// The frame is what is left of the part once its focus has ended.
    Inside(usize, Frame, Focus),
}
