//! The parts of a script that are still to run.
ghost use Rattle.std.specs.Prelude.{◌≡◌, IfOk};
ghost use Rattle.script_steps.specs.Paths.{path_frame_of};
ghost use Rattle.script_steps.specs.Seen.{frame_of};
ghost use Rattle.script_steps.specs.Weight.{frame_weight, path_frame_weight};

use crate::path::{Await, PathFrame};
use do_tree::{Block, Expr, Simple, Stmt};
use do_value::{BinOp, Items, Mem, NoMemory, Text, UnOp, Value};
use std::alloc::Global;
use std::sync::Arc;

/// A part that is still to run once the part inside it is over. It points into the script and copies none of its tree: a
/// place in a list is the node that keeps the list, and the number of the part that comes next.
#[derive(Drop)]
pub enum Frame {
    /// `TEST ? YES : NO`, whose test is evaluated.
    Choose(Arc<Expr>, Arc<Expr>),
    /// A chain of `&&`, `||` or `??`, with the operand that comes next.
    Chain(Arc<Expr>, usize),
    /// A chain of operators, with the operand that comes next.
    Operate(Arc<Expr>, usize),
    /// The same while an operand is evaluated: the value on its left, its operator, and the operand that comes next.
    Apply(Value, BinOp, Arc<Expr>, usize),
    /// An operator before one value.
    Prefix(UnOp),
    /// A list, with the items so far, and the item that comes next.
    List(Vec<Value>, Arc<Expr>, usize),
    /// A record, with the pairs so far, the key of the pair that is evaluated, and the pair that comes next.
    Record(Vec<(Text, Value)>, Text, Arc<Expr>, usize),
    /// `new Error(MESSAGE)`, whose message is evaluated.
    Error,
    /// A declaration whose value is evaluated, in this place of the block, and the item that comes next.
    Declare(Arc<Block>, usize, usize),
    /// The rest of a block, with the item that comes next.
    GoOn(Arc<Block>, usize),
    /// `if`, whose test is evaluated, with its branches.
    Branch(Arc<Stmt>, Option<Arc<Stmt>>),
    /// A loop whose test is evaluated, with its test, its body, and what stands between two turns.
    Test(Arc<Expr>, Arc<Stmt>, Between),
    /// A loop whose body runs.
    Turn(Arc<Expr>, Arc<Stmt>, Between),
    /// A loop between two turns.
    Loop(Arc<Expr>, Arc<Stmt>, Between),
    /// `for (let NAME = FIRST; TEST; STEP) BODY`, whose first value is evaluated.
    Count(Arc<Stmt>),
    /// `for (let NAME of LIST) BODY`, whose list is evaluated.
    Visit(Arc<Stmt>),
    /// The same while its body runs, with the list, and the item that comes next.
    Next(Arc<Stmt>, Items, usize),
    /// `throw`, whose value is evaluated.
    Throw,
    /// `return`, whose value is evaluated.
    Return,
    /// An expression that is run for itself.
    Pass,
    /// A block, which is left however it ends.
    Leave,
    /// `try`, whose block runs.
    Catch(Arc<Stmt>),
    /// A part of a path or of a write.
    Path(Box<PathFrame>),
    /// The end of a transaction.
    Commit,
    /// The end of a block.
    Unblock(Await),
}

/// The frame of a part of a path or of a write.
pub fn path_frame(alloc: Global, part: PathFrame) -> Mem<Frame>
    ensures frame { IfOk result (λ w. frame_of w ≡ path_frame_of part) }
    ensures weight { IfOk result (λ w. frame_weight w ≡ path_frame_weight part) }
{
    match Box::new(alloc, part) {
        Ok(part) => Ok(Frame::Path(part)),
        Err(_) => Err(NoMemory),
    }
}

/// What stands between two turns of a loop.
#[derive(Drop)]
pub enum Between {
    /// Nothing, as in `while`.
    AtOnce,
    /// The step of `for (let NAME = FIRST; TEST; STEP) BODY`.
    Stepped(Arc<Simple>),
}
