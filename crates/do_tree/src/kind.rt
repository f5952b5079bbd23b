//! What the check refuses.

/// The kinds of faults of a script, in their order: of two faults at one place the kind that stands first here is
/// answered.
#[derive(Clone, Copy, Debug, PartialEq, Eq)]
pub enum CheckKind {
    /// A class, a method of a class, a constructor, or a name of one block or list of parameters, for the second time.
    /// A method's outermost block and its parameters count as one.
    Doubled,
    /// A reserved name that is bound, or a write to `this.ctx` or `this.env`.
    Reserved,
    /// A variable with no binding before it in a block around it.
    Unbound,
    /// A write to a constant or to a part of one.
    ConstAssigned,
    /// A write to what is no place.
    BadTarget,
    /// A call, an arrow, `this`, `ctx` or `env` that is no form.
    Form,
    /// `this.m(..)` where the class has no method `m`.
    NoMember,
    /// An `await` in a method that isn't async, or in a constructor outside its block.
    AwaitInSync,
    /// A form that asks, or an async method, without `await`.
    NotAwaited,
    /// An `await` of what asks nothing.
    AwaitOfSync,
    /// A form in a transaction's body that isn't the transaction's own, or an awaited method of the object.
    InTransaction,
    /// A block inside another's callback.
    InBlock,
    /// `break` or `continue` with no loop around it in its method or callback.
    LoopExit,
    /// Options of a list with both `start` and `startAfter`.
    StartTwice,
    /// Memory was refused: no fault of the script.
    NoMemory,
}
