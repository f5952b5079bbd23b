//! Statements. How nodes are let go is written out, as in `expr`.
use crate::expr::Expr;
use crate::script::Name;
use std::sync::Arc;

/// `{ .. }`.
#[cycle(tree)]
pub struct Block {
    pub at: u32,
    pub items: Vec<Item>,
}

impl Drop for Block {
    #[cycle(let_go)]
    fn drop(self) {
        let Block { at: _, items } = self;
        drop(items);
    }
}

/// How a name is bound.
#[derive(Clone, Copy, Debug, PartialEq, Eq)]
pub enum Binding {
    Let,
    Const,
}

/// What stands in a block. A `const` has a value.
#[cycle(tree)]
pub enum Item {
    Declare {
        at: u32,
        binding: Binding,
        name: Name,
        value: Option<Arc<Expr>>,
    },
    Stmt(Arc<Stmt>),
}

impl Drop for Item {
    #[cycle(let_go)]
    fn drop(self) {
        match self {
            Item::Declare {
                at: _,
                binding: _,
                name,
                value,
            } => {
                drop(name);
                drop(value);
            }
            Item::Stmt(stmt) => drop(stmt),
        }
    }
}

/// A statement.
#[cycle(tree)]
pub enum Stmt {
    Block(Arc<Block>),
    If {
        at: u32,
        test: Arc<Expr>,
        then: Arc<Stmt>,
        other: Option<Arc<Stmt>>,
    },
    While {
        at: u32,
        test: Arc<Expr>,
        body: Arc<Stmt>,
    },
    /// `for (let NAME = FIRST; TEST; STEP) BODY`.
    For {
        at: u32,
        name: Name,
        first: Arc<Expr>,
        test: Arc<Expr>,
        step: Arc<Simple>,
        body: Arc<Stmt>,
    },
    /// `for (let NAME of LIST) BODY`, or with `const`.
    ForOf {
        at: u32,
        binding: Binding,
        name: Name,
        list: Arc<Expr>,
        body: Arc<Stmt>,
    },
    Try {
        at: u32,
        body: Arc<Block>,
        name: Option<Name>,
        handler: Arc<Block>,
    },
    Throw {
        at: u32,
        value: Arc<Expr>,
    },
    Return {
        at: u32,
        value: Option<Arc<Expr>>,
    },
    Break {
        at: u32,
    },
    Continue {
        at: u32,
    },
    Simple(Arc<Simple>),
}

impl Drop for Stmt {
    #[cycle(let_go)]
    fn drop(self) {
        match self {
            Stmt::Block(block) => drop(block),
            Stmt::If {
                at: _,
                test,
                then,
                other,
            } => {
                drop(test);
                drop(then);
                drop(other);
            }
            Stmt::While { at: _, test, body } => {
                drop(test);
                drop(body);
            }
            Stmt::For {
                at: _,
                name,
                first,
                test,
                step,
                body,
            } => {
                drop(name);
                drop(first);
                drop(test);
                drop(step);
                drop(body);
            }
            Stmt::ForOf {
                at: _,
                binding: _,
                name,
                list,
                body,
            } => {
                drop(name);
                drop(list);
                drop(body);
            }
            Stmt::Try {
                at: _,
                body,
                name,
                handler,
            } => {
                drop(body);
                drop(name);
                drop(handler);
            }
            Stmt::Throw { at: _, value } => drop(value),
            Stmt::Return { at: _, value } => drop(value),
            Stmt::Break { at: _ } => {}
            Stmt::Continue { at: _ } => {}
            Stmt::Simple(inner) => drop(inner),
        }
    }
}

/// An expression that is run for itself, or a write to a place.
#[cycle(tree)]
pub struct Simple {
    pub at: u32,
    pub place: Arc<Expr>,
    pub write: Write,
}

impl Drop for Simple {
    #[cycle(let_go)]
    fn drop(self) {
        let Simple {
            at: _,
            place,
            write,
        } = self;
        drop(place);
        drop(write);
    }
}

/// What is written to the place of a [`Simple`].
#[cycle(tree)]
pub enum Write {
    /// Nothing: the expression is run for itself.
    Nothing,
    /// `=`
    Value(Arc<Expr>),
    /// `+=`
    Sum(Arc<Expr>),
    /// `-=`
    Difference(Arc<Expr>),
    /// `++`
    OneMore,
    /// `--`
    OneLess,
}

impl Drop for Write {
    #[cycle(let_go)]
    fn drop(self) {
        match self {
            Write::Nothing => {}
            Write::Value(value) => drop(value),
            Write::Sum(value) => drop(value),
            Write::Difference(value) => drop(value),
            Write::OneMore => {}
            Write::OneLess => {}
        }
    }
}
