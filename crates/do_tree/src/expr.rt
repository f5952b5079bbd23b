//! Expressions. How nodes are let go is written out, so that it is proved here once and not in each crate that lets a node go.
use crate::script::Name;
use crate::stmt::Block;
use do_value::{BinOp, Num, Text, UnOp};
use std::sync::Arc;

/// Chains of operands that are evaluated only where they are needed.
#[derive(Clone, Copy, Debug, PartialEq, Eq)]
pub enum Chain {
    /// `&&`
    And,
    /// `||`
    Or,
    /// `??`
    Coalesce,
}

/// An expression.
#[cycle(tree)]
pub enum Expr {
    /// `TEST ? YES : NO`
    Choice {
        at: u32,
        test: Arc<Expr>,
        yes: Arc<Expr>,
        no: Arc<Expr>,
    },
    /// `FIRST && A && B`, and so with `||` and `??`. The list isn't empty.
    Lazy {
        at: u32,
        chain: Chain,
        first: Arc<Expr>,
        rest: Vec<Arc<Expr>>,
    },
    /// `FIRST + A - B`, and so with the other operators of one level. The list isn't empty.
    Strict {
        at: u32,
        first: Arc<Expr>,
        rest: Vec<Operand>,
    },
    /// `-VALUE` or `!VALUE`
    Unary {
        at: u32,
        op: UnOp,
        value: Arc<Expr>,
    },
    Await {
        at: u32,
        value: Arc<Expr>,
    },
    /// `BASE.WORD[INDEX](ARGS)` and so on. The list isn't empty.
    Path {
        at: u32,
        base: Arc<Expr>,
        links: Vec<Link>,
    },
    Number {
        at: u32,
        value: Num,
    },
    Text {
        at: u32,
        value: Text,
    },
    Bool {
        at: u32,
        value: bool,
    },
    Null {
        at: u32,
    },
    Undefined {
        at: u32,
    },
    This {
        at: u32,
    },
    Variable(Name),
    /// `( INSIDE )`
    Group {
        at: u32,
        inside: Arc<Expr>,
    },
    List {
        at: u32,
        items: Vec<Arc<Expr>>,
    },
    Record {
        at: u32,
        pairs: Vec<Pair>,
    },
    /// `new Error(MESSAGE)`
    NewError {
        at: u32,
        message: Option<Arc<Expr>>,
    },
}

impl Drop for Expr {
    #[cycle(let_go)]
    fn drop(self) {
        match self {
            Expr::Choice {
                at: _,
                test,
                yes,
                no,
            } => {
                drop(test);
                drop(yes);
                drop(no);
            }
            Expr::Lazy {
                at: _,
                chain: _,
                first,
                rest,
            } => {
                drop(first);
                drop(rest);
            }
            Expr::Strict { at: _, first, rest } => {
                drop(first);
                drop(rest);
            }
            Expr::Unary {
                at: _,
                op: _,
                value,
            } => drop(value),
            Expr::Await { at: _, value } => drop(value),
            Expr::Path { at: _, base, links } => {
                drop(base);
                drop(links);
            }
            Expr::Text { at: _, value } => drop(value),
            Expr::Variable(name) => drop(name),
            Expr::Group { at: _, inside } => drop(inside),
            Expr::List { at: _, items } => drop(items),
            Expr::Record { at: _, pairs } => drop(pairs),
            Expr::NewError { at: _, message } => drop(message),
            Expr::Number { at: _, value: _ } => {}
            Expr::Bool { at: _, value: _ } => {}
            Expr::Null { at: _ } => {}
            Expr::Undefined { at: _ } => {}
            Expr::This { at: _ } => {}
        }
    }
}

/// An operator and what stands on its right.
#[cycle(tree)]
pub struct Operand {
    pub op: BinOp,
    pub value: Arc<Expr>,
}

impl Drop for Operand {
    #[cycle(let_go)]
    fn drop(self) {
        let Operand { op: _, value } = self;
        drop(value);
    }
}

/// A step of a [`Expr::Path`].
#[cycle(tree)]
pub enum Link {
    /// `.WORD`
    Field(Name),
    /// `[INDEX]`
    Index { at: u32, index: Arc<Expr> },
    /// `(ARGS)`
    Call { at: u32, args: Vec<Arg> },
}

impl Drop for Link {
    #[cycle(let_go)]
    fn drop(self) {
        match self {
            Link::Field(name) => drop(name),
            Link::Index { at: _, index } => drop(index),
            Link::Call { at: _, args } => drop(args),
        }
    }
}

/// An argument of a call.
#[cycle(tree)]
pub enum Arg {
    Value(Arc<Expr>),
    Callback(Arc<Callback>),
}

impl Drop for Arg {
    #[cycle(let_go)]
    fn drop(self) {
        match self {
            Arg::Value(value) => drop(value),
            Arg::Callback(callback) => drop(callback),
        }
    }
}

/// `async (PARAMETER) => BODY`.
#[cycle(tree)]
pub struct Callback {
    pub at: u32,
    pub parameter: Option<Name>,
    pub body: Arc<Block>,
}

impl Drop for Callback {
    #[cycle(let_go)]
    fn drop(self) {
        let Callback {
            at: _,
            parameter,
            body,
        } = self;
        drop(parameter);
        drop(body);
    }
}

/// A pair of a record. One without a value is a name alone, which stands for the variable's value.
#[cycle(tree)]
pub struct Pair {
    pub key: Name,
    pub value: Option<Arc<Expr>>,
}

impl Drop for Pair {
    #[cycle(let_go)]
    fn drop(self) {
        let Pair { key, value } = self;
        drop(key);
        drop(value);
    }
}
