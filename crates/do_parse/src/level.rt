//! The levels of operators, and the marks of operators and chains.
ghost use Rattle.std.specs.Prelude.{◌≡◌};
ghost use Rattle.do_parse.specs.Levels as spec;
ghost use Rattle.do_parse.specs.Pieces.{bool_key};
ghost use Rattle.do_tree.specs.Grammar.{chain_mark, binding_key};

use do_lex::{Keyword, Kind, Mark};
use do_tree::{Binding, Chain};
use do_value::BinOp;

/// The levels of operators between two values, from the loosest.
#[derive(Clone, Copy, Debug, PartialEq, Eq)]
pub(crate) enum Level {
    Equal,
    Order,
    Sum,
    Product,
}

fn operator_of(level: Level, mark: Mark) -> Option<BinOp>
    ensures { result ≡ spec.operator_of level mark }
{
    match (level, mark) {
        (Level::Equal, Mark::Same) => Some(BinOp::Same),
        (Level::Equal, Mark::Differs) => Some(BinOp::Differs),
        (Level::Order, Mark::Less) => Some(BinOp::Less),
        (Level::Order, Mark::LessEq) => Some(BinOp::LessEq),
        (Level::Order, Mark::Greater) => Some(BinOp::Greater),
        (Level::Order, Mark::GreaterEq) => Some(BinOp::GreaterEq),
        (Level::Sum, Mark::Plus) => Some(BinOp::Add),
        (Level::Sum, Mark::Minus) => Some(BinOp::Sub),
        (Level::Product, Mark::Star) => Some(BinOp::Mul),
        (Level::Product, Mark::Slash) => Some(BinOp::Div),
        (Level::Product, Mark::Percent) => Some(BinOp::Rem),
        _ => None,
    }
}

/// The operator of this level that a token of this kind is.
pub(crate) fn operator_next(level: Level, kind: Option<Kind>) -> Option<BinOp>
    ensures { result ≡ spec.operator_next level kind }
{
    match kind {
        Some(Kind::Mark(mark)) => operator_of(level, mark),
        _ => None,
    }
}

pub(crate) fn operator_mark(op: BinOp) -> Mark
    ensures { result ≡ spec.operator_mark op }
{
    match op {
        BinOp::Same => Mark::Same,
        BinOp::Differs => Mark::Differs,
        BinOp::Less => Mark::Less,
        BinOp::LessEq => Mark::LessEq,
        BinOp::Greater => Mark::Greater,
        BinOp::GreaterEq => Mark::GreaterEq,
        BinOp::Add => Mark::Plus,
        BinOp::Sub => Mark::Minus,
        BinOp::Mul => Mark::Star,
        BinOp::Div => Mark::Slash,
        BinOp::Rem => Mark::Percent,
    }
}

/// The mark between the operands of a chain.
pub(crate) fn chain_mark(chain: Chain) -> Mark
    ensures { result ≡ chain_mark chain }
{
    match chain {
        Chain::And => Mark::And,
        Chain::Or => Mark::Or,
        Chain::Coalesce => Mark::Coalesce,
    }
}

/// The word that binds a name.
pub(crate) fn binding_key(binding: Binding) -> Keyword
    ensures { result ≡ binding_key binding }
{
    match binding {
        Binding::Let => Keyword::Let,
        Binding::Const => Keyword::Const,
    }
}

/// The word of a truth value.
pub(crate) fn bool_key(value: bool) -> Keyword
    ensures { result ≡ bool_key value }
{
    if value { Keyword::True } else { Keyword::False }
}
