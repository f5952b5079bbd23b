//! The blocks of calls: the names that a call begins with.
ghost use Rattle.std.specs.Prelude.{◌≡◌, [], ◌∷◌, map, reverse, IfOk, OnOk};
ghost use Rattle.do_value.specs.Seen.{trees_in};
ghost use Rattle.do_tree.specs.Seen.{named_of};
ghost use Rattle.script_mean.specs.Meaning.{with_parameters, with_given, given};
ghost use Rattle.script_vars.specs.Seen.{bound_of, scope_of};
ghost use Rattle.script_vars.specs.Calls.{BindsNext};

use crate::block::Block;
use crate::bound::Bound;
use do_tree::Name;
use do_value::{Mem, Value};
use std::alloc::Global;

// What a constructor's parameter stands for: `ctx` for its context, any other for its environment.
fn given(name: &Name) -> Bound
    ensures { (name.now.text, bound_of result) ≡ given (named_of name.now) }
{
    if name.text.as_str() == "ctx" {
        Bound::Context
    } else {
        Bound::Environment
    }
}

/// The block of a constructor: what its parameters stand for.
pub(crate) fn constructor_block(alloc: Global, parameters: &[Name]) -> Mem<Block>
    ensures { IfOk result (λ block. scope_of block ≡ with_given (map named_of parameters.now) []) }
{
    let mut block = Block::new(alloc);
    for parameter in parameters {
        block.add(&parameter.text, given(parameter))?;
    }
    Ok(block)
}

// A parameter is bound to the next argument, the last of those that are left, or to `undefined` where none is.
fn bind_next(block: &mut Block, parameter: &Name, left: &mut Vec<Value>) -> Mem<()>
    ensures { OnOk result (BindsNext parameter.now left.old.items left.new.items block.old block.new) }
{
    let value = left.pop().unwrap_or(Value::Undefined);
    block.add(&parameter.text, Bound::Value(value))
}

/// The block of a method or a helper: its parameters with the arguments.
pub(crate) fn parameters_block(alloc: Global, parameters: &[Name], values: Vec<Value>) -> Mem<Block>
    ensures { IfOk result (λ block. scope_of block ≡ with_parameters (map named_of parameters.now) (trees_in values.items) []) }
{
    let mut left = values;
    left.reverse();
    let mut block = Block::new(alloc);
    for parameter in parameters {
        bind_next(&mut block, parameter, &mut left)?;
    }
    Ok(block)
}
