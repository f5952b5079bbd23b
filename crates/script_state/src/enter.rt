//! Blocks that begin with a name.
ghost use Rattle.std.specs.Prelude.{◌≡◌, [], ◌∷◌, IfOk, OnOk};
ghost use Rattle.do_tree.specs.Seen.{stmt_of};
ghost use Rattle.do_value.specs.Seen.{tree_of};
ghost use Rattle.script_mean.specs.Meaning.{caught_as, handle_scope};
ghost use Rattle.script_mean.specs.Task as task;
ghost use Rattle.script_steps.specs.Parts.{caught_in, name_in};
ghost use Rattle.script_steps.specs.Paths.{parameter_of};
ghost use Rattle.script_vars.specs.Seen.{env_of};

use do_tree::{Callback, Stmt};
use do_value::{BuildFault, Mem, NoMemory, Text, Value};
use script_vars::{Bound, Vars};
use std::alloc::Global;

/// The name of what has none.
pub(crate) fn no_name(alloc: Global) -> Mem<Text>
    ensures { IfOk result (λ name. name ≡ []) }
{
    match Text::new(alloc, "") {
        Ok(name) => Ok(name),
        Err(BuildFault::NoMemory) => Err(NoMemory),
        Err(_) => unreachable!(),
    }
}

/// A block begins with the name that a loop binds.
pub fn enter_loop(alloc: Global, vars: &mut Vars, node: &Stmt, value: Value) -> Mem<()>
    ensures { OnOk result (env_of vars.new ≡ ((name_in (stmt_of node.now), task.value (tree_of value)) ∷ []) ∷ env_of vars.old) }
{
    match node {
        Stmt::For { name, .. } => vars.enter_with(&name.text, Bound::Value(value)),
        Stmt::ForOf { name, .. } => vars.enter_with(&name.text, Bound::Value(value)),
        _ => vars.enter_with(&no_name(alloc)?, Bound::Value(value)),
    }
}

/// A block begins with the name, if there is one, of what a `try` catches.
pub fn enter_handler(vars: &mut Vars, node: &Stmt, value: Value) -> Mem<()>
    ensures { OnOk result (env_of vars.new ≡ caught_as (caught_in (stmt_of node.now)) (tree_of value) ∷ env_of vars.old) }
{
    match node {
        Stmt::Try {
            name: Some(name),
            ..
        } => vars.enter_with(&name.text, Bound::Value(value)),
        _ => vars.enter(),
    }
}

/// A block begins with the parameter, if there is one, of a transaction's body.
pub fn enter_callback(vars: &mut Vars, callback: &Callback) -> Mem<()>
    ensures { OnOk result (env_of vars.new ≡ handle_scope (parameter_of callback.now) ∷ env_of vars.old) }
{
    match &callback.parameter {
        Some(name) => vars.enter_with(&name.text, Bound::Handle),
        None => vars.enter(),
    }
}
