//! Calls of other objects.
ghost use Rattle.std.specs.Prelude.{IfOk};
ghost use Rattle.do_value.specs.Seen.{tree_of, trees_in};
ghost use Rattle.do_value.specs.Tree.{text};
ghost use Rattle.script_mean.specs.Calls.{reach};
ghost use Rattle.script_state.specs.Ends.{Does, IsReady};

use crate::ending::thrown;
use do_value::{Args, Mem, Text, Value};
use script_mean::Ask;
use script_ops::throw;
use script_state::{Done, State};
use std::alloc::Global;
use storage_map::Identity;

/// A call of the method of the object of this class and name.
pub fn call_object(
    alloc: Global,
    state: &mut State,
    class: Text,
    method: Text,
    name: Value,
    args: Vec<Value>,
) -> Mem<Done>
    ensures same { IfOk result (Does (reach class method (tree_of name) (trees_in args.items)) state.old state.new) }
    ensures ready { IfOk result (IsReady state.new) }
{
    match name {
        Value::Text(name) => call_named(alloc, state, class, method, name, args),
        _ => Ok(Done::Ended(thrown(throw(alloc, "TypeError", "type"))?)),
    }
}

// The same of an object whose name is a text.
fn call_named(
    alloc: Global,
    state: &mut State,
    class: Text,
    method: Text,
    name: Text,
    args: Vec<Value>,
) -> Mem<Done>
    ensures same { IfOk result (Does (reach class method (text name) (trees_in args.items)) state.old state.new) }
    ensures ready { IfOk result (IsReady state.new) }
{
    let args = Args::new(args);
    match Identity::new(class, name) {
        Some(to) => state.ask_outside(Ask::Call { to, method, args }),
        None => Ok(Done::Ended(thrown(throw(alloc, "RangeError", "name"))?)),
    }
}
