//! What a name stands for.
ghost use Rattle.std.specs.Prelude.{◌≡◌, option_map};
ghost use Rattle.do_value.specs.Seen.{tree_of};
ghost use Rattle.script_vars.specs.Seen.{bound_of, value_in, emptied};

use do_value::Value;
use std::mem;

/// What a name stands for: a value, or one of the three objects that a script has by name and not as values.
#[derive(Debug, Drop)]
pub enum Bound {
    /// The value of a variable.
    Value(Value),
    /// The handle of a transaction, after the storage documentation's `txn`.
    Handle,
    /// The context that a constructor is given, `ctx`.
    Context,
    /// The environment that a constructor is given, `env`.
    Environment,
}

impl Bound {
    /// The value, which is `undefined` from then on; `None` where the name stands for none, and then nothing changes.
    pub(crate) fn take(&mut self) -> Option<Value>
        ensures value { option_map tree_of result ≡ value_in (bound_of self.old) }
        ensures after { self.new ≡ emptied self.old }
    {
        match self {
            Bound::Value(value) => Some(mem::replace(value, Value::Undefined)),
            _ => None,
        }
    }
}
