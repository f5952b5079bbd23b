//! When values are the same, and when they are true.
ghost use Rattle.std.specs.Prelude.{◌≡◌};
ghost use Rattle.do_value.specs.Seen.{tree_of};
ghost use Rattle.script_ops.specs.Same.{same};
ghost use Rattle.script_ops.specs.Truth.{is_true};

use do_value::Value;

/// The truth of a value, as `if`, `!`, `&&` and `||` take it: all is true but `false`, 0, `""`, `null` and `undefined`.
pub fn truth(value: &Value) -> bool
    ensures { result ≡ is_true (tree_of value.now) }
{
    match value {
        Value::Undefined | Value::Null => false,
        Value::Bool(b) => *b,
        Value::Num(n) => n.get() != 0,
        Value::Text(text) => !text.is_empty(),
        Value::List(_) | Value::Rec(_) => true,
    }
}

/// `a === b`
pub(crate) fn equals(a: &Value, b: &Value) -> bool
    ensures { result ≡ same (tree_of a.now) (tree_of b.now) }
{
    a.equal(b)
}
