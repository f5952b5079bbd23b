//! Laws of the operators. A call costs nothing and tells its caller the law.
ghost use Rattle.script_ops.specs.Law.{SameIsEquality, PiecesJoin};

/// Values that `===` finds the same are equal, and equal ones are the same.
pub fn same_is_equality()
    ensures { SameIsEquality }
{}

/// The pieces of a text, with the separator between each two, are the text.
pub fn pieces_join()
    ensures { PiecesJoin }
{}
