//! Laws of faults, over all texts: functions without a body, for their clauses.
ghost use Rattle.std.specs.Prelude.{◌≡◌, ◌≢◌, ℕ, List};
ghost use Rattle.do_parse.specs.Fault.{IsFault, IsWithinLimit};
ghost use Rattle.do_parse.specs.declared.fault.ParseFault.{ParseFault};
ghost use Rattle.do_parse.specs.declared.fault.ParseKind.TheVariants.{NoMemory};
ghost use Rattle.do_tree.specs.Accepts.{IsScriptText};
ghost use Rattle.do_tree.specs.Tree.{Script};

/// No text has two faults, besides want of memory.
pub fn at_most_one()
    ensures { (text : List ℕ) (a b : ParseFault) → IsFault text a → IsFault text b
        → a.kind ≢ NoMemory → b.kind ≢ NoMemory → a ≡ b }
{}

/// A script has none, besides want of memory.
pub fn none_of_a_script()
    ensures { (text : List ℕ) (script : Script) (fault : ParseFault) → IsWithinLimit text → IsScriptText text script
        → IsFault text fault → fault.kind ≡ NoMemory }
{}
