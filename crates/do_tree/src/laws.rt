//! Laws of printed scripts, over all scripts: functions without a body, for their clauses.
ghost use Rattle.std.specs.Prelude.{◌≤◌, ℕ, List, length};
ghost use Rattle.do_tree.specs.Accepts.{IsScriptText};
ghost use Rattle.do_tree.specs.Print.{text_of_script};
ghost use Rattle.do_tree.specs.Tree.{Script};
ghost use Rattle.do_tree.specs.Unplaced.{SameButPlaces};

/// The printed text of a text's tree is the text of a tree that is the same but for places.
pub fn printed_is_same()
    ensures { (text : List ℕ) (script : Script) → IsScriptText text script
        → (again : Script) × IsScriptText (text_of_script script) again × SameButPlaces again script }
{}

/// The printed text of a text's tree is no longer than the text.
pub fn printed_is_no_longer()
    ensures { (text : List ℕ) (script : Script) → IsScriptText text script → length (text_of_script script) ≤ length text }
{}
