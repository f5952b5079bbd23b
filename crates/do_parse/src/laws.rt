//! Laws of printed scripts and the parser, over all scripts: functions without a body, for their clauses.
ghost use Rattle.std.specs.Prelude.{◌≡◌, ◌≤◌, ℕ, List, length};
ghost use Rattle.do_lex.specs.Limits.{most_script_bytes};
ghost use Rattle.do_tree.specs.Accepts.{IsScriptText};
ghost use Rattle.do_tree.specs.Print.{text_of_script};
ghost use Rattle.do_tree.specs.Tree.{Script};
ghost use Rattle.do_tree.specs.Unplaced.{SameButPlaces};

/// The printed text of a text's tree has a tree, and is within the limit where the text is. The one tree that it has, which
/// is what [`parse`](crate::parse) answers for it, is the same but for places.
pub fn printed_is_read_again()
    ensures fits { (text : List ℕ) (script : Script) → length text ≤ most_script_bytes → IsScriptText text script
        → length (text_of_script script) ≤ most_script_bytes }
    ensures read { (text : List ℕ) (script : Script) → IsScriptText text script → (again : Script) × IsScriptText (text_of_script script) again }
    ensures same { (text : List ℕ) (script again : Script) → IsScriptText text script
        → ((other : Script) → IsScriptText (text_of_script script) other → other ≡ again) → SameButPlaces again script }
{}
