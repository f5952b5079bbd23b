//! What `gen` serves: its lines, with numbers in, and its script.
ghost use Rattle.std.specs.Prelude.{◌≡◌, ◌∷◌, [], ◌++◌, ℕ, List, codes};
ghost use Rattle.do_tree.specs.Accepts.{IsScriptText};
ghost use Rattle.do_tree.specs.Faults.{IsFaultless};
ghost use Rattle.do_tree.specs.Tree.{Script};
ghost use Rattle.line_server.specs.Cut.{line_end};
ghost use Rattle.do_host.specs.GenRuns.{gen_script};
ghost use Rattle.do_host.specs.Generator.{next_number, called_name, added, call_line, made_lines};
ghost use Rattle.do_host.specs.ScriptLines.{IsRefusalLine};

/// The number behind 0, what it calls and adds, and the lines that the seed 0 makes.
pub fn made_of_0()
    ensures number { next_number 0 ≡ 1442695040888963407 }
    ensures name { called_name 1442695040888963407 ≡ codes "1" }
    ensures added { added 1442695040888963407 ≡ 379 }
    ensures none { made_lines 0 0 ≡ [] }
    ensures one { made_lines 0 1 ≡ call_line 1 1442695040888963407 ++ [] }
    ensures text { call_line 1 1442695040888963407 ≡ codes "[\"call\",1,\"G\",\"1\",\"add\",[379]]" ++ line_end ∷ [] }
{}

/// The number behind the greatest seed: the sequence goes on modulo 2^64.
pub fn made_of_the_greatest()
    ensures number { next_number 18446744073709551615 ≡ 13525302890751722018 }
    ensures name { called_name 13525302890751722018 ≡ codes "11" }
    ensures added { added 13525302890751722018 ≡ 903 }
{}

/// The script that `gen` serves is one, in which the check finds no fault: no line tells why it is refused.
pub fn gen_script_is_accepted()
    ensures script { (tree : Script) × IsScriptText gen_script tree × IsFaultless tree }
    ensures accepted { (line : List ℕ) → IsRefusalLine gen_script line → ⊥ }
{}
