//! The script at a path: read, parsed and checked.
ghost use Rattle.std.specs.Prelude.{◌≡◌, ◌⊎◌, ◌++◌, ◌∷◌, [], ℕ, List, IfOk, OnOk, OnErr};
ghost use Rattle.do_disk.specs.Disk.{IfTold, Rose};
ghost use Rattle.do_disk.specs.Asks.{for_text};
ghost use Rattle.do_tree.specs.Checked.{tree_of};
ghost use Rattle.host_core.specs.Opening.{Asks};
ghost use Rattle.do_host.specs.EarlyEnds.{IsRefusedBy, IsStoppedBy, IsScriptEnd};
ghost use Rattle.do_host.specs.ScriptLines.{IsRefusalLine, IsScriptLine};
ghost use Rattle.do_host.specs.Scripts.{IsAccepted};

use crate::accept::accept;
use crate::early_end::EarlyEnd;
use crate::run_end::RunEnd;
use crate::script_lines::script_line;
use do_disk::Depot;
use do_tree::Checked;
use std::alloc::Global;

// Reads the script, where it is accepted.
pub(crate) fn read_script<P: Depot>(
    alloc: Global,
    depot: &mut P,
    path: &str,
) -> Result<Checked, EarlyEnd>
    ensures asked { Asks (P.asked depot.old) (P.asked depot.new) (for_text path.now ∷ []) }
    ensures whole { OnOk result (P.asked depot.new ≡ P.asked depot.old ++ for_text path.now ∷ []) }
    ensures same_slots { (folder : List ℕ) (number : ℕ) → P.slot_at depot.new folder number ≡ P.slot_at depot.old folder number }
    ensures same_texts { (any_path : List ℕ) → P.text_at depot.new any_path ≡ P.text_at depot.old any_path }
    ensures end { OnErr result (IsScriptEnd result) }
    ensures failed { IsStoppedBy result RunEnd.DepotFailed → Rose (P.faults_of depot.old) (P.faults_of depot.new) }
    ensures steady { OnOk result (P.faults_of depot.new ≡ P.faults_of depot.old) }
    ensures accepted { IfOk result (λ checked. IfTold (P.text_at depot.old path.now) (λ text. IsAccepted text (tree_of checked))) }
    ensures refused { (line : List ℕ) → IsRefusedBy result line → IfTold (P.text_at depot.old path.now) (λ text. IsRefusalLine text line) }
    ensures refused_whole { (line : List ℕ) → IsRefusedBy result line → P.asked depot.new ≡ P.asked depot.old ++ for_text path.now ∷ [] }
{
    let text = depot.text(path)?;
    accept(alloc, text.as_slice())
}

// Reads the script, and gives the line that tells its classes, where it is accepted.
pub(crate) fn told_script<P: Depot>(
    alloc: Global,
    depot: &mut P,
    path: &str,
) -> Result<Vec<u8>, EarlyEnd>
    ensures asked { Asks (P.asked depot.old) (P.asked depot.new) (for_text path.now ∷ []) }
    ensures whole { OnOk result (P.asked depot.new ≡ P.asked depot.old ++ for_text path.now ∷ []) }
    ensures end { OnErr result (IsScriptEnd result) }
    ensures failed { IsStoppedBy result RunEnd.DepotFailed → Rose (P.faults_of depot.old) (P.faults_of depot.new) }
    ensures told { IfOk result (λ line. IfTold (P.text_at depot.old path.now) (λ text. IsScriptLine text line.items)) }
    ensures refused { (line : List ℕ) → IsRefusedBy result line → IfTold (P.text_at depot.old path.now) (λ text. IsRefusalLine text line) }
    ensures refused_whole { (line : List ℕ) → IsRefusedBy result line → P.asked depot.new ≡ P.asked depot.old ++ for_text path.now ∷ [] }
{
    let text = depot.text(path)?;
    accepted_line(alloc, text.as_slice())
}

// The line that tells the classes of a text, where it is accepted.
fn accepted_line(alloc: Global, text: &[u8]) -> Result<Vec<u8>, EarlyEnd>
    ensures told { IfOk result (λ line. IsScriptLine text.now line.items) }
    ensures refused { (line : List ℕ) → IsRefusedBy result line → IsRefusalLine text.now line }
    ensures end { OnErr result (((line : List ℕ) × IsRefusedBy result line) ⊎ IsStoppedBy result RunEnd.NoMemory) }
{
    match accept(alloc, text) {
        Ok(checked) => match script_line(alloc, checked.script()) {
            Ok(line) => Ok(line),
            Err(_) => Err(EarlyEnd::Stopped(RunEnd::NoMemory)),
        },
        Err(end) => Err(end),
    }
}
