// Whether a text is a script that runs.
ghost use Rattle.std.specs.Prelude.{◌≡◌, ◌⊎◌, ℕ, List, Some, Err, IfOk, OnErr, option_map};
ghost use Rattle.do_tree.specs.Checked.{tree_of};
ghost use Rattle.do_host.specs.EarlyEnds.{IsRefusedBy, IsStoppedBy, Refuses};
ghost use Rattle.do_host.specs.ScriptLines.{IsRefusalLine};
ghost use Rattle.do_host.specs.Scripts as spec;
ghost use Rattle.do_host.specs.Scripts.{IsAccepted};

use crate::early_end::EarlyEnd;
use crate::run_end::RunEnd;
use crate::script_lines::refused_line;
use do_check::check;
use do_parse::{ParseKind, parse};
use do_tree::{CheckKind, Checked};
use std::alloc::Global;

// The script that the text is, where it is one in which the check finds no fault.
pub(crate) fn accept(alloc: Global, text: &[u8]) -> Result<Checked, EarlyEnd>
    ensures accepted { IfOk result (λ checked. IsAccepted text.now (tree_of checked)) }
    ensures refused { (line : List ℕ) → IsRefusedBy result line → IsRefusalLine text.now line }
    ensures stopped { OnErr result (((line : List ℕ) × IsRefusedBy result line) ⊎ IsStoppedBy result RunEnd.NoMemory) }
{
    match parse(alloc, text) {
        Ok(script) => match check(alloc, script) {
            Ok(checked) => Ok(checked),
            Err(fault) => Err(refuse(alloc, fault.place, check_word(fault.kind))),
        },
        Err(fault) => Err(refuse(alloc, fault.place, parse_word(fault.kind))),
    }
}

// How a run ends whose script has a fault of this word. Want of memory has none.
fn refuse(alloc: Global, place: u32, word: Option<&'static str>) -> EarlyEnd
    ensures { Refuses place (option_map (λ text. text.now) word.entry) result }
{
    let Some(word) = word else {
        return EarlyEnd::Stopped(RunEnd::NoMemory);
    };
    match refused_line(alloc, place, word) {
        Ok(line) => EarlyEnd::Refused(line),
        Err(_) => EarlyEnd::Stopped(RunEnd::NoMemory),
    }
}

// The word of a kind.
fn parse_word(kind: ParseKind) -> Option<&'static str>
    ensures { option_map (λ word. word.now) result ≡ spec.parse_word kind }
{
    match kind {
        ParseKind::TooLong => Some("TooLong"),
        ParseKind::BadChar => Some("BadChar"),
        ParseKind::OpenText => Some("OpenText"),
        ParseKind::LongNumber => Some("LongNumber"),
        ParseKind::Unexpected => Some("Unexpected"),
        ParseKind::TooNested => Some("TooNested"),
        ParseKind::NoMemory => None,
    }
}

fn check_word(kind: CheckKind) -> Option<&'static str>
    ensures { option_map (λ word. word.now) result ≡ spec.check_word kind }
{
    match kind {
        CheckKind::Doubled => Some("Doubled"),
        CheckKind::Reserved => Some("Reserved"),
        CheckKind::Unbound => Some("Unbound"),
        CheckKind::ConstAssigned => Some("ConstAssigned"),
        CheckKind::BadTarget => Some("BadTarget"),
        CheckKind::Form => Some("Form"),
        CheckKind::NoMember => Some("NoMember"),
        CheckKind::AwaitInSync => Some("AwaitInSync"),
        CheckKind::NotAwaited => Some("NotAwaited"),
        CheckKind::AwaitOfSync => Some("AwaitOfSync"),
        CheckKind::InTransaction => Some("InTransaction"),
        CheckKind::InBlock => Some("InBlock"),
        CheckKind::LoopExit => Some("LoopExit"),
        CheckKind::StartTwice => Some("StartTwice"),
        CheckKind::NoMemory => None,
    }
}
