//! The first fault that was found.
#![tactic(auto, using(std::proofs::lemmas::Grind::common_steps, crate::proofs::Append::least_append))]

ghost use Rattle.std.specs.Prelude.{◌≡◌};
ghost use Rattle.do_check.specs.First.{is_before, kept, least};
ghost use Rattle.do_check.specs.Parts.{when};
ghost use Rattle.do_tree.specs.Faults.{rank};

use crate::fault::CheckFault;
use do_tree::CheckKind;

/// The first fault that was found so far, if any.
pub type Found = Option<CheckFault>;

/// The first of what was found and of this fault, where the test is true.
pub fn keep_when(found: Found, test: bool, place: u32, kind: CheckKind) -> Found
    ensures { result ≡ least found (when test place kind) }
{
    if test {
        keep(found, CheckFault { place, kind })
    } else {
        found
    }
}

/// The first of what was found and of this fault.
fn keep(found: Found, fault: CheckFault) -> Found
    ensures { result ≡ kept found fault }
{
    match found {
        None => Some(fault),
        Some(first) => {
            if is_before(&fault, &first) {
                Some(fault)
            } else {
                Some(first)
            }
        }
    }
}

/// Whether a fault comes before another.
fn is_before(fault: &CheckFault, other: &CheckFault) -> bool
    ensures { result ≡ is_before fault.now other.now }
{
    let rank_here = rank(fault.kind);
    let rank_there = rank(other.kind);
    fault.place < other.place || (fault.place == other.place && rank_here < rank_there)
}

/// The place of a kind in the order.
fn rank(kind: CheckKind) -> u8
    ensures { result ≡ rank kind }
{
    match kind {
        CheckKind::Doubled => 0,
        CheckKind::Reserved => 1,
        CheckKind::Unbound => 2,
        CheckKind::ConstAssigned => 3,
        CheckKind::BadTarget => 4,
        CheckKind::Form => 5,
        CheckKind::NoMember => 6,
        CheckKind::AwaitInSync => 7,
        CheckKind::NotAwaited => 8,
        CheckKind::AwaitOfSync => 9,
        CheckKind::InTransaction => 10,
        CheckKind::InBlock => 11,
        CheckKind::LoopExit => 12,
        CheckKind::StartTwice => 13,
        CheckKind::NoMemory => 14,
    }
}
