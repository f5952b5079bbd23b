//! Why a script is refused.
#![tactic(auto, using(std::proofs::lemmas::Grind::common_steps, crate::proofs::Append::least_append))]

use do_tree::CheckKind;
use thiserror::Error;

/// A fault of a script: its kind, and its place in bytes from 0.
#[derive(Clone, Copy, Debug, PartialEq, Eq, Drop, Error)]
#[error("{kind:?} at byte {place}")]
pub struct CheckFault {
    /// Where the fault stands, in bytes of the text from 0.
    pub place: u32,
    pub kind: CheckKind,
}
