//! What a run of the switch shows: which answers are posted, and which calls. These are laws; no switch is run here.
#![tactic(auto)]

pub mod laws;
