//! Whom an object's messages name: its replies go to those who called it, its calls and fetches have numbers of their own. These are
//! laws; no object is run here.
#![tactic(auto)]

pub mod laws;
