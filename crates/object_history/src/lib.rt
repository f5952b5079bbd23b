//! The history of one object, whose front and back take turns: what each step of either does to it, as laws. No object is run here.
#![tactic(auto)]

pub mod laws;
