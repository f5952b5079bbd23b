//! A front's turns, and what they leave of the pair that it is with its back, as laws. No object is run here.
#![tactic(auto)]

pub mod laws;
