//! Tests that are functions: of disks and streams, in memory and of the system, of lanes, of places, of what waits for answers, and of
//! a command's words.
#![tactic(auto)]

#[cfg(test)]
mod calls_tests;
#[cfg(test)]
mod disk_tests;
#[cfg(test)]
mod gate_tests;
#[cfg(test)]
mod lane_tests;
#[cfg(test)]
mod placement_tests;
#[cfg(test)]
mod words_tests;
