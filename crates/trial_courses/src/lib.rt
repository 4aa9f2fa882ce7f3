// Compares the profile made of typed courses with the brute-force reading of its text: the answer, move by move, and log by log.
#![tactic(auto)]

pub mod answers;
pub mod compare;
pub mod counters;
pub mod moves;
pub mod small;
