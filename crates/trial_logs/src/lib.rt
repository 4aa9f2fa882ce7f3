// Compares judge, build, same and first order with a brute-force listing of reachable logs, log by log.
#![tactic(auto)]

pub mod compare;
pub mod judging;
pub mod listing;
pub mod orders;
pub mod paths;
pub mod place_keys;
pub mod prefixes;
