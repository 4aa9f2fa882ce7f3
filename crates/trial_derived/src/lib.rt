// The judge for grammars against a listing: every reachable log, and for each the names from which it can be derived.
#![tactic(auto)]

pub mod cases;
pub mod compare;
pub mod derivations;
pub mod edges;
pub mod lent;
pub mod random;
pub mod refusing;
