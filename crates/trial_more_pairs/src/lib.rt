// The judge under two lists of pairs, one of which holds every pair of the other: what the listing of reachable logs says of the two.
#![tactic(auto)]

pub mod compare;
pub mod masks;
