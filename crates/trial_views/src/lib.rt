// Views against every list of letters up to a length, taken with its visible part.
#![tactic(auto)]

pub mod edges;
pub mod lent;
pub mod lists;
pub mod one_view;
