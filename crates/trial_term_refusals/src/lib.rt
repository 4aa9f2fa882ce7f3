// What refuses days and terms: every number of a calendar as a day and as a term, lists of terms, days in no term, and every combination of the refusals
// that the judge with terms can give.
#![tactic(auto)]

pub mod combined;
pub mod lists;
pub mod numbers;
