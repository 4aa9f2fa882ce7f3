// The limits of document 02, Paper 8, for code; `specs/` has the same names with the paper's words.
#![tactic(auto)]

// The years of days, first and last.
pub const FIRST_YEAR: u32 = 1900;

pub const LAST_YEAR: u32 = 2199;

// The terms of a call, so many at most.
pub const MOST_TERMS: usize = 12;

// What the term in an event's code stays below.
pub const TERM_BOUND: u8 = 16;
