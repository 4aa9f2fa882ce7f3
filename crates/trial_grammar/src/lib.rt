// A brute-force reading of the expressions of document 02, Paper 1, from its words alone: which texts are right, and what they describe.
#![tactic(auto)]

pub mod grammar;
pub mod meanings;
pub mod parts;
pub mod words;
