// The call for a ceiling against document 02's words: the rules of the groups letter by letter, and the product over the log.
#![tactic(auto)]

pub mod compare;
pub mod edges;
pub mod lists;
pub mod rules;
