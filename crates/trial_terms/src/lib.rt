// The judge with terms against a listing: exchanges of events that are in one term, log by log.
#![tactic(auto)]

pub mod calendar;
pub mod dated;
pub mod exchanges;
pub mod judging;
pub mod lent;
pub mod met;
pub mod spans;
