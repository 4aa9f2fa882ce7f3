// The running judge against a listing: lists of events and questions, with every record and number of the table after each call.
#![tactic(auto)]

pub mod arrivals;
pub mod damaged;
pub mod lent;
pub mod run;
pub mod run_records;
