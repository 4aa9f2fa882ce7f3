// Compares the file writer, the file reader and the log part with a second reader, on whole and on damaged files, and the log reader with the log.
#![tactic(auto)]

pub mod compare;
pub mod damages;
pub mod long_files;
pub mod read_events;
pub mod reading;
mod second_reader;
mod written;
