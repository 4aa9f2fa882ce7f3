// The numbers of a table by document 02's words: "a record takes ten numbers: eight with two counts each (letter i in number i div 2, the even letter in
// the low half), then forward and backward".
use crate::cells::{plus, value_at, wide};

pub const RECORD: usize = 10;

pub const FORWARD: usize = 8;

pub const BACKWARD: usize = 9;

// Where record r begins.
pub fn record_at(r: usize) -> usize {
    if r < 1000000 { RECORD * r } else { 0 }
}

// The count of a letter in record r.
pub fn count_of(table: &[u32], r: usize, letter: usize) -> usize {
    let word = value_at(table, plus(record_at(r), letter / 2));
    let shift = 16 * (letter % 2);
    wide((word >> shift) & 65535)
}

// The total of record r.
pub fn total_of(table: &[u32], r: usize) -> usize {
    (0..16).fold(0, |sum, x| plus(sum, count_of(table, r, x)))
}

// The set of states of record r that is the number FORWARD or BACKWARD.
pub fn set_of(table: &[u32], r: usize, number: usize) -> u32 {
    value_at(table, plus(record_at(r), number))
}
