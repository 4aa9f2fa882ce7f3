// Every text up to a length over some bytes, by its number.
use crate::compare::compare_text;
use trial::cells::{byte, byte_at, part_of, put};
use trial::logs::{log_count, put_log_number};
use trial::tally::Tally;
use trial_grammar::parts::CELLS;

// Writes text number v, and tells its length.
fn put_text(bytes: &[u8], v: usize, text: &mut [u8]) -> usize {
    let mut digits = [0u8; 8];
    let n = put_log_number(bytes.len(), v, &mut digits);
    for i in 0..n {
        put(text, i, byte(byte_at(bytes, byte_at(&digits, i))));
    }
    n
}

fn compare_number(k: usize, bytes: &[u8], v: usize, table: &mut [usize], t: &mut Tally) {
    let mut text = [0u8; 8];
    let n = put_text(bytes, v, &mut text);
    compare_text(k, part_of(&text, 0, n), v, table, t);
}

// All texts of up to `longest` of the bytes.
pub fn every_text(k: usize, bytes: &[u8], longest: usize, t: &mut Tally) {
    let mut table = [0usize; CELLS];
    for v in 0..log_count(bytes.len(), longest) {
        compare_number(k, bytes, v, &mut table, t);
    }
}
