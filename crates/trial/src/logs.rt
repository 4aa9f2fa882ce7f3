// Every log up to a length, by its number.
use crate::cells::{byte, plus, put, quotient, rest, times};

// How many logs of 0 to `longest` letters there are.
pub fn log_count(k: usize, longest: usize) -> usize {
    let mut all = 1;
    for _ in 0..longest {
        all = plus(times(all, k), 1);
    }
    all
}

// Writes log number v: number 0 is the empty log, and 1 + a + k * v is the letter a and then log v. The log's length.
pub fn put_log_number(k: usize, v: usize, log: &mut [u8]) -> usize {
    let mut left = v;
    for i in 0..8 {
        if left == 0 {
            return i;
        }
        put(log, i, byte(rest(left - 1, k)));
        left = quotient(left - 1, k);
    }
    8
}
