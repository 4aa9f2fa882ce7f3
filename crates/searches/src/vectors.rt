// Count vectors: a count for each of the sixteen letters.
use counts::Counts;
use trial::cells::{byte, byte_at, minus, plus, put, quotient, rest, times};
use trial::record_numbers::count_of;
use trial_logs::place_keys::weight;

// Vector v of the box in which each letter below k has from 0 to one more than record `last` counts of it.
pub fn put_box(table: &[u32], last: usize, k: usize, v: usize, vector: &mut [u8]) {
    let mut left = v;
    for x in 0..k {
        let side = plus(count_of(table, last, x), 2);
        put(vector, x, byte(rest(left, side)));
        left = quotient(left, side);
    }
}

// How many vectors that box has.
pub fn box_size(table: &[u32], last: usize, k: usize) -> usize {
    let mut size = 1;
    for x in 0..k {
        size = times(size, plus(count_of(table, last, x), 2));
    }
    size
}

// The counts of record r.
pub fn put_record(table: &[u32], r: usize, vector: &mut [u8]) {
    for x in 0..16 {
        put(vector, x, byte(count_of(table, r, x)));
    }
}

// One more of letter x, or one less, where there is one.
pub fn change(vector: &mut [u8], x: usize, up: bool) {
    let n = byte_at(vector, x);
    let next = if up { plus(n, 1) } else { minus(n, 1) };
    put(vector, x, byte(next));
}

// The key of the vector, by which the listing orders prefixes.
pub fn key_of(vector: &[u8]) -> usize {
    (0..16).fold(0, |key, x| plus(key, times(byte_at(vector, x), weight(x))))
}

// Number i of the counts: "letter i in number i div 2, the even letter in the low half".
fn number(vector: &[u8], i: usize) -> u32 {
    let low = byte_at(vector, plus(i, i));
    let high = byte_at(vector, plus(plus(i, i), 1));
    ((low | (high << 16)) % 4294967296) as u32
}

pub fn counts_of(vector: &[u8]) -> Counts {
    counts::from_numbers(&[
        number(vector, 0),
        number(vector, 1),
        number(vector, 2),
        number(vector, 3),
        number(vector, 4),
        number(vector, 5),
        number(vector, 6),
        number(vector, 7),
    ])
}
