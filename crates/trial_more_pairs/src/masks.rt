// Two nested lists of pairs as one code: for each pair of letters, in this order, a digit from 0 to 2: in neither, in the longer list alone, in both.
use trial::cells::{minus, one16, plus, put, quotient, times};
use trial::random::below;

// Up to so many letters every code is gone through; with more letters a code is a seed.
pub const CODED: usize = 3;

// The place of the pair i, j among all pairs of different letters.
fn pair_place(k: usize, i: usize, j: usize) -> usize {
    let skipped = if i < j { minus(j, 1) } else { j };
    plus(times(i, minus(k, 1)), skipped)
}

// Digit `place` of a code, base 3.
fn digit(code: usize, place: usize) -> usize {
    let mut v = code;
    for _ in 0..place {
        v = quotient(v, 3);
    }
    v % 3
}

// In neither list, in the longer alone, in both.
fn kind_of(code: usize, k: usize, i: usize, j: usize) -> usize {
    let place = pair_place(k, i, j);
    if CODED < k {
        below(code, place, 3)
    } else {
        digit(code, place)
    }
}

// Bit j of the mask of letter i, in the longer list or in the other.
fn pair_bit(code: usize, k: usize, longer: bool, i: usize, j: usize) -> u16 {
    let kind = kind_of(code, k, i, j);
    if (i != j) & ((kind == 2) | (longer & (kind == 1))) {
        one16(j)
    } else {
        0
    }
}

fn mask_of(code: usize, k: usize, longer: bool, i: usize) -> u16 {
    (0..k).fold(0, |mask, j| mask | pair_bit(code, k, longer, i, j))
}

// The masks of the longer list, or of the other.
pub fn put_nested(code: usize, k: usize, longer: bool, masks: &mut [u16]) {
    for i in 0..k {
        put(masks, i, mask_of(code, k, longer, i));
    }
}
