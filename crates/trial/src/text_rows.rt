// Profiles as rows of text, a hexadecimal digit for each number: k, s, start and final set; the k masks; the s × k moves; then what the row is for.
//
//     2201 21 2001 ...    Alt of document 01
use crate::cells::{byte_at, minus, plus, put, times};
use crate::shapes::shape_of;
use profile::Shape;

pub fn digit(row: &[u8], i: usize) -> usize {
    let c = byte_at(row, i);
    if c < 58 { minus(c, 48) } else { minus(c, 87) }
}

fn nibble(row: &[u8], i: usize) -> u8 {
    (digit(row, i) % 16) as u8
}

pub fn shape_in(row: &[u8]) -> Shape {
    shape_of(
        digit(row, 0),
        digit(row, 1),
        digit(row, 2),
        nibble(row, 3).into(),
    )
}

// Where the text behind the moves begins.
pub fn rest_at(shape: Shape) -> usize {
    plus(7, times(plus(shape.s, 1), shape.k))
}

pub fn put_masks_in(row: &[u8], masks: &mut [u16]) {
    for i in 0..digit(row, 0) {
        put(masks, i, u16::from(nibble(row, plus(5, i))));
    }
}

// The moves in a row of n.
pub fn put_moves_in(row: &[u8], n: usize, moves: &mut [u32]) {
    let at = plus(6, digit(row, 0));
    for i in 0..n {
        put(moves, i, u32::from(nibble(row, plus(at, i))));
    }
}

// The n letters that stand from `at` on.
pub fn put_letters_in(row: &[u8], at: usize, n: usize, log: &mut [u8]) {
    for i in 0..n {
        put(log, i, nibble(row, plus(at, i)));
    }
}
