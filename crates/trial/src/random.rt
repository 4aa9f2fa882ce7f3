// Numbers from a seed, with no state: number i of a seed is mixed from the two (xorshift). Profiles and logs made of them.
use crate::cells::{byte, one16, one32, plus, put, rest, times};
use crate::shapes::shape_of;
use profile::Shape;

fn mixed(x: usize) -> usize {
    let a = x ^ (x << 13);
    let b = a ^ (a >> 7);
    b ^ (b << 17)
}

// Number i of the seed, which serves as a seed too.
pub fn seed_of(seed: usize, i: usize) -> usize {
    let a = mixed(plus(seed, 11400714819323198485));
    let b = mixed(plus(a, i));
    mixed(plus(b, 15111426250206669059))
}

// Number i of the seed, below n; 0 where n is.
pub fn below(seed: usize, i: usize, n: usize) -> usize {
    rest(seed_of(seed, i) >> 20, n)
}

// The number by which it is drawn whether i before j may be exchanged; that of j before i too where the masks are to be symmetric.
fn pair_of(symmetric: bool, i: usize, j: usize) -> usize {
    if symmetric & (j < i) {
        (j << 4) | i
    } else {
        (i << 4) | j
    }
}

// Letter i before j may be exchanged, in `part` of 8 cases. Masks are symmetric in one of four seeds; in the others each direction of a pair is drawn by
// itself, and of letters 0 and 1 one direction is set and the other is not.
fn may_pass(seed: usize, part: usize, i: usize, j: usize) -> bool {
    let symmetric = below(seed, 998, 4) == 0;
    if !symmetric & (i < 2) & (j < 2) {
        return below(seed, 997, 2) == i;
    }
    below(seed, pair_of(symmetric, i, j), 8) < part
}

// Bit j of the mask of letter i.
fn related(seed: usize, part: usize, i: usize, j: usize) -> u16 {
    if (i != j) & may_pass(seed, part, i, j) {
        one16(j)
    } else {
        0
    }
}

fn mask_of(seed: usize, k: usize, part: usize, i: usize) -> u16 {
    (0..k).fold(0, |mask, j| mask | related(seed, part, i, j))
}

// Masks of k letters, of which about `part` of 8 pairs may be exchanged.
pub fn put_masks(seed: usize, k: usize, part: usize, masks: &mut [u16]) {
    for i in 0..k {
        put(masks, i, mask_of(seed, k, part, i));
    }
}

// No state, one or two.
fn few_states(seed: usize, s: usize) -> u32 {
    let kind = below(seed, 0, 8);
    let one = one32(below(seed, 1, s));
    if kind < 2 {
        return 0;
    }
    if kind < 6 {
        one
    } else {
        one | one32(below(seed, 2, s))
    }
}

// Moves of s states and k letters.
pub fn put_moves(seed: usize, s: usize, k: usize, moves: &mut [u32]) {
    for i in 0..times(s, k) {
        put(moves, i, few_states(seed_of(seed, i), s));
    }
}

// One to three letters, or four to sixteen in one of four seeds.
pub fn letter_count(seed: usize) -> usize {
    if below(seed, 10, 4) == 0 {
        plus(4, below(seed, 11, 13))
    } else {
        plus(1, below(seed, 11, 3))
    }
}

// A start and final states.
pub fn random_shape(seed: usize, k: usize, s: usize) -> Shape {
    let finals = few_states(seed_of(seed, 1), s) | few_states(seed_of(seed, 2), s);
    shape_of(k, s, below(seed, 3, s), finals)
}

// The first n letters of a log over k letters.
pub fn put_log(seed: usize, k: usize, n: usize, log: &mut [u8]) {
    for i in 0..n {
        put(log, i, byte(below(seed, i, k)));
    }
}
