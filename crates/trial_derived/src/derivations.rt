// "can be derived", by the paper's words, of one log: for each of its parts the names from which the part can be derived, the short parts first. A rule is
// read by its bits.
use trial::cells::{bit, byte_at, minus, one16, plus, put, value_at, wide};
use trial_logs::listing::Listing;

// The parts of a log of at most eight letters: that of n letters from place i on.
fn part_at(i: usize, n: usize) -> usize {
    if i < 9 && n < 9 { 9 * n + i } else { 0 }
}

// The rule, where it gives its name the letter, as the set of that name.
fn by_letter(x: usize, letter: usize) -> u16 {
    if (x >> 12 == 0) & (x & 255 == letter) {
        one16((x >> 8) & 15)
    } else {
        0
    }
}

// The rule, where it gives its name two names, one of each set.
fn by_names(x: usize, left: usize, right: usize) -> u16 {
    if (x >> 12 == 1) & bit(left, (x >> 4) & 15) & bit(right, x & 15) {
        one16((x >> 8) & 15)
    } else {
        0
    }
}

fn letter_names(rules: &[u16], letter: usize) -> u16 {
    rules
        .iter()
        .fold(0, |names, rule| names | by_letter(wide(*rule), letter))
}

fn pair_names(rules: &[u16], left: u16, right: u16) -> u16 {
    rules.iter().fold(0, |names, rule| {
        names | by_names(wide(*rule), wide(left), wide(right))
    })
}

// The names of a part of several letters, over every cut of it.
fn cut_names(rules: &[u16], sets: &[u16], i: usize, n: usize) -> u16 {
    let mut names = 0;
    for m in 1..n {
        let left = value_at(sets, part_at(i, m));
        let right = value_at(sets, part_at(plus(i, m), minus(n, m)));
        names = names | pair_names(rules, left, right);
    }
    names
}

fn part_names(rules: &[u16], log: &[u8], sets: &[u16], i: usize, n: usize) -> u16 {
    if n == 1 {
        letter_names(rules, byte_at(log, i))
    } else {
        cut_names(rules, sets, i, n)
    }
}

// Puts the names of the parts of n letters.
fn put_length(rules: &[u16], log: &[u8], sets: &mut [u16], n: usize) {
    for i in 0..minus(plus(log.len(), 1), n) {
        let names = part_names(rules, log, sets, i, n);
        put(sets, part_at(i, n), names);
    }
}

fn put_lengths(rules: &[u16], log: &[u8], sets: &mut [u16]) {
    for n in 1..plus(log.len(), 1) {
        put_length(rules, log, sets, n);
    }
}

// The log can be derived from name 0; an empty one cannot.
pub fn derived(rules: &[u16], log: &[u8]) -> bool {
    let mut sets = [0u16; 81];
    put_lengths(rules, log, &mut sets);
    bit(value_at(&sets, part_at(0, log.len())) as usize, 0) & (0 < log.len())
}

// How many of the listed logs can be derived.
pub fn derived_rows(rules: &[u16], listing: &Listing) -> usize {
    (0..listing.count())
        .filter(|&r| derived(rules, listing.row(r)))
        .count()
}
