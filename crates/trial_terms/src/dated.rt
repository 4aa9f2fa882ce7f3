// Random terms and days.
use crate::calendar::{later, next_day, no_later};
use crate::spans::{first_of, last_of};
use trial::cells::{plus, put};
use trial::random::{below, seed_of};

// Days from which terms are laid out: about the ends of months, years and leap years, the first day that is allowed, and some that lead near the last.
pub fn begin_of(seed: usize) -> u32 {
    let kind = below(seed, 0, 8);
    match kind {
        0 => 19000101,
        1 => 19000225,
        2 => 19991220,
        3 => 20000225,
        4 => 21000225,
        5 => 20240225,
        6 => 21991030,
        _ => 20260901,
    }
}

// Puts term i, and tells the day after it.
fn put_term(terms: &mut [u32], i: usize, first: u32, last: u32) -> u32 {
    put(terms, plus(i, i), first);
    put(terms, plus(plus(i, i), 1), last);
    next_day(last)
}

// Terms of one to three days, none to two days apart.
pub fn put_terms(seed: usize, many: usize, terms: &mut [u32]) {
    let mut day = begin_of(seed);
    for i in 0..many {
        let first = later(day, below(seed, plus(100, i), 3));
        let last = later(first, below(seed, plus(200, i), 3));
        day = put_term(terms, i, first, last);
    }
}

// A day of one of the first `few` terms.
fn day_in(seed: usize, few: usize, terms: &[u32]) -> u32 {
    let i = below(seed, 0, few);
    let last = last_of(terms, i);
    let day = later(first_of(terms, i), below(seed, 1, 3));
    if no_later(day, last) { day } else { last }
}

// Days of n events, which need not rise.
pub fn put_days(seed: usize, n: usize, few: usize, terms: &[u32], days: &mut [u32]) {
    for i in 0..n {
        put(days, i, day_in(seed_of(seed, i), few, terms));
    }
}

// The first day of the second of two terms where the bit of the event is set, else of the first.
pub fn put_halves(halves: usize, n: usize, terms: &[u32], days: &mut [u32]) {
    for i in 0..n {
        put(days, i, first_of(terms, (halves >> (i % 8)) % 2));
    }
}
