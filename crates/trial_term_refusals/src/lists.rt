// Lists of terms, right ones and ones changed in a place; days in no term; days that are not as many as the events.
use crate::numbers::{refused_or_not, unless};
use profile::Calendar;
use trial::cells::{minus, part_of, plus, put, value_at, wide};
use trial::random::{below, seed_of};
use trial::tally::Tally;
use trial_terms::calendar::later;
use trial_terms::dated::{put_days, put_terms};
use trial_terms::met::Met;
use trial_terms::spans::{term_of, terms_right};

// What stands in the place of number i of the list: a day later, two later, the number of another place, or no date.
fn changed(seed: usize, n: usize, terms: &[u32], i: usize) -> u32 {
    let kind = below(seed, 2, 6);
    let day = value_at(terms, i);
    match kind {
        0 => later(day, 1),
        1 => later(day, 2),
        2 => value_at(terms, plus(i, 1)),
        3 => value_at(terms, below(seed, 3, n)),
        4 => 20260931,
        _ => (minus(wide(day), 1) % 4294967296) as u32,
    }
}

// The length of a list of `many` terms: its own, or now and then one number or one term more or less; 24 and 26 numbers are tried often.
fn length_of(seed: usize, many: usize) -> usize {
    let own = plus(many, many);
    let kind = below(seed, 4, 12);
    match kind {
        0 => minus(own, 1),
        1 => plus(own, 1),
        2 => 0,
        3 => 24,
        4 => 26,
        _ => own,
    }
}

// A list against the rules, by a call with an empty log.
fn try_list(terms: &[u32], t: &mut Tally) {
    let right = terms_right(terms);
    let agrees = refused_or_not(&Calendar { days: &[], terms }, b"", unless(right, 15));
    t.expect(Met::List, agrees);
    t.count(Met::Lists);
    t.count_if(Met::RightLists, right);
}

// Thirteen terms by the rules, of which a beginning is tried, and then the same with one number changed.
fn one_list(seed: usize, t: &mut Tally) {
    let mut terms = [0u32; 27];
    put_terms(seed, 13, &mut terms);
    let n = length_of(seed, plus(1, below(seed, 5, 12)));
    try_list(part_of(&terms, 0, n), t);
    let i = below(seed, 1, n);
    let day = changed(seed, n, &terms, i);
    put(&mut terms, i, day);
    try_list(part_of(&terms, 0, n), t);
}

// All days but one are in terms, or all are: 16 or no refusal.
fn try_outside(terms: &[u32], days: &[u32], day: u32, t: &mut Tally) {
    let inside = term_of(terms, day).is_some();
    let agrees = refused_or_not(&Calendar { days, terms }, &[0u8; 3], unless(inside, 16));
    t.expect(Met::OutsideWrong, agrees);
    t.count_if(Met::Outside, !inside);
}

// A day about the ends of a term, in the place of one of three.
fn one_outside(seed: usize, t: &mut Tally) {
    let mut terms = [0u32; 24];
    let mut days = [0u32; 3];
    let many = plus(1, below(seed, 0, 12));
    put_terms(seed, many, &mut terms);
    put_days(seed, 3, many, &terms, &mut days);
    let n = plus(many, many);
    let day = later(value_at(&terms, below(seed, 6, n)), below(seed, 7, 3));
    put(&mut days, below(seed, 8, 3), day);
    try_outside(part_of(&terms, 0, n), &days, day, t);
}

// As many days as `given` and a log of `n` events, in one term that has them all.
fn try_lengths(given: usize, n: usize, t: &mut Tally) {
    let days = [20260901u32; 4];
    let calendar = Calendar {
        days: part_of(&days, 0, given),
        terms: &[20260901u32, 20260901],
    };
    let log = part_of(&[0u8; 4], 0, n);
    let agrees = refused_or_not(&calendar, log, unless(given == n, 14));
    t.expect(Met::OutsideWrong, agrees);
    t.count(Met::NotAsMany);
}

fn all_lengths(t: &mut Tally) {
    for i in 0..16 {
        try_lengths(i / 4, i % 4, t);
    }
}

// Lists of terms and days about their ends, `many` of each.
pub fn all_lists(seed: usize, many: usize, t: &mut Tally) {
    for i in 0..many {
        one_list(seed_of(seed, i), t);
        one_outside(seed_of(seed, i), t);
    }
    all_lengths(t);
}
