// Terms by document 02's words: "1 to 12 terms. A term has a first and a last such day, both inside it; terms rise and do not overlap."
use crate::calendar::{is_day, no_later};
use trial::cells::{plus, value_at};

pub fn first_of(terms: &[u32], i: usize) -> u32 {
    value_at(terms, plus(i, i))
}

pub fn last_of(terms: &[u32], i: usize) -> u32 {
    value_at(terms, plus(plus(i, i), 1))
}

// The day is in term i.
fn has_day(terms: &[u32], i: usize, day: u32) -> bool {
    no_later(first_of(terms, i), day) & no_later(day, last_of(terms, i))
}

// The term that the day is in.
pub fn term_of(terms: &[u32], day: u32) -> Option<usize> {
    (0..terms.len() / 2).find(|&i| has_day(terms, i, day))
}

// Every later term begins after term i has ended.
fn ends_before(terms: &[u32], i: usize) -> bool {
    (0..terms.len() / 2).all(|j| (j <= i) | !no_later(first_of(terms, j), last_of(terms, i)))
}

fn term_right(terms: &[u32], i: usize) -> bool {
    let first = first_of(terms, i);
    let last = last_of(terms, i);
    is_day(first) & is_day(last) & no_later(first, last) & ends_before(terms, i)
}

fn each_right(terms: &[u32]) -> bool {
    (0..terms.len() / 2).all(|i| term_right(terms, i))
}

// The terms keep the rules; a first day without a last breaks them.
pub fn terms_right(terms: &[u32]) -> bool {
    let many = terms.len() / 2;
    (terms.len() % 2 == 0) & (1 <= many) & (many <= 12) & each_right(terms)
}
