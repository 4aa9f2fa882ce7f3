// Paths of the automaton, state by state: where a log leads, and whether it is accepted.
use crate::listing::{Listing, earlier};
use profile::Profile;
use trial::cells::{bit, one32, plus, value_at, wide};

// The states to which the move at place `at` leads from state q, where q is in the set.
fn leads(moves: &[u32], set: u32, q: usize, at: usize) -> u32 {
    if bit(wide(set), q) {
        value_at(moves, at)
    } else {
        0
    }
}

// The states to which letter a leads from the states of the set: moves at q * k + a.
fn moved(k: usize, s: usize, moves: &[u32], set: u32, a: usize) -> u32 {
    let mut out = 0;
    let mut at = a;
    for q in 0..s {
        out = out | leads(moves, set, q, at);
        at = plus(at, k);
    }
    out
}

// The states in which the paths from the set end that spell the word.
pub fn ends(profile: &Profile, set: u32, word: &[u8]) -> u32 {
    let k = profile.shape.k;
    let s = profile.shape.s;
    word.iter().fold(
        set,
        |now, letter| moved(k, s, profile.moves, now, wide(*letter)),
    )
}

// The states to which the word leads from the start.
pub fn led(profile: &Profile, word: &[u8]) -> u32 {
    ends(profile, one32(profile.shape.start), word)
}

// Some path from state q spells the word and ends in a final state.
fn finishes(profile: &Profile, q: usize, word: &[u8]) -> bool {
    ends(profile, one32(q), word) & profile.shape.finals != 0
}

// Some path from the start does.
pub fn accepts(profile: &Profile, word: &[u8]) -> bool {
    finishes(profile, profile.shape.start, word)
}

// The states from which the word leads to a final state.
pub fn beginnings(profile: &Profile, word: &[u8]) -> u32 {
    (0..profile.shape.s)
        .filter(|&q| finishes(profile, q, word))
        .fold(0, |out, q| out | one32(q))
}

// The states to which some listed log leads from the start.
pub fn forward(profile: &Profile, listing: &Listing) -> u32 {
    (0..listing.count()).fold(0, |out, r| out | led(profile, listing.row(r)))
}

// The states from which some listed log leads to a final state.
pub fn backward(profile: &Profile, listing: &Listing) -> u32 {
    (0..listing.count()).fold(0, |out, r| out | beginnings(profile, listing.row(r)))
}

// Row r is earlier than the best, or nothing was found yet.
fn better(listing: &Listing, best: Option<usize>, r: usize) -> bool {
    match best {
        Some(b) => earlier(listing.row(r), listing.row(b)),
        None => true,
    }
}

// The row of the earliest accepted log.
pub fn earliest_accepted(profile: &Profile, listing: &Listing) -> Option<usize> {
    let mut best = None;
    for r in 0..listing.count() {
        if accepts(profile, listing.row(r)) & better(listing, best, r) {
            best = Some(r);
        }
    }
    best
}
