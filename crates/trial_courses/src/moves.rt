// The moves and final states bit by bit, from lists of the numbers of the letters typed.
use crate::counters::Counted;
use profile::Profile;
use trial::cells::{byte, one32, plus, times, value_at, wide};
use trial::tally::Tally;
use trial_grammar::meanings::{Around, Members, describes};
use trial_grammar::words::letter_of;

// "may come directly after the q-th letter typed, or first for q = 0": letter r.
fn comes(k: usize, text: &[u8], q: usize, r: usize, table: &mut [usize]) -> bool {
    if q == 0 {
        describes(Members::Typed, k, text, &[byte(r)], Around::Begins, table)
    } else {
        let list = [byte(q), byte(r)];
        describes(Members::Typed, k, text, &list, Around::Inside, table)
    }
}

// "the states a described log may end in, 0 for the empty log".
fn may_end(k: usize, text: &[u8], q: usize, table: &mut [usize]) -> bool {
    if q == 0 {
        describes(Members::Typed, k, text, b"", Around::Alone, table)
    } else {
        describes(Members::Typed, k, text, &[byte(q)], Around::Ends, table)
    }
}

fn state_if(test: bool, q: usize) -> u32 {
    if test { one32(q) } else { 0 }
}

// The letters that may come after q, of 1 to s - 1.
fn successors(k: usize, text: &[u8], s: usize, q: usize, table: &mut [usize]) -> u32 {
    (1..s).fold(0, |all, r| all | state_if(comes(k, text, q, r, table), r))
}

fn final_states(k: usize, text: &[u8], s: usize, table: &mut [usize]) -> u32 {
    (0..s).fold(0, |all, q| all | state_if(may_end(k, text, q, table), q))
}

// The states of the letters typed that are a.
fn typed_as(k: usize, text: &[u8], a: usize) -> u32 {
    text.iter()
        .filter_map(|c| letter_of(k, *c))
        .enumerate()
        .fold(
            0,
            |all, (i, letter)| all | state_if(letter == a, plus(i, 1)),
        )
}

// The k moves from a state, at `at` and behind.
fn row_right(k: usize, text: &[u8], next: u32, moves: &[u32], at: usize) -> bool {
    (0..k).all(|a| value_at(moves, plus(at, a)) == next & typed_as(k, text, a))
}

fn rows_right(k: usize, text: &[u8], s: usize, moves: &[u32], table: &mut [usize]) -> bool {
    let mut right = true;
    for q in 0..s {
        let next = successors(k, text, s, q, table);
        right = right & row_right(k, text, next, moves, times(q, k));
    }
    right
}

// The bits that are set.
fn bits_set(moves: &[u32]) -> usize {
    moves
        .iter()
        .fold(0, |sum, set| plus(sum, wide(set.count_ones())))
}

// Compares the s × k moves and the final set.
pub fn compare_moves(k: usize, text: &[u8], profile: &Profile, table: &mut [usize], t: &mut Tally) {
    let s = profile.shape.s;
    let finals = final_states(k, text, s, table);
    let right = rows_right(k, text, s, profile.moves, table) & (finals == profile.shape.finals);
    let set = plus(bits_set(profile.moves), wide(finals.count_ones()));
    t.count_many(Counted::Bits, times(32, plus(profile.moves.len(), 1)));
    t.count_many(Counted::Set, set);
    t.expect(Counted::Moves, right);
}
