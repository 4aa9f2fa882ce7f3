// Edges as rows of text: k, the numbers lent, the number of the refusal and its place, each with so many digits as here; then the text, two digits
// and a byte for each run of that byte. Refusal 00 is none, and then the number of states stands in place of the place. In the text Z is byte 0 and
// Y is byte 255; k 99 is the largest number.
//
//     02 0600 11 0017 17(01)
#![tactic(auto)]

use profile::Profile;
use trial::answers::Refused;
use trial::cells::{byte, byte_at, minus, part_of, plus, put_run, times};
use trial::guarded::Guarded;
use trial::tally::Tally;
use trial_courses::answers::{is_refused, make_in, profile_in};
use trial_courses::compare::verdict_of;
use trial_courses::counters;
use trial_courses::counters::Counted;
use trial_courses::moves::compare_moves;
use trial_grammar::parts::CELLS;

const HUGE: usize = 18446744073709551615;

// Where the text's runs begin.
const RUNS: usize = 16;

// The decimal number of n digits that stands at `at`.
fn decimal(row: &[u8], at: usize, n: usize) -> usize {
    let mut v = 0;
    for i in 0..n {
        v = plus(times(10, v), minus(byte_at(row, plus(at, i)), 48));
    }
    v
}

fn letters_of(row: &[u8]) -> usize {
    let k = decimal(row, 0, 2);
    if k == 99 { HUGE } else { k }
}

fn byte_of(c: usize) -> u8 {
    match c {
        89 => 255,
        90 => 0,
        _ => byte(c),
    }
}

// Writes the text of a row, and tells its length.
fn put_runs(row: &[u8], text: &mut [u8]) -> usize {
    let mut n = 0;
    for run in part_of(row, RUNS, minus(row.len(), RUNS)).chunks(3) {
        let many = decimal(run, 0, 2);
        put_run(text, n, many, byte_of(byte_at(run, 2)));
        n = plus(n, many);
    }
    n
}

// Compares the answer and the numbers of one row.
fn edge(row: &[u8], t: &mut Tally) {
    let mut text = [0u8; 1200];
    let mut moves = Guarded::<u32, 640>::new(decimal(row, 3, 4));
    let n = put_runs(row, &mut text);
    let k = letters_of(row);
    let number = decimal(row, 8, 2);
    let place = decimal(row, 11, 4);
    let made = make_in(k, part_of(&text, 0, n), &mut moves);
    let right = if number == 0 {
        profile_in(made, k, place, &moves).is_some()
    } else {
        is_refused(made, Refused::at(number, place), &moves)
    };
    t.count(Counted::Edges);
    counters::refused(Counted::Edge, right, number, t);
}

// "up to 16 deep", and 17; brackets beside each other are not deeper.
fn depths(t: &mut Tally) {
    edge(b"02 0600 00 0002 16(01a16)", t);
    edge(b"02 0600 12 0000 17(01a17)", t);
    edge(b"02 0600 00 0003 16(01a16)16(01b16)", t);
    edge(b"02 0600 00 0003 16(01a08)08(01b16)", t);
    edge(b"02 0600 12 0000 16(01a08)09(01b17)", t);
    edge(b"01 0600 12 0000 99(01a99)", t);
    edge(b"02 0600 12 0000 01a01|17(01a17)", t);
}

// 31 letters, and 32; both limits at once.
fn lengths(t: &mut Tally) {
    edge(b"02 0600 00 0032 31a", t);
    edge(b"02 0600 13 0000 32a", t);
    edge(b"02 0600 00 0032 01(31a01)99*", t);
    edge(b"02 0600 13 0000 31a01|01b", t);
    edge(b"02 0600 12 0000 17(32a17)", t);
    edge(b"02 0600 13 0000 16(32a16)", t);
    edge(b"02 0600 12 0000 17(31a17)", t);
    edge(b"02 0600 00 0032 16(31a16)", t);
}

// A text that is too deep and too long, and breaks the rules at its very end.
fn last_faults(t: &mut Tally) {
    edge(b"02 0600 11 0066 17(32a17)01)", t);
    edge(b"02 0600 11 0017 17(01)", t);
    edge(b"02 0600 11 0065 17(32a16)", t);
    edge(b"02 0600 11 0049 17(32a", t);
    edge(b"02 0600 11 0066 17(32a17)01c", t);
    edge(b"02 0600 11 0067 17(32a17)01|", t);
    edge(b"02 0600 11 0032 32a01c", t);
    edge(b"02 0600 11 0099 99(", t);
    edge(b"02 0600 11 0017 17(", t);
}

// s × k numbers, and one fewer; the other refusals come before 9.
fn short_buffers(t: &mut Tally) {
    edge(b"02 0063 09 0000 31a", t);
    edge(b"02 0064 00 0032 31a", t);
    edge(b"16 0511 09 0000 31p", t);
    edge(b"16 0512 00 0032 31p", t);
    edge(b"01 0031 09 0000 31a", t);
    edge(b"01 0032 00 0032 31a", t);
    edge(b"01 0001 09 0000 01a", t);
    edge(b"01 0002 00 0002 01a", t);
    edge(b"02 0000 12 0000 17(01a17)", t);
    edge(b"01 0000 09 0000 01a", t);
    edge(b"02 0000 11 0001 01a01)", t);
    edge(b"02 0000 13 0000 32a", t);
}

// k out of its range, with a right text and with a bad one.
fn ranges(t: &mut Tally) {
    edge(b"00 0600 02 0000 01a", t);
    edge(b"00 0600 02 0000 01)", t);
    edge(b"17 0600 02 0000 01a", t);
    edge(b"17 0600 02 0000 01)", t);
    edge(b"00 0000 02 0000 ", t);
    edge(b"17 0000 02 0000 ", t);
    edge(b"00 0600 02 0000 17(32a17)", t);
    edge(b"17 0000 02 0000 17(32a", t);
    edge(b"99 0600 02 0000 01a", t);
    edge(b"99 0000 02 0000 01)", t);
}

// "a letter from k on".
fn letters(t: &mut Tally) {
    edge(b"01 0600 11 0000 01b", t);
    edge(b"01 0600 00 0002 01a", t);
    edge(b"02 0600 00 0003 01a01b", t);
    edge(b"01 0600 11 0001 01a01b", t);
    edge(b"16 0600 11 0000 01q", t);
    edge(b"16 0600 00 0002 01p", t);
    edge(b"15 0600 11 0000 01p", t);
    edge(b"16 0600 11 0001 01p01q", t);
    edge(b"16 0600 11 0000 01A", t);
    edge(b"16 0600 11 0001 01a01A", t);
}

// The empty text, and bytes that are none of the signs.
fn strange_texts(t: &mut Tally) {
    edge(b"02 0600 11 0000 ", t);
    edge(b"01 0000 11 0000 ", t);
    edge(b"16 0600 11 0000 ", t);
    edge(b"16 0600 11 0001 01a01Z", t);
    edge(b"16 0600 11 0000 01Z", t);
    edge(b"16 0600 11 0001 01a01Y", t);
    edge(b"16 0600 11 0000 01Y", t);
    edge(b"16 0600 11 0000 01`", t);
    edge(b"16 0600 11 0001 01a01'", t);
    edge(b"16 0600 11 0001 01a01{", t);
    edge(b"16 0600 11 0001 01a01+", t);
    edge(b"16 0600 11 0001 01a01 ", t);
    edge(b"16 0600 11 0001 01a01}", t);
}

// An empty choice or bracket, a star behind nothing, and brackets that do not match.
fn broken_rules(t: &mut Tally) {
    edge(b"02 0600 11 0002 01a01|", t);
    edge(b"02 0600 11 0001 01(01)", t);
    edge(b"02 0600 11 0002 01a02|01b", t);
    edge(b"02 0600 11 0000 01|01a", t);
    edge(b"02 0600 11 0002 01a01|01*", t);
    edge(b"02 0600 11 0000 01*01a", t);
    edge(b"02 0600 11 0003 01(01a01|01)", t);
    edge(b"02 0600 11 0001 01(01*01a01)", t);
    edge(b"02 0600 11 0002 01(01a", t);
    edge(b"02 0600 11 0001 01a01)", t);
}

// One letter and a thousand stars: two states, the letter leads from both to 1, and both are final.
fn stars_right() -> Option<bool> {
    let mut text = [42u8; 1001];
    let mut numbers = Guarded::<u32, 16>::new(3);
    text[0] = b'a';
    let made = make_in(1, &text, &mut numbers);
    let shape = profile_in(made, 1, 2, &numbers)?;
    let moves = numbers.first(2);
    let verdict = verdict_of(
        &Profile {
            shape,
            masks: &[0u16],
            moves,
        },
        &[0u8; 7],
    )?;
    Some((moves == [2u32, 2].as_slice()) & (shape.finals == 3) & verdict)
}

fn many_stars(t: &mut Tally) {
    t.count(Counted::Edges);
    t.expect(Counted::Edge, stars_right() == Some(true));
}

// The moves of a right row too, bit by bit.
fn edge_moves(row: &[u8], table: &mut [usize], t: &mut Tally) {
    let mut text = [0u8; 1200];
    let mut numbers = Guarded::<u32, 640>::new(decimal(row, 3, 4));
    let n = put_runs(row, &mut text);
    let k = letters_of(row);
    let s = decimal(row, 11, 4);
    let made = make_in(k, part_of(&text, 0, n), &mut numbers);
    edge(row, t);
    let Some(Ok(shape)) = made else {
        t.count(Counted::Moves);
        return;
    };
    let profile = Profile {
        shape,
        masks: &[],
        moves: numbers.first(times(k, s)),
    };
    compare_moves(k, part_of(&text, 0, n), &profile, table, t);
}

// All letters in one star; one letter in all brackets; choices and repetitions in brackets.
fn wide_moves(t: &mut Tally) {
    let mut table = [0usize; CELLS];
    edge_moves(b"02 0064 00 0032 01(16a15b01)01*", &mut table, t);
    edge_moves(b"16 0032 00 0002 16(01p16)03*", &mut table, t);
    edge_moves(
        b"03 0600 00 0007 02(01a01*01|01b01)01*01c01)02*01(01a01|02b01)",
        &mut table,
        t,
    );
}

pub fn all_edges(t: &mut Tally) {
    depths(t);
    lengths(t);
    last_faults(t);
    short_buffers(t);
    ranges(t);
    letters(t);
    strange_texts(t);
    broken_rules(t);
    many_stars(t);
    wide_moves(t);
}
