// Random longer texts, with logs that are made for them and logs at random.
#![tactic(auto)]

mod typing;

use crate::typing::put_text;
use profile::Profile;
use trial::answers::Refused;
use trial::cells::{byte, copy, part_of, plus, put, times};
use trial::guarded::Guarded;
use trial::random::{below, put_log, seed_of};
use trial::tally::Tally;
use trial_courses::answers::{make_in, profile_in};
use trial_courses::compare::{refuse, verdict_of};
use trial_courses::counters;
use trial_courses::counters::Counted;
use trial_courses::moves::compare_moves;
use trial_grammar::grammar::{is_right, place_of};
use trial_grammar::meanings::{Around, Members, describes};
use trial_grammar::parts::CELLS;
use trial_grammar::words::{letter_at, letter_count};

// Compares the verdict on one log, with nothing independent.
fn compare_log(text: &[u8], profile: &Profile, log: &[u8], table: &mut [usize], t: &mut Tally) {
    let k = profile.shape.k;
    let described = describes(Members::Letters, k, text, log, Around::Alone, table);
    let verdict = verdict_of(profile, log);
    counters::judged(
        Counted::RandomLogs,
        Counted::DescribedRandomLogs,
        described,
        verdict,
        t,
    );
}

// Letter i of the log is the letter typed at a random place, where some described log begins so; whether one of six did.
fn grow(seed: usize, k: usize, text: &[u8], i: usize, log: &mut [u8], table: &mut [usize]) -> bool {
    for x in 0..6 {
        let Some(a) = letter_at(k, text, below(seed, x, text.len())) else {
            continue;
        };
        put(log, i, byte(a));
        if describes(
            Members::Letters,
            k,
            text,
            part_of(log, 0, plus(i, 1)),
            Around::Begins,
            table,
        ) {
            return true;
        }
    }
    false
}

// The log is long enough and described.
fn is_grown(
    k: usize,
    text: &[u8],
    least: usize,
    i: usize,
    log: &[u8],
    table: &mut [usize],
) -> bool {
    if i < least {
        return false;
    }
    describes(
        Members::Letters,
        k,
        text,
        part_of(log, 0, i),
        Around::Alone,
        table,
    )
}

// Writes a log that begins as a described one, letter by letter, and tells its length: `least` or more, where it is described, if that is found.
fn put_grown(
    seed: usize,
    k: usize,
    text: &[u8],
    least: usize,
    log: &mut [u8],
    table: &mut [usize],
) -> usize {
    for i in 0..7 {
        if is_grown(k, text, least, i, log, table) {
            return i;
        }
        if !grow(seed_of(seed, i), k, text, i, log, table) {
            return i;
        }
    }
    7
}

// The log with another letter.
fn compare_near(
    seed: usize,
    text: &[u8],
    profile: &Profile,
    log: &[u8],
    table: &mut [usize],
    t: &mut Tally,
) {
    let mut near = [0u8; 8];
    copy(log, &mut near);
    put(
        &mut near,
        below(seed, 21, log.len()),
        byte(below(seed, 22, profile.shape.k)),
    );
    compare_log(text, profile, part_of(&near, 0, log.len()), table, t);
}

// A log made for the text, and one near it.
fn compare_grown(seed: usize, text: &[u8], profile: &Profile, table: &mut [usize], t: &mut Tally) {
    let mut letters = [0u8; 8];
    let least = below(seed, 20, 6);
    let n = put_grown(seed, profile.shape.k, text, least, &mut letters, table);
    let log = part_of(&letters, 0, n);
    compare_log(text, profile, log, table, t);
    compare_near(seed, text, profile, log, table, t);
}

// A log at random.
fn compare_any(seed: usize, text: &[u8], profile: &Profile, table: &mut [usize], t: &mut Tally) {
    let mut letters = [0u8; 8];
    let n = below(seed, 23, 8);
    put_log(seed, profile.shape.k, n, &mut letters);
    compare_log(text, profile, part_of(&letters, 0, n), table, t);
}

// The moves of a text with few letters, as the lists to ask for grow with their square; and logs.
fn compare_profile(
    seed: usize,
    text: &[u8],
    profile: &Profile,
    table: &mut [usize],
    t: &mut Tally,
) {
    compare_any(seed, text, profile, table, t);
    compare_grown(seed, text, profile, table, t);
    if profile.shape.s <= 8 {
        compare_moves(profile.shape.k, text, profile, table, t);
    }
}

// A right text with the letters of a profile of s states.
fn compare_right(seed: usize, k: usize, text: &[u8], s: usize, table: &mut [usize], t: &mut Tally) {
    let mut moves = Guarded::<u32, 528>::new(plus(times(k, s), below(seed, 30, 8)));
    let made = make_in(k, text, &mut moves);
    t.count(Counted::RandomRight);
    let Some(shape) = profile_in(made, k, s, &moves) else {
        t.count(Counted::Profile);
        return;
    };
    let profile = Profile {
        shape,
        masks: part_of(&[0u16; 16], 0, k),
        moves: moves.first(times(k, s)),
    };
    compare_profile(seed, text, &profile, table, t);
}

fn compare_text(seed: usize, k: usize, text: &[u8], table: &mut [usize], t: &mut Tally) {
    t.count(Counted::Random);
    if !is_right(k, text) {
        let expected = Refused::at(11, place_of(k, text));
        refuse(k, text, below(seed, 31, 50), expected, Counted::Refusal, t);
        return;
    }
    let n = letter_count(k, text);
    if 31 < n {
        refuse(k, text, 0, Refused::by(13), Counted::Refusal, t);
        return;
    }
    compare_right(seed, k, text, plus(n, 1), table, t);
}

// A text over 1 to 4 letters, or 16.
fn random_text(seed: usize, table: &mut [usize], t: &mut Tally) {
    let mut text = [0u8; 64];
    let x = plus(1, below(seed, 40, 5));
    let k = if x == 5 { 16 } else { x };
    let n = put_text(seed, k, &mut text);
    compare_text(seed, k, part_of(&text, 0, n), table, t);
}

pub fn random_texts(seed: usize, many: usize, t: &mut Tally) {
    let mut table = [0usize; CELLS];
    for i in 0..many {
        random_text(seed_of(seed, i), &mut table, t);
    }
}
