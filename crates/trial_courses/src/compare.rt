// One text: refused as it should be, or the profile, its moves, and the judge's verdicts on logs.
use crate::answers::{is_refused, make_in, profile_in};
use crate::counters;
use crate::counters::Counted;
use crate::moves::compare_moves;
use profile::Profile;
use trial::answers;
use trial::answers::Refused;
use trial::calls::judge_in;
use trial::cells::{bit, minus, part_of, plus, times};
use trial::guarded::Guarded;
use trial::logs::put_log_number;
use trial::tally::{Counter, Tally};
use trial_grammar::grammar::{is_right, place_of};
use trial_grammar::meanings::described_logs;
use trial_grammar::parts::is_part;
use trial_grammar::words::{letter_count, one, when};

// Logs of up to four letters a and b.
const ALL: usize = 31;

// The judge's verdict.
pub fn verdict_of(profile: &Profile, log: &[u8]) -> Option<bool> {
    let mut order = Guarded::<u8, 16>::new(8);
    let mut table = Guarded::<u32, 136>::new(120);
    answers::verdict_of(judge_in(profile, log, &mut order, &mut table))
}

// Log numbers u and v have the same letters. A log's number and one more is, in binary, a one and then its letters, the last first.
fn same_letters(u: usize, v: usize) -> bool {
    let x = plus(u, 1) as u64;
    let y = plus(v, 1) as u64;
    (u64::count_ones(x) == u64::count_ones(y)) & (u64::leading_zeros(x) == u64::leading_zeros(y))
}

// The set of the arrangements of log number v.
fn arrangements(v: usize) -> usize {
    (0..ALL).fold(0, |all, u| all | when(same_letters(u, v), one(u)))
}

// Log number v has no b.
fn only_a(v: usize) -> bool {
    u64::count_ones(plus(v, 1) as u64) == 1
}

// The verdict is 1 with nothing independent exactly when the log is described.
fn compare_alone(profile: &Profile, log: &[u8], described: bool, t: &mut Tally) {
    let verdict = verdict_of(
        &Profile {
            shape: profile.shape,
            masks: part_of(&[0u16; 3], 0, profile.shape.k),
            moves: profile.moves,
        },
        log,
    );
    counters::judged(Counted::Logs, Counted::DescribedLogs, described, verdict, t);
}

// It is 1 with a and b independent exactly when an arrangement of the log is described.
fn compare_pair(profile: &Profile, log: &[u8], described: bool, t: &mut Tally) {
    let verdict = verdict_of(profile, log);
    counters::judged(
        Counted::PairLogs,
        Counted::DescribedPairLogs,
        described,
        verdict,
        t,
    );
}

// Log number v, where its letters are below k; `set` has the described logs.
fn compare_log(profile: &Profile, set: usize, v: usize, t: &mut Tally) {
    let mut letters = [0u8; 8];
    let n = put_log_number(2, v, &mut letters);
    let log = part_of(&letters, 0, n);
    let pair = 1 < profile.shape.k;
    if pair | only_a(v) {
        compare_alone(profile, log, bit(set, v), t);
    }
    if pair {
        compare_pair(profile, log, set & arrangements(v) != 0, t);
    }
}

// The call is refused by the number at the place, with `size` numbers lent.
pub fn refuse(
    k: usize,
    text: &[u8],
    size: usize,
    expected: Refused,
    group: impl Counter,
    t: &mut Tally,
) {
    let mut moves = Guarded::<u32, 64>::new(size);
    let made = make_in(k, text, &mut moves);
    let right = is_refused(made, expected, &moves);
    counters::refused(group, right, expected.number, t);
}

// A right text with the letters of a profile of s states, and one number too few.
fn refuse_short(k: usize, text: &[u8], s: usize, t: &mut Tally) {
    let less = minus(times(k, s), 1);
    refuse(k, text, less, Refused::by(9), Counted::Refusal, t);
}

// The profile made with `size` numbers lent, with a and b independent, its moves, and every log of up to four letters.
fn compare_made(k: usize, text: &[u8], s: usize, size: usize, table: &mut [usize], t: &mut Tally) {
    let mut moves = Guarded::<u32, 64>::new(size);
    let set = described_logs(k, text, table);
    let made = make_in(k, text, &mut moves);
    let Some(shape) = profile_in(made, k, s, &moves) else {
        t.count(Counted::Profile);
        return;
    };
    if !is_part(set) {
        t.count(Counted::Profile);
        return;
    }
    let profile = Profile {
        shape,
        masks: part_of(&[2u16, 1, 0], 0, k),
        moves: moves.first(times(k, s)),
    };
    for v in 0..ALL {
        compare_log(&profile, set, v, t);
    }
    compare_moves(k, text, &profile, table, t);
}

// A right text, with `extra` numbers too many, and with one too few.
fn compare_right(k: usize, text: &[u8], extra: usize, table: &mut [usize], t: &mut Tally) {
    let s = plus(letter_count(k, text), 1);
    t.count(Counted::Right);
    refuse_short(k, text, s, t);
    compare_made(k, text, s, plus(times(k, s), extra), table, t);
}

// A text of up to seven bytes; `extra` varies how many numbers too many are lent.
pub fn compare_text(k: usize, text: &[u8], extra: usize, table: &mut [usize], t: &mut Tally) {
    t.count(Counted::Texts);
    if is_right(k, text) {
        compare_right(k, text, extra % 4, table, t);
        return;
    }
    let expected = Refused::at(11, place_of(k, text));
    refuse(k, text, extra % 24, expected, Counted::Refusal, t);
}
