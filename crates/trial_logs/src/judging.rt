// Build and judge against the listing: the verdict, the earliest accepted listed log, P, looks, every record, and the numbers and bytes that stay.
use crate::listing::Listing;
use crate::paths::{backward, earliest_accepted, forward};
use crate::place_keys::{Keys, key_of};
use crate::prefixes::{closed, look_count, marks_of, take_events};
use profile::Profile;
use trial::answers::{Answer, Refused, is_refusal, is_told, is_unchanged};
use trial::calls::{build_in, judge_in};
use trial::cells::{part_of, wide};
use trial::guarded::Guarded;
use trial::record_numbers::{BACKWARD, FORWARD, record_at, set_of, total_of};
use trial::tally::{Call, Counted, Tally};

// The orders of the marked events, or of those that are not.
pub fn orders_of(masks: &[u16], log: &[u8], marks: usize, marked: bool) -> Listing {
    let mut word = [0u8; 8];
    let n = take_events(log, marks, marked, &mut word);
    Listing::of(masks, part_of(&word, 0, n))
}

// The states to which some order of the marked events leads from the start.
pub fn forward_of(profile: &Profile, log: &[u8], marks: usize) -> u32 {
    forward(profile, &orders_of(profile.masks, log, marks, true))
}

// The states from which some order of the unmarked events leads to a final state.
fn backward_of(profile: &Profile, log: &[u8], marks: usize) -> u32 {
    backward(profile, &orders_of(profile.masks, log, marks, false))
}

// Record r counts its marked events and no others, and stands in the place that they have among all prefixes by their keys.
pub fn counts_right(
    masks: &[u16],
    log: &[u8],
    table: &[u32],
    r: usize,
    marks: usize,
    keys: &Keys,
) -> bool {
    (total_of(table, r) == wide(u64::count_ones(marks as u64)))
        & closed(masks, log, marks)
        & (keys.place_of(key_of(log, marks)) == r)
}

// The sets of record r.
fn sets_right(profile: &Profile, log: &[u8], table: &[u32], r: usize, marks: usize) -> bool {
    (set_of(table, r, FORWARD) == forward_of(profile, log, marks))
        & (set_of(table, r, BACKWARD) == backward_of(profile, log, marks))
}

fn record_right(profile: &Profile, log: &[u8], table: &[u32], r: usize, keys: &Keys) -> bool {
    let marks = marks_of(log, table, r);
    counts_right(profile.masks, log, table, r, marks, keys)
        && sets_right(profile, log, table, r, marks)
}

// The first `prefixes` records, which are those of all prefixes.
fn records_right(profile: &Profile, log: &[u8], table: &[u32], prefixes: usize) -> bool {
    let keys = Keys::of(profile.masks, log);
    (keys.count() == prefixes) && (0..prefixes).all(|r| record_right(profile, log, table, r, &keys))
}

// The answer of a call that is not refused, the records, and the numbers that are not written.
fn table_right(
    profile: &Profile,
    log: &[u8],
    answer: Answer,
    verdict: Option<bool>,
    prefixes: usize,
    table: &Guarded<u32, 1416>,
) -> bool {
    is_told(answer, verdict, prefixes, look_count(profile.masks, log))
        & table.stays_behind(record_at(prefixes))
        & records_right(profile, log, table.content(), prefixes)
}

// Builds the table of a log in `size` numbers, in which its prefixes fit.
pub fn compare_build(profile: &Profile, log: &[u8], prefixes: usize, size: usize, t: &mut Tally) {
    let mut table = Guarded::<u32, 1416>::new(size);
    let answer = build_in(profile, log, &mut table);
    let right = table_right(profile, log, answer, None, prefixes, &table);
    t.count_many(Counted::Records, prefixes);
    t.expect(Counted::Table, right);
    t.count(Counted::Tables);
}

// Nothing is written but the expected order, at the lent part's start, if there is one.
pub fn order_right<const M: usize>(buffer: &Guarded<u8, M>, order: Option<&[u8]>) -> bool {
    match order {
        Some(letters) => buffer.holds(letters),
        None => buffer.stays(),
    }
}

// Counts a judged log; a listing that did not fit has no rows and is wrong.
fn count_judged(right: bool, verdict: bool, count: usize, t: &mut Tally) {
    t.expect(Counted::Judge, right & (0 < count));
    t.count(Counted::Logs);
    t.count_if(Counted::Accepted, verdict);
    t.count_many(Counted::Reachable, count);
}

// Judges a log into an order buffer of `room` bytes and a table of `size` numbers, which are enough.
pub fn compare_judge(
    profile: &Profile,
    log: &[u8],
    prefixes: usize,
    room: usize,
    size: usize,
    t: &mut Tally,
) {
    let mut buffer = Guarded::<u8, 32>::new(room);
    let mut table = Guarded::<u32, 1416>::new(size);
    let listing = Listing::of(profile.masks, log);
    let best = earliest_accepted(profile, &listing);
    let verdict = best.is_some();
    let answer = judge_in(profile, log, &mut buffer, &mut table);
    let right = table_right(profile, log, answer, Some(verdict), prefixes, &table)
        & order_right(&buffer, best.map(|r| listing.row(r)));
    count_judged(right, verdict, listing.count(), t);
}

// Builds in a table of `size` numbers, which is too short: refused by 10, and nothing past the table is written.
pub fn refuse_build(profile: &Profile, log: &[u8], size: usize, t: &mut Tally) {
    let mut table = Guarded::<u32, 1416>::new(size);
    let answer = build_in(profile, log, &mut table);
    let right = is_refusal(answer, Refused::by(10)) & table.stays_behind(size);
    t.count(Counted::FullTables);
    t.refused(Counted::Table, right, Call::Build, Some(10));
}

// Judges a log with buffers of which one is too short: refused by the number.
pub fn refuse_judge(
    profile: &Profile,
    log: &[u8],
    number: usize,
    room: usize,
    size: usize,
    t: &mut Tally,
) {
    let mut buffer = Guarded::<u8, 32>::new(room);
    let mut table = Guarded::<u32, 1416>::new(size);
    let answer = judge_in(profile, log, &mut buffer, &mut table);
    let right = is_refusal(answer, Refused::by(number)) & is_unchanged(number, &buffer, &table);
    t.refused(Counted::Judge, right, Call::Judge, Some(number));
}
