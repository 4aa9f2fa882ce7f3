// The judge with terms against the listing: the verdict, the earliest accepted listed log, P, looks, every record, and the numbers and bytes that stay.
use crate::exchanges::{Events, some_fall, some_turn};
use crate::lent::judge_terms_in;
use crate::met::Met;
use profile::{Calendar, Profile};
use trial::answers::{Refused, is_refusal, is_unchanged, is_verdict};
use trial::calls::judge_in;
use trial::cells::{eight, minus, part_of, plus, wide};
use trial::guarded::Guarded;
use trial::record_numbers::{BACKWARD, FORWARD, record_at, set_of, total_of};
use trial::tally::Tally;
use trial_logs::judging::{order_right, orders_of};
use trial_logs::listing::{Listing, one_way};
use trial_logs::paths::{backward, earliest_accepted, forward};
use trial_logs::place_keys::{Keys, key_of};
use trial_logs::prefixes::{closed, look_count, marks_of, prefix_count};

// The orders of the events that are marked, or of those that are not, as letters.
fn words_of(events: &Events, log: &[u8], marks: usize, marked: bool) -> Listing {
    orders_of(events.masks(), events.places(), marks, marked).spelled(log)
}

// Record r counts its marked events and no others, and stands in the place that they have among all prefixes by their keys.
fn counts_right(
    events: &Events,
    log: &[u8],
    table: &[u32],
    r: usize,
    marks: usize,
    keys: &Keys,
) -> bool {
    (total_of(table, r) == wide(u64::count_ones(marks as u64)))
        & closed(events.masks(), events.places(), marks)
        & (keys.place_of(key_of(log, marks)) == r)
}

// The sets of record r.
fn sets_right(
    profile: &Profile,
    events: &Events,
    log: &[u8],
    table: &[u32],
    r: usize,
    marks: usize,
) -> bool {
    (set_of(table, r, FORWARD) == forward(profile, &words_of(events, log, marks, true)))
        & (set_of(table, r, BACKWARD) == backward(profile, &words_of(events, log, marks, false)))
}

fn record_right(
    profile: &Profile,
    events: &Events,
    log: &[u8],
    table: &[u32],
    r: usize,
    keys: &Keys,
) -> bool {
    let marks = marks_of(log, table, r);
    counts_right(events, log, table, r, marks, keys)
        && sets_right(profile, events, log, table, r, marks)
}

// The records of all prefixes, and nothing else, stand in the table.
fn table_right(
    profile: &Profile,
    events: &Events,
    log: &[u8],
    table: &Guarded<u32, 1416>,
    prefixes: usize,
) -> bool {
    let keys = Keys::of_events(events.masks(), events.places(), log);
    (keys.count() == prefixes) & table.stays_behind(record_at(prefixes))
        && (0..prefixes).all(|r| record_right(profile, events, log, table.content(), r, &keys))
}

// What a log with terms is to get by the listing: the earliest accepted log, if there is one, and how many are listed.
#[derive(Clone, Copy)]
struct Expected {
    order: Option<[u8; 8]>,
    prefixes: usize,
    looks: usize,
    count: usize,
}

fn expect_log(profile: &Profile, events: &Events, log: &[u8]) -> Expected {
    let words = Listing::of(events.masks(), events.places()).spelled(log);
    Expected {
        order: earliest_accepted(profile, &words).map(|r| eight(words.row(r))),
        prefixes: prefix_count(events.masks(), events.places()),
        looks: look_count(events.masks(), events.places()),
        count: words.count(),
    }
}

// Counts a judged log; a listing that did not fit has no rows and is wrong.
fn count_judged(right: bool, expected: &Expected, t: &mut Tally) {
    t.count(Met::Logs);
    t.expect(Met::Judge, right & (0 < expected.count));
    t.count_if(Met::Accepted, expected.order.is_some());
    t.count_many(Met::Reachable, expected.count);
    t.count_many(Met::Records, expected.prefixes);
}

// Judges a log into an order buffer and a table that are large enough.
fn compare_judge(
    profile: &Profile,
    log: &[u8],
    calendar: &Calendar,
    events: &Events,
    expected: &Expected,
    extra: usize,
    t: &mut Tally,
) {
    let mut buffer = Guarded::<u8, 32>::new(plus(log.len(), extra % 4));
    let size = plus(record_at(expected.prefixes), extra % 21);
    let mut table = Guarded::<u32, 1416>::new(size);
    let answer = judge_terms_in(profile, log, calendar, &mut buffer, &mut table);
    let verdict = expected.order.is_some();
    let order = expected.order.unwrap_or([0; 8]);
    let written = if verdict {
        Some(part_of(&order, 0, log.len()))
    } else {
        None
    };
    let right = is_verdict(answer, verdict, expected.prefixes, expected.looks)
        & order_right(&buffer, written)
        & table_right(profile, events, log, &table, expected.prefixes);
    count_judged(right, expected, t);
}

// Judges a log with buffers of which one is too short: refused by the number, which is 9 or 10.
fn refuse(
    profile: &Profile,
    log: &[u8],
    calendar: &Calendar,
    number: usize,
    room: usize,
    size: usize,
    t: &mut Tally,
) {
    let mut buffer = Guarded::<u8, 32>::new(room);
    let mut table = Guarded::<u32, 1416>::new(size);
    let answer = judge_terms_in(profile, log, calendar, &mut buffer, &mut table);
    let right = is_refusal(answer, Refused::by(number)) & is_unchanged(number, &buffer, &table);
    t.expect(Met::Buffer, right);
    t.count_either(number == 9, Met::ShortOrders, Met::ShortTables);
}

// An order buffer that is one byte short, also where the table is too short; a table that is short by up to eleven numbers.
fn compare_short(
    profile: &Profile,
    log: &[u8],
    calendar: &Calendar,
    prefixes: usize,
    extra: usize,
    t: &mut Tally,
) {
    let n = log.len();
    let short = minus(record_at(prefixes), plus(extra % 11, 1));
    refuse(profile, log, calendar, 10, n, short, t);
    if n == 0 {
        return;
    }
    let size = if extra % 2 == 0 { short } else { 1300 };
    refuse(profile, log, calendar, 9, n - 1, size, t);
}

// Counts what the log is: what the judge without terms says of it is compared in `trial_logs`.
fn count_kind(
    profile: &Profile,
    log: &[u8],
    calendar: &Calendar,
    expected: &Expected,
    t: &mut Tally,
) {
    let mut buffer = Guarded::<u8, 32>::new(8);
    let mut table = Guarded::<u32, 1416>::new(1400);
    let plain = judge_in(profile, log, &mut buffer, &mut table);
    t.count_if(Met::OneWay, one_way(profile.masks));
    t.count_if(Met::Turns, some_turn(calendar));
    t.count_if(Met::Falls, some_fall(calendar.days));
    let Some(Ok(told)) = plain else {
        t.count(Met::Judge);
        return;
    };
    t.count_if(Met::Fewer, expected.prefixes < told.prefixes);
    t.count_if(
        Met::OtherVerdict,
        told.verdict != Some(expected.order.is_some()),
    );
    t.count_if(Met::Twelve, calendar.terms.len() == 24);
}

// Compares the judge with terms on one log; `extra` varies how much longer or shorter than needed the lent buffers are.
pub fn compare_dated(
    profile: &Profile,
    log: &[u8],
    calendar: &Calendar,
    extra: usize,
    t: &mut Tally,
) {
    let events = Events::of(profile.masks, log, calendar);
    let expected = expect_log(profile, &events, log);
    compare_judge(profile, log, calendar, &events, &expected, extra, t);
    compare_short(profile, log, calendar, expected.prefixes, extra, t);
    count_kind(profile, log, calendar, &expected, t);
}

// One term that has every day there is: the judge without terms gives the same answer, order and table, byte by byte, with a table of `size` numbers.
pub fn compare_one_term(profile: &Profile, log: &[u8], days: &[u32], size: usize, t: &mut Tally) {
    let mut buffer = Guarded::<u8, 32>::new(8);
    let mut table = Guarded::<u32, 1416>::new(size);
    let mut plain_buffer = Guarded::<u8, 32>::new(8);
    let mut plain_table = Guarded::<u32, 1416>::new(size);
    let all = [19000101u32, 21991231];
    let calendar = Calendar { days, terms: &all };
    let with = judge_terms_in(profile, log, &calendar, &mut buffer, &mut table);
    let plain = judge_in(profile, log, &mut plain_buffer, &mut plain_table);
    let right = with.is_some()
        & (with == plain)
        & (buffer == plain_buffer)
        & (table == plain_table);
    t.expect(Met::SameAsJudge, right);
    t.count(Met::OneTerm);
}
