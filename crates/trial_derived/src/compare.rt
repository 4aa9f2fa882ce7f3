// One call against the listing: the verdict, P, looks and every record; the order is one of the listed logs that can be derived, whichever.
use crate::cases::Case;
use crate::derivations::{derived, derived_rows};
use crate::lent::Lent;
use trial::cells::{plus, times};
use trial::record_numbers::{BACKWARD, FORWARD, record_at, set_of};
use trial::tally::{Counter, Tally};
use trial_logs::judging::counts_right;
use trial_logs::listing::{Listing, one_way};
use trial_logs::place_keys::Keys;
use trial_logs::prefixes::{look_count, marks_of, prefix_count};

// Counters, in the order in which they are printed.
#[derive(Clone, Copy)]
pub enum Counted {
    Cases,
    OneWay,
    Accepted,
    Reachable,
    Derivable,
    Records,
    // Six counters in front of this, and the eight defects.
    Edges = 14,
    // Wrong comparisons.
    Verdict,
    Order,
    Table,
    Refusal,
    Edge,
}

impl Counter for Counted {
    fn place(self) -> usize {
        self as usize
    }
}

// Record r has the counts of its place among all prefixes, and no states.
fn record_right(masks: &[u16], log: &[u8], table: &[u32], r: usize, keys: &Keys) -> bool {
    let marks = marks_of(log, table, r);
    counts_right(masks, log, table, r, marks, keys)
        & (set_of(table, r, FORWARD) == 0)
        & (set_of(table, r, BACKWARD) == 0)
}

// The first `prefixes` records are those of all prefixes.
fn records_right(masks: &[u16], log: &[u8], table: &[u32], prefixes: usize) -> bool {
    let keys = Keys::of(masks, log);
    (0..prefixes).all(|r| record_right(masks, log, table, r, &keys)) && keys.count() == prefixes
}

// With verdict 0 the buffer is the guard; with verdict 1 a listed log that can be derived stands at the lent part's start.
fn order_right(case: &Case, listing: &Listing, verdict: bool, lent: &Lent) -> bool {
    if !verdict {
        return lent.order.stays();
    }
    let order = lent.order.first(case.events);
    lent.order.stays_behind(case.events) & listing.has(order) & derived(case.rules(), order)
}

// What the call must be lent, and `extra` more.
pub fn with_room(case: Case, extra: usize) -> Case {
    let mut c = case;
    let prefixes = prefix_count(case.masks(), case.log());
    c.room = plus(case.events, extra % 3);
    c.size = plus(record_at(prefixes), extra % 12);
    c.sets = plus(times(prefixes, prefixes), extra % 5);
    c
}

// The tables of a call that is not refused.
fn compare_table(case: &Case, lent: &Lent, prefixes: usize, t: &mut Tally) {
    let right = records_right(case.masks(), case.log(), lent.table.content(), prefixes)
        & lent.table.stays_behind(record_at(prefixes));
    t.expect(Counted::Table, lent.sets.stays_behind(case.sets));
    t.expect(Counted::Table, right);
}

// The answer and the order of a call that is not refused; a listing that did not fit has no rows and is wrong.
fn compare_answer(case: &Case, number: Option<u32>, lent: &Lent, prefixes: usize, t: &mut Tally) {
    let listing = Listing::of(case.masks(), case.log());
    let derivable = derived_rows(case.rules(), &listing);
    let verdict = 0 < derivable;
    let looks = look_count(case.masks(), case.log());
    let answered = (number == Some(0))
        & (0 < listing.count())
        & (lent.told == [0, verdict as u64, prefixes as u64, looks as u64]);
    t.expect(Counted::Verdict, answered);
    t.expect(Counted::Order, order_right(case, &listing, verdict, lent));
    t.count_many(Counted::Reachable, listing.count());
    t.count_many(Counted::Derivable, derivable);
    t.count_if(Counted::Accepted, verdict);
}

// A call that is not refused, in lent buffers that are large enough.
pub fn compare_case(case: &Case, t: &mut Tally) {
    let mut lent = Lent::to(case);
    let number = lent.judge(case, case.log());
    let prefixes = prefix_count(case.masks(), case.log());
    t.count(Counted::Cases);
    t.count_many(Counted::Records, prefixes);
    t.count_if(Counted::OneWay, one_way(case.masks()));
    compare_table(case, &lent, prefixes, t);
    compare_answer(case, number, &lent, prefixes, t);
}
