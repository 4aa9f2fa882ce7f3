// A view against the lists: the verdict, the earliest visible part, P, looks, every record, what stays, and that nothing else of the log is told.
use crate::lent::view_in;
use crate::lists::{View, put_visible};
use profile::Profile;
use trial::answers::{Answer, Refused, is_refusal, is_verdict, verdict_of};
use trial::calls::judge_in;
use trial::cells::{part_of, value_at};
use trial::guarded::Guarded;
use trial::record_numbers::{BACKWARD, FORWARD, RECORD, record_at, set_of};
use trial::tally::{Counter, Tally};
use trial_logs::judging::{counts_right, order_right, orders_of};
use trial_logs::listing::Listing;
use trial_logs::place_keys::Keys;
use trial_logs::prefixes::{look_count, marks_of, prefix_count};

// The buffers of a view.
pub type Order = Guarded<u8, 32>;

pub type Table = Guarded<u32, 1416>;

// Counters, in the order in which they are printed.
#[derive(Clone, Copy)]
pub enum Counted {
    Views,
    Hiding,
    Accepted,
    NotSoJudged,
    Records,
    Short,
    Full,
    Secrets,
    Judges,
    Edges,
    // Wrong comparisons.
    Answer,
    Table,
    Refusal,
    Secret,
    Judge,
    Edge,
}

impl Counter for Counted {
    fn place(self) -> usize {
        self as usize
    }
}

// The mask as the call gets it.
pub fn mask_of(visible: usize) -> u32 {
    (visible % 4294967296) as u32
}

// The sets of record r, whose marked events are `marks`.
fn sets_right(view: &View, seen: &[u8], table: &[u32], r: usize, marks: usize) -> bool {
    let front = orders_of(view.profile.masks, seen, marks, true);
    let back = orders_of(view.profile.masks, seen, marks, false);
    (set_of(table, r, FORWARD) == view.led(&front))
        & (set_of(table, r, BACKWARD) == view.leading(&back))
}

fn record_right(view: &View, seen: &[u8], table: &[u32], r: usize, keys: &Keys) -> bool {
    let marks = marks_of(seen, table, r);
    counts_right(view.profile.masks, seen, table, r, marks, keys)
        && sets_right(view, seen, table, r, marks)
}

// The records of all prefixes of the visible part, and nothing behind them.
fn table_right(view: &View, seen: &[u8], table: &Table, prefixes: usize) -> bool {
    let keys = Keys::of(view.profile.masks, seen);
    (keys.count() == prefixes) & table.stays_behind(record_at(prefixes))
        && (0..prefixes).all(|r| record_right(view, seen, table.content(), r, &keys))
}

// The answer, and the order that comes with it.
fn answer_right(
    masks: &[u16],
    seen: &[u8],
    order: Option<&[u8]>,
    answer: Answer,
    buffer: &Order,
) -> bool {
    let prefixes = prefix_count(masks, seen);
    let looks = look_count(masks, seen);
    is_verdict(answer, order.is_some(), prefixes, looks) & order_right(buffer, order)
}

// The visible part with some order is rarely that of a log which the judge accepts: the judge's answer for the visible part itself.
fn judged(profile: &Profile, seen: &[u8]) -> Option<bool> {
    let mut order = Order::new(8);
    let mut table = Table::new(1400);
    verdict_of(judge_in(profile, seen, &mut order, &mut table))
}

// A view that is answered.
fn compare_answer(
    view: &View,
    seen: &[u8],
    answer: Answer,
    buffer: &Order,
    table: &Table,
    t: &mut Tally,
) {
    let masks = view.profile.masks;
    let best = view.earliest_shown(&Listing::of(masks, seen));
    let found = best.is_some();
    let letters = best.unwrap_or([0; 8]);
    let order = if found {
        Some(part_of(&letters, 0, seen.len()))
    } else {
        None
    };
    let prefixes = prefix_count(masks, seen);
    t.expect(
        Counted::Answer,
        answer_right(masks, seen, order, answer, buffer),
    );
    t.expect(Counted::Table, table_right(view, seen, table, prefixes));
    t.count_many(Counted::Records, prefixes);
    t.count_if(Counted::Accepted, found);
    t.count_if(
        Counted::NotSoJudged,
        judged(view.profile, seen) != Some(found),
    );
}

// After 10 the usable part is 0, and the rest stays.
pub fn is_cleared(order: &Order, table: &Table) -> bool {
    let usable = record_at(table.size() / RECORD);
    order.stays()
        & table.stays_behind(usable)
        & (0..usable).all(|i| value_at(table.content(), i) == 0)
}

// A view in an order buffer of `room` bytes and a table of `size` numbers, which are enough or not.
pub fn compare_view(view: &View, log: &[u8], room: usize, size: usize, t: &mut Tally) {
    let mut part = [0u8; 8];
    let mut order = Order::new(room);
    let mut table = Table::new(size);
    let n = put_visible(view.visible, log, &mut part);
    let seen = part_of(&part, 0, n);
    let answer = view_in(
        view.profile,
        mask_of(view.visible),
        log,
        &mut order,
        &mut table,
    );
    t.count(Counted::Views);
    t.count_if(Counted::Hiding, n != log.len());
    if room < n {
        let right = is_refusal(answer, Refused::by(9)) & order.stays() & table.stays();
        t.expect(Counted::Refusal, right);
        t.count(Counted::Short);
        return;
    }
    if size < record_at(prefix_count(view.profile.masks, seen)) {
        let right = is_refusal(answer, Refused::by(10)) & is_cleared(&order, &table);
        t.expect(Counted::Refusal, right);
        t.count(Counted::Full);
        return;
    }
    compare_answer(view, seen, answer, &order, &table, t);
}

// Two logs with the same visible part, lent the same buffers: equal answers and equal buffers, refused or not.
pub fn compare_secret(
    view: &View,
    log: &[u8],
    other: &[u8],
    room: usize,
    size: usize,
    t: &mut Tally,
) {
    let mut first = Order::new(room);
    let mut second = Order::new(room);
    let mut table = Table::new(size);
    let mut others = Table::new(size);
    let visible = mask_of(view.visible);
    let one = view_in(view.profile, visible, log, &mut first, &mut table);
    let two = view_in(view.profile, visible, other, &mut second, &mut others);
    let right = one.is_some() & (one == two) & (first == second) & (table == others);
    t.expect(Counted::Secret, right);
    t.count(Counted::Secrets);
}

// With all letters visible: the judge's answer, order and table.
pub fn compare_judge(profile: &Profile, log: &[u8], visible: u32, room: usize, t: &mut Tally) {
    let mut first = Order::new(room);
    let mut second = Order::new(room);
    let mut table = Table::new(1400);
    let mut others = Table::new(1400);
    let one = view_in(profile, visible, log, &mut first, &mut table);
    let two = judge_in(profile, log, &mut second, &mut others);
    let right = one.is_some() & (one == two) & (first == second) & (table == others);
    t.expect(Counted::Judge, right);
    t.count(Counted::Judges);
}
