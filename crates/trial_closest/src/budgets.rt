// One log, with terms or without, with every budget from 0 to one more than all pairs, and some of more than 32 bits: the order, its swaps, the floor, P, looks,
// the table, and what stays; and with buffers that are too short.
use crate::expected::{Expected, expect};
use crate::lent::{Asked, Dated, Lent, ask};
use crate::met::Met;
use profile::Profile;
use trial::answers::{Answer, Refused, is_verdict};
use trial::calls::judge_in;
use trial::cells::{minus, plus, times};
use trial::guarded::Guarded;
use trial::record_numbers::record_at;
use trial::tally::{Counter, Tally};
use trial_logs::listing::one_way;
use trial_logs::prefixes::prefix_count;
use trial_terms::exchanges::{Events, some_fall, some_turn};
use trial_terms::lent::judge_terms_in;

// The sizes of the order buffer, the work table and the cost table.
#[derive(Clone, Copy)]
struct Sizes {
    room: usize,
    size: usize,
    costs: usize,
}

impl Sizes {
    fn lent(&self) -> Lent<32, 1416, 600> {
        Lent {
            order: Guarded::new(self.room),
            table: Guarded::new(self.size),
            costs: Guarded::new(self.costs),
        }
    }
}

// The order at the start of the lent part, and nothing else; with verdict 0 nothing.
fn order_right(buffer: &Guarded<u8, 32>, expected: &Expected, budget: u64, n: usize) -> bool {
    match expected.order(budget) {
        Some(order) => buffer.holds(order.word(n)),
        None => buffer.stays(),
    }
}

// Counts a budget by its floor.
fn count_floor(expected: &Expected, budget: u64, t: &mut Tally) {
    t.count(Met::Budgets);
    if let Some(orders) = expected.orders {
        if expected.is_covered(budget) {
            t.count(Met::Covering);
        } else {
            let floor = expected.floor(budget).unwrap_or(0);
            t.count_if(Met::Floors, 0 < floor);
            t.count_if(Met::LowFloors, (0 < floor) & (floor < orders.closest.swaps));
        }
    }
}

// The same with another budget.
fn with_budget(asked: &Asked, budget: u64) -> Asked {
    let mut other = *asked;
    other.budget = budget;
    other
}

// One budget; `judged` is the table as the judge left it, in as many numbers.
fn compare_budget(
    profile: &Profile,
    log: &[u8],
    asked: &Asked,
    sizes: &Sizes,
    expected: &Expected,
    judged: &Guarded<u32, 1416>,
    t: &mut Tally,
) {
    let mut lent = sizes.lent();
    let answer = ask(profile, log, asked, &mut lent);
    let right = (answer == Some(Ok(expected.told(asked.budget))))
        & order_right(&lent.order, expected, asked.budget, log.len())
        & (lent.table == *judged)
        & lent.costs.stays_behind(sizes.costs);
    t.expect(Met::Budget, right);
    count_floor(expected, asked.budget, t);
}

// Every budget from 0 to one more than all pairs, and budgets of more than 32 bits, which cover all pairs; the low bits of the first are 0.
fn compare_budgets(
    profile: &Profile,
    log: &[u8],
    asked: &Asked,
    sizes: &Sizes,
    expected: &Expected,
    judged: &Guarded<u32, 1416>,
    t: &mut Tally,
) {
    for budget in 0..plus(expected.ranks.pairs(), 2) {
        compare_budget(
            profile,
            log,
            &with_budget(asked, budget as u64),
            sizes,
            expected,
            judged,
            t,
        );
    }
    for budget in [4294967296u64, 9223372036854775808, 18446744073709551615].iter() {
        compare_budget(
            profile,
            log,
            &with_budget(asked, *budget),
            sizes,
            expected,
            judged,
            t,
        );
    }
}

// Counts what days and terms are, and whether they leave fewer prefixes.
fn count_dated(masks: &[u16], log: &[u8], dated: &Dated, prefixes: usize, t: &mut Tally) {
    let calendar = dated.calendar(log.len());
    t.count_if(Met::Turns, some_turn(&calendar));
    t.count_if(Met::Falls, some_fall(calendar.days));
    t.count_if(Met::Fewer, prefixes < prefix_count(masks, log));
}

// Counts what the log is; a listing that did not fit has no rows and is wrong.
fn count_log(masks: &[u16], log: &[u8], expected: &Expected, t: &mut Tally) {
    t.count(Met::Logs);
    t.expect(Met::Listing, 0 < expected.count);
    t.count_if(Met::OneWay, one_way(masks));
    t.count_many(Met::Pairs, expected.ranks.pairs());
    if let Some(orders) = expected.orders {
        t.count(Met::Accepted);
        t.count_if(Met::OtherOrder, orders.differ(log.len()));
        t.count_if(Met::Swapped, 0 < orders.closest.swaps);
    }
}

// The judge with the same terms, or without.
fn judge_too(
    profile: &Profile,
    log: &[u8],
    asked: &Asked,
    order: &mut Guarded<u8, 32>,
    table: &mut Guarded<u32, 1416>,
) -> Answer {
    match asked.dated {
        Some(dated) => {
            let calendar = dated.calendar(log.len());
            judge_terms_in(profile, log, &calendar, order, table)
        }
        None => judge_in(profile, log, order, table),
    }
}

// The judge's own answer and table, and with the same table all budgets.
fn compare_answers(
    profile: &Profile,
    log: &[u8],
    asked: &Asked,
    sizes: &Sizes,
    expected: &Expected,
    t: &mut Tally,
) {
    let mut order = Guarded::<u8, 32>::new(sizes.room);
    let mut judged = Guarded::<u32, 1416>::new(sizes.size);
    let answer = judge_too(profile, log, asked, &mut order, &mut judged);
    let right = is_verdict(
        answer,
        expected.verdict(),
        expected.prefixes,
        expected.looks,
    );
    if let Some(dated) = asked.dated {
        count_dated(profile.masks, log, &dated, expected.prefixes, t);
    }
    count_log(profile.masks, log, expected, t);
    t.expect(Met::Judge, right);
    compare_budgets(profile, log, asked, sizes, expected, &judged, t);
}

// A call with a buffer that is too short: refused by the number, which is 9, 10 or 17. The order buffer and the cost table stay, and after 9 the work table.
fn refuse(
    profile: &Profile,
    log: &[u8],
    asked: &Asked,
    sizes: Sizes,
    number: usize,
    which: impl Counter,
    t: &mut Tally,
) {
    let mut lent = sizes.lent();
    let answer = ask(profile, log, asked, &mut lent);
    let free = if number == 9 { 0 } else { sizes.size };
    let right = (answer == Some(Err(Refused::by(number))))
        & lent.order.stays()
        & lent.table.stays_behind(free)
        & lent.costs.stays();
    t.expect(Met::Buffer, right);
    t.count(which);
}

// A cost table that is short by one number or more, a work table that is, also with short costs, and an order buffer that is, also with short tables.
fn compare_short(
    profile: &Profile,
    log: &[u8],
    asked: &Asked,
    sizes: &Sizes,
    expected: &Expected,
    extra: usize,
    t: &mut Tally,
) {
    let needed = times(expected.prefixes, profile.shape.s);
    let few_costs = minus(needed, plus(extra % 3, 1));
    let few_numbers = minus(record_at(expected.prefixes), plus(extra % 11, 1));
    let mut short = *sizes;
    short.costs = few_costs;
    refuse(profile, log, asked, short, 17, Met::ShortCosts, t);
    short.costs = if extra % 2 == 0 { needed } else { few_costs };
    short.size = few_numbers;
    refuse(profile, log, asked, short, 10, Met::ShortTables, t);
    if log.len() == 0 {
        return;
    }
    if extra % 5 < 3 {
        short.size = sizes.size;
    }
    short.room = minus(log.len(), 1);
    refuse(profile, log, asked, short, 9, Met::ShortOrders, t);
}

// Without terms no day is in one, so that no two events are in different ones.
fn events_of(masks: &[u16], log: &[u8], dated: Option<Dated>) -> Events {
    let none = Dated {
        days: [0; 8],
        terms: [0; 24],
        numbers: 0,
    };
    let days = dated.unwrap_or(none);
    Events::of(masks, log, &days.calendar(log.len()))
}

// Compares all that is said of one log; `extra` varies how much longer or shorter than needed the lent buffers are.
pub fn compare_log(
    profile: &Profile,
    log: &[u8],
    dated: Option<Dated>,
    extra: usize,
    t: &mut Tally,
) {
    let events = events_of(profile.masks, log, dated);
    let expected = expect(profile, &events, log);
    let sizes = Sizes {
        room: plus(log.len(), extra % 4),
        size: plus(record_at(expected.prefixes), extra % 21),
        costs: plus(times(expected.prefixes, profile.shape.s), extra % 7),
    };
    let asked = Asked {
        dated,
        budget: (extra % 50) as u64,
    };
    compare_answers(profile, log, &asked, &sizes, &expected, t);
    compare_short(profile, log, &asked, &sizes, &expected, extra, t);
}
