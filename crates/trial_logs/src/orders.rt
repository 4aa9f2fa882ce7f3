// Same and first order against the listing.
use crate::listing::Listing;
use trial::answers::{Refused, is_refusal, is_told, is_verdict, of_compared};
use trial::calls::first_order_in;
use trial::cells::minus;
use trial::guarded::Guarded;
use trial::tally::{Call, Counted, Tally};

// The comparison says the verdict.
fn compared_right(k: usize, masks: &[u16], first: &[u8], second: &[u8], verdict: bool) -> bool {
    is_verdict(
        of_compared(comparison::same(k, masks, first, second)),
        verdict,
        0,
        0,
    )
}

// Compares two logs, both ways round: the same where the second is reachable from the first and the first from the second.
fn compare_pair(
    k: usize,
    masks: &[u16],
    first: &[u8],
    second: &[u8],
    forth: bool,
    back: bool,
    t: &mut Tally,
) {
    let verdict = forth & back;
    let right = compared_right(k, masks, first, second, verdict)
        & compared_right(k, masks, second, first, verdict);
    t.expect(Counted::Same, right);
    t.count(Counted::Pairs);
    t.count_if(Counted::OneWayPairs, forth != back);
    t.count_if(Counted::SamePairs, verdict);
}

// The first order in a buffer of `room` bytes; `order` is the earliest listed log.
fn compare_first(k: usize, masks: &[u16], log: &[u8], order: &[u8], room: usize, t: &mut Tally) {
    let mut buffer = Guarded::<u8, 32>::new(room);
    let answer = first_order_in(k, masks, log, &mut buffer);
    let right = is_told(answer, None, 0, 0) & buffer.holds(order);
    t.expect(Counted::First, right);
    t.count(Counted::FirstOrders);
    t.count_if(Counted::MovedFirstOrders, log != order);
}

// A buffer that is one byte too short: refused by 9.
fn refuse_first(k: usize, masks: &[u16], log: &[u8], t: &mut Tally) {
    if log.len() == 0 {
        return;
    }
    let mut buffer = Guarded::<u8, 32>::new(minus(log.len(), 1));
    let answer = first_order_in(k, masks, log, &mut buffer);
    let right = is_refusal(answer, Refused::by(9)) & buffer.stays();
    t.refused(Counted::First, right, Call::First, Some(9));
}

// Compares the first order of a log, and the log with all that are reachable from it.
pub fn compare_orders(k: usize, masks: &[u16], log: &[u8], room: usize, t: &mut Tally) {
    let listing = Listing::of(masks, log);
    let back = Listing::leading_to(masks, log);
    compare_first(k, masks, log, listing.row(listing.earliest()), room, t);
    for r in 0..listing.count() {
        let other = listing.row(r);
        compare_pair(k, masks, log, other, true, back.has(other), t);
    }
    refuse_first(k, masks, log, t);
}

// Compares a log with another one.
pub fn compare_with(k: usize, masks: &[u16], log: &[u8], other: &[u8], t: &mut Tally) {
    let forth = Listing::of(masks, log).has(other);
    let back = Listing::leading_to(masks, log).has(other);
    compare_pair(k, masks, log, other, forth, back, t);
}
