// The swaps of an order by document 02's words: "The swaps of an order are the pairs of events standing the other way round than recorded." Events are numbered
// by their places in the log, so these are the pairs of numbers that fall. Logs here have at most eight events.
use trial::cells::{part_of, plus};

// The events before place i that were recorded after the one there.
fn swaps_at(order: &[u8], i: usize, event: u8) -> usize {
    part_of(order, 0, i).iter().filter(|x| event < **x).count()
}

// The swaps of an order of events.
pub fn swaps(order: &[u8]) -> usize {
    order
        .iter()
        .enumerate()
        .fold(0, |sum, (i, event)| plus(sum, swaps_at(order, i, *event)))
}

// Puts events behind the first `at`.
pub fn put_behind(events: &[u8], at: usize, order: &mut [u8]) {
    for (x, event) in order.iter_mut().skip(at).zip(events) {
        *x = *event;
    }
}
