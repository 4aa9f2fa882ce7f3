// What a log is to get, by the listing of all reachable logs; with terms, of those that exchanges within terms reach.
use crate::lent::Told;
use crate::order_swaps::swaps;
use crate::ranks::Ranks;
use profile::Profile;
use trial::cells::{eight, part_of};
use trial_logs::listing::{Listing, earlier};
use trial_logs::paths::{accepts, earliest_accepted};
use trial_logs::prefixes::{look_count, prefix_count};
use trial_terms::exchanges::Events;

// An order and its swaps.
#[derive(Clone, Copy)]
pub struct Order {
    letters: [u8; 8],
    pub swaps: usize,
}

impl Order {
    // That of row r, as events and as letters.
    fn listed(rows: &Listing, words: &Listing, r: usize) -> Self {
        let letters = eight(words.row(r));
        let swaps = swaps(rows.row(r));
        Order { letters, swaps }
    }

    // Its first n letters.
    pub fn word(&self, n: usize) -> &[u8] {
        part_of(&self.letters, 0, n)
    }
}

// The judge's order, and the closest, whose swaps are the fewest.
#[derive(Clone, Copy)]
pub struct Orders {
    pub judged: Order,
    pub closest: Order,
}

// A listing that did not fit has count 0.
#[derive(Clone, Copy)]
pub struct Expected {
    pub prefixes: usize,
    pub looks: usize,
    pub count: usize,
    pub orders: Option<Orders>,
    pub ranks: Ranks,
}

// Row r has fewer swaps than the best, or as many and is earlier in letter order, or nothing was found yet.
fn closer(rows: &Listing, words: &Listing, best: Option<usize>, r: usize) -> bool {
    let Some(s) = best else {
        return true;
    };
    let few = swaps(rows.row(r));
    let many = swaps(rows.row(s));
    (few < many) | ((few == many) & earlier(words.row(r), words.row(s)))
}

// The row of the accepted log with the fewest swaps, of several the earliest.
fn closest_accepted(profile: &Profile, rows: &Listing, words: &Listing) -> Option<usize> {
    let mut best = None;
    for r in 0..rows.count() {
        if accepts(profile, words.row(r)) && closer(rows, words, best, r) {
            best = Some(r);
        }
    }
    best
}

// By the listed orders of the log, as events and as letters.
fn orders_listed(profile: &Profile, rows: &Listing, words: &Listing) -> Option<Orders> {
    let first = earliest_accepted(profile, words)?;
    let best = closest_accepted(profile, rows, words)?;
    Some(Orders {
        judged: Order::listed(rows, words, first),
        closest: Order::listed(rows, words, best),
    })
}

// What a log is to get.
pub fn expect(profile: &Profile, events: &Events, log: &[u8]) -> Expected {
    let rows = Listing::of(events.masks(), events.places());
    let words = rows.spelled(log);
    Expected {
        prefixes: prefix_count(events.masks(), events.places()),
        looks: look_count(events.masks(), events.places()),
        count: rows.count(),
        orders: orders_listed(profile, &rows, &words),
        ranks: Ranks::of(profile, events, log),
    }
}

impl Expected {
    pub fn verdict(&self) -> bool {
        self.orders.is_some()
    }

    // "If B covers all pairs": there is no (B + 1)-th.
    pub fn is_covered(&self, budget: u64) -> bool {
        (self.ranks.pairs() as u64) <= budget
    }

    // What is told; with verdict 0 swaps and floor are 0.
    pub fn told(&self, budget: u64) -> Told {
        Told {
            verdict: self.verdict(),
            prefixes: self.prefixes,
            looks: self.looks,
            swaps: self.order(budget).map_or(0, |order| order.swaps),
            floor: self.floor(budget).unwrap_or(0),
        }
    }

    // "The floor is the smaller of the fewest swaps of any accepted order and the swaps of the (B + 1)-th pair so ranked, if there is one."
    pub fn floor(&self, budget: u64) -> Option<usize> {
        let fewest = self.orders?.closest.swaps;
        if self.is_covered(budget) {
            return Some(fewest);
        }
        match self.ranks.swaps_after(budget as usize) {
            Some(next) => Some(fewest.min(next)),
            None => Some(fewest),
        }
    }

    // "If B covers all pairs, the order has c = f and is the earliest such in letter order; otherwise it is the judge's."
    pub fn order(&self, budget: u64) -> Option<Order> {
        let orders = self.orders?;
        if self.is_covered(budget) {
            Some(orders.closest)
        } else {
            Some(orders.judged)
        }
    }
}

impl Orders {
    // The two orders differ in their first n letters.
    pub fn differ(&self, n: usize) -> bool {
        earlier(self.judged.word(n), self.closest.word(n))
    }
}
