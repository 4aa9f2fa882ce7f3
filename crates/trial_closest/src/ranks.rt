// "Rank all pairs of a prefix and a state in its forward set by the fewest swaps with which that prefix, brought to the front, leads to that state": every
// order of every prefix, put before the other events as recorded, with its swaps. What an event taken costs is not used. Events are numbered by their places
// in the log, and each has a mask of the events that may pass it.
use crate::order_swaps::{put_behind, swaps};
use profile::Profile;
use trial::cells::{bit, copy, part_of, plus, wide};
use trial_logs::judging::orders_of;
use trial_logs::paths::led;
use trial_logs::prefixes::{is_prefix, take_events};
use trial_terms::exchanges::Events;

// For each state the fewest swaps with which a prefix leads to it.
#[derive(Clone, Copy)]
struct Fewest {
    states: [Option<usize>; 32],
}

impl Fewest {
    // With an order of so many swaps that leads to the states of the set.
    fn lower(&mut self, set: u32, many: usize) {
        for (q, fewest) in self.states.iter_mut().enumerate() {
            if bit(wide(set), q) & fewer(many, *fewest) {
                *fewest = Some(many);
            }
        }
    }
}

fn fewer(many: usize, fewest: Option<usize>) -> bool {
    match fewest {
        Some(n) => many < n,
        None => true,
    }
}

// How many pairs have so many swaps, and how many there are. No order of eight events has 32.
#[derive(Clone, Copy)]
pub struct Ranks {
    swaps: [usize; 32],
    pairs: usize,
}

impl Ranks {
    // All pairs, by trying every set of marks.
    pub fn of(profile: &Profile, events: &Events, log: &[u8]) -> Self {
        let mut ranks = Ranks {
            swaps: [0; 32],
            pairs: 0,
        };
        for marks in 0..256 {
            if is_prefix(events.masks(), events.places(), marks) {
                ranks.add_states(&fewest_of(profile, events, log, marks));
            }
        }
        ranks
    }

    pub fn pairs(&self) -> usize {
        self.pairs
    }

    // The swaps of the pair that stands after so many others.
    pub fn swaps_after(&self, before: usize) -> Option<usize> {
        let mut sum = 0;
        for (v, many) in self.swaps.iter().enumerate() {
            sum = plus(sum, *many);
            if before < sum {
                return Some(v);
            }
        }
        None
    }

    fn add_states(&mut self, fewest: &Fewest) {
        for many in fewest.states.iter() {
            if let Some(n) = *many {
                self.add_pair(n);
            }
        }
    }

    fn add_pair(&mut self, many: usize) {
        if let Some(x) = self.swaps.get_mut(many) {
            *x = plus(*x, 1);
        }
        self.pairs = plus(self.pairs, 1);
    }
}

// How many swaps an order of a prefix has; `rest` are the other events as recorded.
fn swaps_before(order: &[u8], rest: &[u8]) -> usize {
    let mut front = [0u8; 8];
    copy(order, &mut front);
    put_behind(rest, order.len(), &mut front);
    swaps(part_of(&front, 0, plus(order.len(), rest.len())))
}

// By every listed order of the marked events, as events and as letters.
fn fewest_of(profile: &Profile, events: &Events, log: &[u8], marks: usize) -> Fewest {
    let mut others = [0u8; 8];
    let orders = orders_of(events.masks(), events.places(), marks, true);
    let words = orders.spelled(log);
    let n = take_events(events.places(), marks, false, &mut others);
    let rest = part_of(&others, 0, n);
    let mut fewest = Fewest { states: [None; 32] };
    for r in 0..orders.count() {
        fewest.lower(
            led(profile, words.row(r)),
            swaps_before(orders.row(r), rest),
        );
    }
    fewest
}
