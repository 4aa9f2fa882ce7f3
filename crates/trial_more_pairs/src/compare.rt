// The judge on one log under two nested lists of pairs, each answer against the listing, and the two beside each other.
use profile::Profile;
use trial::cells::{eight, part_of};
use trial::tally::{Counter, Tally};
use trial_logs::judging::compare_judge;
use trial_logs::listing::{Listing, earlier};
use trial_logs::paths::earliest_accepted;
use trial_logs::prefixes::{look_count, prefix_count};

// Counters, in the order in which they are printed, behind those of `trial`.
#[derive(Clone, Copy)]
pub enum Beside {
    Nested = 110,
    TurnedGood,
    Earlier,
    MorePrefixes,
    MoreLooks,
    Equal,
    // Wrong comparisons.
    TurnedBad,
    Later,
    FewerPrefixes,
    FewerLooks,
}

impl Counter for Beside {
    fn place(self) -> usize {
        self as usize
    }
}

// What the listing says of a log: the earliest accepted listed log, if there is one, P and looks.
#[derive(Clone, Copy)]
struct Outcome {
    order: Option<[u8; 8]>,
    prefixes: usize,
    looks: usize,
}

fn outcome_of(profile: &Profile, log: &[u8]) -> Outcome {
    let listing = Listing::of(profile.masks, log);
    Outcome {
        order: earliest_accepted(profile, &listing).map(|r| eight(listing.row(r))),
        prefixes: prefix_count(profile.masks, log),
        looks: look_count(profile.masks, log),
    }
}

// The orders, where both have one.
fn compare_orders(a: Outcome, b: Outcome, n: usize, t: &mut Tally) {
    if let (Some(old), Some(new)) = (a.order, b.order) {
        let first = part_of(&old, 0, n);
        let second = part_of(&new, 0, n);
        t.expect(Beside::Later, !earlier(first, second));
        t.count_if(Beside::Earlier, first != second);
    }
}

// a under the pairs of one list, b under those of a list that holds them all.
fn compare_outcomes(a: &Outcome, b: &Outcome, n: usize, t: &mut Tally) {
    let old = a.order.is_some();
    let new = b.order.is_some();
    t.expect(Beside::TurnedBad, !(old & !new));
    t.count_if(Beside::TurnedGood, new & !old);
    compare_orders(*a, *b, n, t);
    t.expect(Beside::FewerPrefixes, a.prefixes <= b.prefixes);
    t.expect(Beside::FewerLooks, a.looks <= b.looks);
    t.count_if(Beside::MorePrefixes, a.prefixes < b.prefixes);
    t.count_if(Beside::MoreLooks, a.looks < b.looks);
}

// Judges a log of at most eight events under both lists, in tables that are large enough; `longer` holds every bit of the profile's own masks.
pub fn compare_nested<'x>(profile: &Profile<'x>, longer: &'x [u16], log: &[u8], t: &mut Tally) {
    let n = log.len();
    let more = Profile {
        shape: profile.shape,
        masks: longer,
        moves: profile.moves,
    };
    let a = outcome_of(profile, log);
    let b = outcome_of(&more, log);
    compare_judge(profile, log, a.prefixes, n, 1300, t);
    compare_judge(&more, log, b.prefixes, n, 1400, t);
    t.count(Beside::Nested);
    t.count_if(Beside::Equal, profile.masks == longer);
    compare_outcomes(&a, &b, n, t);
}
