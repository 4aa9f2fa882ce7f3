// Where the record with one more of a letter stands among records in order: a search between bounds, document 02, Paper 5.
#![tactic(auto)]

ghost use Rattle.std.specs.Prelude.{◌≤◌, ◌<◌};
ghost use Rattle.counts.specs.Counts.{words};
ghost use Rattle.records.specs.Records.{records_in};
ghost use Rattle.search.specs.Search.{Ordered};
ghost use Rattle.search.proofs.Halves.{Between};

use counts::Counts;

// The record to look at between `low` and `high`: `near` records behind `low`, and at most half of the way.
fn probe(low: usize, high: usize, near: usize) -> usize
    requires { low < high }
    ensures { (low ≤ result) × (result < high) }
{
    let half = (high - low) / 2;
    if near < half { low + near } else { low + half }
}

// How many records of t stand before the counts c: those before `from` do, none from `end` on does. Looks `near` records behind `from` first, and
// twice as far each time while the records stand before c.
pub fn place_between(t: &[u32], from: usize, end: usize, near: usize, c: Counts) -> usize
    requires from_le_end { (from ≤ end) × (end ≤ records_in t.now) }
    requires between { Between t.now (words c) from end }
    ensures lower_bound { (from ≤ result) × (result ≤ end) }
    ensures between_2 { Ordered t.now → Between t.now (words c) result result }
{
    let mut low = from;
    let mut high = end;
    let mut ahead = near;
    while low < high {
        let middle = probe(low, high, ahead);
        if search::stands_before(records::counts_at(t, middle), c) {
            ahead = 2 * (middle - low) + 1;
            low = middle + 1;
        } else {
            high = middle;
        }
    }
    low
}
