// How the prefixes of two records stand to each other: document 02, Paper 13, "each pair of prefixes".
#![tactic(auto)]

ghost use Rattle.std.specs.Prelude.{◌≡◌, ℕ, ◌+◌, ◌*◌, ◌≤◌, ◌<◌, length, MatchOption};
ghost use Rattle.profile.specs.Limits.{most_letters};
ghost use Rattle.profile.specs.Prefixes.{total};
ghost use Rattle.profile.specs.Tables.{count_field, layout, record_length};
ghost use Rattle.counts.specs.Counts.{counts_in};
ghost use Rattle.records.specs.Records.{counts_at};
ghost use Rattle.gaps.specs.Gaps.{GapIs};

use counts::count_of;
use profile::limits::COUNT_NUMBERS;

// The events between two prefixes: the first is not inside the second; or there is one, of this letter; or their number is another.
// Kept: an enum of three cases, which an Option of an Option would only hide.
#[derive(Clone, Copy)]
pub enum Gap {
    Outside,
    Letter(usize),
    Apart,
}

// The first letter of which e has more than c.
fn grown(c: &[u32; COUNT_NUMBERS], e: &[u32; COUNT_NUMBERS], k: usize) -> Option<usize>
    requires { k ≤ most_letters }
    ensures { MatchOption result ((x : ℕ) → x < k → count_field layout e.now x ≤ count_field layout c.now x)
        (λ a. (a < k) × (count_field layout c.now a < count_field layout e.now a) × ((x : ℕ) → x < a → count_field layout e.now x ≤ count_field layout c.now x)) }
{
    for x in 0..k {
        if count_of(c, x) < count_of(e, x) {
            return Some(x);
        }
    }
    None
}

// How the counts c stand to the counts e.
fn gap_of(c: &[u32; COUNT_NUMBERS], e: &[u32; COUNT_NUMBERS], k: usize) -> Gap
    requires { k ≤ most_letters }
    ensures { GapIs k (count_field layout c.now) (count_field layout e.now) result }
{
    let mut events = 0usize;
    for x in 0..k {
        let p = count_of(c, x);
        let q = count_of(e, x);
        if q < p {
            return Gap::Outside;
        }
        events += q - p;
    }
    if events == 1 {
        match grown(c, e, k) {
            Some(a) => Gap::Letter(a),

            // Not met: of the letter of one event e has more.
            None => Gap::Apart,
        }
    } else {
        Gap::Apart
    }
}

// How the prefix of record i stands to that of record j.
pub fn gap_between(table: &[u32], k: usize, i: usize, j: usize) -> Gap
    requires { (k ≤ most_letters) × (record_length layout * i + record_length layout ≤ length table.now) × (record_length layout * j + record_length layout ≤ length table.now) }
    ensures { GapIs k (count_field layout (counts_at table.now i)) (count_field layout (counts_at table.now j)) result }
{
    let c = counts::numbers(records::counts_at(table, i));
    let e = counts::numbers(records::counts_at(table, j));
    gap_of(&c, &e, k)
}

// The total of record j.
pub fn total_at(table: &[u32], j: usize) -> usize
    requires { record_length layout * j + record_length layout ≤ length table.now }
    ensures { result ≡ total (counts_in layout (counts_at table.now j)) }
{
    counts::total_of(records::counts_at(table, j))
}
