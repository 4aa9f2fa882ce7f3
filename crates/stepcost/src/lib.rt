// What the next event of a letter costs, with no scan of the log: document 02, Paper 10.
#![tactic(auto)]

ghost use Rattle.std.specs.Prelude.{◌≡◌, ◌-◌, ◌≤◌, ◌<◌, length, take};
ghost use Rattle.profile.specs.Prefixes.{count};
ghost use Rattle.profile.specs.Tables.{count_field, layout};
ghost use Rattle.swaps.specs.Swaps.{step_cost};
ghost use Rattle.stepcost.specs.StepCosts.{Placed, Within};

use profile::Places;
use profile::limits::{COUNT_NUMBERS, Place};

// How many events of letter y, from its event `from` on, stand before `place`; the letter has `to` events. A search by halves in its places.
fn passed(
    log: &[u8],
    k: usize,
    placed: &Places,
    y: usize,
    from: usize,
    to: usize,
    place: Place,
) -> usize
    requires placed { Placed k log.now placed.now.starts.now placed.now.places.now }
    requires y_lt_k { (y < k) × (to ≡ count (λ a. a) log.now y) × (from ≤ to) × (place ≤ length log.now) }
    ensures { result ≡ count (λ a. a) (take place log.now) y - from }
{
    let mut low = from;
    let mut high = to;
    while low < high {
        let middle = low + (high - low) / 2;
        if places::next_place(placed, y, middle as Place) < place {
            low = middle + 1;
        } else {
            high = middle;
        }
    }
    low - from
}

// What the next event of letter x costs after the prefix c of a log with the counts `whole`: one for each earlier event not yet taken.
pub fn step_cost(
    log: &[u8],
    c: &[u32; COUNT_NUMBERS],
    whole: &[u32; COUNT_NUMBERS],
    k: usize,
    placed: &Places,
    x: usize,
) -> usize
    requires placed { Placed k log.now placed.now.starts.now placed.now.places.now }
    requires within { Within k log.now c.now whole.now x }
    ensures { result ≡ step_cost (λ a. a) log.now (count_field layout c.now) x }
{
    let own = places::next_place(placed, x, counts::count_of(c, x) as Place);
    let mut cost = 0usize;
    for y in 0..k {
        let from = counts::count_of(c, y);
        let to = counts::count_of(whole, y);
        cost += passed(log, k, placed, y, from, to, own);
    }
    cost
}
