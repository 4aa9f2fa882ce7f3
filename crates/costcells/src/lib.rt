// The cells of a cost table: added to, read, counted; document 02, Paper 10.
#![tactic(auto)]

ghost use Rattle.std.specs.Prelude.{◌≡◌, ◌+◌, ◌≤◌, ◌<◌, ◌^◌, min, length, take};
ghost use Rattle.profile.specs.Limits.{most_states};
ghost use Rattle.swaps.specs.Closest.{after, smaller, sorted};
ghost use Rattle.costcells.specs.Cells.{Least, at_most, none_cost, pair_costs};

// There is no way.
// Kept: the cells are 32-bit numbers of a table that the caller lends, so that there is no way has to be one of them.
pub const NONE: u32 = 4294967295;

// A cost and what is added to it; none where there is none, or where the sum is too large.
pub fn plus(cost: u32, more: usize) -> u32
    ensures { result ≡ min (cost + more) none_cost }
{
    if more <= (NONE - cost) as usize {
        cost + more as u32
    } else {
        NONE
    }
}

// The least cost of the states of a set, in the row that begins at `row`.
pub fn least_in(costs: &[u32], row: usize, s: usize, states: u32) -> u32
    requires { (s ≤ most_states) × (row + s ≤ length costs.now) × (states < 2 ^ s) }
    ensures { Least costs.now row states result }
{
    let mut least = NONE;
    let mut rest = states;
    while rest != 0 {
        let q = u32::trailing_zeros(rest) as usize;
        let v = costs[row + q];
        if v < least {
            least = v;
        }
        rest = rest & (rest - 1);
    }
    least
}

// How many of the first n costs are at most v.
pub fn at_most(costs: &[u32], n: usize, v: u32) -> usize
    requires { n ≤ length costs.now }
    ensures { result ≡ at_most v (take n costs.now) }
{
    costs[..n].iter().filter(|cost| **cost <= v).count()
}

// How many of the first n costs are not none.
pub fn pairs(costs: &[u32], n: usize) -> usize
    requires { n ≤ length costs.now }
    ensures { result ≡ length (pair_costs (take n costs.now)) }
{
    at_most(costs, n, 4294967294)
}

// The smaller of `fewest` and the cost that stands after the first `budget` of the first n costs by rising size, if there is one: a search by halves.
pub fn floor(costs: &[u32], n: usize, fewest: u32, budget: u64) -> u32
    requires { (n ≤ length costs.now) × (fewest < none_cost) }
    ensures { result ≡ smaller fewest (after budget (sorted (pair_costs (take n costs.now)))) }
{
    let mut low = 0u32;
    let mut high = fewest;
    while low < high {
        let middle = low + (high - low) / 2;
        if budget < at_most(costs, n, middle) as u64 {
            high = middle;
        } else {
            low = middle + 1;
        }
    }
    low
}
