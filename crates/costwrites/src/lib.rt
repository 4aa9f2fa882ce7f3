// The cells of a cost table: lowered and cleared; document 02, Paper 10.
#![tactic(auto)]

ghost use Rattle.std.specs.Prelude.{◌≡◌, ◌+◌, ◌≤◌, ◌<◌, ◌^◌, min, length, get_or, set};
ghost use Rattle.profile.specs.Limits.{most_states};
ghost use Rattle.costcells.specs.Cells.{Cleared, Lowered, none_cost};

use costcells::NONE;

// Lowers the cost at place i to v.
pub fn lower(costs: &mut [u32], i: usize, v: u32)
    requires { i < length costs.old }
    ensures { costs.new ≡ set costs.old i (min v (get_or costs.old i none_cost)) }
{
    costs[i] = costs[i].min(v);
}

// Lowers the costs of the states of a set to v, in the row that begins at `row`.
pub fn lower_all(costs: &mut [u32], row: usize, s: usize, states: u32, v: u32)
    requires { (s ≤ most_states) × (row + s ≤ length costs.old) × (states < 2 ^ s) }
    ensures { Lowered costs.old costs.new row states v }
{
    let mut rest = states;
    while rest != 0 {
        let q = u32::trailing_zeros(rest) as usize;
        lower(costs, row + q, v);
        rest = rest & (rest - 1);
    }
}

// All n costs from `at` on become none.
pub fn clear(costs: &mut [u32], at: usize, n: usize)
    requires { at + n ≤ length costs.old }
    ensures { Cleared costs.old costs.new at n }
{
    costs[at..at + n].fill(NONE);
}
