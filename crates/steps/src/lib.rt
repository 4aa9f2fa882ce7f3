// The moves of one state and of a set of states.
#![tactic(auto)]

ghost use Rattle.std.specs.Prelude.{◌≡◌, ◌≤◌, ◌<◌, get_or};
ghost use Rattle.profile.specs.Limits.{most_letters, most_states};
ghost use Rattle.profile.specs.Automata.{forward_step, meets, row as row_at};
ghost use Rattle.profile.specs.Traces.{bit};

// The states to which letter a leads: number a of a state's row, where the row has it.
fn leads(row: &[u32], a: usize) -> u32
    ensures { result ≡ get_or row.now a 0 }
{
    row.get(a).copied().unwrap_or(0)
}

// The states to which letter a may lead from state q.
pub fn leads_from(moves: &[u32], k: usize, q: usize, a: usize) -> u32
    requires { (k ≤ most_letters) × (q < most_states) }
    ensures { result ≡ row_at k moves.now q a }
{
    let at = q * k;
    if at <= moves.len() {
        leads(&moves[at..], a)
    } else {
        0
    }
}

// The states to which letter a leads from the states of a set: each turn takes the lowest state out of those that are left.
pub fn step_forward(moves: &[u32], k: usize, s: usize, set: u32, a: usize) -> u32
    requires { (k ≤ most_letters) × (s ≤ most_states) }
    ensures { result ≡ forward_step k s moves.now set a }
{
    let mut out = 0u32;
    let mut rest = set;
    while rest != 0 {
        let q = u32::trailing_zeros(rest) as usize;
        if q < s {
            out = out | leads_from(moves, k, q, a);
        }
        rest = rest & (rest - 1);
    }
    out
}

// State or letter x is in the set.
pub fn has(set: u32, x: usize) -> bool
    requires { x < 32 }
    ensures { result ≡ bit set x }
{
    (set >> x) & 1 == 1
}

// The two sets have a state in common.
pub fn meet(a: u32, b: u32) -> bool
    ensures { result ≡ meets a b }
{
    a & b != 0
}
