// The walk to the closest order, letter by letter, over a table of costs: document 02, Paper 10.
#![tactic(auto)]

ghost use Rattle.std.specs.Prelude.{◌≡◌, ◌+◌, ◌*◌, ◌-◌, ◌^◌, ◌≤◌, ◌<◌, length, take};
ghost use Rattle.profile.specs.Automata.{forward_step};
ghost use Rattle.profile.specs.Limits.{most_letters, most_states};
ghost use Rattle.profile.specs.Tables.{layout};
ghost use Rattle.counts.specs.Counts.{add_count, words};
ghost use Rattle.records.specs.Records.{counts_at, records_in};
ghost use Rattle.swaps.specs.Swaps.{swaps};
ghost use Rattle.stepcost.specs.StepCosts.{Placed};
ghost use Rattle.orderswaps.specs.Arranged.{Arranged};
ghost use Rattle.costwalk.specs.Walk.{Chooses, Known, Leads, Puts, Stands, Tested, Tries};

use counts::Counts;
use profile::limits::COUNT_NUMBERS;
use profile::{Places, Profile};

// The counts of the last record: those of the whole log.
fn last_counts(t: &[u32]) -> [u32; COUNT_NUMBERS]
    requires { 1 ≤ records_in t.now }
    ensures { result ≡ counts_at t.now (records_in t.now - 1) }
{
    counts::numbers(records::counts_at(t, records::records_in(t) - 1))
}

// What is taken so far: its counts, the states it leads to, and the swaps that are left.
#[derive(Clone, Copy)]
struct Taken {
    counts: Counts,
    states: u32,
    left: u32,
}

// The next letter and its cost.
#[derive(Clone, Copy)]
struct Choice {
    letter: usize,
    cost: usize,
}

// Letter x, which costs `more`, leads from the states of what is taken to one at a cost that fits, in the row of record r.
fn fits(costs: &[u32], r: usize, taken: Taken, profile: &Profile, x: usize, more: usize) -> bool
    requires k_le_most_letters { (profile.now.shape.k ≤ most_letters) × (profile.now.shape.s ≤ most_states) × (r * profile.now.shape.s + profile.now.shape.s ≤ length costs.now) }
    requires x_bound { forward_step profile.now.shape.k profile.now.shape.s profile.now.moves.now taken.states x < 2 ^ profile.now.shape.s }
    ensures { Tested costs.now (r * profile.now.shape.s) (forward_step profile.now.shape.k profile.now.shape.s profile.now.moves.now taken.states x) more taken.left result }
{
    let s = profile.shape.s;
    let reached = steps::step_forward(profile.moves, profile.shape.k, s, taken.states, x);
    let least = costcells::least_in(costs, r * s, s, reached);
    costcells::plus(least, more) <= taken.left
}

// What letter x costs, if it can be taken next and an accepted end is then reached for what is left.
fn try_letter(
    t: &[u32],
    taken: Taken,
    profile: &Profile,
    log: &[u8],
    placed: &Places,
    costs: &[u32],
    x: usize,
) -> Option<usize>
    requires stands { Stands profile.now.shape profile.now.moves.now t.now log.now placed.now.starts.now placed.now.places.now costs.now (words taken.counts) taken.left }
    requires x_lt_k { x < profile.now.shape.k }
    ensures { Tries profile.now.shape profile.now.moves.now t.now log.now placed.now.starts.now placed.now.places.now costs.now (words taken.counts) taken.states taken.left x result }
{
    let c = taken.counts;
    let found = search::find(t, counts::one_more(c, x));
    if let Ok(r) = found {
        let n = counts::numbers(c);
        let whole = last_counts(t);
        let more = stepcost::step_cost(log, &n, &whole, profile.shape.k, placed, x);
        if fits(costs, r, taken, profile, x, more) {
            return Some(more);
        }
    }
    None
}

// The smallest letter with which an accepted end is reached for what is left.
fn choose(
    t: &[u32],
    taken: Taken,
    profile: &Profile,
    log: &[u8],
    placed: &Places,
    costs: &[u32],
) -> Choice
    requires { Leads profile.now.shape profile.now.moves.now t.now log.now placed.now.starts.now placed.now.places.now costs.now (words taken.counts) taken.states taken.left }
    ensures { Chooses profile.now.shape profile.now.moves.now t.now log.now placed.now.starts.now placed.now.places.now costs.now (words taken.counts) taken.states taken.left result }
{
    for x in 0..profile.shape.k {
        let next = try_letter(t, taken, profile, log, placed, costs, x);
        if let Some(cost) = next {
            return Choice { letter: x, cost };
        }
    }
    unreachable!()
}

// Letter x, which costs `cost`, is taken next.
fn take_letter(taken: Taken, profile: &Profile, x: usize, cost: usize) -> Taken
    requires { (profile.now.shape.k ≤ most_letters) × (profile.now.shape.s ≤ most_states) × (cost ≤ taken.left) }
    ensures counts_value { words result.counts ≡ add_count layout (words taken.counts) x }
    ensures states_value { result.states ≡ forward_step profile.now.shape.k profile.now.shape.s profile.now.moves.now taken.states x }
    ensures left_value { result.left ≡ taken.left - cost }
{
    let states = taken.states;
    Taken {
        counts: counts::one_more(taken.counts, x),
        states: steps::step_forward(profile.moves, profile.shape.k, profile.shape.s, states, x),
        left: taken.left - cost as u32,
    }
}

// Writes the earliest order of `fewest` swaps, the fewest of any; the costs are those to an accepted end.
pub fn put_closest(
    t: &[u32],
    profile: &Profile,
    log: &[u8],
    placed: &Places,
    costs: &[u32],
    fewest: u32,
    order: &mut [u8],
)
    requires known { Known profile.now.shape profile.now.moves.now t.now log.now placed.now.starts.now placed.now.places.now costs.now fewest }
    requires log_in_bounds { length log.now ≤ length order.old }
    ensures { Puts profile.now.shape profile.now.moves.now t.now log.now placed.now.starts.now placed.now.places.now costs.now fewest order.old order.new }
{
    let mut taken = Taken {
        counts: counts::none_counted(),
        states: 1u32 << profile.shape.start,
        left: fewest,
    };
    // Kept: what is told of an order that is written half speaks of its first i letters.
    for i in 0..log.len() {
        let choice = choose(t, taken, profile, log, placed, costs);
        let x = choice.letter;
        order[i] = x as u8;
        taken = take_letter(taken, profile, x, choice.cost);
    }
}

// The swaps of an order of the log; t has the records of all prefixes, the last that of the whole log.
pub fn swaps_of(t: &[u32], k: usize, log: &[u8], placed: &Places, order: &[u8]) -> u32
    requires bound { 1 ≤ records_in t.now }
    requires placed { Placed k log.now placed.now.starts.now placed.now.places.now }
    requires arranged { Arranged k log.now (counts_at t.now (records_in t.now - 1)) order.now }
    ensures { result ≡ swaps (λ a. a) log.now (take (length log.now) order.now) }
{
    let whole = last_counts(t);
    orderswaps::swaps(log, &whole, k, placed, order)
}
