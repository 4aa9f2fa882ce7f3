// The order closest to what was recorded, its swaps and the floor, from the records of all prefixes: document 02, Paper 10.
#![tactic(auto)]

ghost use Rattle.std.specs.Prelude.{Bool, ◌≡◌, true, ◌*◌, ◌≤◌, length, take};
ghost use Rattle.profile.specs.Automata.{lent};
ghost use Rattle.profile.specs.Rules.{order_by};
ghost use Rattle.terms.specs.Coded.{rules_of};
ghost use Rattle.records.specs.Records.{records_in};
ghost use Rattle.earliest.specs.Earliest.{found?, with_order};
ghost use Rattle.swaps.specs.Swaps.{swaps as swaps_in};
ghost use Rattle.stepcost.specs.StepCosts.{Placed};
ghost use Rattle.closestanswer.specs.Answers.{Close};
ghost use Rattle.closestorder.specs.Held.{Best, Held, PutsBest};

use profile::limits::{MOST_LETTERS, MOST_PLACES, Place};
use profile::{Places, Profile};

// The swaps of an order, and the floor.
#[derive(Clone, Copy)]
pub struct Found {
    pub swaps: u32,
    pub floor: u32,
}

// Writes the judge's order, and tells its swaps.
fn put_judges(
    t: &[u32],
    profile: &Profile,
    log: &[u8],
    codes: &[u8],
    placed: &Places,
    order: &mut [u8],
) -> u32
    ghost termed: { Bool }
    requires held { Held (rules_of (lent profile.now) termed) codes.now log.now t.now }
    requires placed { Placed profile.now.shape.k log.now placed.now.starts.now placed.now.places.now }
    requires codes_value { found? (order_by (rules_of (lent profile.now) termed) codes.now) ≡ true }
    requires log_in_bounds { length log.now ≤ length order.old }
    ensures value { result ≡ swaps_in (λ a. a) log.now (take (length log.now) order.new) }
    ensures order_after { order.new ≡ with_order (order_by (rules_of (lent profile.now) termed) codes.now) order.old }
{
    let records = records::records_in(t);
    earliest::put_order(t, records, profile, codes, order);
    costwalk::swaps_of(t, profile.shape.k, log, placed, order)
}

// Writes the earliest order of `fewest` swaps, the fewest of any.
fn put_best(
    t: &[u32],
    profile: &Profile,
    log: &[u8],
    placed: &Places,
    fewest: u32,
    order: &mut [u8],
    costs: &mut [u32],
)
    requires best { Best profile.now.shape profile.now.moves.now t.now log.now placed.now.starts.now placed.now.places.now costs.old fewest }
    requires log_in_bounds { length log.now ≤ length order.old }
    ensures { PutsBest profile.now.shape profile.now.moves.now t.now log.now placed.now.starts.now placed.now.places.now fewest order.old order.new }
{
    costpasses::fill_rest(t, profile, log, placed, costs);
    costwalk::put_closest(t, profile, log, placed, costs, fewest, order);
}

// Writes the order of a call with a budget of pairs: the best where it covers all pairs, else the judge's.
fn put_placed(
    t: &[u32],
    profile: &Profile,
    log: &[u8],
    codes: &[u8],
    placed: &Places,
    budget: u64,
    order: &mut [u8],
    costs: &mut [u32],
) -> Found
    ghost termed: { Bool }
    requires held { Held (rules_of (lent profile.now) termed) codes.now log.now t.now }
    requires placed { Placed profile.now.shape.k log.now placed.now.starts.now placed.now.places.now }
    requires codes_value { found? (order_by (rules_of (lent profile.now) termed) codes.now) ≡ true }
    requires log_in_bounds { (length log.now ≤ length order.old) × (records_in t.now * profile.now.shape.s ≤ length costs.old) }
    ensures { Close (rules_of (lent profile.now) termed) codes.now budget order.old order.new result.swaps result.floor }
{
    costpasses::fill_there(t, profile, log, placed, costs);
    let s = profile.shape.s;
    let all = records::records_in(t) * s;
    let fewest = costcells::least_in(costs, all - s, s, profile.shape.finals);
    if budget < costcells::pairs(costs, all) as u64 {
        let floor = costcells::floor(costs, all, fewest, budget);
        let swaps = put_judges(t, profile, log, codes, placed, order);
        return Found { swaps, floor };
    }
    put_best(t, profile, log, placed, fewest, order, costs);
    Found {
        swaps: fewest,
        floor: fewest,
    }
}

// Writes the order of a call with a budget of pairs; some order is accepted, and the cost table has place for all pairs. Events are codes with terms, else
// letters; the log has their letters.
pub fn put_order(
    t: &[u32],
    profile: &Profile,
    log: &[u8],
    codes: &[u8],
    budget: u64,
    order: &mut [u8],
    costs: &mut [u32],
) -> Found
    ghost termed: { Bool }
    requires held { Held (rules_of (lent profile.now) termed) codes.now log.now t.now }
    requires codes_value { found? (order_by (rules_of (lent profile.now) termed) codes.now) ≡ true }
    requires log_in_bounds { (length log.now ≤ length order.old) × (records_in t.now * profile.now.shape.s ≤ length costs.old) }
    ensures { Close (rules_of (lent profile.now) termed) codes.now budget order.old order.new result.swaps result.floor }
{
    let k = profile.shape.k;
    let mut starts: [Place; MOST_LETTERS] = [0; MOST_LETTERS];
    let mut places: [Place; MOST_PLACES] = [0; MOST_PLACES];
    places::place_events(log, k, &mut starts, &mut places);
    put_placed(
        t,
        profile,
        log,
        codes,
        &Places {
            starts: &starts,
            places: &places,
        },
        budget,
        order,
        costs,
    )
}
