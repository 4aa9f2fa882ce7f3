// The verdict and the earliest accepted order, from the table of prefixes: document 01, "The judge".
#![tactic(auto)]

ghost use Rattle.std.specs.Prelude.{Bool, ◌≡◌, true, ℕ, suc, ◌≤◌, ◌<◌, T, length};
ghost use Rattle.profile.specs.Limits.{most_letters, most_states};
ghost use Rattle.profile.specs.Rules.{order_by};
ghost use Rattle.profile.specs.Automata.{lent, forward_step};
ghost use Rattle.terms.specs.Coded.{rules_of};
ghost use Rattle.counts.specs.Counts.{words};
ghost use Rattle.records.specs.Records.{records_in};
ghost use Rattle.search.specs.Search.{Ordered, has?};
ghost use Rattle.search.proofs.Halves.{Between};
ghost use Rattle.successors.specs.Successors.{Stands};
ghost use Rattle.earliest.specs.Earliest.{Enclosed, Smallest, Some, Table, found?, led, record_count, with_order};

use counts::Counts;
use profile::Profile;
use records::RECORD;

// Some order of the log is accepted: the backward set of the empty prefix, the first record, has the start state.
pub fn has_order(table: &[u32], profile: &Profile, log: &[u8]) -> bool
    ghost termed: { Bool }
    requires { Table (rules_of (lent profile.now) termed) log.now table.now }
    ensures { result ≡ found? (order_by (rules_of (lent profile.now) termed) log.now) }
{
    let start = profile.shape.start;
    let backward = records::last_at(table, 0);
    steps::meet(1u32 << start, backward)
}

// The next letter of the order, the record of the prefix with it, and the states that it leads to.
#[derive(Clone, Copy)]
struct Choice {
    letter: usize,
    next: usize,
    states: u32,
}

// The only record that can have the counts looked for, and before which record those of larger letters belong.
#[derive(Clone, Copy)]
struct Sought {
    place: usize,
    end: usize,
}

// Looks for the counts c between record `at` and record `end`. Where one record stands between, it is the one to look at.
fn place_for(t: &[u32], at: usize, end: usize, near: usize, c: Counts) -> Sought
    requires { Enclosed t.now (words c) at end }
    ensures at_lt_place { (at < result.place) × (at < result.end) × (result.end ≤ end) }
    ensures between { Ordered t.now → Between t.now (words c) (suc at) result.end }
    ensures i_value { Ordered t.now → (i : ℕ) → i < records_in t.now → T (has? t.now (words c) i) → i ≡ result.place }
{
    let first = at + 1;
    let second = at + 2;
    if end == second {
        return Sought {
            place: first,
            end: end,
        };
    }
    let place = successors::place_between(t, first, end, near, c);
    Sought {
        place: place,
        end: place,
    }
}

// The states that letter x leads to, where record j has the counts c and one of them is in its backward set; else none.
// Kept: that there are none is a set of states like another, the empty one, and no mark beside the sets.
#[tactic(auto, using(crate::proofs::Standing::stands_whole))]
fn led_to(t: &[u32], j: usize, c: Counts, states: u32, profile: &Profile, x: usize) -> u32
    requires { (profile.now.shape.k ≤ most_letters) × (profile.now.shape.s ≤ most_states) }
    ensures { result
        ≡ led t.now (words c) (forward_step profile.now.shape.k profile.now.shape.s profile.now.moves.now states x) j }
{
    if costcursors::stands_at(t, j, c) {
        let reached = steps::step_forward(
            profile.moves,
            profile.shape.k,
            profile.shape.s,
            states,
            x,
        );
        if steps::meet(reached, records::last_at(t, j)) {
            return reached;
        }
    }
    0
}

// The smallest letter that can be taken next. The records of larger letters stand before those of smaller ones; `near` is how far behind `at` to look first.
fn choose(t: &[u32], at: usize, near: usize, states: u32, profile: &Profile) -> Choice
    requires stands { Stands t.now profile.now.shape.k at × (profile.now.shape.s ≤ most_states) }
    requires some { Some (forward_step profile.now.shape.k profile.now.shape.s profile.now.moves.now) t.now at states profile.now.shape.k }
    ensures { Smallest (forward_step profile.now.shape.k profile.now.shape.s profile.now.moves.now) t.now at states profile.now.shape.k result.letter result.next result.states }
{
    let k = profile.shape.k;
    let c = records::counts_at(t, at);
    let mut end = records::records_in(t);
    for x in 0..k {
        let next = counts::one_more(c, x);
        let sought = place_for(t, at, end, near, next);
        let reached = led_to(t, sought.place, next, states, profile, x);
        if reached != 0 {
            return Choice {
                letter: x,
                next: sought.place,
                states: reached,
            };
        }
        end = sought.end;
    }
    Choice {
        letter: k,
        next: at,
        states: states,
    }
}

// Writes the earliest accepted order.
pub fn put_order(table: &[u32], records: usize, profile: &Profile, log: &[u8], order: &mut [u8])
    ghost termed: { Bool }
    requires table { Table (rules_of (lent profile.now) termed) log.now table.now }
    requires records_value { records ≡ record_count (rules_of (lent profile.now) termed) log.now }
    requires log_value { found? (order_by (rules_of (lent profile.now) termed) log.now) ≡ true }
    requires log_in_bounds { length log.now ≤ length order.old }
    ensures { order.new ≡ with_order (order_by (rules_of (lent profile.now) termed) log.now) order.old }
{
    let used = RECORD * records;
    let start = profile.shape.start;
    let mut states = 1u32 << start;
    let mut at = 0;
    let mut near = 0;
    for i in 0..log.len() {
        let choice = choose(&table[0..used], at, near, states, profile);
        let letter = choice.letter;
        order[i] = letter as u8;
        states = choice.states;
        near = choice.next - at;
        at = choice.next;
    }
}
