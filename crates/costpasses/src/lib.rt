// The passes over the table of costs: for each prefix and state the fewest swaps to come there, or to go from there to an accepted end; document 02, Paper 10.
#![tactic(auto)]

ghost use Rattle.std.specs.Prelude.{◌≡◌, List, ℕ, suc, ◌+◌, ◌-◌, ◌*◌, ◌≤◌, ◌<◌, length};
ghost use Rattle.profile.specs.Limits.{most_letters};
ghost use Rattle.profile.specs.Tables.{layout};
ghost use Rattle.profile.specs.declared.Shape.{Shape};
ghost use Rattle.counts.specs.Counts.{add_count, words};
ghost use Rattle.records.specs.Records.{counts_at, records_in};
ghost use Rattle.search.specs.Search.{Ordered};
ghost use Rattle.costcursors.specs.Cursors.{High, Low, Splits};
ghost use Rattle.costrows.specs.Rows.{LedBack, LedOn, Rows};
ghost use Rattle.costtable.specs.Costs.{FillsRest, FillsThere, Given};
ghost use Rattle.costtable.proofs.Ways.{Laid, Next, cost_after};
ghost use Rattle.costtable.proofs.Onward.{Onward, onward_led, onward_none};
ghost use Rattle.costtable.proofs.Backward.{Backward, backward_led, backward_none};
ghost use Rattle.costtable.proofs.Stepping.{StandsAll};

use costrows::Arrow;
use counts::Counts;
use profile::limits::{COUNT_NUMBERS, MOST_LETTERS};
use profile::{Places, Profile};

// A pass over the records, in their order or back.
trait Pass {
    // The cursor that seeks the counts c may stand at record j of t.
    ghost stands: { (t c : List ℕ) (j : ℕ) → Type 0 };

    // Letter x, which costs `more`, led between two rows, for the first n states.
    ghost leads: { (before after : List ℕ) (from to k s : ℕ) (moves : List ℕ) (x more n : ℕ) → Type 0 };

    // `before` became `costs` in a pass that has come to letter x of record j.
    ghost finds: { (h : Shape) (moves log t before costs : List ℕ) (j x : ℕ) → Type 0 };

    // Moves a cursor to the first record that does not stand before the counts c.
    fn seek(t: &[u32], from: usize, c: Counts) -> usize
        requires { (from ≤ records_in t.now) × stands t.now (words c) from }
        ensures { Ordered t.now → Splits t.now (words c) result };

    // One letter leads between two rows.
    fn lead(costs: &mut [u32], profile: &Profile, arrow: Arrow)
        requires { Rows costs.old arrow.from arrow.to profile.now.shape.k profile.now.shape.s profile.now.moves.now arrow.letter }
        ensures { leads costs.old costs.new arrow.from arrow.to profile.now.shape.k profile.now.shape.s profile.now.moves.now arrow.letter arrow.more profile.now.shape.s };

    // A cursor may stand where the records divide.
    ghost stops: { (t c : List ℕ) (j : ℕ) → Splits t c j → stands t c j };

    // A letter is done that led between a record and the next,
    ghost led: { (h : Shape) (moves log t : List ℕ) → Laid h moves log t → (u v v' : List ℕ) (j x r : ℕ) → Next h moves log t j x r
        → leads v v' (j * h.s) (r * h.s) h.k h.s moves x (cost_after h moves log t j x) h.s → finds h moves log t u v j x → finds h moves log t u v' j (suc x) };

    // and one for which there is no next.
    ghost none: { (h : Shape) (moves log t : List ℕ) → Laid h moves log t → (u v : List ℕ) (j x : ℕ) → ((r : ℕ) → Next h moves log t j x r → ⊥)
        → finds h moves log t u v j x → finds h moves log t u v j (suc x) };
}

// In the order of the records: the costs to each prefix.
struct There;

impl Pass for There {
    ghost stands = { Low };

    ghost leads = { LedOn };

    ghost finds = { Onward };

    ghost stops = { λ t c j s. s.low };

    ghost led = { onward_led };

    ghost none = { onward_none };

    fn seek(t: &[u32], from: usize, c: Counts) -> usize {
        costcursors::forth(t, from, c)
    }

    fn lead(costs: &mut [u32], profile: &Profile, arrow: Arrow) {
        costrows::lead_on(costs, profile, arrow);
    }
}

// From the last record back: the costs from each prefix to an accepted end.
struct Rest;

impl Pass for Rest {
    ghost stands = { High };

    ghost leads = { LedBack };

    ghost finds = { Backward };

    ghost stops = { λ t c j s. s.high };

    ghost led = { backward_led };

    ghost none = { backward_none };

    fn seek(t: &[u32], from: usize, c: Counts) -> usize {
        costcursors::back(t, from, c)
    }

    fn lead(costs: &mut [u32], profile: &Profile, arrow: Arrow) {
        costrows::lead_back(costs, profile, arrow);
    }
}

// A letter of a record, and where the letter's cursor stands.
#[derive(Clone, Copy)]
struct Step {
    record: usize,
    letter: usize,
    cursor: usize,
}

// One letter leads between a record and the record with one more of it, if there is one; the letter's cursor moves there.
fn lead<P: Pass>(
    t: &[u32],
    step: Step,
    whole: &[u32; COUNT_NUMBERS],
    profile: &Profile,
    log: &[u8],
    placed: &Places,
    costs: &mut [u32],
) -> usize
    requires given { Given profile.now.shape profile.now.moves.now t.now log.now placed.now.starts.now placed.now.places.now costs.old }
    requires whole_value { whole.now ≡ counts_at t.now (records_in t.now - 1) }
    requires record_bound { (step.record < records_in t.now) × (step.letter < profile.now.shape.k) × (step.cursor ≤ records_in t.now) × P.stands t.now (add_count layout (counts_at t.now step.record) step.letter) step.cursor }
    ensures splits { Splits t.now (add_count layout (counts_at t.now step.record) step.letter) result }
    ensures by_index { (before : List ℕ) → P.finds profile.now.shape profile.now.moves.now log.now t.now before costs.old step.record step.letter → P.finds profile.now.shape profile.now.moves.now log.now t.now before costs.new step.record (suc step.letter) }
{
    let c = records::counts_at(t, step.record);
    let d = counts::one_more(c, step.letter);
    let r = P::seek(t, step.cursor, d);
    if costcursors::stands_at(t, r, d) {
        let n = counts::numbers(c);
        let more = stepcost::step_cost(log, &n, whole, profile.shape.k, placed, step.letter);
        let from = costcursors::row_of(step.record, profile.shape.s);
        let to = costcursors::row_of(r, profile.shape.s);
        let arrow = Arrow {
            from,
            to,
            letter: step.letter,
            more,
        };
        P::lead(costs, profile, arrow);
    }
    r
}

// Every letter of record j leads; before and after, each letter's cursor may stand where it does for record j.
fn lead_all<P: Pass>(
    t: &[u32],
    j: usize,
    whole: &[u32; COUNT_NUMBERS],
    profile: &Profile,
    log: &[u8],
    placed: &Places,
    cursors: &mut [usize],
    costs: &mut [u32],
)
    requires given { Given profile.now.shape profile.now.moves.now t.now log.now placed.now.starts.now placed.now.places.now costs.old }
    requires whole_value { whole.now ≡ counts_at t.now (records_in t.now - 1) }
    requires j_bound { (j < records_in t.now) × (length cursors.old ≡ most_letters) × StandsAll P.stands t.now j profile.now.shape.k cursors.old }
    ensures stand { StandsAll P.stands t.now j profile.now.shape.k cursors.new }
    ensures by_index { (before : List ℕ) → P.finds profile.now.shape profile.now.moves.now log.now t.now before costs.old j 0 → P.finds profile.now.shape profile.now.moves.now log.now t.now before costs.new j profile.now.shape.k }
{
    for x in 0..profile.shape.k {
        let step = Step {
            record: j,
            letter: x,
            cursor: cursors[x],
        };
        cursors[x] = lead::<P>(t, step, whole, profile, log, placed, costs);
    }
}

// The fewest swaps to each prefix and state; t has the records of all prefixes.
pub fn fill_there(t: &[u32], profile: &Profile, log: &[u8], placed: &Places, costs: &mut [u32])
    requires { Given profile.now.shape profile.now.moves.now t.now log.now placed.now.starts.now placed.now.places.now costs.old }
    ensures { FillsThere profile.now.shape profile.now.moves.now t.now log.now placed.now.starts.now placed.now.places.now costs.old costs.new }
{
    let records = records::records_in(t);
    let whole = counts::numbers(records::counts_at(t, records - 1));
    let mut cursors = [0usize; MOST_LETTERS];
    let cells = costcursors::row_of(records, profile.shape.s);
    costwrites::clear(costs, 0, cells);
    costwrites::lower(costs, profile.shape.start, 0);
    for j in 0..records {
        lead_all::<There>(t, j, &whole, profile, log, placed, &mut cursors, costs);
    }
}

// Kept beside `fill_there`: what is cleared and lowered first, where the cursors begin and which record comes next are all that a pass says beside `lead_all`, and
// as methods of a `Pass`, with their laws, they would be more text than the two.
// The fewest swaps from each prefix and state to an accepted end; t has the records of all prefixes.
pub fn fill_rest(t: &[u32], profile: &Profile, log: &[u8], placed: &Places, costs: &mut [u32])
    requires { Given profile.now.shape profile.now.moves.now t.now log.now placed.now.starts.now placed.now.places.now costs.old }
    ensures { FillsRest profile.now.shape profile.now.moves.now t.now log.now placed.now.starts.now placed.now.places.now costs.old costs.new }
{
    let records = records::records_in(t);
    let last = records - 1;
    let whole = counts::numbers(records::counts_at(t, last));
    let mut cursors = [records; MOST_LETTERS];
    let end = costcursors::row_of(last, profile.shape.s);
    costwrites::clear(costs, end, profile.shape.s);
    costwrites::lower_all(costs, end, profile.shape.s, profile.shape.finals, 0);
    for j in (0..last).rev() {
        let row = costcursors::row_of(j, profile.shape.s);
        costwrites::clear(costs, row, profile.shape.s);
        lead_all::<Rest>(t, j, &whole, profile, log, placed, &mut cursors, costs);
    }
}
