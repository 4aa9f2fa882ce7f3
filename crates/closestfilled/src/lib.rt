// The answer of the call for the closest order over a filled table: document 02, Paper 10.
#![tactic(auto)]

ghost use Rattle.std.specs.Prelude.{Bool, ◌≡◌, map, ◌≤◌, length};
ghost use Rattle.profile.specs.Automata.{lent};
ghost use Rattle.terms.specs.Coded.{event_letter, rules_of};
ghost use Rattle.earliest.specs.Earliest.{Table, record_count};
ghost use Rattle.closestfilled.specs.Answered.{answered};

use closestanswer::Closest;
use profile::{Profile, Refusal};
use records::RECORD;
use table::Filled;

// The answer from the records of all prefixes; 17 where the cost table has no place for all pairs. Events are codes with terms, else letters; the log has
// their letters.
pub fn answer(
    work: &[u32],
    filled: Filled,
    profile: &Profile,
    log: &[u8],
    codes: &[u8],
    budget: u64,
    order: &mut [u8],
    costs: &mut [u32],
) -> Result<Closest, Refusal>
    ghost termed: { Bool }
    requires table { Table (rules_of (lent profile.now) termed) codes.now work.now }
    requires prefixes_value { filled.prefixes ≡ record_count (rules_of (lent profile.now) termed) codes.now }
    requires codes_value { map (event_letter termed) codes.now ≡ log.now }
    requires log_in_bounds { length log.now ≤ length order.old }
    ensures { answered (rules_of (lent profile.now) termed) codes.now budget filled.prefixes filled.looks order.old order.new costs.old costs.new result }
{
    let Filled { prefixes, looks } = filled;
    let s = profile.shape.s;
    if costs.len() / s < prefixes {
        return Err(Refusal::ShortCosts);
    }
    if !earliest::has_order(work, profile, codes) {
        return Ok(Closest::NoOrder { prefixes, looks });
    }
    let end = RECORD * prefixes;
    let found = closestorder::put_order(&work[0..end], profile, log, codes, budget, order, costs);
    Ok(Closest::Order {
        prefixes,
        looks,
        swaps: found.swaps,
        floor: found.floor,
    })
}
