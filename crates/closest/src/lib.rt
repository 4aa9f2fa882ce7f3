// The order closest to what was recorded: document 02, Paper 10.
#![tactic(auto)]

ghost use Rattle.profile.specs.Automata.{lent};
ghost use Rattle.closestanswer.specs.Answers.{Promise};

use closestanswer::Closest;
use profile::{Profile, Refusal};

// The order closest to what was recorded, with a budget of pairs of a prefix and a state; refused as the judge refuses, then by 17.
pub fn closest(
    profile: &Profile,
    log: &[u8],
    order: &mut [u8],
    work: &mut [u32],
    costs: &mut [u32],
    budget: u64,
) -> Result<Closest, Refusal>
    ensures { Promise (lent profile.now) log.now budget order.old order.new work.old work.new costs.old costs.new result }
{
    if order.len() < log.len() {
        return Err(verdict::refusal_of_short(profile, log));
    }
    let filled = table::build(profile, log, work)?;
    closestfilled::answer(work, filled, profile, log, log, budget, order, costs)
}
