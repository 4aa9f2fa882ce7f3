// The order closest to what was recorded, of a log with terms: document 02, Papers 10 and 8.
#![tactic(auto)]

ghost use Rattle.std.specs.Prelude.{true, ◌≤◌, length};
ghost use Rattle.profile.specs.Automata.{lent};
ghost use Rattle.terms.specs.Coded.{rules_of};
ghost use Rattle.termed_judge.specs.CodedCalls.{CodedCall};
ghost use Rattle.closestterms.specs.Dated.{Promise};
ghost use Rattle.termed_closest.specs.CodedAnswers.{Answered};

use closestanswer::Closest;
use profile::limits::LONGEST;
use profile::{Calendar, Profile, Refusal};

// The closest order of events that are codes, where nothing but 10 and 17 can refuse; the log has their letters.
fn closest_coded(
    profile: &Profile,
    log: &[u8],
    codes: &[u8],
    order: &mut [u8],
    work: &mut [u32],
    costs: &mut [u32],
    budget: u64,
) -> Result<Closest, Refusal>
    requires coded_call { CodedCall (lent profile.now) log.now codes.now }
    requires log_in_bounds { length log.now ≤ length order.old }
    ensures { Answered (rules_of (lent profile.now) true) codes.now budget order.old order.new work.old work.new costs.old costs.new result }
{
    let filled = termed_judge::fill_coded(work, profile, log, codes)?;
    closestfilled::answer(work, filled, profile, log, codes, budget, order, costs)
}

// The order closest to what was recorded, of a log with a day for each event and with terms, with a budget of pairs of a prefix and a state; refused as the
// judge with terms refuses, then by 17.
pub fn closest(
    profile: &Profile,
    log: &[u8],
    calendar: &Calendar,
    order: &mut [u8],
    work: &mut [u32],
    costs: &mut [u32],
    budget: u64,
) -> Result<Closest, Refusal>
    ensures { Promise (lent profile.now) log.now calendar.now.days.now calendar.now.terms.now budget order.old order.new work.old work.new costs.old costs.new result }
{
    term_checks::check_call(profile, log, calendar, order.len())?;
    let mut codes = [0u8; LONGEST];
    dates::code_events(log, calendar, &mut codes);
    let n = log.len();
    closest_coded(profile, log, &codes[0..n], order, work, costs, budget)
}
