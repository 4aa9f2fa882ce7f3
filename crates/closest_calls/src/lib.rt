// The calls for the closest order as C has them: Paper 10. They return the refusal's number, or 0. `capi` exports them.
#![tactic(auto)]

ghost use Rattle.std.specs.Prelude.{◌≡◌};
ghost use Rattle.profile.specs.Automata.{lent};
ghost use Rattle.closest_calls.specs.Calls.{Closing, TermClosing, closest_code, closest_told};

use closestanswer::Closest;
use profile::{Calendar, Profile, Refusal};

// Tells the place, the verdict, P, looks, the order's swaps and the floor.
fn tell_closest(answer: Result<Closest, Refusal>, told: &mut [u64; 6]) -> u32
    ensures { (result ≡ closest_code answer) × (told.new ≡ closest_told answer) }
{
    match answer {
        Err(r) => {
            *told = [refusals::place(r) as u64, 0, 0, 0, 0, 0];
            refusals::number(r)
        }
        Ok(Closest::NoOrder { prefixes, looks }) => {
            *told = [0, 0, prefixes as u64, looks, 0, 0];
            0
        }
        Ok(
            Closest::Order {
                prefixes,
                looks,
                swaps,
                floor,
            },
        ) => {
            *told = [0, 1, prefixes as u64, looks, swaps as u64, floor as u64];
            0
        }
    }
}

// The order closest to what was recorded.
pub fn closest(
    profile: &Profile,
    log: &[u8],
    order: &mut [u8],
    work: &mut [u32],
    costs: &mut [u32],
    budget: u64,
    told: &mut [u64; 6],
) -> u32
    ensures { Closing (lent profile.now) log.now budget order.old order.new work.old work.new costs.old costs.new result told.new }
{
    let answer = closest::closest(profile, log, order, work, costs, budget);
    tell_closest(answer, told)
}

// The same of a log with a day for each event and with terms.
pub fn closest_terms(
    profile: &Profile,
    log: &[u8],
    calendar: &Calendar,
    order: &mut [u8],
    work: &mut [u32],
    costs: &mut [u32],
    budget: u64,
    told: &mut [u64; 6],
) -> u32
    ensures { TermClosing (lent profile.now) log.now calendar.now.days.now calendar.now.terms.now budget order.old order.new work.old work.new costs.old costs.new result told.new }
{
    let answer = termed_closest::closest(profile, log, calendar, order, work, costs, budget);
    tell_closest(answer, told)
}
