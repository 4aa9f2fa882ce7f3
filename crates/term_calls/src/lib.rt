// The judge of a log with terms as C has it: document 02, Paper 8. `capi` exports it.
#![tactic(auto)]

ghost use Rattle.profile.specs.Automata.{lent};
ghost use Rattle.term_calls.specs.TermCalls.{TermJudging};

use profile::{Calendar, Profile};

// Returns the refusal's number, or 0; tells the place, the verdict, P and looks.
pub fn judge(
    profile: &Profile,
    log: &[u8],
    calendar: &Calendar,
    order: &mut [u8],
    work: &mut [u32],
    told: &mut [u64; 4],
) -> u32
    ensures { TermJudging (lent profile.now) log.now calendar.now.days.now calendar.now.terms.now order.old order.new work.old work.new result told.new }
{
    let judged = termed_judge::judge(profile, log, calendar, order, work);
    answers::tell_judged(judged, told)
}
