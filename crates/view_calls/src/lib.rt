// A teacher's view as C has it: Paper 12. `capi` exports it.
#![tactic(auto)]

ghost use Rattle.profile.specs.Automata.{lent};
ghost use Rattle.view_calls.specs.ViewCalls.{Viewing};

use profile::Profile;

// The view: tells the refusal's number, or 0; place, verdict, P, looks.
pub fn view(
    profile: &Profile,
    visible: u32,
    log: &[u8],
    order: &mut [u8],
    work: &mut [u32],
    told: &mut [u64; 4],
) -> u32
    ensures { Viewing (lent profile.now) visible log.now order.old order.new work.old work.new result told.new }
{
    let viewed = view::view(profile, visible, log, order, work);
    answers::tell_judged(viewed, told)
}
