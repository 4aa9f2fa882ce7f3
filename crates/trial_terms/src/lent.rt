// The judge with terms on lent parts of guarded buffers, as `trial::calls` has the judge.
use profile::{Calendar, Profile};
use trial::answers::{Answer, of_judged};
use trial::guarded::Guarded;

pub fn judge_terms_in<const M: usize, const N: usize>(
    profile: &Profile,
    log: &[u8],
    calendar: &Calendar,
    order: &mut Guarded<u8, M>,
    table: &mut Guarded<u32, N>,
) -> Answer {
    of_judged(termed_judge::judge(profile, log, calendar, order.lend()?, table.lend()?))
}
