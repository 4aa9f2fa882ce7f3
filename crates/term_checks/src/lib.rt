// What the judge of a log with terms refuses before it builds its table: document 02, Paper 8.
#![tactic(auto)]

ghost use Rattle.std.specs.Prelude.{◌≡◌};
ghost use Rattle.profile.specs.Automata.{lent};
ghost use Rattle.profile.specs.Refusals.{refused_by, lowest};
ghost use Rattle.term_checks.specs.Admission.{dated_admission};

use profile::{Calendar, Profile, Refusal};

// The lowest refusal of 2, 4, 6, 7, 8, 14, 15, 16 and 9, where the order has n places.
pub fn check_call(
    profile: &Profile,
    log: &[u8],
    calendar: &Calendar,
    n: usize,
) -> Result<(), Refusal>
    ensures { refused_by result ≡ lowest (dated_admission (lent profile.now) log.now calendar.now.days.now calendar.now.terms.now n) }
{
    checks::check_profile(profile)?;
    logcheck::check_log(profile.shape.k, log)?;
    dates::check_terms(log, calendar)?;
    if n < log.len() {
        return Err(Refusal::ShortBuffer);
    }
    Ok(())
}
