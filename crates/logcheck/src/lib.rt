// The check of a log: refusals 7 and 8.
#![tactic(auto)]

ghost use Rattle.std.specs.Prelude.{◌≡◌, Some, None, if◌then◌else◌};
ghost use Rattle.profile.specs.Refusals.{bad_letter, refused_by, log_refusals, lowest};
ghost use Rattle.profile.specs.Refusals.{bad_place as bad_place_of};

use profile::Refusal;
use profile::limits::LONGEST;

// 8: the first place of a log byte of k or more.
fn bad_place(k: usize, log: &[u8]) -> Option<usize>
    ensures { result ≡ (if bad_letter k log.now then Some (bad_place_of k log.now) else None) }
{
    log.iter().position(|letter| k <= *letter as usize)
}

// The lowest of refusals 7 and 8 that applies to a log.
pub fn check_log(k: usize, log: &[u8]) -> Result<(), Refusal>
    ensures { refused_by result ≡ lowest (log_refusals k log.now) }
{
    if LONGEST < log.len() {
        return Err(Refusal::LongLog);
    }
    match bad_place(k, log) {
        Some(at) => Err(Refusal::BadLetter(at)),
        None => Ok(()),
    }
}
