// How large a table to buy: document 02, Paper 11.
#![tactic(auto)]

ghost use Rattle.std.specs.Prelude.{◌≡◌};
ghost use Rattle.ceiling.specs.Ceiling.{bounding};

use ceilings::HIGHEST_CEILING;
use profile::Refusal;

// A ceiling of P before the log is judged; refused by 2, 4, 7, 8, 18 and 19.
pub fn bound(k: usize, masks: &[u16], log: &[u8], groups: &[u16]) -> Result<u32, Refusal>
    ensures { result ≡ bounding k masks.now log.now groups.now }
{
    checks::check_relation(k, masks)?;
    logcheck::check_log(k, log)?;
    if grouping::groups_refused(k, masks, groups) {
        return Err(Refusal::BadGroups);
    }
    let counts = products::tally(log);
    let n = products::product(&counts, groups);
    if HIGHEST_CEILING < n {
        return Err(Refusal::HighCeiling);
    }
    Ok(n as u32)
}
