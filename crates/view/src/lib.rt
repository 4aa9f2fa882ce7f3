// A teacher's view: Paper 12. The letters that the mask has are copied from the log; all that is told follows from these.
#![tactic(auto)]

ghost use Rattle.profile.specs.Automata.{lent};
ghost use Rattle.view.specs.Viewing.{Viewed};

use profile::limits::LONGEST;
use profile::{Profile, Refusal};
use verdict::Judged;

// What a teacher who sees the letters of the mask is told of a log; refused by 2, 4, 6, 20, 7, 8, 9 and 10.
pub fn view(
    profile: &Profile,
    visible: u32,
    log: &[u8],
    order: &mut [u8],
    work: &mut [u32],
) -> Result<Judged, Refusal>
    ensures { Viewed (lent profile.now) visible log.now order.old order.new work.old work.new result }
{
    visible::check_entry(profile, visible, log)?;
    let k = profile.shape.k;
    // Kept: an array with place for the longest log, of which the first n letters are used, since there is no heap.
    let mut part = [0u8; LONGEST];
    let n = visible::put_seen(visible, k, log, &mut part);
    if order.len() < n {
        return Err(Refusal::ShortBuffer);
    }
    seeing::view_seen(profile, visible, &part[0..n], order, work)
}
