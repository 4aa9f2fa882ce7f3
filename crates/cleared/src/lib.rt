// The judge on the usable part of the table; after 10 nothing is left in it.
#![tactic(auto)]

ghost use Rattle.std.specs.Prelude.{◌≡◌, ◌≤◌, length};
ghost use Rattle.profile.specs.Automata.{lent, automaton};
ghost use Rattle.cleared.specs.Cleared.{Clean, answer, order_left, table_left, usable as usable_of};

use profile::limits::RECORD_NUMBERS;
use profile::{Profile, Refusal};
use verdict::Judged;

// The numbers of the table that have place for records.
fn usable(table: &[u32]) -> usize
    ensures { (result ≡ usable_of (length table.now)) × (result ≤ length table.now) }
{
    RECORD_NUMBERS * records::capacity(table)
}

// The judge, where 10 alone may apply; after 10 nothing is left in the table.
pub fn judge_cleared(
    profile: &Profile,
    log: &[u8],
    order: &mut [u8],
    work: &mut [u32],
) -> Result<Judged, Refusal>
    requires clean { Clean (lent profile.now) log.now }
    requires log_in_bounds { length log.now ≤ length order.old }
    ensures value { result ≡ answer (lent profile.now) (automaton (lent profile.now)) log.now (length order.old) (length work.old) }
    ensures order_after { order.new ≡ order_left (lent profile.now) (automaton (lent profile.now)) log.now (length work.old) order.old }
    ensures work_after { work.new ≡ table_left (lent profile.now) (automaton (lent profile.now)) log.now (length order.old) work.old }
{
    let room = usable(work);
    let told = verdict::judge(profile, log, order, &mut work[0..room]);
    if told.is_err() {
        work[0..room].fill(0);
    }
    told
}
