// The judge: document 01, "The judge".
#![tactic(auto)]

ghost use Rattle.std.specs.Prelude.{Bool, ◌≡◌, [], ◌∷◌, ◌++◌, true, ◌≤◌, length};
ghost use Rattle.std.proofs.Math.Option.{some};
ghost use Rattle.profile.specs.Automata.{lent};
ghost use Rattle.profile.specs.Rules.{order_by};
ghost use Rattle.terms.specs.Coded.{rules_of};
ghost use Rattle.profile.specs.Refusals.{log_refusals, lowest, profile_refusals};
ghost use Rattle.profile.specs.declared.Refusal.TheVariants.{ShortBuffer};
ghost use Rattle.earliest.specs.Earliest.{Table, found?, record_count, with_order};
ghost use Rattle.verdict.specs.Verdict.{Promise};

use profile::{Profile, Refusal};
use table::Filled;

// The answer of the judge where nothing is refused: the verdict, P and looks.
#[derive(Clone, Copy)]
pub enum Judged {
    NoOrder { prefixes: usize, looks: u64 },
    Order { prefixes: usize, looks: u64 },
}

// The lowest refusal of a call whose order buffer is too short: one of the profile, one of the log, or 9.
// Kept: it gives a refusal whatever the checks say, so there is no `Ok` for a `?` to go on with.
pub fn refusal_of_short(profile: &Profile, log: &[u8]) -> Refusal
    ensures { some result
        ≡ lowest (profile_refusals (lent profile.now) ++ (log_refusals profile.now.shape.k log.now ++ ((true, ShortBuffer) ∷ []))) }
{
    if let Err(r) = checks::check_profile(profile) {
        return r;
    }
    if let Err(r) = logcheck::check_log(profile.shape.k, log) {
        return r;
    }
    Refusal::ShortBuffer
}

// Writes the earliest accepted order, if there is one, and tells whether there is.
pub fn put_verdict(
    table: &[u32],
    records: usize,
    profile: &Profile,
    log: &[u8],
    order: &mut [u8],
) -> bool
    ghost termed: { Bool }
    requires table { Table (rules_of (lent profile.now) termed) log.now table.now }
    requires records_value { records ≡ record_count (rules_of (lent profile.now) termed) log.now }
    requires log_in_bounds { length log.now ≤ length order.old }
    ensures value { result ≡ found? (order_by (rules_of (lent profile.now) termed) log.now) }
    ensures order_after { order.new ≡ with_order (order_by (rules_of (lent profile.now) termed) log.now) order.old }
{
    if !earliest::has_order(table, profile, log) {
        return false;
    }
    earliest::put_order(table, records, profile, log, order);
    true
}

// The verdict of a log, with its order, P and looks; refused by 2, 4 and 6 to 10.
pub fn judge(
    profile: &Profile,
    log: &[u8],
    order: &mut [u8],
    work: &mut [u32],
) -> Result<Judged, Refusal>
    ensures { Promise (lent profile.now) log.now order.old order.new work.old work.new result }
{
    if order.len() < log.len() {
        return Err(refusal_of_short(profile, log));
    }
    let Filled { prefixes, looks } = table::build(profile, log, work)?;
    if put_verdict(work, prefixes, profile, log, order) {
        Ok(Judged::Order { prefixes, looks })
    } else {
        Ok(Judged::NoOrder { prefixes, looks })
    }
}
