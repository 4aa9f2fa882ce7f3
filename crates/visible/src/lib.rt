// The visible part of a log: the checks of a view, and the letters that a teacher sees.
#![tactic(auto)]

ghost use Rattle.std.specs.Prelude.{◌≡◌, [], ◌∷◌, ◌+◌, ◌≤◌, ◌<◌, length, take};
ghost use Rattle.profile.specs.Automata.{lent};
ghost use Rattle.profile.specs.Limits.{longest, most_letters};
ghost use Rattle.profile.specs.Refusals.{bit_from, refused_by, lowest};
ghost use Rattle.profile.specs.declared.Refusal.TheVariants.{ViewBit};
ghost use Rattle.theory.proofs.Refusals.{GoodLog};
ghost use Rattle.views.specs.Views.{entry_refusals, seen};

use profile::{Profile, Refusal};

// 20: the mask has a bit from k on.
fn check_mask(k: usize, visible: u32) -> Result<(), Refusal>
    ensures { refused_by result ≡ lowest ((bit_from k visible, ViewBit) ∷ []) }
{
    if checks::set_from(visible, k) {
        Err(Refusal::ViewBit)
    } else {
        Ok(())
    }
}

// The lowest of refusals 2, 4, 6, 20, 7 and 8 that applies, in this order.
pub fn check_entry(profile: &Profile, visible: u32, log: &[u8]) -> Result<(), Refusal>
    ensures { refused_by result ≡ lowest (entry_refusals (lent profile.now) visible log.now) }
{
    let k = profile.shape.k;
    checks::check_profile(profile)?;
    check_mask(k, visible)?;
    logcheck::check_log(k, log)
}

// One more than n where the mask has letter a, else n.
fn place_after(visible: u32, a: usize, n: usize) -> usize
    requires { (a < most_letters) × (n < longest) }
    ensures { result ≡ n + length (seen visible (a ∷ [])) }
{
    if (visible >> a) & 1 == 1 { n + 1 } else { n }
}

// Copies the visible letters of the log, in their order, and tells how many they are. Each letter is put; one that is not visible is put over.
pub fn put_seen(visible: u32, k: usize, log: &[u8], part: &mut [u8]) -> usize
    requires { (k ≤ most_letters) × (length part.old ≡ longest) × GoodLog k log.now }
    ensures { (result ≡ length (seen visible log.now)) × (take result part.new ≡ seen visible log.now) }
{
    let mut n = 0;
    for a in log {
        part[n] = *a;
        n = place_after(visible, *a as usize, n);
    }
    n
}
