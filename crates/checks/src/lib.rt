// The checks of a relation and a profile: refusals 2, 4 and 6.
#![tactic(auto)]

ghost use Rattle.std.specs.Prelude.{◌||◌, ◌≡◌};
ghost use Rattle.profile.specs.Lists.{any};
ghost use Rattle.profile.specs.Automata.{lent};
ghost use Rattle.profile.specs.Refusals.{bit_from, refused_by, letters_out_of_range, lowest, mask_bit, profile_refusals, relation_refusals};
ghost use Rattle.profile.specs.Refusals.{profile_out_of_range as profile_out_of_range_by};

use profile::limits::{MOST_LETTERS, MOST_STATES};
use profile::{Profile, Refusal};

// 2: k out of range, or the masks not exactly k long.
fn relation_out_of_range(k: usize, masks: &[u16]) -> bool
    ensures { result ≡ letters_out_of_range k masks.now }
{
    if k < 1 {
        return true;
    }
    if MOST_LETTERS < k {
        return true;
    }
    masks.len() != k
}

// 2: k, s or start out of range, or masks or moves not exactly k and s × k long.
fn profile_out_of_range(profile: &Profile) -> bool
    ensures { result ≡ profile_out_of_range_by (lent profile.now) }
{
    let k = profile.shape.k;
    let s = profile.shape.s;
    let start = profile.shape.start;
    if relation_out_of_range(k, profile.masks) {
        return true;
    }
    if s < 1 {
        return true;
    }
    if MOST_STATES < s {
        return true;
    }
    if s <= start {
        return true;
    }
    profile.moves.len() != s * k
}

// The set has a bit from n on.
pub fn set_from(set: u32, n: usize) -> bool
    ensures { result ≡ bit_from n set }
{
    if 32 <= n {
        return false;
    }
    0 < set >> n
}

// 4: a mask with a bit from k on, or its own bit.
fn mask_refused(k: usize, masks: &[u16]) -> bool
    ensures { result ≡ mask_bit k masks.now }
{
    (0..masks.len()).any(|i| set_from(masks[i] as u32, k) || commutation::independent(masks, i, i))
}

// A move with a bit from s on.
fn move_refused(moves: &[u32], s: usize) -> bool
    ensures { result ≡ any (bit_from s) moves.now }
{
    moves.iter().any(|set| set_from(*set, s))
}

// 6: a move or the final set with a bit from s on.
fn states_refused(finals: u32, moves: &[u32], s: usize) -> bool
    ensures { result ≡ (bit_from s finals || any (bit_from s) moves.now) }
{
    if set_from(finals, s) {
        return true;
    }
    move_refused(moves, s)
}

// The lowest of refusals 2 and 4 that applies to k and the masks.
pub fn check_relation(k: usize, masks: &[u16]) -> Result<(), Refusal>
    ensures { refused_by result ≡ lowest (relation_refusals k masks.now) }
{
    if relation_out_of_range(k, masks) {
        Err(Refusal::OutOfRange)
    } else if mask_refused(k, masks) {
        Err(Refusal::MaskBit)
    } else {
        Ok(())
    }
}

// The lowest of refusals 2, 4 and 6 that applies to a profile.
pub fn check_profile(profile: &Profile) -> Result<(), Refusal>
    ensures { refused_by result ≡ lowest (profile_refusals (lent profile.now)) }
{
    let k = profile.shape.k;
    let s = profile.shape.s;
    let finals = profile.shape.finals;
    if profile_out_of_range(profile) {
        return Err(Refusal::OutOfRange);
    }
    if mask_refused(k, profile.masks) {
        return Err(Refusal::MaskBit);
    }
    if states_refused(finals, profile.moves, s) {
        return Err(Refusal::StateBit);
    }
    Ok(())
}
