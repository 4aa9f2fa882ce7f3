// Comparison of two logs: document 01, "Comparison".
#![tactic(auto)]

ghost use Rattle.std.specs.Prelude.{◌≡◌, ◌||◌, ◌-◌, eqb};
ghost use Rattle.profile.specs.Lists.{all, equal?, range};
ghost use Rattle.profile.specs.Orders.{project, same?};
ghost use Rattle.profile.specs.Traces.{independent};
ghost use Rattle.comparison.specs.Comparison.{comparison, pair_agrees?};

use profile::Refusal;

// A refusal with the log that it is about: 1 or 2, and 0 for none.
// Kept: a number, as C is told it.
#[derive(Clone, Copy)]
pub struct RefusedLog {
    pub refusal: Refusal,
    pub log: usize,
}

// The letter is x or y.
fn is_kept(a: u8, x: usize, y: usize) -> bool
    ensures { result ≡ (eqb a x || eqb a y) }
{
    a as usize == x || a as usize == y
}

// The two logs are equal where only the letters x and y are kept.
fn agree(first: &[u8], second: &[u8], x: usize, y: usize) -> bool
    ensures { result ≡ equal? (project x y first.now) (project x y second.now) }
{
    let kept = first.iter().filter(|a| is_kept(**a, x, y));
    kept.eq(second.iter().filter(|a| is_kept(**a, x, y)))
}

// Letters x and y are exchanged both ways, or the two logs agree on them.
fn pair_agrees(masks: &[u16], first: &[u8], second: &[u8], x: usize, y: usize) -> bool
    ensures { result ≡ pair_agrees? masks.now first.now second.now x y }
{
    let mutual = commutation::independent(masks, x, y) && commutation::independent(masks, y, x);
    mutual || agree(first, second, x, y)
}

// So for x and every letter from x to k - 1; x with itself is the projection to one letter.
fn pairs_agree(k: usize, masks: &[u16], first: &[u8], second: &[u8], x: usize) -> bool
    ensures { result ≡ all (pair_agrees? masks.now first.now second.now x) (range x (k - x)) }
{
    (x..k).all(|y| pair_agrees(masks, first, second, x, y))
}

// The logs are the same: the projections to all pairs of letters that are not exchanged both ways agree.
fn all_agree(k: usize, masks: &[u16], first: &[u8], second: &[u8]) -> bool
    ensures { result ≡ same? (independent masks.now) k first.now second.now }
{
    (0..k).all(|x| pairs_agree(k, masks, first, second, x))
}

// Whether each log is reachable from the other; refused by 2 and 4, then by 7 and 8 of the first log, then of the second.
pub fn same(k: usize, masks: &[u16], first: &[u8], second: &[u8]) -> Result<bool, RefusedLog>
    ensures { result ≡ comparison k masks.now first.now second.now }
{
    checks::check_relation(k, masks).map_err(|refusal| RefusedLog { refusal, log: 0 })?;
    logcheck::check_log(k, first).map_err(|refusal| RefusedLog { refusal, log: 1 })?;
    logcheck::check_log(k, second).map_err(|refusal| RefusedLog { refusal, log: 2 })?;
    Ok(all_agree(k, masks, first, second))
}
