// By the places of each letter's next event, with no scan of the log, whether a letter can be added to a prefix.
#![tactic(auto)]

ghost use Rattle.std.specs.Prelude.{◌≡◌, ◌≤◌, ◌<◌};
ghost use Rattle.profile.specs.Limits.{most_letters};
ghost use Rattle.profile.specs.Traces.{independent as independent_by};
ghost use Rattle.events.specs.Events.{all_keepers, comes_next?, keepers, keeps?};

use places::place_at;
use profile::limits::{MOST_LETTERS, Place};

// Letter y keeps x from coming next while its next event is earlier: it is another letter, and x may not pass it.
fn keeps(masks: &[u16], x: usize, y: usize) -> bool
    ensures { result ≡ keeps? (independent_by masks.now) x y }
{
    if y == x {
        return false;
    }
    !commutation::independent(masks, y, x)
}

// The set of the letters below k that keep x.
fn keepers_of(masks: &[u16], k: usize, x: usize) -> u32
    requires { k ≤ most_letters }
    ensures { result ≡ keepers (independent_by masks.now) k x }
{
    let mut set = 0u32;
    for y in 0..k {
        if keeps(masks, x, y) {
            set = set | (1u32 << y);
        }
    }
    set
}

// The sets of the letters below k that keep each letter from coming next, by the masks: made once for all prefixes.
#[derive(Clone, Copy)]
pub struct Keepers<'a> {
    pub masks: &'a [u16],
    pub k: usize,
    pub sets: [u32; MOST_LETTERS],
    pub ghost few: { k ≤ most_letters },
    pub ghost kept: { sets ≡ all_keepers (independent_by masks.now) k },
}

// The set of the letters below k that keep each letter.
pub fn all_keepers(masks: &[u16], k: usize) -> [u32; MOST_LETTERS]
    requires { k ≤ most_letters }
    ensures { result ≡ all_keepers (independent_by masks.now) k }
{
    let mut sets = [0u32; MOST_LETTERS];
    for (x, set) in sets.iter_mut().enumerate() {
        *set = keepers_of(masks, k, x);
    }
    sets
}

impl<'a> Keepers<'a> {
    pub fn of(masks: &'a [u16], k: usize) -> Keepers<'a>
        requires { k ≤ most_letters }
        ensures masks { result.masks.now ≡ masks.now }
        ensures k { result.k ≡ k }
    {
        let sets = all_keepers(masks, k);
        Keepers { masks, k, sets }
    }
}

// Letter x can come next: it has an event left, and each letter that keeps it has its next event later. Each turn takes the lowest of those
// letters out of the set that is left.
pub fn comes_next(keepers: &Keepers, n: usize, next: &[Place], x: usize) -> bool
    requires { x < keepers.now.k }
    ensures { result ≡ comes_next? (independent_by keepers.now.masks.now) keepers.now.k n next.now x }
{
    let own = place_at(next, x);
    if n <= own as usize {
        return false;
    }
    let mut rest = keepers.sets[x];
    while rest != 0 {
        let y = u32::trailing_zeros(rest) as usize;
        if place_at(next, y) <= own {
            return false;
        }
        rest = rest & (rest - 1);
    }
    true
}
