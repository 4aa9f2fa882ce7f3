// The events of each letter, of each group, and their product: document 02, Paper 11.
#![tactic(auto)]

ghost use Rattle.std.specs.Prelude.{cond, map, ◌≡◌, ◌+◌, ◌≤◌, min, T, length};
ghost use Rattle.profile.specs.Limits.{longest, most_letters};
ghost use Rattle.profile.specs.Lists.{below};
ghost use Rattle.profile.specs.Prefixes.{at, count};
ghost use Rattle.profile.specs.Traces.{bit, letters_below};
ghost use Rattle.ceilings.specs.Ceilings.{highest_ceiling};
ghost use Rattle.products.specs.Products.{product_of, size_of};

use ceilings::HIGHEST_CEILING;
use profile::limits::MOST_LETTERS;

// What is told of a product above the highest ceiling.
const PASSED: u64 = HIGHEST_CEILING + 1;

// How many events each letter has, by one pass over the log.
pub fn tally(log: &[u8]) -> [u16; MOST_LETTERS]
    requires { (length log.now ≤ longest) × T (letters_below (λ a. a) most_letters log.now) }
    ensures { result ≡ map (count (λ a. a) log.now) (below most_letters) }
{
    let mut counts = [0u16; MOST_LETTERS];
    for at in 0..log.len() {
        let a = log[at] as usize;
        counts[a] = counts[a] + 1;
    }
    counts
}

// How many events letter x has if it is in the group, and 0 if not.
fn part(counts: &[u16], group: u16, x: usize) -> u64
    ensures { (result ≡ cond (bit group x) (at counts.now x) 0) × (result ≤ 65535) }
{
    if !ceilings::has(group, x) {
        return 0;
    }
    if counts.len() <= x {
        return 0;
    }
    counts[x] as u64
}

// How many events the letters of the group have.
fn size(counts: &[u16], group: u16) -> u64
    ensures { (result ≡ size_of counts.now group) × (result ≤ 1048560) }
{
    let mut n = 0u64;
    for x in 0..MOST_LETTERS {
        n = n + part(counts, group, x);
    }
    n
}

// The product, over the groups, of one plus the group's events; one above the highest that is told where it is higher, known as soon as it is passed.
pub fn product(counts: &[u16], groups: &[u16]) -> u64
    ensures { result ≡ min (product_of counts.now groups.now) (highest_ceiling + 1) }
{
    let mut n = 1u64;
    for group in groups.iter() {
        let more = n * (size(counts, *group) + 1);
        if HIGHEST_CEILING < more {
            return PASSED;
        }
        n = more;
    }
    n
}
