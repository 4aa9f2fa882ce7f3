// The first order of a log: document 01, "first order".
#![tactic(auto)]

ghost use Rattle.std.specs.Prelude.{◌≡◌, ◌++◌, map, ◌+◌, ◌≤◌, drop, get_or, length};
ghost use Rattle.std.proofs.Math.Option.{none};
ghost use Rattle.profile.specs.Lists.{below, first_place};
ghost use Rattle.profile.specs.Refusals.{log_refusals, lowest, relation_refusals};
ghost use Rattle.profile.specs.Traces.{independent};
ghost use Rattle.events.specs.Events.{comes_next?};
ghost use Rattle.order.specs.Order.{Placed, first_letters, ordered_buffer, ordering};

use events::Keepers;
use profile::limits::{MOST_LETTERS, MOST_PLACES, Place};
use profile::{Places, Refusal};

// The smallest letter that can come next; k where there is none.
// Kept: not an Option, as `put_letters` calls it while events are left, when some letter can come next, and would have a None to rule out.
fn least_next(keepers: &Keepers, n: usize, next: &[Place]) -> usize
    ensures { result ≡ first_place (comes_next? (independent keepers.now.masks.now) keepers.now.k n next.now) (below keepers.now.k) }
{
    let k = keepers.k;
    (0..k)
        .position(|a| events::comes_next(keepers, n, next, a))
        .unwrap_or(k)
}

// The place of the first event of each letter that `next` has an element for.
fn first_places(placed: &Places, next: &mut [Place])
    ensures { next.new ≡ map (λ x. get_or placed.now.places.now (get_or placed.now.starts.now x 0 + 0) 0) (below (length next.old)) }
{
    for (x, place) in next.iter_mut().enumerate() {
        *place = places::next_place(placed, x, 0);
    }
}

// Takes every event of the log, each time the smallest letter that can come next, and writes the letters.
fn put_letters(
    keepers: &Keepers,
    log: &[u8],
    placed: &Places,
    next: &mut [Place],
    used: &mut [Place],
    out: &mut [u8],
)
    requires { Placed keepers.now.k keepers.now.masks.now log.now placed.now.starts.now placed.now.places.now next.old used.old out.old }
    ensures { out.new ≡ first_letters keepers.now.masks.now log.now ++ drop (length log.now) out.old }
{
    first_places(placed, next);
    let n = log.len();
    for t in 0..n {
        let a = least_next(keepers, n, next);
        out[t] = a as u8;
        let m = used[a] + 1;
        used[a] = m;
        next[a] = places::next_place(placed, a, m);
    }
}

// Writes the first order of a log that is not refused.
fn put_first(k: usize, masks: &[u16], log: &[u8], out: &mut [u8])
    requires { (lowest (relation_refusals k masks.now) ≡ none) × (lowest (log_refusals k log.now) ≡ none) × (length log.now ≤ length out.old) }
    ensures { out.new ≡ first_letters masks.now log.now ++ drop (length log.now) out.old }
{
    let keepers = Keepers::of(masks, k);
    let mut starts: [Place; MOST_LETTERS] = [0; MOST_LETTERS];
    let mut places: [Place; MOST_PLACES] = [0; MOST_PLACES];
    places::place_events(log, k, &mut starts, &mut places);
    let mut next: [Place; MOST_LETTERS] = [0; MOST_LETTERS];
    let mut used: [Place; MOST_LETTERS] = [0; MOST_LETTERS];
    put_letters(
        &keepers,
        log,
        &Places {
            starts: &starts,
            places: &places,
        },
        &mut next[0..k],
        &mut used,
        out,
    );
}

// Writes the earliest log reachable from the log to the first bytes of the buffer; refused by 2, 4, 7, 8 and 9.
pub fn first_order(k: usize, masks: &[u16], log: &[u8], out: &mut [u8]) -> Result<(), Refusal>
    ensures { (result ≡ ordering k masks.now log.now (length out.old))
        × (out.new ≡ ordered_buffer k masks.now log.now out.old) }
{
    checks::check_relation(k, masks)?;
    logcheck::check_log(k, log)?;
    if out.len() < log.len() {
        return Err(Refusal::ShortBuffer);
    }
    put_first(k, masks, log, out);
    Ok(())
}
