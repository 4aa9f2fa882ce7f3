// In a log with terms, by the places and turns of each letter's next event, with no scan of the log, whether a letter's next event passes events of its own
// term only.
#![tactic(auto)]

ghost use Rattle.std.specs.Prelude.{◌≡◌};
ghost use Rattle.profile.specs.Prefixes.{at};
ghost use Rattle.term_events.specs.InTerms.{in_term?, lets_in?};

use places::place_at;
use profile::limits::Place;
use turns::PLACE_BOUND;

// Letter y is x, or its next event is later than that of x, or the events of y that x would pass are in its term.
fn lets_in(next: &[Place], turns: &[Place], x: usize, y: usize) -> bool
    ensures { result ≡ lets_in? (at next.now) (at turns.now) x y }
{
    if y == x {
        return true;
    }
    let own = place_at(next, x);
    if own < place_at(next, y) {
        return true;
    }
    let turn = place_at(turns, y);
    if turn / PLACE_BOUND != place_at(turns, x) / PLACE_BOUND {
        return false;
    }
    own < turn % PLACE_BOUND
}

// No letter below k keeps x from coming next by its term.
pub fn in_term(k: usize, next: &[Place], turns: &[Place], x: usize) -> bool
    ensures { result ≡ in_term? k next.now turns.now x }
{
    for y in 0..k {
        if !lets_in(next, turns, x, y) {
            return false;
        }
    }
    true
}
