// The letters that can be added to a prefix of a log with terms, given by its packed counts: document 02, Paper 8.
#![tactic(auto)]

ghost use Rattle.std.specs.Prelude.{◌≡◌, true, ◌&&◌, ◌<◌};
ghost use Rattle.profile.specs.Traces.{independent};
ghost use Rattle.events.specs.Events.{comes_next?};
ghost use Rattle.term_events.specs.InTerms.{in_term?};
ghost use Rattle.term_letters.specs.Letters.{letters_found};

use counts::Counts;
use events::Keepers;
use letters::{Finder, Letters};
use profile::Places;
use profile::limits::{MOST_LETTERS, Place};

// A finder by the places and turns of the events of a log of n events with terms.
#[derive(Clone, Copy)]
pub struct InTerms<'a> {
    pub keepers: &'a Keepers<'a>,
    pub n: usize,
    pub placed: &'a Places<'a>,
    pub turns: &'a [Place],
}

// Letter x of a log of n events with terms can come next.
fn comes_in_term(keepers: &Keepers, n: usize, next: &[Place], turns: &[Place], x: usize) -> bool
    requires { x < keepers.now.k }
    ensures { result ≡ (comes_next? (independent keepers.now.masks.now) keepers.now.k n next.now x && in_term? keepers.now.k next.now turns.now x) }
{
    if !events::comes_next(keepers, n, next, x) {
        return false;
    }
    term_events::in_term(keepers.k, next, turns, x)
}

impl Finder for InTerms<'_> {
    ghost termed = { true };

    ghost found = { λ by. letters_found true (independent by.keepers.now.masks.now) by.keepers.now.k by.n by.placed.now.starts.now by.placed.now.places.now by.turns.now };

    fn addable(&self, c: Counts) -> Letters {
        let keepers = self.keepers;
        let k = keepers.k;
        let mut next: [Place; MOST_LETTERS] = [0; MOST_LETTERS];
        letters::next_places(c, k, self.placed, &mut next);
        let mut after: [Place; MOST_LETTERS] = [0; MOST_LETTERS];
        letters::next_places(
            c,
            k,
            &Places {
                starts: self.placed.starts,
                places: self.turns,
            },
            &mut after,
        );
        let mut set = 0u32;
        let mut number = 0u32;
        for x in 0..k {
            if comes_in_term(keepers, self.n, &next, &after, x) {
                set |= 1u32 << x;
                number += 1;
            }
        }
        Letters { set, number }
    }

    // A letter that may pass another may still stand in an earlier term: all are tested.
    fn addable_with(&self, c: Counts, _handed: u32, _passed: u32) -> u32 {
        let found = self.addable(c);
        found.set
    }
}
