// The places of each letter's events in a log.
#![tactic(auto)]

ghost use Rattle.std.specs.Prelude.{◌≡◌, ◌++◌, map, ◌+◌, ◌≤◌, length, get_or, drop};
ghost use Rattle.std.proofs.lemmas.List.Edits.{sets};
ghost use Rattle.profile.specs.Lists.{below};
ghost use Rattle.profile.specs.Limits.{longest, most_letters, most_places};
ghost use Rattle.places.specs.Places.{place_start, place_table, places_of};

use profile::Places;
use profile::limits::Place;

// Puts the places of letter x, and the log's length behind them, from `at` on; tells where the next letter's begin.
fn put_places(log: &[u8], x: usize, places: &mut [Place], at: usize) -> usize
    requires { (length log.now ≤ longest) × (at + length (places_of log.now x) ≤ length places.old) }
    ensures { (result ≡ at + length (places_of log.now x)) × (places.new ≡ sets places.old at (places_of log.now x)) }
{
    let mut to = at;
    for (i, letter) in log.iter().enumerate() {
        let a = *letter as usize;
        if a == x {
            places[to] = i as Place;
            to += 1;
        }
    }
    places[to] = log.len() as Place;
    to + 1
}

// Puts the places of the letters below k, and where those of each letter begin.
pub fn place_events(log: &[u8], k: usize, starts: &mut [Place], places: &mut [Place])
    requires { (k ≤ most_letters) × (length log.now ≤ longest) × (length starts.old ≡ most_letters) × (length places.old ≡ most_places) }
    ensures { (starts.new ≡ map (place_start log.now) (below k) ++ drop k starts.old)
        × (places.new ≡ place_table k log.now ++ drop (length (place_table k log.now)) places.old) }
{
    let mut at = 0;
    for x in 0..k {
        starts[x] = at as Place;
        at = put_places(log, x, places, at);
    }
}

// What stands at place i; 0 past the end.
pub fn place_at(places: &[Place], i: usize) -> Place
    ensures { result ≡ get_or places.now i 0 }
{
    if i < places.len() { places[i] } else { 0 }
}

// The place of the event of letter x that has n before it.
pub fn next_place(placed: &Places, x: usize, n: Place) -> Place
    ensures { result ≡ get_or placed.now.places.now (get_or placed.now.starts.now x 0 + n) 0 }
{
    let start = place_at(placed.starts, x) as usize;
    place_at(placed.places, start + n as usize)
}
