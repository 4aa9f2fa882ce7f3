// The numbers of a turn, for code; `specs/Turns.antt` has the same names.
#![tactic(auto)]

use profile::limits::Place;

// What the place in a turn stays below, and the term behind the last event.
pub const PLACE_BOUND: Place = 4096;

pub const PAST_TERMS: Place = 15;
