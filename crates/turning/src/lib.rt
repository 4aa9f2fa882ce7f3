// For each event of a log with terms its term, and where the next event of its letter stands that is in another term: document 02, Paper 8.
#![tactic(auto)]

ghost use Rattle.std.specs.Prelude.{◌≡◌, cond, ◌++◌, ◌+◌, ◌/◌, ◌%◌, ◌≤◌, ◌<◌, T, eqb, ltb, length, drop};
ghost use Rattle.std.proofs.lemmas.List.Edits.{sets};
ghost use Rattle.profile.specs.Limits.{longest, most_letters};
ghost use Rattle.profile.specs.Lists.{all};
ghost use Rattle.profile.specs.Traces.{letters_below};
ghost use Rattle.terms.specs.Coded.{code_letter, code_term};
ghost use Rattle.turns.specs.Turns.{past_terms, place_bound, turn as turn_at, turn_table, turns_of};

use profile::limits::Place;
use terms::TERM_BOUND;
use turns::{PAST_TERMS, PLACE_BOUND};

// The turn of an event of term t, from the turn and the place of the next event of its letter.
fn turn_before(t: Place, turn: Place, next: Place) -> Place
    requires { (t < past_terms) × (next < place_bound) }
    ensures { result ≡ turn_at t (cond (eqb (turn / place_bound) t) (turn % place_bound) next) }
{
    if turn / PLACE_BOUND == t {
        turn
    } else {
        PLACE_BOUND * t + next
    }
}

// Puts the turns of letter x, so that they end before `end`; tells where they begin.
fn put_turns_of(events: &[u8], x: usize, turns: &mut [Place], end: usize) -> usize
    requires { (length events.now ≤ longest) × T (all (λ e. ltb (code_term e) past_terms) events.now) × (length (turns_of events.now x) ≤ end) × (end ≤ length turns.old) }
    ensures { (result + length (turns_of events.now x) ≡ end) × (turns.new ≡ sets turns.old result (turns_of events.now x)) }
{
    let n = events.len();
    let mut next = n as Place;
    let mut turn = PLACE_BOUND * PAST_TERMS + next;
    let mut to = end - 1;
    turns[to] = turn;
    for i in (0..n).rev() {
        let e = events[i];
        if (e / TERM_BOUND) as usize == x {
            turn = turn_before((e % TERM_BOUND) as Place, turn, next);
            next = i as Place;
            to -= 1;
            turns[to] = turn;
        }
    }
    to
}

// Puts the turns of the letters below k, the last letter first.
pub fn put_turns(events: &[u8], k: usize, turns: &mut [Place])
    requires { (length events.now ≤ longest) × (k ≤ most_letters) × T (letters_below code_letter k events.now) × T (all (λ e. ltb (code_term e) past_terms) events.now) × (length events.now + k ≤ length turns.old) }
    ensures { turns.new ≡ turn_table k events.now ++ drop (length (turn_table k events.now)) turns.old }
{
    let mut to = events.len() + k;
    for x in (0..k).rev() {
        to = put_turns_of(events, x, turns, to);
    }
}
