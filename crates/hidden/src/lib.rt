// Hidden letters: the states that they reach, the moves with hidden letters before each letter, the final states with hidden letters before them.
#![tactic(auto)]

ghost use Rattle.std.specs.Prelude.{◌≡◌, cond, not, ◌++◌, map, ◌*◌, ◌≤◌, ◌<◌, drop, get_or, length};
ghost use Rattle.std.specs.Int.Bits.{bit_or};
ghost use Rattle.profile.specs.Limits.{most_letters, most_states};
ghost use Rattle.profile.specs.Automata.{lent};
ghost use Rattle.profile.specs.Lists.{below};
ghost use Rattle.profile.specs.Traces.{bit};
ghost use Rattle.views.specs.Views.{reach as reach_of, unseen as unseen_of};
ghost use Rattle.hidden.specs.Hidden.{late_move, led_into, widened as widened_by};

use profile::Profile;
use steps::{leads_from, meet, step_forward};

// The set, and with it what letter a leads to where the mask lacks the letter.
fn with_hidden(set: u32, visible: u32, a: usize, to: u32) -> u32
    requires { a < most_letters }
    ensures { result ≡ cond (not (bit visible a)) (bit_or set to) set }
{
    if (visible >> a) & 1 == 1 {
        set
    } else {
        set | to
    }
}

// State q and the states to which one hidden letter leads from it.
fn unseen(profile: &Profile, visible: u32, q: usize) -> u32
    requires { (profile.now.shape.k ≤ most_letters) × (q < most_states) }
    ensures { result ≡ unseen_of (lent profile.now) visible q }
{
    let k = profile.shape.k;
    let mut out = 0u32;
    for a in 0..k {
        let to = leads_from(profile.moves, k, q, a);
        out = with_hidden(out, visible, a, to);
    }
    (1u32 << q) | out
}

// Puts the sets of states that at most one hidden letter reaches.
fn put_unseen(profile: &Profile, visible: u32, reach: &mut [u32])
    requires { (profile.now.shape.k ≤ most_letters) × (profile.now.shape.s ≤ most_states) × (profile.now.shape.s ≤ length reach.old) }
    ensures { reach.new ≡ map (unseen_of (lent profile.now) visible) (below profile.now.shape.s) ++ drop profile.now.shape.s reach.old }
{
    for q in 0..profile.shape.s {
        let to = unseen(profile, visible, q);
        reach[q] = to;
    }
}

// The set, and with it another where it has state n.
fn widened(set: u32, over: u32, n: usize) -> u32
    requires { n < most_states }
    ensures { result ≡ widened_by over n set }
{
    if meet(set, 1u32 << n) {
        set | over
    } else {
        set
    }
}

// Adds to each set that has state n what is reached from n.
fn pass(reach: &mut [u32], s: usize, n: usize)
    requires { (s ≤ most_states) × (n < s) × (s ≤ length reach.old) }
    ensures { reach.new ≡ map (λ q. widened_by (get_or reach.old n 0) n (get_or reach.old q 0)) (below s) ++ drop s reach.old }
{
    let over = reach[n];
    for q in 0..s {
        let to = widened(reach[q], over, n);
        reach[q] = to;
    }
}

// Puts, for each state, the states that hidden letters reach from it.
pub fn put_reach(profile: &Profile, visible: u32, reach: &mut [u32])
    requires { (profile.now.shape.k ≤ most_letters) × (profile.now.shape.s ≤ most_states) × (profile.now.shape.s ≤ length reach.old) }
    ensures { reach.new ≡ map (reach_of (lent profile.now) visible) (below profile.now.shape.s) ++ drop profile.now.shape.s reach.old }
{
    let s = profile.shape.s;
    put_unseen(profile, visible, reach);
    for n in 0..s {
        pass(reach, s, n);
    }
}

// Puts the moves with hidden letters before each letter.
pub fn put_moves(profile: &Profile, reach: &[u32], late: &mut [u32])
    requires { (1 ≤ profile.now.shape.k) × (profile.now.shape.k ≤ most_letters) × (profile.now.shape.s ≤ most_states) × (profile.now.shape.s ≤ length reach.now) × (profile.now.shape.s * profile.now.shape.k ≤ length late.old) }
    ensures { late.new ≡ map (late_move (lent profile.now) reach.now) (below (profile.now.shape.s * profile.now.shape.k)) ++ drop (profile.now.shape.s * profile.now.shape.k) late.old }
{
    let k = profile.shape.k;
    let s = profile.shape.s;
    for j in 0..s * k {
        let to = step_forward(profile.moves, k, s, reach[j / k], j % k);
        late[j] = to;
    }
}

// The states from which hidden letters lead into a set.
pub fn led_into(reach: &[u32], s: usize, set: u32) -> u32
    requires { (s ≤ most_states) × (s ≤ length reach.now) }
    ensures { result ≡ led_into s reach.now set }
{
    let mut out = 0u32;
    for q in 0..s {
        if meet(reach[q], set) {
            out = out | (1u32 << q);
        }
    }
    out
}
