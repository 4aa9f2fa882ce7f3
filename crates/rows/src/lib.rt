// The moves by letter, and the steps by them.
#![tactic(auto)]

ghost use Rattle.std.specs.Prelude.{◌≡◌, ◌≤◌, ◌<◌};
ghost use Rattle.profile.specs.Automata.{backward_step, forward_step};
ghost use Rattle.profile.specs.Limits.{most_letters, most_states};
ghost use Rattle.rows.specs.Rows.{backward_by as backward_at, by_letter, forward_by as forward_at, led as led_at};

use profile::Profile;
use profile::limits::{MOST_MOVES, MOST_STATES};
use steps::{leads_from, meet};

// The numbers of a letter's row.
const ROW: usize = MOST_STATES;

// A profile with its moves by letter, so that a step reads numbers that stand in a row.
#[derive(Drop)]
pub struct Rows<'a, 'b> {
    pub profile: Profile<'a>,
    pub rows: &'b [u32; MOST_MOVES],
    pub ghost small: { (profile.shape.k ≤ most_letters) × (profile.shape.s ≤ most_states) },
    pub ghost of_moves: { rows.now ≡ by_letter profile.shape.k profile.shape.s profile.moves.now },
}

// Number i of the moves by letter: the states to which letter i / 32 may lead from state i % 32, none where this is no state.
fn led(moves: &[u32], k: usize, s: usize, i: usize) -> u32
    requires { k ≤ most_letters }
    ensures { result ≡ led_at k s moves.now i }
{
    let q = i % ROW;
    if q < s {
        leads_from(moves, k, q, i / ROW)
    } else {
        0
    }
}

// Puts the moves by letter.
pub fn by_letter(moves: &[u32], k: usize, s: usize, rows: &mut [u32; MOST_MOVES])
    requires { k ≤ most_letters }
    ensures { rows.new ≡ by_letter k s moves.now }
{
    let end = ROW * k;
    rows.fill(0);
    for i in 0..end {
        let to = led(moves, k, s, i);
        rows[i] = to;
    }
}

// s itself. `min` shows the compiler, which reads no contract, that it is at most 32: the loops over the states are then unrolled.
fn bounded(s: usize) -> usize
    requires { s ≤ most_states }
    ensures { result ≡ s }
{
    s.min(ROW)
}

// By any rows, the states to which letter a leads from the states of a set. The number is read before the test, so that no turn depends on what it finds.
pub fn forward_by(rows: &[u32; MOST_MOVES], s: usize, set: u32, a: usize) -> u32
    requires { (s ≤ most_states) × (a < most_letters) }
    ensures { result ≡ forward_at s rows.now set a }
{
    let at = ROW * a;
    let end = bounded(s);
    let mut out = 0u32;
    for q in 0..end {
        let to = rows[at + q];
        if meet(set, 1u32 << q) {
            out = out | to;
        }
    }
    out
}

// By any rows, the states from which letter a leads into a set.
pub fn backward_by(rows: &[u32; MOST_MOVES], s: usize, set: u32, a: usize) -> u32
    requires { (s ≤ most_states) × (a < most_letters) }
    ensures { result ≡ backward_at s rows.now set a }
{
    let at = ROW * a;
    let end = bounded(s);
    let mut out = 0u32;
    for q in 0..end {
        let to = rows[at + q];
        if meet(to, set) {
            out = out | (1u32 << q);
        }
    }
    out
}

impl<'a, 'b> Rows<'a, 'b> {
    // The numbers are lent: an array that is handed on is copied, 2 KiB of stack each time.
    pub fn of(profile: &Profile<'a>, rows: &'b mut [u32; MOST_MOVES]) -> Rows<'a, 'b>
        requires { (profile.now.shape.k ≤ most_letters) × (profile.now.shape.s ≤ most_states) }
        ensures { result.profile ≡ profile.now }
    {
        by_letter(profile.moves, profile.shape.k, profile.shape.s, rows);
        Rows {
            profile: *profile,
            rows,
        }
    }

    // The states to which letter a leads from the states of a set.
    pub fn forward_by(&self, set: u32, a: usize) -> u32
        requires { a < most_letters }
        ensures by_rows { result ≡ forward_at self.now.profile.shape.s self.now.rows.now set a }
        ensures step { a < self.now.profile.shape.k → result ≡ forward_step self.now.profile.shape.k self.now.profile.shape.s self.now.profile.moves.now set a }
    {
        forward_by(self.rows, self.profile.shape.s, set, a)
    }

    // The states from which letter a leads into a set.
    pub fn backward_by(&self, set: u32, a: usize) -> u32
        requires { a < most_letters }
        ensures by_rows { result ≡ backward_at self.now.profile.shape.s self.now.rows.now set a }
        ensures step { a < self.now.profile.shape.k → result ≡ backward_step self.now.profile.shape.k self.now.profile.shape.s self.now.profile.moves.now set a }
    {
        backward_by(self.rows, self.profile.shape.s, set, a)
    }
}
