// Courses typed as an expression: document 02, Paper 1.
#![tactic(auto)]

ghost use Rattle.std.specs.Prelude.{◌≡◌, ◌*◌, ◌≤◌, length};
ghost use Rattle.std.specs.Int.Bits.{bit_or};
ghost use Rattle.profile.specs.Limits.{most_letters};
ghost use Rattle.expressions.specs.Positions.{finals_of, when};
ghost use Rattle.scanner.specs.Scan.{right_as, scanned};
ghost use Rattle.expression.specs.Making.{RightText, filled, made_buffer, making, moves_put};

use profile::limits::{DEEPEST_BRACKETS, MOST_LETTERS, MOST_STATES, MOST_TYPED};
use profile::{Refusal, Shape};

// The final states: 0 for the empty log.
fn with_empty(empty: bool, last: u32) -> u32
    ensures { result ≡ bit_or last (when empty 1) }
{
    if empty { last | 1 } else { last | 0 }
}

// Writes the s × k moves; `rows` has the numbers that may follow each state, `sets` those of each letter.
fn fill(k: usize, s: usize, rows: &[u32], sets: &[u32], moves: &mut [u32])
    requires { (1 ≤ k) × (k ≤ length sets.now) × (s ≤ length rows.now) × (s * k ≤ length moves.old) }
    ensures { moves.new ≡ filled k s rows.now sets.now moves.old }
{
    for j in 0..s * k {
        let q = j / k;
        let a = j % k;
        moves[j] = rows[q] & sets[a];
    }
}

// Writes the moves of a right text with s - 1 letters, and tells the final states.
fn write_moves(k: usize, s: usize, text: &[u8], moves: &mut [u32]) -> u32
    requires { RightText k s text.now moves.old }
    ensures { (t : RightText k s text.now moves.old) → (result ≡ finals_of t.tree) × (moves.new ≡ moves_put k t.tree moves.old) }
{
    let mut rows = [0u32; MOST_STATES];
    let x = walk::expression(text, 0, 1, &mut rows);
    rows[0] = x.first;
    let mut sets = [0u32; MOST_LETTERS];
    scanner::letter_sets(k, text, &mut sets);
    fill(k, s, &rows, &sets, moves);
    with_empty(x.empty, x.last)
}

// The profile of a right text whose brackets go `deepest` deep and that types n letters; refused by 12, 13 and 9.
#[tactic(auto, using(crate::proofs::Answers::told_deep, crate::proofs::Answers::told_long))]
fn make_right(
    k: usize,
    text: &[u8],
    deepest: usize,
    n: usize,
    moves: &mut [u32],
) -> Result<Shape, Refusal>
    requires { (1 ≤ k) × (k ≤ most_letters) × (scanned k text.now ≡ right_as deepest n) }
    ensures { (result ≡ making k text.now (length moves.old))
        × (moves.new ≡ made_buffer k text.now moves.old) }
{
    if DEEPEST_BRACKETS < deepest {
        return Err(Refusal::DeepText);
    }
    if MOST_TYPED < n {
        return Err(Refusal::LongText);
    }
    let s = n + 1;
    if moves.len() < s * k {
        return Err(Refusal::ShortBuffer);
    }
    let finals = write_moves(k, s, text, moves);
    Ok(Shape {
        k: k,
        s: s,
        start: 0,
        finals: finals,
    })
}

// The profile of the typed courses; refused by 2, 11, 12, 13 and 9.
pub fn make(k: usize, text: &[u8], moves: &mut [u32]) -> Result<Shape, Refusal>
    ensures { (result ≡ making k text.now (length moves.old))
        × (moves.new ≡ made_buffer k text.now moves.old) }
{
    if k < 1 {
        return Err(Refusal::OutOfRange);
    }
    if MOST_LETTERS < k {
        return Err(Refusal::OutOfRange);
    }
    match scanner::scan(k, text) {
        Err(i) => Err(Refusal::BadText(i)),
        Ok(found) => make_right(k, text, found.deepest, found.letters, moves),
    }
}
