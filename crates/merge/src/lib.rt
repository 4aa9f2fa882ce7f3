// From one total to the next: the least counts that the cursors of a total give, with the letters that give them, and what the records at their cursors
// hand on.
#![tactic(auto)]

ghost use Rattle.std.specs.Prelude.{◌≡◌, ◌≤◌, ◌<◌, length, get_or};
ghost use Rattle.std.proofs.Math.Option.{some};
ghost use Rattle.std.specs.Int.Bits.{bit_or};
ghost use Rattle.profile.specs.Automata.{forward_step};
ghost use Rattle.profile.specs.Limits.{most_letters};
ghost use Rattle.counts.specs.Counts.{words};
ghost use Rattle.records.specs.Records.{forward_at, records_in};
ghost use Rattle.cursors.specs.Cursors.{Given};
ghost use Rattle.merge.specs.Merge.{better, candidate, givers, inherited, joined, least_letters, least_of, least_words, other_letters, passing, united};

use counts::Counts;
use rows::Rows;

// The half of a record's last number that has the letters that can be added.
const LETTERS: u32 = 65535;

// The least counts, with the counts c of letter x among them.
fn with_counts(best: Option<(Counts, u32)>, c: Counts, x: usize) -> Option<(Counts, u32)>
    requires { x < 32 }
    ensures result_value { least_words result ≡ better (least_words best) (some (words c)) }
    ensures result_value_2 { least_letters result ≡ joined (some (words c)) (least_words best) (least_letters best) x }
{
    match best {
        None => Some((c, 1u32 << x)),
        Some((b, set)) => {
            if counts::same_counts(c, b) {
                return Some((b, set | (1u32 << x)));
            }
            if counts::counts_before(c, b) {
                Some((c, 1u32 << x))
            } else {
                Some((b, set))
            }
        }
    }
}

// The least counts, with those that record j gives by one more of letter x.
fn with_cursor(
    level: &[u32],
    j: usize,
    x: usize,
    best: Option<(Counts, u32)>,
) -> Option<(Counts, u32)>
    requires { x < 32 }
    ensures result_value { least_words result ≡ better (least_words best) (candidate level.now j x) }
    ensures result_value_2 { least_letters result ≡ joined (candidate level.now j x) (least_words best) (least_letters best) x }
{
    if records::records_in(level) <= j {
        return best;
    }
    with_counts(best, counts::one_more(records::counts_at(level, j), x), x)
}

// The least counts that the cursors of the letters below k give, and the letters whose cursors give them; none where every cursor is at the end.
pub fn least_counts(level: &[u32], k: usize, cursors: &[usize]) -> Option<(Counts, u32)>
    requires { (k ≤ most_letters) × (k ≤ length cursors.now) }
    ensures result_value { least_words result ≡ least_of level.now k cursors.now }
    ensures result_value_2 { least_letters result ≡ givers level.now k cursors.now }
{
    let mut best = None;
    for x in 0..k {
        best = with_cursor(level, cursors[x], x, best);
    }
    best
}

// What the records from which a new one comes hand on to it, each with a letter that leads to the new one: the states that the letter leads to, the
// letters that can be added to the record, its own letter aside, and the letters that may pass its own.
#[derive(Clone, Copy)]
pub struct Handed {
    pub forward: u32,
    pub letters: u32,
    pub passed: u32,
}

// What is handed on, with record j and letter x beside the records before.
fn with_parent(level: &[u32], rows: &Rows, j: usize, x: usize, out: Handed) -> Handed
    requires { (x < rows.now.profile.shape.k) × (x < length rows.now.profile.masks.now) × (j < records_in level.now) }
    ensures { (result.forward
        ≡ bit_or out.forward (forward_step rows.now.profile.shape.k rows.now.profile.shape.s rows.now.profile.moves.now (forward_at level.now j) x))
        × (result.letters ≡ bit_or out.letters (other_letters level.now j x))
        × (result.passed ≡ bit_or out.passed (get_or rows.now.profile.masks.now x 0)) }
{
    let forward = out.forward | rows.forward_by(records::forward_at(level, j), x);
    let letters = out.letters | (records::last_at(level, j) & LETTERS & !(1u32 << x));
    let passed = out.passed | (rows.profile.masks[x] as u32);
    Handed {
        forward: forward,
        letters: letters,
        passed: passed,
    }
}

// What the records at the cursors of a set of letters hand on. Each turn takes the lowest letter out of those that are left.
pub fn unite(level: &[u32], rows: &Rows, cursors: &[usize], set: u32) -> Handed
    requires in_bounds { (rows.now.profile.shape.k ≤ length cursors.now) × (rows.now.profile.shape.k ≤ length rows.now.profile.masks.now) }
    requires given { Given rows.now.profile.shape.k level.now cursors.now set }
    ensures { (result.forward
        ≡ united rows.now.profile.shape.k rows.now.profile.shape.s rows.now.profile.moves.now level.now cursors.now set)
        × (result.letters ≡ inherited rows.now.profile.shape.k level.now cursors.now set)
        × (result.passed ≡ passing rows.now.profile.shape.k rows.now.profile.masks.now set) }
{
    let k = rows.profile.shape.k;
    let mut out = Handed {
        forward: 0,
        letters: 0,
        passed: 0,
    };
    let mut rest = set;
    while rest != 0 {
        let x = u32::trailing_zeros(rest) as usize;
        if x < k {
            out = with_parent(level, rows, cursors[x], x, out);
        }
        rest = rest & (rest - 1);
    }
    out
}
