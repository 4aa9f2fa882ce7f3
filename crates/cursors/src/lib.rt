// The cursors of a total, one for each letter: where they start, and how they move on.
#![tactic(auto)]

ghost use Rattle.std.specs.Prelude.{◌≡◌, ◌≤◌, ◌<◌, length};
ghost use Rattle.profile.specs.Limits.{most_letters};
ghost use Rattle.records.specs.Records.{records_in};
ghost use Rattle.cursors.specs.Cursors.{Given, advanced, seek_from, started};

// The first record from `from` on to which letter x can be added; the number of records where there is none.
// Kept: the end is a place at which a cursor stands, as a record is, so an `Option` would be turned back into a number at each call.
fn seek(level: &[u32], from: usize, x: usize) -> usize
    requires { (from ≤ records_in level.now) × (x < 32) }
    ensures { result ≡ seek_from level.now from x }
{
    let n = records::records_in(level);
    for j in from..n {
        if steps::has(records::last_at(level, j), x) {
            return j;
        }
    }
    n
}

// Puts the cursor of each letter at the first record to which the letter can be added.
pub fn start_cursors(level: &[u32], k: usize, cursors: &mut [usize])
    requires { (k ≤ most_letters) × (k ≤ length cursors.old) }
    ensures { cursors.new ≡ started k level.now cursors.old }
{
    for x in 0..k {
        let first = seek(level, 0, x);
        cursors[x] = first;
    }
}

// Moves the cursors of a set of letters on to the next record to which their letter can be added, from the lowest letter on.
pub fn advance(level: &[u32], k: usize, cursors: &mut [usize], set: u32)
    requires k_le_most_letters { (k ≤ most_letters) × (k ≤ length cursors.old) }
    requires given { Given k level.now cursors.old set }
    ensures { cursors.new ≡ advanced k level.now cursors.old set }
{
    let mut left = set;
    while left != 0 {
        let x = u32::trailing_zeros(left) as usize;
        if x < k {
            let next = seek(level, cursors[x] + 1, x);
            cursors[x] = next;
        }
        left = left & (left - 1);
    }
}
