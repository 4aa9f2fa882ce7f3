// Parts of an expression as they are read: their numbers that may come first and last, and what may follow each number.
#![tactic(auto)]

ghost use Rattle.std.specs.Prelude.{◌≡◌, ◌&&◌, ◌||◌, ◌+◌, ◌<◌, ◌≤◌, drop, length};
ghost use Rattle.profile.specs.Limits.{most_states};
ghost use Rattle.expressions.specs.Positions.{when as when_of};
ghost use Rattle.fragments.specs.Parts.{choice_part_of, letter_part_of, linked, sequence_part_of, starred_part, starred_rows, stars};

// What was read: where it ends, the number of the next letter, whether it may be empty, the numbers that may come first and last.
#[derive(Clone, Copy)]
pub struct Part {
    pub at: usize,
    pub next: usize,
    pub empty: bool,
    pub first: u32,
    pub last: u32,
}

fn when(b: bool, set: u32) -> u32
    ensures { result ≡ when_of b set }
{
    if b { set } else { 0 }
}

// One letter, number n, that ends at `at`.
pub fn letter_part(at: usize, n: usize) -> Part
    requires { n < most_states }
    ensures { result ≡ letter_part_of at n }
{
    Part {
        at: at,
        next: n + 1,
        empty: false,
        first: 1u32 << n,
        last: 1u32 << n,
    }
}

// One of two.
pub fn choice_part(x: Part, y: Part) -> Part
    ensures { result ≡ choice_part_of x y }
{
    Part {
        at: y.at,
        next: y.next,
        empty: x.empty || y.empty,
        first: x.first | y.first,
        last: x.last | y.last,
    }
}

// One after the other.
pub fn sequence_part(x: Part, y: Part) -> Part
    ensures { result ≡ sequence_part_of x y }
{
    Part {
        at: y.at,
        next: y.next,
        empty: x.empty && y.empty,
        first: x.first | when(x.empty, y.first),
        last: when(y.empty, x.last) | y.last,
    }
}

// Every number of `from` may be followed by those of `to`.
pub fn link(rows: &mut [u32], from: u32, to: u32)
    requires { length rows.old ≤ most_states }
    ensures { rows.new ≡ linked rows.old from to }
{
    for i in 0..rows.len() {
        let more = when((from >> i) & 1 == 1, to);
        rows[i] = rows[i] | more;
    }
}

// Where the stars end that begin at `from`.
fn stars_end(text: &[u8], from: usize) -> usize
    requires { from ≤ length text.now }
    ensures { result ≡ from + stars (drop from text.now) }
{
    for at in from..text.len() {
        if text[at] != 42 {
            return at;
        }
    }
    text.len()
}

// The part that ends at `from`, with the stars behind it.
pub fn starred(text: &[u8], from: usize, x: Part, rows: &mut [u32]) -> Part
    requires { (from ≤ length text.now) × (length rows.old ≤ most_states) }
    ensures { (result ≡ starred_part (stars (drop from text.now)) from x)
        × (rows.new ≡ starred_rows (stars (drop from text.now)) x rows.old) }
{
    let end = stars_end(text, from);
    if from < end {
        link(rows, x.last, x.first);
        return Part {
            at: end,
            next: x.next,
            empty: true,
            first: x.first,
            last: x.last,
        };
    }
    Part {
        at: from,
        next: x.next,
        empty: x.empty,
        first: x.first,
        last: x.last,
    }
}
