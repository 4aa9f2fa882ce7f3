// The counts of a prefix record, packed: document 01, "Prefixes and their table".
#![tactic(auto)]

ghost use Rattle.std.specs.Prelude.{◌≡◌, ◌+◌, ◌%◌, ◌^◌, ◌<◌, not, [], length, drop, if◌then◌else◌, nat_eq};
ghost use Rattle.profile.specs.Limits.{most_letters};
ghost use Rattle.profile.specs.Lists.{equal?, flat_map};
ghost use Rattle.profile.specs.Orders.{no_later?};
ghost use Rattle.profile.specs.Prefixes.{total};
ghost use Rattle.profile.specs.Tables.{layout, count_field, packed};
ghost use Rattle.theory.proofs.Packing.{rank};
ghost use Rattle.counts.specs.Counts.{words, counts_in, add_count, before?, every_equal?, word_count, word_counts};

use profile::limits::{COUNT_BITS, COUNT_BOUND, COUNT_NUMBERS, COUNTS_PER_NUMBER};

// The bits of a count.
const WIDTH: usize = COUNT_BITS;

// What a count stays below.
const BOUND: u32 = COUNT_BOUND;

// The counts in one number.
const PER: usize = COUNTS_PER_NUMBER;

// How many numbers hold the counts of a record.
pub const NUMBERS: usize = COUNT_NUMBERS;

// The numbers of counts of a record.
// Kept: with an array in the place of the fields the judge takes 17 to 57 % longer, since a number is then chosen in memory (docs/DESIGN-PASS.md).
#[derive(Clone, Copy, Debug, PartialEq, Eq)]
pub struct Counts {
    pub w0: u32,
    pub w1: u32,
    pub w2: u32,
    pub w3: u32,
    pub w4: u32,
    pub w5: u32,
    pub w6: u32,
    pub w7: u32,
}

// No event of any letter.
pub fn none_counted() -> Counts
    ensures { words result ≡ packed layout [] }
{
    Counts {
        w0: 0,
        w1: 0,
        w2: 0,
        w3: 0,
        w4: 0,
        w5: 0,
        w6: 0,
        w7: 0,
    }
}

// w where i is j, else v: a choice for which the compiler needs no jump.
fn pick(i: usize, j: usize, w: u32, v: u32) -> u32
    ensures { result ≡ (if nat_eq i j then w else v) }
{
    if i == j { w } else { v }
}

// Number j of counts, with `one` added where j is i.
fn added(w: u32, i: usize, j: usize, one: u32) -> u32
    ensures { result ≡ (if nat_eq i j then (w + one) % 2 ^ 32 else w) }
{
    pick(i, j, std::num::wrapping_add_u32(w, one), w)
}

// The count that the number w holds at the place of letter a.
fn count_in(w: u32, a: usize) -> u32
    ensures value { result ≡ word_count layout w (a % layout.per) }
    ensures upper_bound { result < 2 ^ layout.width }
{
    (w >> (WIDTH * (a % PER))) % BOUND
}

// The numbers of counts in a row, for a loop over the letters.
// Kept: `<[u32; NUMBERS]>::from(c)` would be no plainer where it is called.
pub fn numbers(c: Counts) -> [u32; NUMBERS]
    ensures { result ≡ words c }
{
    [c.w0, c.w1, c.w2, c.w3, c.w4, c.w5, c.w6, c.w7]
}

// The counts whose numbers stand in a row.
// Kept: `From` takes no `requires`, and `TryFrom` can fail where this cannot.
pub fn from_numbers(t: &[u32]) -> Counts
    requires { length t.now ≡ layout.numbers }
    ensures { words result ≡ t.now }
{
    Counts {
        w0: t[0],
        w1: t[1],
        w2: t[2],
        w3: t[3],
        w4: t[4],
        w5: t[5],
        w6: t[6],
        w7: t[7],
    }
}

// The count of letter a in numbers that stand in a row.
pub fn count_of(t: &[u32; NUMBERS], a: usize) -> usize
    requires { a < most_letters }
    ensures { result ≡ count_field layout t.now a }
{
    let w = t[a / PER];
    count_in(w, a) as usize
}

// The counts with one more of letter a; unchanged for a letter past the last.
pub fn one_more(c: Counts, a: usize) -> Counts
    ensures { words result ≡ add_count layout (words c) a }
{
    let i = a / PER;
    let one = 1u32 << (WIDTH * (a % PER));
    Counts {
        w0: added(c.w0, i, 0, one),
        w1: added(c.w1, i, 1, one),
        w2: added(c.w2, i, 2, one),
        w3: added(c.w3, i, 3, one),
        w4: added(c.w4, i, 4, one),
        w5: added(c.w5, i, 5, one),
        w6: added(c.w6, i, 6, one),
        w7: added(c.w7, i, 7, one),
    }
}

// a and b have the same counts: their numbers are compared, and so every letter's two counts.
pub fn same_counts(a: Counts, b: Counts) -> bool
    ensures value { result ≡ equal? (words a) (words b) }
    ensures value_2 { result ≡ every_equal? layout (words a) (words b) }
{
    a == b
}

// The counts of the number w as the digits of one number, the first highest.
fn reversed(w: u32) -> u32
    ensures { result ≡ rank (2 ^ layout.width) (word_counts layout w) }
{
    count_in(w, 0) * BOUND + count_in(w, 1)
}

// The counts of the number v stand before those of w.
fn word_before(v: u32, w: u32) -> bool
    ensures { result ≡ not (no_later? (word_counts layout w) (word_counts layout v)) }
{
    reversed(v) < reversed(w)
}

// The counts of the last four numbers of a stand before those of b.
fn last_before(a: Counts, b: Counts) -> bool
    ensures { result ≡ not (no_later? (flat_map (word_counts layout) (drop 4 (words b))) (flat_map (word_counts layout) (drop 4 (words a)))) }
{
    if a.w4 != b.w4 {
        return word_before(a.w4, b.w4);
    }
    if a.w5 != b.w5 {
        return word_before(a.w5, b.w5);
    }
    if a.w6 != b.w6 {
        return word_before(a.w6, b.w6);
    }
    word_before(a.w7, b.w7)
}

// The counts a stand before the counts b: at the first letter whose counts differ a has the smaller.
// Kept: a derived order compares the numbers, whose high half is the later letter's count.
pub fn counts_before(a: Counts, b: Counts) -> bool
    ensures { result ≡ before? layout (words a) (words b) }
{
    if a.w0 != b.w0 {
        return word_before(a.w0, b.w0);
    }
    if a.w1 != b.w1 {
        return word_before(a.w1, b.w1);
    }
    if a.w2 != b.w2 {
        return word_before(a.w2, b.w2);
    }
    if a.w3 != b.w3 {
        return word_before(a.w3, b.w3);
    }
    last_before(a, b)
}

// The total count of the number w.
fn word_total(w: u32) -> usize
    ensures value { result ≡ total (word_counts layout w) }
    ensures upper_bound { result < 2 ^ 32 }
{
    (count_in(w, 0) + count_in(w, 1)) as usize
}

// The total count.
pub fn total_of(c: Counts) -> usize
    ensures { result ≡ total (counts_in layout (words c)) }
{
    word_total(c.w0)
        + word_total(c.w1)
        + word_total(c.w2)
        + word_total(c.w3)
        + word_total(c.w4)
        + word_total(c.w5)
        + word_total(c.w6)
        + word_total(c.w7)
}
