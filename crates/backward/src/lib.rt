// The backward numbers of the table: document 01, "Prefixes and their table".
#![tactic(auto)]

ghost use Rattle.std.specs.Prelude.{◌≡◌, ℕ, ◌+◌, ◌*◌, ◌<◌, ◌≤◌, ◌++◌, length, drop, slice_index, Bool};
ghost use Rattle.profile.specs.Limits.{most_letters};
ghost use Rattle.profile.specs.Automata.{lent};
ghost use Rattle.terms.specs.Coded.{rules_of};
ghost use Rattle.profile.specs.Tables.{layout, record_length};
ghost use Rattle.backward.specs.Backward.{Drafted, Inside, back_from, clear_at, cleared, done_at, filled_all, flag_before, flags as flags_in, moved, with_flags, without_flags};

use profile::Profile;
use profile::limits::{MOST_LETTERS, MOST_MOVES};
use records::{RECORD, last_at, put_last};
use rows::Rows;

// What a count stays below: the bits from here on of a count are free.
const FREE: u32 = 4096;

// The same of the count in the upper half of a number.
const FREE_ABOVE: u32 = 268435456;

// A half of a number.
const HALF: u32 = 65536;

// The two numbers of a record that have flags.
const FLAGS: usize = 6;

const MORE_FLAGS: usize = 7;

// The last number of a record.
const LAST: usize = 9;

// The last record before record `from` that has the flag of letter x; 0 where none has.
// Kept: nobody tests for 0, since a letter that can be added leads to a record, and an `Option` would have to be proved to be there at each turn.
fn flagged_before(table: &[u32], from: usize, x: usize) -> usize
    requires { (record_length layout * from ≤ length table.now) × (x < most_letters) }
    ensures { result ≡ flag_before table.now x from }
{
    let number = FLAGS + x / 8;
    let flag = 12 + x % 4 + 16 * (x / 4 % 2);
    for i in (0..from).rev() {
        if steps::has(table[RECORD * i + number], flag) {
            return i;
        }
    }
    0
}

// The backward set of record j, from the records that have one more of a letter that can be added; the letter's cursor moves to that record. Each turn takes
// the lowest letter out of those that are left.
fn back_of(table: &[u32], j: usize, rows: &Rows, cursors: &mut [usize]) -> u32
    requires k_in_bounds { rows.now.profile.shape.k ≤ length cursors.old }
    requires inside { Inside table.now j rows.now.profile.shape.k (λ x. slice_index cursors.old x) }
    ensures value { result
        ≡ back_from table.now j rows.now.profile.shape.k rows.now.profile.shape.s rows.now.profile.moves.now (λ x. slice_index cursors.old x) }
    ensures by_index { (x : ℕ) → x < rows.now.profile.shape.k → slice_index cursors.new x ≡ moved table.now j (λ x. slice_index cursors.old x) x }
{
    let k = rows.profile.shape.k;
    let letters = last_at(table, j) % HALF;
    let mut out = 0u32;
    let mut rest = letters;
    while rest != 0 {
        let x = u32::trailing_zeros(rest) as usize;
        if x < k {
            let from = cursors[x];
            let r = flagged_before(table, from, x);
            cursors[x] = r;
            out = out | rows.backward_by(last_at(table, r), x);
        }
        rest = rest & (rest - 1);
    }
    out
}

// The flags of the first eight letters of a set, as one number has them.
fn flags(set: u32) -> u32
    ensures { result ≡ flags_in set }
{
    FREE * (set % 16) + FREE_ABOVE * (set / 16 % 16)
}

// A number of counts with the flags of the first eight letters of a set.
fn flagged(n: u32, set: u32) -> u32
    ensures { result ≡ with_flags n set }
{
    std::num::wrapping_add_u32(n, flags(set))
}

// A number of counts without its flags.
fn unflagged(n: u32) -> u32
    ensures { result ≡ without_flags n }
{
    n % FREE + HALF * (n / HALF % FREE)
}

// Record j done: its last number is the backward set; of the letters that can be taken away, which the upper half of that number was, it has the flags.
fn put_done(table: &mut [u32], j: usize, back: u32)
    requires { record_length layout * j + record_length layout ≤ length table.old }
    ensures { table.new ≡ done_at table.old j back }
{
    let at = RECORD * j;
    let set = table[at + LAST] / HALF;
    let low = flagged(table[at + FLAGS], set);
    let high = flagged(table[at + MORE_FLAGS], set / 256);
    table[at + FLAGS] = low;
    table[at + MORE_FLAGS] = high;
    put_last(table, j, back);
}

// Clears the flags of record j.
fn clear(table: &mut [u32], j: usize)
    requires { record_length layout * j + record_length layout ≤ length table.old }
    ensures { table.new ≡ clear_at table.old j }
{
    let at = RECORD * j;
    let low = unflagged(table[at + FLAGS]);
    let high = unflagged(table[at + MORE_FLAGS]);
    table[at + FLAGS] = low;
    table[at + MORE_FLAGS] = high;
}

// Clears the flags of the first `records` records.
fn clear_flags(table: &mut [u32], records: usize)
    requires { record_length layout * records ≤ length table.old }
    ensures { table.new ≡ cleared table.old records }
{
    for j in 0..records {
        clear(table, j);
    }
}

// Puts the backward numbers of `records` records that hold the letters that can be added and those that can be taken away, from the last to the first. As
// `forward::fill_forward`, it keeps a frame of its own.
#[inline(never)]
pub fn fill_backward(table: &mut [u32], records: usize, profile: &Profile, log: &[u8])
    ghost termed: { Bool }
    requires { Drafted (rules_of (lent profile.now) termed) log.now table.old records }
    ensures { table.new
        ≡ filled_all (rules_of (lent profile.now) termed) log.now
        ++ drop (record_length layout * records) table.old }
{
    let finals = profile.shape.finals;
    let mut numbers = [0u32; MOST_MOVES];
    let rows = Rows::of(profile, &mut numbers);
    let mut cursors = [records; MOST_LETTERS];
    let last = records - 1;
    put_done(table, last, finals);
    for j in (0..last).rev() {
        let back = back_of(table, j, &rows, &mut cursors);
        put_done(table, j, back);
    }
    clear_flags(table, records);
}
