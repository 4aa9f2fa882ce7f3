// The records of a part of the table, read and written: document 01, "Prefixes and their table".
#![tactic(auto)]

ghost use Rattle.std.specs.Prelude.{◌≡◌, [], ◌∷◌, ◌++◌, ◌+◌, ◌*◌, ◌≤◌, length, set};
ghost use Rattle.profile.specs.Tables.{capacity as capacity_of, layout, record_length};
ghost use Rattle.counts.specs.Counts.{words};
ghost use Rattle.records.specs.Records.{counts_at, forward_at, last_at, put_record, records_in};

use counts::{Counts, NUMBERS};
use profile::limits::{MOST_RECORDS, RECORD_NUMBERS, USABLE_NUMBERS};

// The numbers of a record.
pub const RECORD: usize = RECORD_NUMBERS;

// How many records a part of the table has.
pub fn records_in(t: &[u32]) -> usize
    ensures { result ≡ records_in t.now }
{
    t.len() / RECORD
}

// How many records the table has place for; "a rest below" ten, "and all numbers past the first 4,294,967,292, are unused".
pub fn capacity(table: &[u32]) -> usize
    ensures { result ≡ capacity_of layout (length table.now) }
{
    let n = table.len();
    if USABLE_NUMBERS < n {
        MOST_RECORDS
    } else {
        n / RECORD
    }
}

// The counts of record j.
pub fn counts_at(t: &[u32], j: usize) -> Counts
    requires { record_length layout * j + record_length layout ≤ length t.now }
    ensures { words result ≡ counts_at t.now j }
{
    let at = RECORD * j;
    Counts {
        w0: t[at],
        w1: t[at + 1],
        w2: t[at + 2],
        w3: t[at + 3],
        w4: t[at + 4],
        w5: t[at + 5],
        w6: t[at + 6],
        w7: t[at + 7],
    }
}

// The forward number of record j.
// Kept: one function over the place in a record would be no plainer than this and `last_at`.
pub fn forward_at(t: &[u32], j: usize) -> u32
    requires { record_length layout * j + record_length layout ≤ length t.now }
    ensures { result ≡ forward_at t.now j }
{
    t[RECORD * j + NUMBERS]
}

// The last number of record j.
pub fn last_at(t: &[u32], j: usize) -> u32
    requires { record_length layout * j + record_length layout ≤ length t.now }
    ensures { result ≡ last_at t.now j }
{
    t[RECORD * j + (NUMBERS + 1)]
}

// Puts a record in place of record j.
pub fn put(part: &mut [u32], j: usize, c: Counts, forward: u32, last: u32)
    requires { record_length layout * j + record_length layout ≤ length part.old }
    ensures { part.new ≡ put_record part.old j (words c ++ (forward ∷ last ∷ [])) }
{
    let at = RECORD * j;
    part[at] = c.w0;
    part[at + 1] = c.w1;
    part[at + 2] = c.w2;
    part[at + 3] = c.w3;
    part[at + 4] = c.w4;
    part[at + 5] = c.w5;
    part[at + 6] = c.w6;
    part[at + 7] = c.w7;
    part[at + NUMBERS] = forward;
    part[at + (NUMBERS + 1)] = last;
}

// Puts a last number in place of that of record j.
pub fn put_last(part: &mut [u32], j: usize, last: u32)
    requires { record_length layout * j + record_length layout ≤ length part.old }
    ensures { part.new ≡ set part.old (record_length layout * j + (layout.numbers + 1)) last }
{
    part[RECORD * j + (NUMBERS + 1)] = last;
}
