// Cursors over the records of a table, which are in order: each letter's cursor follows the record with one more of that letter; document 02, Paper 10.
#![tactic(auto)]

ghost use Rattle.std.specs.Prelude.{◌≡◌, ◌&&◌, ◌*◌, ◌≤◌, ◌<◌, ◌^◌, ltb};
ghost use Rattle.counts.specs.Counts.{words};
ghost use Rattle.records.specs.Records.{records_in};
ghost use Rattle.search.specs.Search.{Ordered, has?};
ghost use Rattle.costcursors.specs.Cursors.{High, Low, Splits};

use counts::Counts;

// The first record from record `from` on that does not stand before the counts c; all records before `from` do.
pub fn forth(t: &[u32], from: usize, c: Counts) -> usize
    requires { (from ≤ records_in t.now) × Low t.now (words c) from }
    ensures { Ordered t.now → Splits t.now (words c) result }
{
    let n = records::records_in(t);
    for j in from..n {
        if !search::stands_before(records::counts_at(t, j), c) {
            return j;
        }
    }
    n
}

// Kept beside `forth`: they go over other records, make the opposite test and tell another number at each stop, so that one function would be handed all of it.
// The first of the records in a row before record `from` that do not stand before the counts c; no record from `from` on does.
pub fn back(t: &[u32], from: usize, c: Counts) -> usize
    requires { (from ≤ records_in t.now) × High t.now (words c) from }
    ensures { Ordered t.now → Splits t.now (words c) result }
{
    for j in (0..from).rev() {
        if search::stands_before(records::counts_at(t, j), c) {
            return j + 1;
        }
    }
    0
}

// Record j has the counts c.
pub fn stands_at(t: &[u32], j: usize, c: Counts) -> bool
    ensures { result ≡ (ltb j (records_in t.now) && has? t.now (words c) j) }
{
    j < records::records_in(t) && counts::same_counts(records::counts_at(t, j), c)
}

// Where the row of record j begins in a table of costs with s cells to a row.
pub fn row_of(j: usize, s: usize) -> usize
    requires { j * s < 2 ^ 64 }
    ensures { result ≡ j * s }
{
    j * s
}
