// The search for a prefix by its counts: document 02, Paper 5.
#![tactic(auto)]

ghost use Rattle.std.specs.Prelude.{◌≡◌};
ghost use Rattle.counts.specs.Counts.{words};
ghost use Rattle.search.specs.Search.{Ordered, found_in, records_before, stands_before?};

use counts::Counts;

// The counts a stand before b: by their totals, then by the counts, the count of letter 0 first.
// Kept: a derived order would leave the totals out.
pub fn stands_before(a: Counts, b: Counts) -> bool
    ensures { result ≡ stands_before? (words a) (words b) }
{
    let m = counts::total_of(a);
    let n = counts::total_of(b);
    m < n || m == n && counts::counts_before(a, b)
}

// How many records of t, which are in order, stand before the place of the counts c.
fn place_of(t: &[u32], c: Counts) -> usize
    ensures { Ordered t.now → result ≡ records_before t.now (words c) }
{
    let mut low = 0;
    let mut high = records::records_in(t);
    while low < high {
        let middle = low + (high - low) / 2;
        if stands_before(records::counts_at(t, middle), c) {
            low = middle + 1;
        } else {
            high = middle;
        }
    }
    low
}

// The record of t that has the counts c, from 0; as an error, how many records stand before their place. Records that are not in order get some
// answer.
pub fn find(t: &[u32], c: Counts) -> Result<usize, usize>
    ensures { Ordered t.now → result ≡ found_in t.now (words c) }
{
    let at = place_of(t, c);
    if at < records::records_in(t) && counts::same_counts(records::counts_at(t, at), c) {
        Ok(at)
    } else {
        Err(at)
    }
}
