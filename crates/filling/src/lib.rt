// The second table: the sets of names of all pairs of prefixes: document 02, Paper 13.
#![tactic(auto)]

ghost use Rattle.std.specs.Prelude.{◌≡◌, ◌+◌, ◌*◌, ◌≤◌, ◌<◌, length, set as list_set};
ghost use Rattle.profile.specs.Limits.{most_records};
ghost use Rattle.pairs.specs.Pairs.{AllKnown, Known, Room};

use pairs::nested::Nested;
use pairs::{cell, place};

// Puts the set of a pair, at both of its places.
fn put_pair(sets: &mut [u16], records: usize, i: usize, j: usize, set: u16)
    requires { (i < records) × (j < records) × (records ≤ most_records) × (records * records ≤ length sets.old) }
    ensures { sets.new ≡ list_set (list_set sets.old (i * records + j) set) (j * records + i) set }
{
    let at = place(records, i, j);
    let turned = place(records, j, i);
    sets[at] = set;
    sets[turned] = set;
}

// Puts the sets of the pairs of a record before record j and that record, the nearest first.
fn fill_column(nested: &Nested, sets: &mut [u16], j: usize)
    requires { (j < nested.now.records) × Room nested.now sets.old × Known nested.now sets.old j j }
    ensures { Known nested.now sets.new (j + 1) (j + 1) }
{
    for i in (0..j).rev() {
        let set = cell(nested, sets, i, j);
        put_pair(sets, nested.records, i, j, set);
    }
}

// Puts the sets of all pairs of two records.
pub fn fill_sets(nested: &Nested, sets: &mut [u16])
    requires { Room nested.now sets.old }
    ensures { AllKnown nested.now sets.new }
{
    for j in 1..nested.records {
        fill_column(nested, sets, j);
    }
}
