// The set of names of one pair of prefixes, by those of the pairs between: document 02, Paper 13.
#![tactic(auto)]

pub mod nested;

ghost use Rattle.std.specs.Prelude.{◌≡◌, ◌+◌, ◌*◌, ◌≤◌, ◌<◌, length, drop};
ghost use Rattle.profile.specs.Limits.{most_records};
ghost use Rattle.grammars.specs.Grammars.{most_names};
ghost use Rattle.pairs.specs.Pairs.{Gathered, JoinedIs, Known, Right, Room};

use gaps::Gap;
use nested::Nested;
use rules::MOST_NAMES;

// The place of the pair of the records a and b in the second table.
pub fn place(records: usize, a: usize, b: usize) -> usize
    requires { (a < records) × (b < records) × (records ≤ most_records) }
    ensures { (result ≡ a * records + b) × (result < records * records) × (records * records ≤ most_records * most_records) }
{
    a * records + b
}

// Gathers, for each name, what comes behind it, over the places between i and j: `row` has the sets up to a record, `column` those from it.
fn gather(row: &[u16], column: &[u16], i: usize, j: usize, acc: &mut [u16])
    requires { (most_names ≤ length acc.old) × (i < j) × (j ≤ length row.now) × (j ≤ length column.now) }
    ensures { Gathered row.now column.now (i + 1) j acc.old acc.new }
{
    for m in i + 1..j {
        rulesets::spread(row[m], column[m], acc);
    }
}

// The names with two parts that meet at a place between i and j.
fn meeting_names(rules: &[u16], row: &[u16], column: &[u16], i: usize, j: usize) -> u16
    requires { (i < j) × (j ≤ length row.now) × (j ≤ length column.now) }
    ensures { JoinedIs rules.now row.now column.now (i + 1) j result }
{
    let mut acc = [0u16; MOST_NAMES];
    gather(row, column, i, j, &mut acc);
    rulesets::closed(rules, &acc)
}

// The names with two parts that meet in a record between i and j.
fn joined(nested: &Nested, sets: &[u16], i: usize, j: usize) -> u16
    requires { (i < j) × (j < nested.now.records) × Room nested.now sets.now }
    ensures { JoinedIs nested.now.grammar.rules.now (drop (i * nested.now.records) sets.now) (drop (j * nested.now.records) sets.now) (i + 1) j result }
{
    let rules = nested.grammar.rules;
    let row = place(nested.records, i, 0);
    let column = place(nested.records, j, 0);
    meeting_names(rules, &sets[row..], &sets[column..], i, j)
}

// The names that derive some order of the events between the prefixes of the records i and j.
pub fn cell(nested: &Nested, sets: &[u16], i: usize, j: usize) -> u16
    requires { (i < j) × (j < nested.now.records) × Room nested.now sets.now × Known nested.now sets.now j (i + 1) }
    ensures { Right nested.now i j result }
{
    let between = gaps::gap_between(nested.table, nested.grammar.k, i, j);
    match between {
        Gap::Outside => 0,
        Gap::Letter(a) => rulesets::lettered(nested.grammar.rules, a),
        Gap::Apart => joined(nested, sets, i, j),
    }
}
