// The next step of an order that can be derived, by the sets of names of all pairs of prefixes: document 02, Paper 13.
#![tactic(auto)]

ghost use Rattle.std.specs.Prelude.{ℕ, ◌+◌, ◌≤◌, ◌<◌, length};
ghost use Rattle.pairs.specs.Pairs.{AllKnown, Between, Meet, Meets, Room};
ghost use Rattle.parts.specs.Parts.{StepIs};

use gaps::Gap;
use pairs::nested::Nested;
use pairs::place;

// A rule's two names and the record between their parts.
#[derive(Clone, Copy)]
pub struct Split {
    pub at: usize,
    pub first: usize,
    pub second: usize,
}

// A record between `from` and `to` at which two parts meet that a rule gives the name n, and their names.
fn meeting(rules: &[u16], row: &[u16], column: &[u16], from: usize, to: usize, n: usize) -> Split
    requires { (to ≤ length row.now) × (to ≤ length column.now) × ((m l r : ℕ) × (from ≤ m) × (m < to) × Meets rules.now row.now column.now n m l r) }
    ensures { (from ≤ result.at) × (result.at < to) × Meets rules.now row.now column.now n result.at result.first result.second }
{
    for m in from..to {
        if let Some(r) = rulesets::fitting(rules, n, row[m], column[m]) {
            let x = rules[r];
            return Split {
                at: m,
                first: rules::first(x),
                second: rules::second(x),
            };
        }
    }
    // Kept: not met, since two parts meet; an Option would make callers test for what cannot be.
    Split {
        at: to,
        first: 0,
        second: 0,
    }
}

// Two parts of the name n that meet in a record between i and j.
fn parts_of(nested: &Nested, sets: &[u16], n: usize, i: usize, j: usize) -> Split
    requires i_lt_j { (i < j) × (j < nested.now.records) × Room nested.now sets.now }
    requires by_index { (m l r : ℕ) × (i + 1 ≤ m) × (m < j) × Meet nested.now sets.now i j n m l r }
    ensures { (i + 1 ≤ result.at) × (result.at < j) × Meet nested.now sets.now i j n result.at result.first result.second }
{
    let rules = nested.grammar.rules;
    let row = place(nested.records, i, 0);
    let column = place(nested.records, j, 0);
    meeting(rules, &sets[row..], &sets[column..], i + 1, j, n)
}

// What is to be done for the events between two prefixes: a letter is put at a place; or there are two parts, and which is the smaller.
#[derive(Clone, Copy)]
pub enum Step {
    Leaf(usize, u8),
    Parts(Split, bool),
}

// The next step to write an order of the events between the prefixes of the records i and j that can be derived from the name n.
pub fn next_step(nested: &Nested, sets: &[u16], n: usize, i: usize, j: usize) -> Step
    requires known { AllKnown nested.now sets.now }
    requires i_lt_j { (i < j) × (j < nested.now.records) × Between nested.now i j n }
    ensures { StepIs nested.now i j n result }
{
    let table = nested.table;
    let between = gaps::gap_between(table, nested.grammar.k, i, j);
    match between {
        Gap::Outside => Step::Leaf(0, 0),
        Gap::Letter(a) => Step::Leaf(gaps::total_at(table, i), a as u8),
        Gap::Apart => {
            let parts = parts_of(nested, sets, n, i, j);
            let middle = gaps::total_at(table, parts.at);
            let first = gaps::total_at(table, i);
            let last = gaps::total_at(table, j);
            Step::Parts(parts, middle + middle < first + last)
        }
    }
}
