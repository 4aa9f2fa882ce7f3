// What no random case has: every set of defects of one case, logs of 4,000 and 4,001 letters, and the limits of names and rules.
use crate::cases::{Case, no_case};
use crate::compare::{Counted, with_room};
use crate::lent::Lent;
use crate::refusing::{Defect, compare_defects, compare_refusal};
use trial::tally::Tally;

// Nested loans: a lends a set and b takes it back; the log is ba, which may become ab.
fn nested_case() -> Case {
    let mut c = no_case();
    c.k = 2;
    c.letters = 2;
    c.names = 4;
    c.many = 6;
    c.events = 2;
    c.masks[0] = 2;
    c.masks[1] = 1;
    c.rules[0] = 4114;
    c.rules[1] = 4115;
    c.rules[2] = 4096;
    c.rules[3] = 4866;
    c.rules[4] = 256;
    c.rules[5] = 513;
    c.log[0] = 1;
    with_room(c, 0)
}

// Every set of defects, with each kind of them.
pub fn all_defects(t: &mut Tally) {
    for i in 0..2048 {
        compare_defects(&nested_case(), i / 8, i % 8, t);
    }
}

// 4,001 letters are refused by 7 before a bad letter, short buffers and all that follows is looked at.
pub fn compare_long(t: &mut Tally) {
    let log = [9u8; 4001];
    let mut c = nested_case();
    c.room = 0;
    c.size = 0;
    c.sets = 0;
    compare_refusal(&c, &log, Defect::By7, 0, t);
}

fn edge(right: bool, t: &mut Tally) {
    t.expect(Counted::Edge, right);
    t.count(Counted::Edges);
}

// The number that a case is refused by, with a log of its own.
fn number_of(case: &Case, log: &[u8]) -> Option<u32> {
    Lent::to(case).judge(case, log)
}

// 4,000 letters pass 7: the next that applies is 9.
fn longest(t: &mut Tally) {
    let log = [0u8; 4000];
    edge(number_of(&nested_case(), &log) == Some(9), t);
}

// A case with so many names and rules, all of the rule 0: name 0 gives letter 0.
fn limited(names: usize, many: usize) -> Case {
    let mut c = no_case();
    c.names = names;
    c.many = many;
    c.events = 1;
    with_room(c, 0)
}

fn limit(names: usize, many: usize, number: u32, t: &mut Tally) {
    let log = [0u8; 1];
    edge(number_of(&limited(names, many), &log) == Some(number), t);
}

// One rule, with k letters and some names.
fn one_rule(k: usize, names: usize, rule: u16, number: u32, t: &mut Tally) {
    let log = [0u8; 1];
    let mut c = limited(names, 1);
    c.k = k;
    c.letters = k;
    c.rules[0] = rule;
    edge(number_of(&c, &log) == Some(number), t);
}

// 1 to 16 names and up to 64 rules.
fn limits(t: &mut Tally) {
    limit(1, 64, 0, t);
    limit(16, 64, 0, t);
    limit(1, 0, 0, t);
    limit(1, 65, 21, t);
    limit(0, 0, 21, t);
    limit(17, 1, 21, t);
}

// The last letter and the last names of a rule, and the first that are out of range; a rule of neither kind.
fn last_ones(t: &mut Tally) {
    one_rule(16, 1, 16, 21, t);
    one_rule(16, 1, 15, 0, t);
    one_rule(2, 1, 2, 21, t);
    one_rule(2, 1, 1, 0, t);
    one_rule(1, 3, 768, 21, t);
    one_rule(1, 3, 512, 0, t);
    one_rule(1, 3, 4144, 21, t);
    one_rule(1, 3, 4130, 0, t);
    one_rule(1, 16, 8192, 21, t);
    one_rule(1, 16, 8191, 0, t);
    one_rule(1, 16, 65535, 21, t);
    one_rule(1, 3, 4099, 21, t);
}

pub fn all_edges(t: &mut Tally) {
    all_defects(t);
    compare_long(t);
    longest(t);
    limits(t);
    last_ones(t);
}
