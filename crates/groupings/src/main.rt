// Asks for the ceiling with every list of up to k groups of k letters, for k from 1 to 4, right or wrong, and compares the answer with the rules letter by letter and with
// a product over the log, and P by trying every set of events. Then the edges, and every combination of refusals. Prints how much was compared and how much was wrong.
#![tactic(auto)]

use std::io;
use trial::random::below;
use trial::tally::Tally;
use trial_ceilings::compare::Counted;
use trial_ceilings::edges::{compare_combinations, compare_edges};
use trial_ceilings::lists::{case_of, compare_lists};

// One letter: every relation, and every group of two bits, so that some hold a bit from k on.
fn compare_one(code: usize, t: &mut Tally) {
    compare_lists(case_of(1, code, 2), 1, 4, 4, t);
}

// Two letters: every list of one or two groups, of three bits too.
fn compare_two(code: usize, t: &mut Tally) {
    let c = case_of(2, code, 4);
    compare_lists(c, 1, 8, 8, t);
    compare_lists(c, 2, 64, 8, t);
}

// Three letters: every list of up to three groups, the short ones of four bits too.
fn compare_three(code: usize, t: &mut Tally) {
    let c = case_of(3, code, 8);
    compare_lists(c, 1, 16, 16, t);
    compare_lists(c, 2, 256, 16, t);
    compare_lists(c, 3, 512, 8, t);
}

// Four letters: every list of up to four groups.
fn compare_four(code: usize, t: &mut Tally) {
    let c = case_of(4, code, 16);
    compare_lists(c, 1, 32, 32, t);
    compare_lists(c, 2, 1024, 32, t);
    compare_lists(c, 3, 4096, 16, t);
    compare_lists(c, 4, 65536, 16, t);
}

// Every relation of up to three letters, and more than one log for most; so many relations of four.
fn compare_small(t: &mut Tally) {
    for code in 0..512 {
        compare_one(code, t);
        compare_two(code, t);
        compare_three(code, t);
    }
}

fn compare_large(many: usize, t: &mut Tally) {
    for i in 0..many {
        compare_four(below(i, 3, 65536) & below(i, 4, 65536), t);
    }
}

fn main(rt: HostRuntime) -> io::Result<()> {
    let mut t = Tally::new();
    compare_small(&mut t);
    compare_large(60, &mut t);
    compare_edges(&mut t);
    compare_combinations(&mut t);
    println!(rt;
        "calls {}: ceilings told {}, of which P meets {}, refused by 18 {}; edges {}, combinations of refusals {}",
        t.of(Counted::Calls),
        t.of(Counted::Told),
        t.of(Counted::Met),
        t.of(Counted::BadGroups),
        t.of(Counted::Edges),
        t.of(Counted::Combined)
    )?;
    println!(rt;
        "wrong: answers {}, P above the ceiling {}, edges {}, combinations {}",
        t.of(Counted::Answer),
        t.of(Counted::Exceeded),
        t.of(Counted::Edge),
        t.of(Counted::Combination)
    )
}
