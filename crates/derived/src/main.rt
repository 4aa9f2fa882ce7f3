// Gives the judge for grammars random grammars and logs, and compares every answer with a listing of all reachable logs and of the names from which each can
// be derived. Prints how much was compared and how much was wrong.
#![tactic(auto)]

use std::io;
use trial::cells::plus;
use trial::random::{below, seed_of};
use trial::tally::Tally;
use trial_derived::compare::{Counted, compare_case, with_room};
use trial_derived::edges::all_edges;
use trial_derived::random::random_case;
use trial_derived::refusing::{Defect, compare_defects};

// One grammar and log: a call that is not refused, and one with some defects.
fn one_case(seed: usize, t: &mut Tally) {
    let case = random_case(seed);
    compare_case(&with_room(case, below(seed, 1, 60)), t);
    compare_defects(
        &with_room(case, 0),
        plus(1, below(seed, 2, 255)),
        below(seed, 3, 8),
        t,
    );
}

fn all_cases(seed: usize, many: usize, t: &mut Tally) {
    for i in 0..many {
        one_case(seed_of(seed, i), t);
    }
}

fn main(rt: HostRuntime) -> io::Result<()> {
    let mut t = Tally::new();
    all_cases(13, 4000, &mut t);
    all_edges(&mut t);
    println!(rt;
        "grammars and logs {}, one-way {}: verdict 1 {}, reachable logs {}, of them derived {}, records {}",
        t.of(Counted::Cases),
        t.of(Counted::OneWay),
        t.of(Counted::Accepted),
        t.of(Counted::Reachable),
        t.of(Counted::Derivable),
        t.of(Counted::Records)
    )?;
    println!(rt;
        "refused by 2 {}, 4 {}, 21 {}, 7 {}, 8 {}, 9 {}, 10 {}, 22 {}; edges {}",
        t.of(Defect::By2),
        t.of(Defect::By4),
        t.of(Defect::By21),
        t.of(Defect::By7),
        t.of(Defect::By8),
        t.of(Defect::By9),
        t.of(Defect::By10),
        t.of(Defect::By22),
        t.of(Counted::Edges)
    )?;
    println!(rt;
        "wrong: verdict {}, order {}, table {}, refusal {}, edge {}",
        t.of(Counted::Verdict),
        t.of(Counted::Order),
        t.of(Counted::Table),
        t.of(Counted::Refusal),
        t.of(Counted::Edge)
    )
}
