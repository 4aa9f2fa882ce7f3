// Compares the profiles made of typed courses with a brute-force reading of the expressions. Prints how much was compared, what was refused, and how
// much was wrong.
#![tactic(auto)]

use std::io;
use trial::tally::Tally;
use trial_courses::counters::{Counted, RefusedBy};
use trial_courses::small::every_text;

// All short texts over two and three letters, and over one, with the letter behind it.
fn every_short_text(t: &mut Tally) {
    every_text(2, b"ab|*()", 5, t);
    every_text(1, b"ab|*()", 5, t);
    every_text(3, b"abc|*()", 5, t);
}

fn print(rt: &impl Print, t: &Tally) -> io::Result<()> {
    println!(rt;
        "texts: all {}, right {}; random {}, right {}; edges {}",
        t.of(Counted::Texts),
        t.of(Counted::Right),
        t.of(Counted::Random),
        t.of(Counted::RandomRight),
        t.of(Counted::Edges)
    )?;
    println!(rt;
        "moves: bits {}, set {}",
        t.of(Counted::Bits),
        t.of(Counted::Set)
    )?;
    println!(rt;
        "logs: all {}, described {}; a and b independent {}, an arrangement described {}; random {}, described {}",
        t.of(Counted::Logs),
        t.of(Counted::DescribedLogs),
        t.of(Counted::PairLogs),
        t.of(Counted::DescribedPairLogs),
        t.of(Counted::RandomLogs),
        t.of(Counted::DescribedRandomLogs)
    )?;
    println!(rt;
        "refusals: 2 {}, 9 {}, 11 {}, 12 {}, 13 {}",
        t.of(RefusedBy(2)),
        t.of(RefusedBy(9)),
        t.of(RefusedBy(11)),
        t.of(RefusedBy(12)),
        t.of(RefusedBy(13))
    )?;
    println!(rt;
        "wrong: refusal {}, profile {}, moves {}, verdict {}, edge {}",
        t.of(Counted::Refusal),
        t.of(Counted::Profile),
        t.of(Counted::Moves),
        t.of(Counted::Verdict),
        t.of(Counted::Edge)
    )
}

fn main(rt: HostRuntime) -> io::Result<()> {
    let mut t = Tally::new();
    every_short_text(&mut t);
    trial_random_courses::random_texts(20261116, 2000, &mut t);
    trial_course_edges::all_edges(&mut t);
    print(&rt, &t)
}
