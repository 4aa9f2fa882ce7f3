// Gives the running judge random lists of events and questions, and compares every answer, record and table with a listing of prefixes as sets of events, and
// with the judge. Prints how much was compared and how much was wrong.
#![tactic(auto)]

use profile::Profile;
use std::io;
use trial::cells::{part_of, plus, times};
use trial::random::{below, letter_count, put_masks, put_moves, random_shape, seed_of};
use trial::tally::Tally;
use trial_running::damaged::compare_damaged;
use trial_running::run::{Counted, Run};

// Mostly more than enough; else a few records, and now and then not one.
fn size_of(seed: usize) -> usize {
    if below(seed, 12, 3) == 0 {
        below(seed, 13, 120)
    } else {
        1400
    }
}

fn run_with(profile: &Profile, seed: usize, t: &mut Tally) {
    t.count(Counted::Runs);
    let mut run = Run::new(size_of(seed));
    run.compare(profile, seed, plus(6, below(seed, 14, 6)), t);
    compare_damaged(profile, seed, t);
}

fn one_run(seed: usize, t: &mut Tally) {
    let mut masks = [0u16; 16];
    let mut moves = [0u32; 64];
    let k = letter_count(seed);
    let s = plus(1, below(seed, 16, 4));
    put_masks(seed, k, plus(2, below(seed, 17, 7)), &mut masks);
    put_moves(seed, s, k, &mut moves);
    let shape = random_shape(seed, k, s);
    run_with(
        &Profile {
            shape,
            masks: part_of(&masks, 0, k),
            moves: part_of(&moves, 0, times(s, k)),
        },
        seed,
        t,
    );
}

fn all_runs(seed: usize, many: usize, t: &mut Tally) {
    for i in 0..many {
        one_run(seed_of(seed, i), t);
    }
}

fn main(rt: HostRuntime) -> io::Result<()> {
    let mut t = Tally::new();
    all_runs(7, 5000, &mut t);
    println!(rt;
        "runs {}: starts refused {}, events taken {}, refused by 8 {}, by 10 {}, questions {}, with verdict 1 {}, records {}",
        t.of(Counted::Runs),
        t.of(Counted::RefusedStarts),
        t.of(Counted::Events),
        t.of(Counted::BadLetters),
        t.of(Counted::FullTables),
        t.of(Counted::Questions),
        t.of(Counted::Accepted),
        t.of(Counted::Records)
    )?;
    println!(rt; "record or table not as left: {}", t.of(Counted::Damaged))?;
    println!(rt;
        "wrong: start {}, event {}, question {}, table {}, judge {}, listing {}, not as left {}",
        t.of(Counted::Start),
        t.of(Counted::Event),
        t.of(Counted::Question),
        t.of(Counted::Table),
        t.of(Counted::Judge),
        t.of(Counted::Listing),
        t.of(Counted::Answer)
    )
}
