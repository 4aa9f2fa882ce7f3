// Judges random logs under two lists of pairs, one of which holds every pair of the other, and compares both answers with a listing of reachable logs and with each
// other: every such pair of lists of up to three letters, and random ones of up to sixteen. Prints how much was compared and how much was wrong.
#![tactic(auto)]

use profile::Profile;
use std::io;
use trial::cells::{part_of, plus, times};
use trial::random::{below, put_log, put_moves, random_shape, seed_of};
use trial::tally::{Counted, Tally};
use trial_more_pairs::compare::{Beside, compare_nested};
use trial_more_pairs::masks::put_nested;

// One profile and one log.
fn compare_one(k: usize, masks: &[u16], longer: &[u16], seed: usize, t: &mut Tally) {
    let mut moves = [0u32; 64];
    let mut letters = [0u8; 8];
    let s = plus(1, below(seed, 0, 4));
    let n = below(seed, 1, 7);
    put_moves(seed, s, k, &mut moves);
    put_log(seed_of(seed, 2), k, n, &mut letters);
    compare_nested(
        &Profile {
            shape: random_shape(seed, k, s),
            masks,
            moves: part_of(&moves, 0, times(s, k)),
        },
        longer,
        part_of(&letters, 0, n),
        t,
    );
}

// `many` profiles and logs.
fn compare_many(k: usize, masks: &[u16], longer: &[u16], seed: usize, many: usize, t: &mut Tally) {
    for i in 0..many {
        compare_one(k, masks, longer, seed_of(seed, i), t);
    }
}

// The two lists of a code.
fn compare_code(k: usize, code: usize, many: usize, t: &mut Tally) {
    let mut masks = [0u16; 16];
    let mut longer = [0u16; 16];
    put_nested(code, k, false, &mut masks);
    put_nested(code, k, true, &mut longer);
    compare_many(
        k,
        part_of(&masks, 0, k),
        part_of(&longer, 0, k),
        seed_of(code, k),
        many,
        t,
    );
}

// All codes below `codes`, of k letters.
fn compare_codes(k: usize, codes: usize, many: usize, t: &mut Tally) {
    for code in 0..codes {
        compare_code(k, code, many, t);
    }
}

// Codes that are seeds, of four to sixteen letters.
fn compare_seeds(codes: usize, t: &mut Tally) {
    for i in 0..codes {
        let code = seed_of(i, 5);
        compare_code(plus(4, below(code, 999, 13)), code, 1, t);
    }
}

fn main(rt: HostRuntime) -> io::Result<()> {
    let mut t = Tally::new();
    compare_codes(1, 1, 40, &mut t);
    compare_codes(2, 9, 200, &mut t);
    compare_codes(3, 729, 8, &mut t);
    compare_seeds(1000, &mut t);
    println!(rt;
        "judged {}, with verdict 1 {}, reachable logs {}",
        t.of(Counted::Logs),
        t.of(Counted::Accepted),
        t.of(Counted::Reachable)
    )?;
    println!(rt;
        "nested lists of pairs {}: verdict 0 became 1 {}, order became another {}, P grew {}, looks grew {}, lists equal {}",
        t.of(Beside::Nested),
        t.of(Beside::TurnedGood),
        t.of(Beside::Earlier),
        t.of(Beside::MorePrefixes),
        t.of(Beside::MoreLooks),
        t.of(Beside::Equal)
    )?;
    println!(rt;
        "wrong: verdict 1 became 0 {}, order became later {}, P shrank {}, looks shrank {}",
        t.of(Beside::TurnedBad),
        t.of(Beside::Later),
        t.of(Beside::FewerPrefixes),
        t.of(Beside::FewerLooks)
    )?;
    println!(rt;
        "judge against the listing, wrong: {}",
        t.of(Counted::Judge)
    )
}
