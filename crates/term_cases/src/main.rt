// Compares the judge with terms with a brute-force listing of the logs that exchanges within terms reach, with the judge without terms, and with the
// calendar. Prints how much was compared, what was refused, and how much was wrong.
#![tactic(auto)]

use profile::{Calendar, Profile};
use std::io;
use trial::cells::{part_of, plus, times};
use trial::logs::{log_count, put_log_number};
use trial::random::{below, letter_count, put_log, put_masks, put_moves, random_shape, seed_of};
use trial::shapes::alt;
use trial::tally::Tally;
use trial_term_refusals::combined::combine_all;
use trial_term_refusals::lists::all_lists;
use trial_term_refusals::numbers::all_numbers;
use trial_terms::dated::{put_days, put_halves, put_terms};
use trial_terms::judging::{compare_dated, compare_one_term};
use trial_terms::met::{ByDamage, Met};

fn length_of(seed: usize, k: usize) -> usize {
    let most = if k < 4 { 7 } else { 6 };
    below(seed, 12, most)
}

// Mostly a few terms, and now and then twelve; the events are in the first `few` of them.
fn term_count(seed: usize) -> usize {
    if below(seed, 13, 4) == 0 {
        12
    } else {
        plus(1, below(seed, 14, 4))
    }
}

fn few_of(seed: usize, many: usize) -> usize {
    if below(seed, 15, 2) == 0 {
        many
    } else {
        plus(1, below(seed, 16, many))
    }
}

fn compare_profile(profile: &Profile, seed: usize, t: &mut Tally) {
    let mut log = [0u8; 8];
    let mut days = [0u32; 8];
    let mut terms = [0u32; 24];
    let n = length_of(seed, profile.shape.k);
    let many = term_count(seed);
    put_log(seed_of(seed, 1), profile.shape.k, n, &mut log);
    put_terms(seed_of(seed, 2), many, &mut terms);
    put_days(seed_of(seed, 3), n, few_of(seed, many), &terms, &mut days);
    let word = part_of(&log, 0, n);
    let dates = part_of(&days, 0, n);
    compare_dated(
        profile,
        word,
        &Calendar {
            days: dates,
            terms: part_of(&terms, 0, plus(many, many)),
        },
        below(seed, 17, 1000),
        t,
    );
    compare_one_term(
        profile,
        word,
        dates,
        plus(below(seed, 18, 300), times(below(seed, 19, 2), 1100)),
        t,
    );
}

fn one_profile(seed: usize, t: &mut Tally) {
    let mut masks = [0u16; 16];
    let mut moves = [0u32; 64];
    let k = letter_count(seed);
    let s = plus(1, below(seed, 20, 4));
    put_masks(seed, k, plus(2, below(seed, 21, 7)), &mut masks);
    put_moves(seed, s, k, &mut moves);
    compare_profile(
        &Profile {
            shape: random_shape(seed, k, s),
            masks: part_of(&masks, 0, k),
            moves: part_of(&moves, 0, times(s, k)),
        },
        seed,
        t,
    );
}

fn random_profiles(seed: usize, many: usize, t: &mut Tally) {
    for i in 0..many {
        one_profile(seed_of(seed, i), t);
    }
}

// Log v of Alt with its events in two terms; the pairs are both ways, one way, the other way or none.
fn compare_halves(v: usize, halves: usize, pairs: usize, t: &mut Tally) {
    let mut log = [0u8; 8];
    let mut days = [0u32; 8];
    let terms = [20260901u32, 20261218, 20261219, 20270326];
    let moves = [2u32, 0, 0, 1];
    let masks = [((pairs % 2) * 2) as u16, (pairs / 2 % 2) as u16];
    let n = put_log_number(2, v, &mut log);
    if 0 < halves >> (n % 16) {
        return;
    }
    put_halves(halves, n, &terms, &mut days);
    let word = part_of(&log, 0, n);
    compare_dated(
        &Profile {
            shape: alt(),
            masks: &masks,
            moves: &moves,
        },
        word,
        &Calendar {
            days: part_of(&days, 0, n),
            terms: &terms,
        },
        plus(v, halves),
        t,
    );
}

// Every log of up to five letters of Alt, with its events in two terms in every way.
fn all_halves(t: &mut Tally) {
    for i in 0..times(log_count(2, 5), 128) {
        compare_halves(i / 128, i / 4 % 32, i % 4, t);
    }
}

fn print(rt: &impl Print, t: &Tally) -> io::Result<()> {
    println!(rt;
        "logs {}: verdict 1 {}, reachable logs {}, records {}",
        t.of(Met::Logs),
        t.of(Met::Accepted),
        t.of(Met::Reachable),
        t.of(Met::Records)
    )?;
    println!(rt;
        "with one-way masks {}, neighbours in two terms {}, days that fall {}, fewer prefixes than without terms {}, another verdict {}, twelve terms {}",
        t.of(Met::OneWay),
        t.of(Met::Turns),
        t.of(Met::Falls),
        t.of(Met::Fewer),
        t.of(Met::OtherVerdict),
        t.of(Met::Twelve)
    )?;
    println!(rt;
        "one term that has every day {}; order buffers too short {}, tables too short {}",
        t.of(Met::OneTerm),
        t.of(Met::ShortOrders),
        t.of(Met::ShortTables)
    )?;
    println!(rt;
        "numbers as a day and as a term {}: dates {}",
        t.of(Met::Days),
        t.of(Met::Dates)
    )?;
    println!(rt;
        "lists of terms {}: right {}",
        t.of(Met::Lists),
        t.of(Met::RightLists)
    )?;
    println!(rt;
        "lengths of days {}, days in no term {}",
        t.of(Met::NotAsMany),
        t.of(Met::Outside)
    )?;
    println!(rt; "refusals combined {}", t.of(Met::Combined))?;
    println!(rt;
        "wrong: judge {}, one term {}, short buffer {}, number {}, list {}, length or day in no term {}, combined {}",
        t.of(Met::Judge),
        t.of(Met::SameAsJudge),
        t.of(Met::Buffer),
        t.of(Met::Day),
        t.of(Met::List),
        t.of(Met::OutsideWrong),
        t.of(Met::Refusal)
    )?;
    print!(rt; "combined: refused by ")?;
    for (i, number) in [2, 4, 6, 7, 8, 14, 15, 16, 9, 10].iter().enumerate() {
        print!(rt; "{number} {}, ", t.of(ByDamage(Some(i))))?;
    }
    println!(rt; "not refused {}", t.of(ByDamage(None)))
}

fn main(rt: HostRuntime) -> io::Result<()> {
    let mut t = Tally::new();
    all_halves(&mut t);
    random_profiles(8, 6000, &mut t);
    all_numbers(&mut t);
    all_lists(8, 20000, &mut t);
    combine_all(&mut t);
    print(&rt, &t)
}
