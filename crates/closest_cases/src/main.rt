// Compares the closest order with a listing of all orders and their swaps, with every budget from 0 to one more than all pairs of a prefix and a state; and so for
// logs with terms. Prints how much was compared, what was refused, and how much was wrong.
#![tactic(auto)]

use profile::Profile;
use std::io;
use trial::cells::{part_of, plus, times};
use trial::logs::{log_count, put_log_number};
use trial::random::{below, letter_count, put_log, put_masks, put_moves, random_shape, seed_of};
use trial::shapes::{alt, shape_of};
use trial::tally::Tally;
use trial_closest::budgets::compare_log;
use trial_closest::edges::{compare_edges, compare_term_edges};
use trial_closest::lent::Dated;
use trial_closest::met::Met;
use trial_closest::refusing::{combine_all, combine_all_terms};
use trial_terms::dated::{put_days, put_halves, put_terms};
use trial_terms::met::ByDamage;

// One to four states, and now and then 32.
fn states_of(seed: usize) -> usize {
    if below(seed, 12, 12) == 0 {
        32
    } else {
        plus(1, below(seed, 13, 4))
    }
}

fn larger(a: usize, b: usize) -> usize {
    if a < b { b } else { a }
}

// Up to six events, and fewer where there are many states or letters.
fn length_of(seed: usize, k: usize, s: usize) -> usize {
    let few = if k < 4 { 7 } else { 6 };
    let most = if s == 32 { 4 } else { few };
    larger(below(seed, 14, most), below(seed, 17, most))
}

// One to four terms, now and then twelve, and days of n events in the first few of them, which need not rise.
fn random_terms(seed: usize, n: usize) -> Dated {
    let mut days = [0u32; 8];
    let mut terms = [0u32; 24];
    let many = if below(seed, 18, 8) == 0 {
        12
    } else {
        plus(1, below(seed, 19, 4))
    };
    let few = plus(1, below(seed, 20, many));
    put_terms(seed_of(seed, 2), many, &mut terms);
    put_days(seed_of(seed, 3), n, few, &terms, &mut days);
    Dated {
        days,
        terms,
        numbers: plus(many, many),
    }
}

fn with_log(profile: &Profile, seed: usize, with_terms: bool, t: &mut Tally) {
    let mut log = [0u8; 8];
    let n = length_of(seed, profile.shape.k, profile.shape.s);
    put_log(seed_of(seed, 1), profile.shape.k, n, &mut log);
    let dated = if with_terms {
        Some(random_terms(seed, n))
    } else {
        None
    };
    compare_log(
        profile,
        part_of(&log, 0, n),
        dated,
        below(seed, 15, 1000),
        t,
    );
}

fn one_profile(seed: usize, with_terms: bool, t: &mut Tally) {
    let mut masks = [0u16; 16];
    let mut moves = [0u32; 512];
    let k = letter_count(seed);
    let s = states_of(seed);
    put_masks(seed, k, plus(3, below(seed, 16, 6)), &mut masks);
    put_moves(seed, s, k, &mut moves);
    with_log(
        &Profile {
            shape: random_shape(seed, k, s),
            masks: part_of(&masks, 0, k),
            moves: part_of(&moves, 0, times(s, k)),
        },
        seed,
        with_terms,
        t,
    );
}

fn random_profiles(seed: usize, many: usize, with_terms: bool, t: &mut Tally) {
    for i in 0..many {
        one_profile(seed_of(seed, i), with_terms, t);
    }
}

// The event is in the second of two terms where its bit is set.
fn halves_of(halves: usize) -> Dated {
    let mut days = [0u32; 8];
    let mut terms = [0u32; 24];
    terms[0] = 20260901;
    terms[1] = 20261218;
    terms[2] = 20261219;
    terms[3] = 20270326;
    put_halves(halves, 8, &terms, &mut days);
    Dated {
        days,
        terms,
        numbers: 4,
    }
}

// A log of Alt and of one state that accepts everything; the pairs are both ways, one way, the other way or none.
fn compare_two(log: &[u8], v: usize, pairs: usize, dated: Option<Dated>, t: &mut Tally) {
    let masks = [((pairs % 2) * 2) as u16, (pairs / 2 % 2) as u16];
    let alternate = Profile {
        shape: alt(),
        masks: &masks,
        moves: &[2u32, 0, 0, 1],
    };
    compare_log(&alternate, log, dated, v, t);
    let any = Profile {
        shape: shape_of(2, 1, 0, 1),
        masks: &masks,
        moves: &[1u32, 1],
    };
    compare_log(&any, log, dated, plus(v, pairs), t);
}

// Every log of up to six letters a and b.
fn all_of_two(t: &mut Tally) {
    for i in 0..times(log_count(2, 6), 4) {
        let mut log = [0u8; 8];
        let n = put_log_number(2, i / 4, &mut log);
        compare_two(part_of(&log, 0, n), i / 4, i % 4, None, t);
    }
}

// Every log of four letters a and b, with its events in two terms in every way.
fn all_halves(t: &mut Tally) {
    for i in 0..1024 {
        let mut log = [0u8; 8];
        let v = plus(15, i / 64);
        let n = put_log_number(2, v, &mut log);
        let dated = Some(halves_of(i % 16));
        compare_two(part_of(&log, 0, n), v, i / 16 % 4, dated, t);
    }
}

fn print(rt: &impl Print, t: &Tally) -> io::Result<()> {
    println!(rt;
        "logs {}: verdict 1 {}, with one-way masks {}, closest order not the judge's {}, not the log {}; pairs of a prefix and a state {}",
        t.of(Met::Logs),
        t.of(Met::Accepted),
        t.of(Met::OneWay),
        t.of(Met::OtherOrder),
        t.of(Met::Swapped),
        t.of(Met::Pairs)
    )?;
    println!(rt;
        "budgets {}: below all pairs with a floor above 0 {}, and below the fewest swaps {}; that cover all pairs {}",
        t.of(Met::Budgets),
        t.of(Met::Floors),
        t.of(Met::LowFloors),
        t.of(Met::Covering)
    )?;
    println!(rt;
        "order buffers too short {}, tables too short {}, cost tables too short {}; by hand {}, refusals combined {}",
        t.of(Met::ShortOrders),
        t.of(Met::ShortTables),
        t.of(Met::ShortCosts),
        t.of(Met::Edges),
        t.of(Met::Combined)
    )?;
    println!(rt;
        "wrong: listing {}, judge {}, budget {}, short buffer {}, by hand {}, combined {}",
        t.of(Met::Listing),
        t.of(Met::Judge),
        t.of(Met::Budget),
        t.of(Met::Buffer),
        t.of(Met::Edge),
        t.of(Met::Refusal)
    )?;
    print!(rt; "combined: refused by ")?;
    for (i, number) in [2, 4, 6, 7, 8, 14, 15, 16, 9, 10, 17].iter().enumerate() {
        print!(rt; "{number} {}, ", t.of(ByDamage(Some(i))))?;
    }
    println!(rt; "not refused {}", t.of(ByDamage(None)))
}

fn print_terms(rt: &impl Print, t: &Tally) -> io::Result<()> {
    println!(rt;
        "with terms: neighbours in two terms {}, days that fall {}, fewer prefixes than without terms {}",
        t.of(Met::Turns),
        t.of(Met::Falls),
        t.of(Met::Fewer)
    )?;
    print(rt, t)
}

fn main(rt: HostRuntime) -> io::Result<()> {
    let mut t = Tally::new();
    all_of_two(&mut t);
    random_profiles(10, 10000, false, &mut t);
    compare_edges(&mut t);
    combine_all(&mut t);
    print(&rt, &t)?;
    let mut dated = Tally::new();
    all_halves(&mut dated);
    random_profiles(11, 10000, true, &mut dated);
    compare_term_edges(&mut dated);
    combine_all_terms(&mut dated);
    print_terms(&rt, &dated)
}
