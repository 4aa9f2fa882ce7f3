// Random grammars, masks and logs.
use crate::cases::{Case, no_case};
use trial::cells::{byte, plus};
use trial::random::{below, letter_count, put_masks, seed_of};

// Mostly few names; else any number.
fn names_of(seed: usize) -> usize {
    if below(seed, 20, 4) == 0 {
        plus(1, below(seed, 21, 16))
    } else {
        plus(1, below(seed, 21, 4))
    }
}

// Mostly few rules; else none, or 64.
fn many_of(seed: usize) -> usize {
    let kind = below(seed, 22, 16);
    if kind == 0 {
        return 0;
    }
    if kind == 1 {
        return 64;
    }
    plus(2, below(seed, 23, 14))
}

fn rule_of(seed: usize, k: usize, names: usize) -> u16 {
    let name = below(seed, 0, names) % 16;
    if below(seed, 1, 2) == 0 {
        return (256 * name + below(seed, 2, k) % 16) as u16;
    }
    (4096 + 256 * name + 16 * (below(seed, 3, names) % 16) + below(seed, 4, names) % 16) as u16
}

fn with_rule(case: Case, i: usize, x: u16) -> Case {
    let mut c = case;
    if i < 65 {
        c.rules[i] = x;
    }
    c
}

fn with_rules(case: Case, seed: usize) -> Case {
    let mut c = case;
    for i in 0..case.many {
        c = with_rule(c, i, rule_of(seed_of(seed, i), case.k, case.names));
    }
    c
}

fn with_letter(case: Case, i: usize, a: usize) -> Case {
    let mut c = case;
    if i < 8 {
        c.log[i] = byte(a);
    }
    c
}

fn with_log(case: Case, seed: usize) -> Case {
    let mut c = case;
    for i in 0..case.events {
        c = with_letter(c, i, below(seed, i, case.k));
    }
    c
}

fn with_masks(case: Case, seed: usize) -> Case {
    let mut c = case;
    let mut masks = [0u16; 17];
    put_masks(seed, case.k, plus(2, below(seed, 17, 7)), &mut masks);
    c.masks = masks;
    c
}

// A case that is not refused but for what it is lent; the log has at most six letters.
pub fn random_case(seed: usize) -> Case {
    let mut c = no_case();
    c.k = letter_count(seed);
    c.names = names_of(seed);
    c.letters = c.k;
    c.many = many_of(seed);
    c.events = below(seed, 24, 7);
    with_log(
        with_rules(with_masks(c, seed), seed_of(seed, 30)),
        seed_of(seed, 31),
    )
}
