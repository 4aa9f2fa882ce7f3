// Every list of so many groups, given as one number: each group is a digit of it.
use crate::compare::{Call, compare_groups};
use trial::cells::{one16, part_of, quotient, rest};
use trial::random::{below, put_log, seed_of};
use trial::tally::Tally;
use trial_logs::prefixes::prefix_count;

// A relation of k letters, a log of so many events, and P of it.
#[derive(Clone, Copy)]
pub struct Case {
    pub k: usize,
    pub masks: [u16; 4],
    pub log: [u8; 8],
    pub events: usize,
    pub prefixes: usize,
}

fn low16(v: usize) -> u16 {
    (v % 65536) as u16
}

// Four digits of the code, base `size`.
fn digits(code: usize, size: usize) -> [u16; 4] {
    let second = quotient(code, size);
    let third = quotient(second, size);
    let fourth = quotient(third, size);
    [
        low16(rest(code, size)),
        low16(rest(second, size)),
        low16(rest(third, size)),
        low16(rest(fourth, size)),
    ]
}

// The mask without the bit.
fn without(mask: u16, i: usize) -> u16 {
    mask ^ (mask & one16(i))
}

// The relation of a code, base `size`, and a log from the code too.
pub fn case_of(k: usize, code: usize, size: usize) -> Case {
    let d = digits(code, size);
    let masks = [
        without(d[0], 0),
        without(d[1], 1),
        without(d[2], 2),
        without(d[3], 3),
    ];
    let mut log = [0u8; 8];
    let seed = seed_of(code, k);
    let events = below(seed, 100, 7);
    put_log(seed, k, events, &mut log);
    let prefixes = prefix_count(part_of(&masks, 0, k), part_of(&log, 0, events));
    Case {
        k,
        masks,
        log,
        events,
        prefixes,
    }
}

// The list of `many` groups of a code, base `size`.
fn compare_list(c: Case, many: usize, code: usize, size: usize, t: &mut Tally) {
    let masks = c.masks;
    let log = c.log;
    let groups = digits(code, size);
    let call = Call {
        k: c.k,
        masks: part_of(&masks, 0, c.k),
        log: part_of(&log, 0, c.events),
        groups: part_of(&groups, 0, many),
    };
    compare_groups(&call, c.prefixes, t);
}

// Every list of `many` groups: all codes below `codes`.
pub fn compare_lists(c: Case, many: usize, codes: usize, size: usize, t: &mut Tally) {
    for code in 0..codes {
        compare_list(c, many, code, size, t);
    }
}
