// The edges of the ceiling and its refusals, and every combination of conditions.
use crate::compare::{Call, Counted};
use trial::answers::Refused;
use trial::cells::{bit, byte, one16, part_of, plus, put, put_run};
use trial::tally::Tally;

// Group i holds letter i alone.
const SINGLES: [u16; 16] = [
    1, 2, 4, 8, 16, 32, 64, 128, 256, 512, 1024, 2048, 4096, 8192, 16384, 32768,
];

// Three events of each letter: with a group for each the ceiling is 4 to the 16.
fn put_threes(log: &mut [u8]) {
    for a in 0..16 {
        put_run(log, plus(plus(a, a), a), 3, byte(a));
    }
}

fn edge<'x>(
    k: usize,
    masks: &'x [u16],
    log: &'x [u8],
    groups: &'x [u16],
    expected: Result<u64, usize>,
    t: &mut Tally,
) {
    let call = Call {
        k,
        masks,
        log,
        groups,
    };
    t.expect(Counted::Edge, call.tells(expected.map_err(Refused::by)));
    t.count(Counted::Edges);
}

// Sixteen letters, none exchanged, and so many groups that hold them all: none, one, two, fifteen, sixteen and seventeen; a letter for a group, and one of them missing.
fn compare_numbers(t: &mut Tally) {
    let masks = [0u16; 16];
    let groups = [65535u16; 17];
    let log = [3u8, 0, 15];
    for (many, expected) in [
        (0, Err(18)),
        (1, Ok(4)),
        (2, Ok(16)),
        (15, Ok(1073741824)),
        (16, Err(19)),
        (17, Err(18)),
    ]
    .iter()
    {
        edge(16, &masks, &log, part_of(&groups, 0, *many), *expected, t);
    }
    edge(16, &masks, &log, &SINGLES, Ok(8), t);
    edge(16, &masks, &log, part_of(&SINGLES, 0, 15), Err(18), t);
}

// 4,294,967,296 is refused by 19; with one event less the ceiling is three quarters of it.
fn compare_above(t: &mut Tally) {
    let masks = [0u16; 16];
    let mut log = [0u8; 48];
    put_threes(&mut log);
    edge(16, &masks, &log, &SINGLES, Err(19), t);
    let less = part_of(&log, 0, 47);
    edge(16, &masks, less, &SINGLES, Ok(3221225472), t);
}

// 3, 8, 6, 10, 30, 150 and 331 events of seven letters.
fn put_sevens(log: &mut [u8]) {
    put_run(log, 0, 3, 0);
    put_run(log, 3, 8, 1);
    put_run(log, 11, 6, 2);
    put_run(log, 17, 10, 3);
    put_run(log, 27, 30, 4);
    put_run(log, 57, 150, 5);
    put_run(log, 207, 331, 6);
}

// 4,294,967,292 is told, and one event more is refused by 19.
fn compare_highest(t: &mut Tally) {
    let masks = [0u16; 7];
    let groups = [1u16, 2, 4, 8, 16, 32, 64];
    let mut log = [0u8; 538];
    put_sevens(&mut log);
    let less = part_of(&log, 0, 537);
    edge(7, &masks, less, &groups, Ok(4294967292), t);
    edge(7, &masks, &log, &groups, Err(19), t);
}

// 4,000 events and 4,001; a letter of k.
fn compare_logs(t: &mut Tally) {
    let log = [0u8; 4001];
    let less = part_of(&log, 0, 4000);
    edge(1, &[0u16], less, &[1u16], Ok(4001), t);
    edge(1, &[0u16], &log, &[1u16], Err(7), t);
    let bad = Call {
        k: 1,
        masks: &[0u16],
        log: &[0u8, 0, 1, 2],
        groups: &[1u16],
    };
    t.expect(Counted::Edge, bad.tells(Err(Refused::at(8, 2))));
    t.count(Counted::Edges);
}

// Two letters exchanged one way or the other, in one group and in two.
fn compare_two(t: &mut Tally) {
    let ba = [1u8, 0];
    edge(2, &[2u16, 0], &ba, &[3u16], Err(18), t);
    edge(2, &[0u16, 1], &ba, &[3u16], Err(18), t);
    edge(2, &[2u16, 1], &ba, &[1u16, 2], Ok(4), t);
    edge(2, &[0u16, 1], &ba, &[1u16, 2, 3], Err(18), t);
    edge(2, &[0u16, 0], &ba, &[3u16, 1, 0], Ok(6), t);
    edge(2, &[0u16, 0], &ba, &[7u16], Err(18), t);
}

pub fn compare_edges(t: &mut Tally) {
    compare_numbers(t);
    compare_above(t);
    compare_highest(t);
    compare_logs(t);
    compare_two(t);
}

// What the first condition that holds refuses, in the order 2, 4, 7, 8, 18, 19.
fn first_of(which: usize) -> Option<Refused> {
    [
        Refused::by(2),
        Refused::by(4),
        Refused::by(7),
        Refused::at(8, 2),
        Refused::by(18),
        Refused::by(19),
    ]
    .iter()
    .enumerate()
    .find(|(i, _)| bit(which, *i))
    .map(|(_, refused)| *refused)
}

fn pick(yes: bool, a: usize, b: usize) -> usize {
    if yes { a } else { b }
}

// Three events of each letter, then letter 0, or one of them with letter 16 at place 2.
fn put_events(bad: bool, log: &mut [u8]) {
    put_threes(log);
    put(log, 2, byte(pick(bad, 16, 0)));
}

// A call to which exactly the conditions of `which` apply: one mask too few, a mask's own bit, 4,001 events, letter 16 at place 2, the last letter in no group, and
// a product above the limit.
fn compare_combination(which: usize, t: &mut Tally) {
    let mut masks = [0u16; 16];
    let mut log = [0u8; 4001];
    put(&mut masks, 0, one16(pick(bit(which, 1), 0, 16)));
    put_events(bit(which, 3), &mut log);
    let events = pick(bit(which, 2), 4001, pick(bit(which, 5), 60, 3));
    let call = Call {
        k: 16,
        masks: part_of(&masks, 0, pick(bit(which, 0), 15, 16)),
        log: part_of(&log, 0, events),
        groups: part_of(&SINGLES, 0, pick(bit(which, 4), 15, 16)),
    };
    let right = match first_of(which) {
        Some(refused) => call.tells(Err(refused)),
        None => call.tells(Ok(4)),
    };
    t.expect(Counted::Combination, right);
    t.count(Counted::Combined);
}

pub fn compare_combinations(t: &mut Tally) {
    for which in 0..64 {
        compare_combination(which, t);
    }
}
