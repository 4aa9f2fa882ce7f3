// Logs about 255 letters, where a count leaves one byte, and up to 4,000, which every call takes; 4,001 letters are refused by 7. Logs too long to list,
// whose records have a closed form.
#![tactic(auto)]

use profile::Profile;
use trial::answers::{
    Answer, Refused, is_refusal, is_told, is_unchanged, is_verdict, of_compared, refused_as,
    verdict_of,
};
use trial::calls::{build_in, first_order_in, judge_in};
use trial::cells::{byte, minus, one32, part_of, plus, put, put_run, times, wide};
use trial::guarded::Guarded;
use trial::record_numbers::{BACKWARD, FORWARD, count_of, record_at, set_of, total_of};
use trial::shapes::{alt, shape_of};
use trial::tally::{Call, Counted, Tally};

// Sixteen letters and five states in a ring: each letter leads from a state to the next, and from the last to the first, which is the final one.
fn put_ring(moves: &mut [u32]) {
    for i in 0..80 {
        put(moves, i, one32(plus(i / 16, 1) % 5));
    }
}

// Record r of n times one letter: r of it, the one state that they lead to, and the one from which the n - r others lead to the final state.
fn line_record(table: &[u32], letter: usize, n: usize, r: usize) -> bool {
    (count_of(table, r, letter) == r)
        & (total_of(table, r) == r)
        & (set_of(table, r, FORWARD) == one32(r % 5))
        & (set_of(table, r, BACKWARD) == one32(plus(r, times(4, n)) % 5))
}

fn line_records(table: &[u32], letter: usize, n: usize) -> bool {
    (0..plus(n, 1)).all(|r| line_record(table, letter, n, r))
}

// n + 1 records and nothing else written; one letter can be added to each but the last. Or the refusal.
fn line_table(
    answer: Answer,
    number: Option<usize>,
    verdict: Option<bool>,
    letter: usize,
    n: usize,
    table: &Guarded<u32, 40040>,
) -> bool {
    match number {
        Some(x) => {
            is_refusal(answer, Refused::by(x)) & is_unchanged(x, &Guarded::<u8, 0>::new(0), table)
        }
        None => {
            is_told(answer, verdict, plus(n, 1), n)
                & table.stays_behind(record_at(plus(n, 1)))
                & line_records(table.content(), letter, n)
        }
    }
}

// The order stands where it is written; else the buffer is as it was.
fn order_right(written: bool, buffer: &Guarded<u8, 4016>, order: &[u8]) -> bool {
    if written {
        buffer.holds(order)
    } else {
        buffer.stays()
    }
}

// The ring accepts n letters where 5 divides n.
fn line_verdict(n: usize) -> bool {
    n % 5 == 0
}

// Judges a log of n times one letter in `size` numbers: refused by the number, if there is one. The log is its own order.
fn judge_run(
    letter: usize,
    n: usize,
    size: usize,
    number: Option<usize>,
    log: &[u8],
    t: &mut Tally,
) {
    let mut moves = [0u32; 80];
    let mut buffer = Guarded::<u8, 4016>::new(n);
    let mut table = Guarded::<u32, 40040>::new(size);
    put_ring(&mut moves);
    let verdict = line_verdict(n);
    let answer = judge_in(
        &Profile {
            shape: shape_of(16, 5, 0, 1),
            masks: &[0u16; 16],
            moves: &moves,
        },
        log,
        &mut buffer,
        &mut table,
    );
    let right = line_table(answer, number, Some(verdict), letter, n, &table)
        & order_right(number.is_none() & verdict, &buffer, log);
    t.refused_edge(right, Call::Judge, number);
}

fn judge_line(letter: usize, n: usize, size: usize, number: Option<usize>, t: &mut Tally) {
    let mut letters = [0u8; 4001];
    put_run(&mut letters, 0, n, byte(letter));
    judge_run(letter, n, size, number, part_of(&letters, 0, n), t);
}

fn build_line(letter: usize, n: usize, size: usize, number: Option<usize>, t: &mut Tally) {
    let mut letters = [0u8; 4001];
    let mut moves = [0u32; 80];
    let mut table = Guarded::<u32, 40040>::new(size);
    put_run(&mut letters, 0, n, byte(letter));
    put_ring(&mut moves);
    let answer = build_in(
        &Profile {
            shape: shape_of(16, 5, 0, 1),
            masks: &[0u16; 16],
            moves: &moves,
        },
        part_of(&letters, 0, n),
        &mut table,
    );
    let right = line_table(answer, number, None, letter, n, &table);
    t.refused_edge(right, Call::Build, number);
}

// n times the letter have their n + 1 records in ten times as many numbers, and not in one fewer.
fn line(letter: usize, n: usize, t: &mut Tally) {
    let size = record_at(plus(n, 1));
    let less = minus(size, 1);
    judge_line(letter, n, size, None, t);
    judge_line(letter, n, less, Some(10), t);
    build_line(letter, n, size, None, t);
    build_line(letter, n, less, Some(10), t);
}

// About 255 letters, in the low half of a number and in the high one.
fn inner_lines(t: &mut Tally) {
    for n in [254, 255, 256, 257].iter() {
        line(0, *n, t);
        line(15, *n, t);
    }
}

// 4,000 letters have their records in 40,010 numbers; 4,001 letters are refused, also where their records would fit and where not one would.
fn lines(t: &mut Tally) {
    inner_lines(t);
    line(0, 3999, t);
    line(0, 4000, t);
    line(7, 4000, t);
    for size in [40020, 0].iter() {
        judge_line(0, 4001, *size, Some(7), t);
        build_line(0, 4001, *size, Some(7), t);
    }
}

// The states after i letters a and j letters b in some order: Alt.
fn square_set(i: usize, j: usize) -> u32 {
    if i == j {
        return 1;
    }
    if i == plus(j, 1) { 2 } else { 0 }
}

// The counts of record r follow those of the record before it, where a stands up to `a` times and b up to `b` times: within one total a has one more, and
// else the fewest that the next total allows.
fn follows(table: &[u32], r: usize, a: usize, b: usize) -> bool {
    let i = count_of(table, minus(r, 1), 0);
    let j = count_of(table, minus(r, 1), 1);
    let x = count_of(table, r, 0);
    let y = count_of(table, r, 1);
    if r == 0 {
        return (x == 0) & (y == 0);
    }
    if (i < a) & (0 < j) {
        return (x == plus(i, 1)) & (plus(y, 1) == j);
    }
    let next = plus(plus(i, j), 1);
    (x == minus(next, b)) & (plus(x, y) == next)
}

// Record r of Alt on `b` times b and then `a` times a: its place by total and counts, and its sets. What is left, a - i times a and b - j times b, leads to
// the final state from state 0 where both are as many, and from state 1 where b has one more.
fn square_record(table: &[u32], r: usize, a: usize, b: usize) -> bool {
    let i = count_of(table, r, 0);
    let j = count_of(table, r, 1);
    (plus(i, j) == total_of(table, r))
        & follows(table, r, a, b)
        & (set_of(table, r, FORWARD) == square_set(i, j))
        & (set_of(table, r, BACKWARD) == square_set(plus(i, b), plus(j, a)))
}

fn square_records(table: &[u32], records: usize, a: usize, b: usize) -> bool {
    (0..records).all(|r| square_record(table, r, a, b))
}

fn alternates(order: &[u8]) -> bool {
    order
        .iter()
        .enumerate()
        .all(|(i, letter)| wide(*letter) == i % 2)
}

// Verdict 1 comes with abab to the end, verdict 0 with no order.
fn square_order(verdict: bool, buffer: &Guarded<u8, 4016>, n: usize) -> bool {
    if !verdict {
        return buffer.stays();
    }
    buffer.stays_behind(n) & alternates(buffer.first(n))
}

// (a + 1) × (b + 1) records, and nothing else written; an a can be added a × (b + 1) times, and a b (a + 1) × b times.
fn square_right(
    answer: Answer,
    a: usize,
    b: usize,
    buffer: &Guarded<u8, 4016>,
    table: &Guarded<u32, 163860>,
) -> bool {
    let verdict = a == b;
    let records = times(plus(a, 1), plus(b, 1));
    let looks = plus(times(a, plus(b, 1)), times(plus(a, 1), b));
    is_verdict(answer, verdict, records, looks)
        & square_order(verdict, buffer, plus(a, b))
        & table.stays_behind(record_at(records))
        & square_records(table.content(), records, a, b)
}

// Alt on `b` times b and then `a` times a, where b may be moved past.
fn square(masks: &[u16], a: usize, b: usize, t: &mut Tally) {
    let mut letters = [0u8; 4000];
    let n = plus(a, b);
    let mut buffer = Guarded::<u8, 4016>::new(n);
    let mut table = Guarded::<u32, 163860>::new(163850);
    put_run(&mut letters, 0, b, 1);
    let answer = judge_in(
        &Profile {
            shape: alt(),
            masks,
            moves: &[2u32, 0, 0, 1],
        },
        part_of(&letters, 0, n),
        &mut buffer,
        &mut table,
    );
    t.count_many(Counted::Records, times(plus(a, 1), plus(b, 1)));
    t.edge(square_right(answer, a, b, &buffer, &table));
}

// 127 of each letter, both ways and one way; 4,000 letters, nearly all of one kind; a count past one byte beside a smaller one, in either half.
fn squares(t: &mut Tally) {
    square(&[2u16, 1], 127, 127, t);
    square(&[0u16, 1], 127, 127, t);
    square(&[0u16, 1], 3998, 2, t);
    square(&[2u16, 1], 2, 3998, t);
    square(&[2u16, 1], 260, 60, t);
    square(&[2u16, 1], 60, 260, t);
}

// The comparison of two logs of two letters is refused, or says the verdict.
fn compare_long(
    masks: &[u16],
    first: &[u8],
    second: &[u8],
    expected: Result<bool, Refused>,
    t: &mut Tally,
) {
    let answer = of_compared(comparison::same(2, masks, first, second));
    let refused = expected.err();
    let right = refused_as(answer, refused) & (verdict_of(answer) == expected.ok());
    t.refused_edge(right, Call::Same, refused.map(|r| r.number));
}

// A refusal at the place in one of the two logs.
fn about(log: usize, number: usize, place: usize) -> Result<bool, Refused> {
    Err(Refused { number, place, log })
}

// The first order of a log, or its refusal by the number.
fn order_long(masks: &[u16], log: &[u8], first: &[u8], number: Option<usize>, t: &mut Tally) {
    let mut buffer = Guarded::<u8, 4016>::new(log.len());
    let answer = first_order_in(2, masks, log, &mut buffer);
    let right = refused_as(answer, number.map(Refused::by))
        & order_right(number.is_none(), &buffer, first);
    t.refused_edge(right, Call::First, number);
}

// The two are the same where a and b are independent both ways, and not where they are so one way or not at all, nor without the last letter.
fn same_long(log: &[u8], first: &[u8], t: &mut Tally) {
    let masks = [2u16, 1];
    compare_long(&masks, log, first, Ok(true), t);
    compare_long(&[0u16, 1], log, first, Ok(false), t);
    compare_long(&[0u16, 0], log, first, Ok(false), t);
    let less = part_of(first, 0, minus(first.len(), 1));
    compare_long(&masks, log, less, Ok(false), t);
}

// `b` times b and then a up to n letters, whose first order is a and then `b` times b where b may be moved past, and itself where only a may.
fn orders_of(n: usize, b: usize, t: &mut Tally) {
    let mut letters = [0u8; 4000];
    let mut ordered = [0u8; 4000];
    put_run(&mut letters, 0, b, 1);
    put_run(&mut ordered, minus(n, b), b, 1);
    let log = part_of(&letters, 0, n);
    let first = part_of(&ordered, 0, n);
    order_long(&[2u16, 1], log, first, None, t);
    order_long(&[0u16, 1], log, first, None, t);
    order_long(&[2u16, 0], log, log, None, t);
    same_long(log, first, t);
}

// Lengths about 255 and up to 4,000; 4,001 letters are refused.
fn long_orders(t: &mut Tally) {
    orders_of(255, 128, t);
    orders_of(256, 128, t);
    orders_of(257, 256, t);
    orders_of(3999, 300, t);
    orders_of(4000, 2000, t);
    order_long(&[2u16, 1], &[0u8; 4001], b"", Some(7), t);
}

// 4,001 letters in the first log, in the second, or in both. A bad letter of the first goes before 4,001 letters of the second.
fn long_pairs(t: &mut Tally) {
    let masks = [2u16, 1];
    let long = [0u8; 4001];
    let bad = b"\x00\x01\x02\x03";
    compare_long(&masks, &long, b"", about(1, 7, 0), t);
    compare_long(&masks, b"", &long, about(2, 7, 0), t);
    compare_long(&masks, &long, &long, about(1, 7, 0), t);
    compare_long(&masks, bad, &long, about(1, 8, 2), t);
    compare_long(&masks, part_of(&long, 0, 4000), bad, about(2, 8, 2), t);
}

pub fn long_logs(t: &mut Tally) {
    lines(t);
    squares(t);
    long_orders(t);
    long_pairs(t);
}
