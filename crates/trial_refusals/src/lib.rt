// Every combination of the refusals that a call can give: the lowest is given, and every buffer stays.
//
// Bit i of a combination is a damage that is refused by 2, 4, 6, 7, 8, 9 or 10, but for bit 2: a pair that may be exchanged one way only, which nothing
// refuses. The variant chooses its form. The call without a damage is that of case M8: three letters, a and b, b and c independent, the log cab, six
// prefixes.
#![tactic(auto)]

use profile::{Profile, Shape};
use trial::answers::{Answer, Refused, is_unchanged, of_compared, refused_as};
use trial::calls::{build_in, first_order_in, judge_in, write_in};
use trial::cells::{bit, byte, minus, part_of, plus, put};
use trial::guarded::Guarded;
use trial::shapes::shape_of;
use trial::tally::{Call, Counted, Tally};

// Variants of a damage; the first SEEN of refusal 2 are of k and the masks, which every call sees.
const VARIANTS: usize = 13;

const SEEN: usize = 6;

const HUGE: usize = 18446744073709551615;

// The number by which each damage is refused, if it is.
const NUMBERS: [Option<usize>; 8] = [
    Some(2),
    Some(4),
    None,
    Some(6),
    Some(7),
    Some(8),
    Some(9),
    Some(10),
];

// The refusal by the lowest number of the damages that a call knows.
fn lowest(damages: usize, known: usize, variant: usize) -> Option<Refused> {
    let number = NUMBERS
        .iter()
        .enumerate()
        .filter(|(i, _)| bit(damages & known, *i))
        .find_map(|(_, number)| *number)?;
    Some(refused_by(number, variant))
}

// 2: k is 0, 17, huge, or not the number of masks.
fn letters_of(damages: usize, variant: usize) -> usize {
    if !bit(damages, 0) {
        return 3;
    }
    match variant {
        0 => 0,
        1 => 17,
        4 => HUGE,
        5 => 4,
        _ => 3,
    }
}

// 2: a mask too few or too many.
fn mask_count(damages: usize, variant: usize) -> usize {
    if !bit(damages, 0) {
        return 3;
    }
    match variant {
        0 => 0,
        1 => 17,
        2 => 2,
        3 => 4,
        _ => 3,
    }
}

// 2: s is 0, 33 or huge.
fn states_of(damages: usize, variant: usize) -> usize {
    if !bit(damages, 0) {
        return 3;
    }
    match variant {
        6 => 0,
        7 => 33,
        12 => HUGE,
        _ => 3,
    }
}

// 2: the start is s, or huge.
fn start_of(damages: usize, variant: usize) -> usize {
    if !bit(damages, 0) {
        return 1;
    }
    match variant {
        8 => 3,
        9 => HUGE,
        _ => 1,
    }
}

// 2: a move too few or too many; s × k of them where k or s is out of range.
fn move_count(damages: usize, variant: usize) -> usize {
    if !bit(damages, 0) {
        return 9;
    }
    match variant {
        0 | 6 => 0,
        1 => 51,
        7 => 99,
        10 => 8,
        11 => 10,
        _ => 9,
    }
}

// 6: a final state from s on.
fn finals_of(damages: usize, variant: usize) -> u32 {
    if !bit(damages, 3) {
        return 5;
    }
    match variant % 4 {
        2 => 13,
        3 => 2147483653,
        _ => 5,
    }
}

fn damaged_shape(damages: usize, variant: usize) -> Shape {
    shape_of(
        letters_of(damages, variant),
        states_of(damages, variant),
        start_of(damages, variant),
        finals_of(damages, variant),
    )
}

// Mask i of a and b, b and c independent.
fn right_mask(i: usize) -> u16 {
    match i {
        0 | 2 => 2,
        1 => 5,
        _ => 0,
    }
}

// 4: bits of mask i from k on, or its own.
fn mask_bit(variant: usize, i: usize) -> u16 {
    match (variant % 4) * 4 + i % 4 {
        0 => 8,
        6 => 32768,
        8 => 1,
        14 => 4,
        _ => 0,
    }
}

// A bit of mask i that makes a pair one-way: one of a before c, b before a, b before c, of which cab has none, so that its prefixes stay six.
fn one_way_bit(variant: usize, i: usize) -> u16 {
    match (variant % 3) * 4 + i % 4 {
        0 => 4,
        5 => 1,
        9 => 4,
        _ => 0,
    }
}

fn bits_where(damaged: bool, bits: u16) -> u16 {
    if damaged { bits } else { 0 }
}

fn mask_of(damages: usize, variant: usize, i: usize) -> u16 {
    (right_mask(i) ^ bits_where(bit(damages, 2), one_way_bit(variant, i)))
        | bits_where(bit(damages, 1), mask_bit(variant, i))
}

fn put_masks(damages: usize, variant: usize, masks: &mut [u16]) {
    for i in 0..4 {
        put(masks, i, mask_of(damages, variant, i));
    }
}

// 6: a move to a state from s on. The moves were 3 each.
fn put_moves(damaged: bool, variant: usize, moves: &mut [u32]) {
    if !damaged {
        return;
    }
    match variant % 4 {
        0 => put(moves, 0, 11),
        1 => put(moves, 8, 2147483651),
        _ => put(moves, 0, 3),
    }
}

// 7: 4,001 letters, or more. Else the three letters of cab.
fn log_length(long: bool, variant: usize) -> usize {
    if !long {
        return 3;
    }
    if variant % 2 == 0 { 4001 } else { 4010 }
}

// 8: a byte of k or more, first at the place that `refused_by` tells; else a letter of cab, over and over.
fn letter_of(bad: bool, variant: usize, i: usize) -> usize {
    if bad {
        match (variant % 3) * 3 + i % 256 {
            0 => return 3,
            5 => return 255,
            7 => return 16,
            8 => return 3,
            _ => {}
        }
    }
    plus(i, 2) % 3
}

// The refusal by the number, at its place.
fn refused_by(number: usize, variant: usize) -> Refused {
    if number != 8 {
        return Refused::by(number);
    }
    match variant % 3 {
        0 => Refused::at(8, 0),
        1 => Refused::at(8, 2),
        _ => Refused::at(8, 1),
    }
}

// Writes the log, and tells its length.
fn put_log(long: bool, bad: bool, variant: usize, log: &mut [u8]) -> usize {
    let n = log_length(long, variant);
    for i in 0..n {
        put(log, i, byte(letter_of(bad, variant, i)));
    }
    n
}

// 9: a buffer for `needed` bytes that is one byte short, or empty.
fn room_for(damages: usize, variant: usize, needed: usize) -> usize {
    if !bit(damages, 6) {
        return plus(needed, variant % 3);
    }
    if variant % 2 == 0 {
        minus(needed, 1)
    } else {
        0
    }
}

// 10: a table that is empty, or one number short of one record or of all.
fn table_size(damages: usize, variant: usize) -> usize {
    if !bit(damages, 7) {
        return plus(60, variant % 11);
    }
    match variant % 3 {
        0 => 0,
        1 => 9,
        _ => 59,
    }
}

// The answer and the buffers of a call.
fn refused_right<const M: usize, const N: usize>(
    answer: Answer,
    expected: Option<Refused>,
    order: &Guarded<u8, M>,
    table: &Guarded<u32, N>,
) -> bool {
    let left = match expected {
        Some(r) => is_unchanged(r.number, order, table),
        None => true,
    };
    refused_as(answer, expected) & left
}

// Counts a combination of one call.
fn close(right: bool, call: Call, expected: Option<Refused>, t: &mut Tally) {
    t.count(Counted::Combined);
    t.refused(Counted::Refusal, right, call, expected.map(|r| r.number));
}

// The judge knows all that are refused.
fn judge_with(damages: usize, variant: usize, profile: &Profile, log: &[u8], t: &mut Tally) {
    let mut order = Guarded::<u8, 4024>::new(room_for(damages, variant, log.len()));
    let mut table = Guarded::<u32, 88>::new(table_size(damages, variant));
    let expected = lowest(damages, 251, variant);
    let answer = judge_in(profile, log, &mut order, &mut table);
    let right = refused_right(answer, expected, &order, &table);
    close(right, Call::Judge, expected, t);
}

// Building has no order buffer.
fn build_with(damages: usize, variant: usize, profile: &Profile, log: &[u8], t: &mut Tally) {
    let order = Guarded::<u8, 1>::new(0);
    let mut table = Guarded::<u32, 88>::new(table_size(damages, variant));
    let expected = lowest(damages, 187, variant);
    let answer = build_in(profile, log, &mut table);
    let right = refused_right(answer, expected, &order, &table);
    close(right, Call::Build, expected, t);
}

// What the first order does not know: s, start, moves, the final set, the table.
fn known_to_order(variant: usize) -> usize {
    if variant < SEEN { 115 } else { 114 }
}

fn first_order_with(damages: usize, variant: usize, profile: &Profile, log: &[u8], t: &mut Tally) {
    let mut order = Guarded::<u8, 4024>::new(room_for(damages, variant, log.len()));
    let table = Guarded::<u32, 1>::new(0);
    let expected = lowest(damages, known_to_order(variant), variant);
    let answer = first_order_in(profile.shape.k, profile.masks, log, &mut order);
    let right = refused_right(answer, expected, &order, &table);
    close(right, Call::First, expected, t);
}

// The writer has no table; its file has 58 bytes beside the log.
fn write_with(damages: usize, variant: usize, profile: &Profile, log: &[u8], t: &mut Tally) {
    let room = room_for(damages, variant, plus(58, log.len()));
    let mut file = Guarded::<u8, 4080>::new(room);
    let table = Guarded::<u32, 1>::new(0);
    let expected = lowest(damages, 123, variant);
    let answer = write_in(profile, log, &mut file);
    let right = refused_right(answer, expected, &file, &table);
    close(right, Call::Write, expected, t);
}

// The four calls on one log, with the damages of the combination in one variant.
fn combine_with(damages: usize, variant: usize, profile: &Profile, log: &[u8], t: &mut Tally) {
    judge_with(damages, variant, profile, log, t);
    build_with(damages, variant, profile, log, t);
    first_order_with(damages, variant, profile, log, t);
    write_with(damages, variant, profile, log, t);
}

fn combine(damages: usize, variant: usize, t: &mut Tally) {
    let mut masks = [0u16; 20];
    let mut moves = [3u32; 100];
    let mut log = [0u8; 4010];
    put_masks(damages, variant, &mut masks);
    put_moves(bit(damages, 3), variant, &mut moves);
    let n = put_log(bit(damages, 4), bit(damages, 5), variant, &mut log);
    let profile = Profile {
        shape: damaged_shape(damages, variant),
        masks: part_of(&masks, 0, mask_count(damages, variant)),
        moves: part_of(&moves, 0, move_count(damages, variant)),
    };
    combine_with(damages, variant, &profile, part_of(&log, 0, n), t);
}

// All combinations in all variants: 256 × 13.
fn combine_all(t: &mut Tally) {
    for c in 0..3328 {
        combine(c / VARIANTS, c % VARIANTS, t);
    }
}

// What `same` expects. Bits 3 and 4 are 7 and 8 in the first log, 5 and 6 in the second, which has another variant.
fn same_refusal(damages: usize, variant: usize) -> Option<Refused> {
    if bit(damages, 0) {
        return Some(Refused::by(2));
    }
    if bit(damages, 1) {
        return Some(Refused::by(4));
    }
    let first = log_refusal(bit(damages, 3), bit(damages, 4), 1, variant);
    if first.is_some() {
        return first;
    }
    log_refusal(bit(damages, 5), bit(damages, 6), 2, plus(variant, 1))
}

// 7 or 8 in a log.
fn log_refusal(long: bool, bad: bool, log: usize, variant: usize) -> Option<Refused> {
    if !long & !bad {
        return None;
    }
    let mut refused = refused_by(if long { 7 } else { 8 }, variant);
    refused.log = log;
    Some(refused)
}

fn combine_same(damages: usize, variant: usize, t: &mut Tally) {
    let mut masks = [0u16; 20];
    let mut first = [0u8; 4010];
    let mut second = [0u8; 4010];
    put_masks(damages, variant, &mut masks);
    let n = put_log(bit(damages, 3), bit(damages, 4), variant, &mut first);
    let m = put_log(
        bit(damages, 5),
        bit(damages, 6),
        plus(variant, 1),
        &mut second,
    );
    let answer = of_compared(comparison::same(
        letters_of(damages, variant),
        part_of(&masks, 0, mask_count(damages, variant)),
        part_of(&first, 0, n),
        part_of(&second, 0, m),
    ));
    let expected = same_refusal(damages, variant);
    close(refused_as(answer, expected), Call::Same, expected, t);
}

// 128 combinations, in the variants of 2 that `same` sees.
fn combine_all_same(t: &mut Tally) {
    for c in 0..768 {
        combine_same(c / SEEN, c % SEEN, t);
    }
}

pub fn all_refusals(t: &mut Tally) {
    combine_all(t);
    combine_all_same(t);
}
