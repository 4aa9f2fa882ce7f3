// Every combination of the refusals that the judge with terms can give: the first in their order is given, and every buffer stays.
//
// Bit i of a combination is a damage that is refused by 2, 4, 6, 7, 8, 14, 15, 16, 9 or 10, in this order. The variant chooses its form. The call without a
// damage is that of case M8: three letters, a and b, b and c independent, the log cab, all in the first of two terms, six prefixes.
use profile::{Calendar, Profile, Shape};
use trial::answers::{Answer, Refused, is_unchanged, refused_as};
use trial::cells::{bit, byte, minus, part_of, plus, put};
use trial::guarded::Guarded;
use trial::shapes::shape_of;
use trial::tally::Tally;
use trial_terms::lent::judge_terms_in;
use trial_terms::met::{ByDamage, Met};

pub const VARIANTS: usize = 12;

// The numbers by which the damages are refused.
const NUMBERS: [usize; 10] = [2, 4, 6, 7, 8, 14, 15, 16, 9, 10];

// The first damage.
pub fn first_damage(damages: usize) -> Option<usize> {
    (0..10).find(|&i| bit(damages, i))
}

// What a damage is refused by; its place is that of a bad letter.
pub fn refusal_of(damage: usize, variant: usize) -> Option<Refused> {
    let number = NUMBERS.get(damage).copied()?;
    if number == 8 {
        Some(Refused::at(8, bad_place(variant)))
    } else {
        Some(Refused::by(number))
    }
}

// 2: k is 0 or 17, s is 33, the start is s; or a mask or a move too few.
pub fn damaged_shape(damages: usize, variant: usize) -> Shape {
    let finals = if bit(damages, 2) & (variant % 2 == 0) {
        13
    } else {
        5
    };
    if !bit(damages, 0) {
        return shape_of(3, 3, 1, finals);
    }
    match variant % 6 {
        0 => shape_of(0, 3, 1, finals),
        1 => shape_of(17, 3, 1, finals),
        2 => shape_of(3, 33, 1, finals),
        3 => shape_of(3, 3, 3, finals),
        _ => shape_of(3, 3, 1, finals),
    }
}

pub fn mask_count(damages: usize, variant: usize) -> usize {
    if bit(damages, 0) & (variant % 6 == 4) {
        2
    } else {
        3
    }
}

pub fn move_count(damages: usize, variant: usize) -> usize {
    if bit(damages, 0) & (variant % 6 == 5) {
        8
    } else {
        9
    }
}

// 4: a bit of the first mask from k on, or its own.
pub fn first_mask(damages: usize, variant: usize) -> u16 {
    if !bit(damages, 1) {
        return 2;
    }
    match variant % 3 {
        0 => 10,
        1 => 32770,
        _ => 3,
    }
}

// 6: a move to a state from s on, where it is not the final set that has one.
pub fn first_move(damages: usize, variant: usize) -> u32 {
    if bit(damages, 2) & (variant % 2 == 1) {
        11
    } else {
        3
    }
}

// 7: 4,001 letters.
pub fn log_length(damages: usize) -> usize {
    if bit(damages, 3) { 4001 } else { 3 }
}

// 8: a letter of k or more at this place.
pub fn bad_place(variant: usize) -> usize {
    variant % 3
}

fn letter_of(damages: usize, variant: usize, i: usize) -> usize {
    if bit(damages, 4) & (i == bad_place(variant)) {
        return plus(3, variant);
    }
    plus(i, 2) % 3
}

pub fn put_log(damages: usize, variant: usize, log: &mut [u8]) {
    for i in 0..log_length(damages) {
        put(log, i, byte(letter_of(damages, variant, i)));
    }
}

// 14: days too few or too many, or none, or one that is no such date.
pub fn day_count(damages: usize, variant: usize) -> usize {
    let n = log_length(damages);
    if !bit(damages, 5) {
        return n;
    }
    match variant {
        0 => minus(n, 1),
        1 => plus(n, 1),
        2 => 0,
        _ => n,
    }
}

fn bad_day(variant: usize) -> u32 {
    match variant {
        3 => 19000229,
        4 => 21000229,
        5 => 18991231,
        6 => 22000101,
        7 => 20260931,
        8 => 20260900,
        9 => 20261301,
        10 => 20260001,
        11 => 4294967295,
        _ => 20260901,
    }
}

// 16: a day before all terms, between two or after all.
fn outside_day(variant: usize) -> u32 {
    match variant % 3 {
        0 => 20260831,
        1 => 20261219,
        _ => 20270327,
    }
}

// The second day may be no such date, and the third in no term.
fn second_day(damages: usize, variant: usize) -> u32 {
    if bit(damages, 5) {
        bad_day(variant)
    } else {
        20260901
    }
}

fn third_day(damages: usize, variant: usize) -> u32 {
    if bit(damages, 7) {
        outside_day(variant)
    } else {
        20260901
    }
}

// 15: no terms, thirteen, a first day without a last, no such date, a first day after the last, terms that touch in a day, that fall or that are the same.
pub fn term_numbers(damages: usize, variant: usize) -> usize {
    if !bit(damages, 6) {
        return 4;
    }
    match variant {
        0 => 0,
        1 => 1,
        2 => 3,
        3 => 5,
        4 => 26,
        _ => 4,
    }
}

// Which number of the terms is another one, and which it is.
fn bad_place_of_terms(damages: usize, variant: usize) -> usize {
    if !bit(damages, 6) {
        return 0;
    }
    match variant {
        5 | 7 | 11 => 3,
        9 | 10 => 2,
        _ => 0,
    }
}

fn bad_number_of_terms(damages: usize, variant: usize) -> u32 {
    if !bit(damages, 6) {
        return 20260901;
    }
    match variant {
        5 => 20270229,
        6 => 18991231,
        7 => 22000101,
        8 => 20261219,
        9 => 20261218,
        10 => 20260901,
        11 => 20270103,
        _ => 20260901,
    }
}

// The second and third day; the others are there.
pub fn put_days(damages: usize, variant: usize, days: &mut [u32]) {
    put(days, 1, second_day(damages, variant));
    put(days, 2, third_day(damages, variant));
}

// The two terms; the first day of the first is there.
pub fn put_terms(damages: usize, variant: usize, terms: &mut [u32]) {
    put(terms, 1, 20261218);
    put(terms, 2, 20270104);
    put(terms, 3, 20270326);
    let place = bad_place_of_terms(damages, variant);
    put(terms, place, bad_number_of_terms(damages, variant));
}

// 9: a buffer that is one byte short, or empty.
pub fn room_for(damages: usize, variant: usize, needed: usize) -> usize {
    if !bit(damages, 8) {
        return plus(needed, variant % 3);
    }
    if variant % 2 == 0 {
        minus(needed, 1)
    } else {
        0
    }
}

// 10: a table that is empty, or one number short of one record or of all.
pub fn table_size(damages: usize, variant: usize) -> usize {
    if !bit(damages, 9) {
        return plus(60, variant % 11);
    }
    match variant % 3 {
        0 => 0,
        1 => 9,
        _ => 59,
    }
}

// The answer and the buffers of a call.
fn refused_right(
    answer: Answer,
    expected: Option<Refused>,
    order: &Guarded<u8, 4024>,
    table: &Guarded<u32, 88>,
) -> bool {
    let left = match expected {
        Some(r) => is_unchanged(r.number, order, table),
        None => true,
    };
    refused_as(answer, expected) & left
}

fn judge_with(damages: usize, variant: usize, log: &[u8], calendar: &Calendar, t: &mut Tally) {
    let mut order = Guarded::<u8, 4024>::new(room_for(damages, variant, log.len()));
    let mut table = Guarded::<u32, 88>::new(table_size(damages, variant));
    let masks = [first_mask(damages, variant), 5, 2];
    let mut moves = [3u32; 9];
    moves[0] = first_move(damages, variant);
    let first = first_damage(damages);
    let answer = judge_terms_in(
        &Profile {
            shape: damaged_shape(damages, variant),
            masks: part_of(&masks, 0, mask_count(damages, variant)),
            moves: part_of(&moves, 0, move_count(damages, variant)),
        },
        log,
        calendar,
        &mut order,
        &mut table,
    );
    let expected = first.and_then(|damage| refusal_of(damage, variant));
    t.expect(
        Met::Refusal,
        refused_right(answer, expected, &order, &table),
    );
    t.count(Met::Combined);
    t.count(ByDamage(first));
}

fn combine(damages: usize, variant: usize, t: &mut Tally) {
    let mut log = [0u8; 4004];
    let mut days = [20260901u32; 4004];
    let mut terms = [20260901u32; 26];
    put_log(damages, variant, &mut log);
    put_days(damages, variant, &mut days);
    put_terms(damages, variant, &mut terms);
    judge_with(
        damages,
        variant,
        part_of(&log, 0, log_length(damages)),
        &Calendar {
            days: part_of(&days, 0, day_count(damages, variant)),
            terms: part_of(&terms, 0, term_numbers(damages, variant)),
        },
        t,
    );
}

// All combinations in all variants: 1,024 × 12.
pub fn combine_all(t: &mut Tally) {
    for c in 0..12288 {
        combine(c / VARIANTS, c % VARIANTS, t);
    }
}
