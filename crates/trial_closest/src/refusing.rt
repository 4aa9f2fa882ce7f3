// Every combination of the refusals that the calls can give: the first in the order 2, 4, 6, 7, 8, 14, 15, 16, 9, 10, 17 is given, with its place; the order
// buffer and the cost table stay, and the work table too but for 10 and 17. The damages are those of the judge with terms, and the eleventh is a cost table that
// is too short; the call without terms can have no damage by 14, 15 and 16.
use crate::lent::{Answer, Lent, closest_in, closest_terms_in};
use crate::met::Met;
use profile::{Calendar, Profile};
use trial::answers::Refused;
use trial::cells::{bit, part_of, plus};
use trial::guarded::Guarded;
use trial::tally::Tally;
use trial_term_refusals::combined::{
    VARIANTS, damaged_shape, day_count, first_damage, first_mask, first_move, log_length,
    mask_count, move_count, put_days, put_log, put_terms, refusal_of, room_for, table_size,
    term_numbers,
};
use trial_terms::met::ByDamage;

// The buffers that a damaged call is lent.
type Small = Lent<4024, 88, 40>;

// The first of eleven damages.
fn first_of(damages: usize) -> Option<usize> {
    match first_damage(damages) {
        Some(i) => Some(i),
        None => if bit(damages, 10) { Some(10) } else { None },
    }
}

// What a damage is refused by.
fn refused_by(damage: usize, variant: usize) -> Option<Refused> {
    if damage == 10 {
        Some(Refused::by(17))
    } else {
        refusal_of(damage, variant)
    }
}

// 17: a table that is empty, or one number short of one prefix or of all six; three states.
fn cost_count(damages: usize, variant: usize) -> usize {
    if !bit(damages, 10) {
        return plus(18, variant % 5);
    }
    match variant % 4 {
        0 => 0,
        1 => 2,
        _ => 17,
    }
}

fn lent_to(damages: usize, variant: usize, n: usize) -> Small {
    Lent {
        order: Guarded::new(room_for(damages, variant, n)),
        table: Guarded::new(table_size(damages, variant)),
        costs: Guarded::new(cost_count(damages, variant)),
    }
}

// Budgets small and large.
fn budget_of(variant: usize) -> u64 {
    if variant % 2 == 0 {
        variant as u64
    } else {
        18446744073709551615
    }
}

// After 10 and 17 the lent part of the work table is free. What is written where nothing is refused is compared elsewhere.
fn answer_right(answer: Answer, expected: Option<Refused>, lent: &Small) -> bool {
    match expected {
        Some(r) => {
            let free = if (r.number == 10) | (r.number == 17) {
                lent.table.size()
            } else {
                0
            };
            (answer == Some(Err(r)))
                & lent.order.stays()
                & lent.table.stays_behind(free)
                & lent.costs.stays()
        }
        None => match answer {
            Some(Ok(_)) => true,
            _ => false,
        },
    }
}

// The call with terms.
fn ask_in_terms(
    damages: usize,
    variant: usize,
    profile: &Profile,
    log: &[u8],
    lent: &mut Small,
) -> Answer {
    let mut days = [20260901u32; 4004];
    let mut terms = [20260901u32; 26];
    put_days(damages, variant, &mut days);
    put_terms(damages, variant, &mut terms);
    let calendar = Calendar {
        days: part_of(&days, 0, day_count(damages, variant)),
        terms: part_of(&terms, 0, term_numbers(damages, variant)),
    };
    closest_terms_in(profile, log, &calendar, budget_of(variant), lent)
}

fn compare(damages: usize, variant: usize, with_terms: bool, log: &[u8], t: &mut Tally) {
    let masks = [first_mask(damages, variant), 5, 2];
    let mut moves = [3u32; 9];
    moves[0] = first_move(damages, variant);
    let profile = Profile {
        shape: damaged_shape(damages, variant),
        masks: part_of(&masks, 0, mask_count(damages, variant)),
        moves: part_of(&moves, 0, move_count(damages, variant)),
    };
    let mut lent = lent_to(damages, variant, log.len());
    let first = first_of(damages);
    let answer = if with_terms {
        ask_in_terms(damages, variant, &profile, log, &mut lent)
    } else {
        closest_in(&profile, log, budget_of(variant), &mut lent)
    };
    let expected = first.and_then(|damage| refused_by(damage, variant));
    t.expect(Met::Refusal, answer_right(answer, expected, &lent));
    t.count(Met::Combined);
    t.count(ByDamage(first));
}

fn combine(damages: usize, variant: usize, with_terms: bool, t: &mut Tally) {
    let mut log = [0u8; 4004];
    put_log(damages, variant, &mut log);
    let word = part_of(&log, 0, log_length(damages));
    compare(damages, variant, with_terms, word, t);
}

// Eight damages, with none by 14, 15 and 16 between the fifth and the sixth.
fn without_dates(damages: usize) -> usize {
    (damages & 31) | ((damages & 224) << 3)
}

// All combinations in all variants: 256 × 12.
pub fn combine_all(t: &mut Tally) {
    for c in 0..3072 {
        combine(without_dates(c / VARIANTS), c % VARIANTS, false, t);
    }
}

// With terms 2,048 × 12.
pub fn combine_all_terms(t: &mut Tally) {
    for c in 0..24576 {
        combine(c / VARIANTS, c % VARIANTS, true, t);
    }
}
