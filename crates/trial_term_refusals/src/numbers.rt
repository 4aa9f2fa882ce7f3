// Numbers tried as the only day of a log and as the first and last day of a term: a date or not, by the calendar.
use profile::{Calendar, Profile, Shape};
use trial::answers::{Refused, is_refusal, is_unchanged, is_verdict};
use trial::cells::plus;
use trial::guarded::Guarded;
use trial::random::seed_of;
use trial::shapes::shape_of;
use trial::tally::Tally;
use trial_terms::calendar::{day_number, is_date, is_day};
use trial_terms::lent::judge_terms_in;
use trial_terms::met::Met;

// One letter, one state that is start and final: every log is accepted.
fn any_log() -> Shape {
    shape_of(1, 1, 0, 1)
}

// The log of letter 0 has as many events as there are days; it gets verdict 1, or is refused by the number.
pub fn refused_or_not(calendar: &Calendar, log: &[u8], number: Option<usize>) -> bool {
    let n = log.len();
    let mut order = Guarded::<u8, 16>::new(n);
    let mut table = Guarded::<u32, 64>::new(40);
    let answer = judge_terms_in(
        &Profile {
            shape: any_log(),
            masks: &[0u16],
            moves: &[1u32],
        },
        log,
        calendar,
        &mut order,
        &mut table,
    );
    match number {
        Some(x) => is_refusal(answer, Refused::by(x)) & is_unchanged(x, &order, &table),
        None => is_verdict(answer, true, plus(n, 1), n),
    }
}

// The refusal, where it is wrong.
pub fn unless(right: bool, number: usize) -> Option<usize> {
    if right { None } else { Some(number) }
}

// The number as a day and as a term of that day alone; it is a date or not.
fn try_number(number: u32, right: bool, t: &mut Tally) {
    let by_day = Calendar {
        days: &[number],
        terms: &[19000101u32, 21991231],
    };
    let by_term = Calendar {
        days: &[],
        terms: &[number, number],
    };
    let agrees = refused_or_not(&by_day, &[0u8], unless(right, 14))
        & refused_or_not(&by_term, b"", unless(right, 15));
    t.expect(Met::Day, agrees);
    t.count(Met::Days);
    t.count_if(Met::Dates, right);
}

fn try_month(y: usize, m: usize, t: &mut Tally) {
    for d in 0..34 {
        try_number(day_number(y, m, d), is_date(y, m, d), t);
    }
}

fn try_year(y: usize, t: &mut Tally) {
    for m in 0..15 {
        try_month(y, m, t);
    }
}

// Every month 0 to 14 and day 0 to 33 of the years 1897 to 2202.
fn try_years(t: &mut Tally) {
    for y in 1897..2203 {
        try_year(y, t);
    }
}

// Numbers of 32 bits of any size.
fn try_any(many: usize, t: &mut Tally) {
    for i in 0..many {
        let number = (seed_of(8, i) % 4294967296) as u32;
        try_number(number, is_day(number), t);
    }
}

pub fn all_numbers(t: &mut Tally) {
    try_number(0, false, t);
    try_number(4294967295, false, t);
    try_years(t);
    try_any(1000, t);
}
