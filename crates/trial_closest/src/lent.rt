// The calls on lent parts of guarded buffers, and their answers. Where a buffer is too small for the part there is no call.
use profile::{Calendar, Profile};
use trial::answers::Refused;
use trial::cells::part_of;
use trial::guarded::Guarded;

// The order buffer, the work table and the cost table.
#[derive(Clone, Copy)]
pub struct Lent<const M: usize, const N: usize, const C: usize> {
    pub order: Guarded<u8, M>,
    pub table: Guarded<u32, N>,
    pub costs: Guarded<u32, C>,
}

// Days of up to eight events, and terms, which take so many numbers.
#[derive(Clone, Copy)]
pub struct Dated {
    pub days: [u32; 8],
    pub terms: [u32; 24],
    pub numbers: usize,
}

impl Dated {
    // For n events.
    pub fn calendar(&self, n: usize) -> Calendar<'_> {
        Calendar {
            days: part_of(&self.days, 0, n),
            terms: part_of(&self.terms, 0, self.numbers),
        }
    }
}

// Days and terms, or none for the call without terms, and a budget.
#[derive(Clone, Copy)]
pub struct Asked {
    pub dated: Option<Dated>,
    pub budget: u64,
}

// What is told where nothing is refused.
#[derive(Clone, Copy, PartialEq, Eq)]
pub struct Told {
    pub verdict: bool,
    pub prefixes: usize,
    pub looks: usize,
    pub swaps: usize,
    pub floor: usize,
}

// None where there was no call, or where what is told is no answer.
pub type Answer = Option<Result<Told, Refused>>;

// The numbers told: the place, the verdict, P, looks, swaps and floor; beside a refusal all but the place are 0, and beside none the place is.
fn answer_of(number: u32, told: [u64; 6]) -> Answer {
    let [place, verdict, prefixes, looks, swaps, floor] = told;
    if number != 0 {
        let refused = Refused::at(number as usize, place as usize);
        return if told == [place, 0, 0, 0, 0, 0] {
            Some(Err(refused))
        } else {
            None
        };
    }
    if (place != 0) | (1 < verdict) {
        return None;
    }
    Some(Ok(Told {
        verdict: verdict == 1,
        prefixes: prefixes as usize,
        looks: looks as usize,
        swaps: swaps as usize,
        floor: floor as usize,
    }))
}

// The call without terms.
pub fn closest_in<const M: usize, const N: usize, const C: usize>(
    profile: &Profile,
    log: &[u8],
    budget: u64,
    lent: &mut Lent<M, N, C>,
) -> Answer {
    let mut told = [99u64; 6];
    let number = closest_calls::closest(
        profile,
        log,
        lent.order.lend()?,
        lent.table.lend()?,
        lent.costs.lend()?,
        budget,
        &mut told,
    );
    answer_of(number, told)
}

// The call with terms.
pub fn closest_terms_in<const M: usize, const N: usize, const C: usize>(
    profile: &Profile,
    log: &[u8],
    calendar: &Calendar,
    budget: u64,
    lent: &mut Lent<M, N, C>,
) -> Answer {
    let mut told = [99u64; 6];
    let number = closest_calls::closest_terms(
        profile,
        log,
        calendar,
        lent.order.lend()?,
        lent.table.lend()?,
        lent.costs.lend()?,
        budget,
        &mut told,
    );
    answer_of(number, told)
}

// The one call or the other.
pub fn ask<const M: usize, const N: usize, const C: usize>(
    profile: &Profile,
    log: &[u8],
    asked: &Asked,
    lent: &mut Lent<M, N, C>,
) -> Answer {
    match asked.dated {
        Some(dated) => {
            let calendar = dated.calendar(log.len());
            closest_terms_in(profile, log, &calendar, asked.budget, lent)
        }
        None => closest_in(profile, log, asked.budget, lent),
    }
}
