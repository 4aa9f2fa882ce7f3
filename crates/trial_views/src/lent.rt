// The call on lent parts of guarded buffers, as those of the crate `trial`.
use profile::Profile;
use trial::answers::{Answer, Refused, Told};
use trial::guarded::Guarded;

// The numbers told: the place, the verdict, P and looks; beside a refusal all but the place are 0, and beside none the place is.
fn answer_of(number: u32, told: [u64; 4]) -> Answer {
    let [place, verdict, prefixes, looks] = told;
    if (number == 0) & (place == 0) & (verdict < 2) {
        return Some(Ok(Told {
            verdict: Some(verdict == 1),
            prefixes: prefixes as usize,
            looks: looks as usize,
        }));
    }
    if (number == 0) | (verdict != 0) | (prefixes != 0) | (looks != 0) {
        return None;
    }
    Some(Err(Refused::at(number as usize, place as usize)))
}

pub fn view_in<const M: usize, const N: usize>(
    profile: &Profile,
    visible: u32,
    log: &[u8],
    order: &mut Guarded<u8, M>,
    table: &mut Guarded<u32, N>,
) -> Answer {
    let mut told = [99u64; 4];
    let number = view_calls::view(
        profile,
        visible,
        log,
        order.lend()?,
        table.lend()?,
        &mut told,
    );
    answer_of(number, told)
}
