// The tested call on a lent part of guarded numbers, and its answer.
use profile::{Refusal, Shape};
use trial::answers::Refused;
use trial::cells::times;
use trial::guarded::Guarded;

// The profile or the refusal; none where there was no call.
pub type Outcome = Option<Result<Shape, Refusal>>;

pub fn make_in<const N: usize>(k: usize, text: &[u8], moves: &mut Guarded<u32, N>) -> Outcome {
    Some(expression::make(k, text, moves.lend()?))
}

// Refused as expected, with every number as it was.
pub fn is_refused<const N: usize>(o: Outcome, expected: Refused, moves: &Guarded<u32, N>) -> bool {
    match o {
        Some(Err(r)) => (Refused::of(r) == expected) & moves.stays(),
        _ => false,
    }
}

// The profile, which has s states and starts in 0; none where no profile was made, or a number is written but the first s × k.
pub fn profile_in<const N: usize>(
    o: Outcome,
    k: usize,
    s: usize,
    moves: &Guarded<u32, N>,
) -> Option<Shape> {
    let shape = o?.ok()?;
    let right = (shape.k == k)
        & (shape.s == s)
        & (shape.start == 0)
        & moves.stays_behind(times(k, s));
    if right { Some(shape) } else { None }
}
