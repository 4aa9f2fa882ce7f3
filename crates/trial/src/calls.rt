// The tested calls on lent parts of guarded buffers. Where a buffer is too small for its part there is no call and no answer.
use crate::answers::{Answer, of_built, of_judged, of_ordered, of_writing};
use crate::guarded::Guarded;
use profile::Profile;

pub fn judge_in<const M: usize, const N: usize>(
    profile: &Profile,
    log: &[u8],
    order: &mut Guarded<u8, M>,
    table: &mut Guarded<u32, N>,
) -> Answer {
    of_judged(verdict::judge(profile, log, order.lend()?, table.lend()?))
}

pub fn build_in<const N: usize>(
    profile: &Profile,
    log: &[u8],
    table: &mut Guarded<u32, N>,
) -> Answer {
    of_built(table::build(profile, log, table.lend()?))
}

pub fn first_order_in<const M: usize>(
    k: usize,
    masks: &[u16],
    log: &[u8],
    order: &mut Guarded<u8, M>,
) -> Answer {
    of_ordered(order::first_order(k, masks, log, order.lend()?))
}

pub fn write_in<const M: usize>(
    profile: &Profile,
    log: &[u8],
    file: &mut Guarded<u8, M>,
) -> Answer {
    of_writing(filewriter::write_file(profile, log, file.lend()?))
}
