// All that is compared of one log.
use crate::judging::{compare_build, compare_judge, refuse_build, refuse_judge};
use crate::listing::one_way;
use crate::orders::compare_orders;
use crate::prefixes::prefix_count;
use profile::Profile;
use trial::cells::{minus, plus};
use trial::record_numbers::record_at;
use trial::tally::{Counted, Tally};

// Build and judge, with a table of `size` numbers, which is enough or not.
pub fn compare_table(profile: &Profile, log: &[u8], room: usize, size: usize, t: &mut Tally) {
    let prefixes = prefix_count(profile.masks, log);
    if size < record_at(prefixes) {
        refuse_build(profile, log, size, t);
        refuse_judge(profile, log, 10, room, size, t);
        return;
    }
    compare_build(profile, log, prefixes, size, t);
    compare_judge(profile, log, prefixes, room, size, t);
}

// An order buffer that is one byte too short.
fn refuse_short(profile: &Profile, log: &[u8], t: &mut Tally) {
    if log.len() == 0 {
        return;
    }
    refuse_judge(profile, log, 9, minus(log.len(), 1), 1300, t);
}

// Compares all calls on one log; `extra` varies how much longer or shorter than needed the lent buffers are.
pub fn compare_log(profile: &Profile, log: &[u8], extra: usize, t: &mut Tally) {
    let needed = record_at(prefix_count(profile.masks, log));
    let room = plus(log.len(), extra % 4);
    let long = plus(needed, extra % 21);
    let short = minus(needed, plus(extra % 11, 1));
    compare_table(profile, log, room, long, t);
    compare_table(profile, log, room, short, t);
    refuse_short(profile, log, t);
    t.count_if(Counted::OneWayLogs, one_way(profile.masks));
    compare_orders(profile.shape.k, profile.masks, log, room, t);
}
