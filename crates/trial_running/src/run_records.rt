// The table of a running judge, number by number: counts and forward sets; the backward number and what lies past the records stay as they were, the guard.
use crate::arrivals::Arrivals;
use crate::lent::Table;
use profile::Profile;
use trial::cells::{bit, minus, plus, value_at, wide};
use trial::guarded::Cell;
use trial::record_numbers::{BACKWARD, FORWARD, RECORD, record_at};
use trial_logs::judging::forward_of;

// How many events of the set have the letter.
fn events_of(log: &[u8], set: usize, letter: usize) -> usize {
    log.iter()
        .enumerate()
        .filter(|(i, x)| bit(set, *i) & (wide(**x) == letter))
        .count()
}

// Number j of the counts.
fn counts_number(log: &[u8], set: usize, j: usize) -> u32 {
    let low = events_of(log, set, plus(j, j));
    let high = events_of(log, set, plus(plus(j, j), 1));
    ((low | (high << 16)) % 4294967296) as u32
}

fn record_right(profile: &Profile, log: &[u8], table: &[u32], r: usize, set: usize) -> bool {
    let at = record_at(r);
    (0..FORWARD).all(|j| value_at(table, plus(at, j)) == counts_number(log, set, j))
        && (value_at(table, plus(at, FORWARD)) == forward_of(profile, log, set))
            & (value_at(table, plus(at, BACKWARD)) == u32::GUARD)
}

// The records of the prefixes, and nothing else, stand in the table.
pub fn table_right(profile: &Profile, log: &[u8], table: &Table, arrivals: &Arrivals) -> bool {
    let many = arrivals.many();
    (0..many).all(|r| record_right(profile, log, table.content(), r, arrivals.set(r)))
        && table.stays_behind(record_at(many))
}

// Some order of all events is accepted.
pub fn accepted(profile: &Profile, log: &[u8]) -> bool {
    let all = minus(1 << (log.len() % 64), 1);
    forward_of(profile, log, all) & profile.shape.finals != 0
}

// How many records a table of `size` numbers has place for.
pub fn room(size: usize) -> usize {
    size / RECORD
}
