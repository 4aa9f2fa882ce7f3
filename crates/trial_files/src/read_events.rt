// The log reader, by its functions on a log and a place: each event in turn, then the end and no more.
use trial::cells::plus;
use trial::tally::{Counted, Tally};

// At the end and past it the place stays.
fn expected_place(log: &[u8], i: usize) -> usize {
    if i < log.len() { plus(i, 1) } else { i }
}

// The step at place i.
fn step_right(log: &[u8], i: usize) -> bool {
    (logreader::event_at(log, i) == log.get(i).copied())
        & (logreader::place_after(log, i) == expected_place(log, i))
}

// The log to its end, and twice at or past it.
fn steps_right(log: &[u8]) -> bool {
    (0..plus(log.len(), 2)).all(|i| step_right(log, i))
}

pub fn compare_events(log: &[u8], t: &mut Tally) {
    t.count_many(Counted::Events, log.len());
    t.count_many(Counted::Ends, 2);
    t.expect(Counted::Event, steps_right(log));
}
