// Exchanges with terms, by document 02's words: "An exchange now also needs both events in one term, and an event's day goes with it". Events are numbered by
// their places in the log, and each has a mask of the events that may pass it; so the listing is that of logs without terms, with events for letters.
use crate::spans::term_of;
use profile::Calendar;
use trial::cells::{byte_at, minus, one16, part_of, value_at};
use trial_logs::listing::commute;

fn in_one_term(calendar: &Calendar, i: usize, j: usize) -> bool {
    term_of(calendar.terms, value_at(calendar.days, i))
        == term_of(calendar.terms, value_at(calendar.days, j))
}

// Event i directly followed by j may become j followed by i.
fn may_pass(masks: &[u16], log: &[u8], calendar: &Calendar, i: usize, j: usize) -> bool {
    commute(masks, byte_at(log, i), byte_at(log, j)) & in_one_term(calendar, i, j)
}

fn event_mask(masks: &[u16], log: &[u8], calendar: &Calendar, i: usize) -> u16 {
    (0..log.len())
        .filter(|&j| may_pass(masks, log, calendar, i, j))
        .fold(0, |mask, j| mask | one16(j))
}

// The events of a log by their places, and for each a mask of those that may pass it.
#[derive(Clone, Copy)]
pub struct Events {
    masks: [u16; 8],
    n: usize,
}

const PLACES: [u8; 8] = [0, 1, 2, 3, 4, 5, 6, 7];

impl Events {
    pub fn of(masks: &[u16], log: &[u8], calendar: &Calendar) -> Self {
        let mut events = Events {
            masks: [0; 8],
            n: log.len(),
        };
        for (i, mask) in events.masks.iter_mut().take(log.len()).enumerate() {
            *mask = event_mask(masks, log, calendar, i);
        }
        events
    }

    pub fn masks(&self) -> &[u16] {
        part_of(&self.masks, 0, self.n)
    }

    pub fn places(&self) -> &[u8] {
        part_of(&PLACES, 0, self.n)
    }
}

// Some event is in another term than the one before it.
pub fn some_turn(calendar: &Calendar) -> bool {
    (1..calendar.days.len()).any(|i| !in_one_term(calendar, minus(i, 1), i))
}

// Some event is of an earlier day than the one before it.
pub fn some_fall(days: &[u32]) -> bool {
    (1..days.len()).any(|i| value_at(days, i) < value_at(days, minus(i, 1)))
}
