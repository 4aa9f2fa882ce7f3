// Prefixes in order of arrival, by document 02's words: "those of one event in the order of the records it is added to". A prefix is a set of events, a bit for
// each; nothing is counted and nothing is searched.
use trial::cells::{minus, part_of, plus, put, value_at};
use trial_logs::prefixes::is_prefix;

#[derive(Clone, Copy)]
pub struct Arrivals {
    sets: [usize; 256],
    many: usize,
}

impl Arrivals {
    // The prefixes of a log.
    pub fn of(masks: &[u16], log: &[u8]) -> Self {
        let mut arrivals = Arrivals {
            sets: [0; 256],
            many: 1,
        };
        for (n, _) in log.iter().enumerate() {
            arrivals.add_event(masks, part_of(log, 0, plus(n, 1)));
        }
        arrivals
    }

    // P.
    pub fn many(&self) -> usize {
        self.many
    }

    // Prefix r.
    pub fn set(&self, r: usize) -> usize {
        value_at(&self.sets, r)
    }

    // Puts the set behind the others where it is a prefix of the log.
    fn add_set(&mut self, masks: &[u16], log: &[u8], set: usize) {
        if is_prefix(masks, log, set) {
            let n = self.many;
            put(&mut self.sets, n, set);
            self.many = plus(n, 1);
        }
    }

    // The last event of the log comes to the prefixes there are.
    fn add_event(&mut self, masks: &[u16], log: &[u8]) {
        let event = 1 << (minus(log.len(), 1) % 64);
        for r in 0..self.many {
            self.add_set(masks, log, self.set(r) | event);
        }
    }
}
