// The places of records by document 02's words: by total, and within one total "by their counts, the count of letter 0 first, the smaller first".
// A total and its counts are one number, four bits each, the total highest, then letter 0 and so on: the order of these keys is that of records. Letter 15
// has no bits of its own, as its count follows from the others. Totals and counts here are below 16.
use crate::prefixes::is_prefix;
use trial::cells::{bit, plus, put, wide};

// What one event of the letter adds to a key.
pub fn weight(letter: usize) -> usize {
    let one = 1 << 60;
    if letter < 15 {
        one | (1 << (56 - 4 * letter))
    } else {
        one
    }
}

// The key of the marked events.
pub fn key_of(log: &[u8], marks: usize) -> usize {
    log.iter()
        .enumerate()
        .filter(|(i, _)| bit(marks, *i))
        .fold(0, |key, (_, letter)| plus(key, weight(wide(*letter))))
}

// The keys of prefixes, each once.
#[derive(Clone, Copy)]
pub struct Keys {
    keys: [usize; 256],
    count: usize,
}

impl Keys {
    // Those of all prefixes of the log, by trying every set of marks.
    pub fn of(masks: &[u16], log: &[u8]) -> Self {
        Keys::of_events(masks, log, log)
    }

    // Those of the sets of marks that are prefixes of the events by the masks; the events have these letters.
    pub fn of_events(masks: &[u16], events: &[u8], letters: &[u8]) -> Self {
        let mut found = Keys {
            keys: [0; 256],
            count: 0,
        };
        for marks in 0..256 {
            if is_prefix(masks, events, marks) {
                let n = found.count;
                put(&mut found.keys, n, key_of(letters, marks));
                found.count = plus(n, 1);
            }
        }
        found
    }

    pub fn count(&self) -> usize {
        self.count
    }

    // How many are smaller: the place of the key among them.
    pub fn place_of(&self, key: usize) -> usize {
        self.keys
            .iter()
            .take(self.count)
            .filter(|x| **x < key)
            .count()
    }
}
