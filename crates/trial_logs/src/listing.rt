// The listing of the logs reachable from a log: exchanges of neighbouring letters, tried on every listed log until nothing new appears; and of the logs
// from which it is reachable. A listed log is a row of eight bytes; the mask test is this crate's own.
use trial::cells::{bit, byte, byte_at, copy, minus, one16, part_of, plus, put, value_at, wide};

// Rows of a listing, the last of which is left for an exchange that is tried.
const MOST: usize = 2048;

// The listed logs, of n letters, are the first `count` rows; a listing that did not fit has none.
#[derive(Clone, Copy)]
pub struct Listing {
    rows: [u8; 16384],
    count: usize,
    n: usize,
}

// Letter i directly followed by j may become j followed by i: bit j of mask i is set.
pub fn commute(masks: &[u16], i: usize, j: usize) -> bool {
    bit(value_at(masks, i) as usize, j)
}

fn row_at(r: usize) -> usize {
    if r < MOST { 8 * r } else { 16376 }
}

// Where the letter at place j stood before the exchange at i and i + 1.
fn exchanged_place(i: usize, j: usize) -> usize {
    if j == i {
        return plus(i, 1);
    }
    if j == plus(i, 1) { i } else { j }
}

impl Listing {
    // The logs reachable from the log.
    pub fn of(masks: &[u16], log: &[u8]) -> Self {
        let mut listing = Listing {
            rows: [0; 16384],
            count: 1,
            n: log.len(),
        };
        copy(log, &mut listing.rows);
        listing.close(masks);
        if MOST <= listing.count {
            listing.count = 0;
        }
        listing
    }

    // The logs from which the log is reachable.
    pub fn leading_to(masks: &[u16], log: &[u8]) -> Self {
        let mut turned = [0u16; 16];
        turn_masks(masks, &mut turned);
        Listing::of(part_of(&turned, 0, masks.len()), log)
    }

    pub fn count(&self) -> usize {
        self.count
    }

    // Listed log r.
    pub fn row(&self, r: usize) -> &[u8] {
        part_of(&self.rows, row_at(r), self.n)
    }

    // The log is listed.
    pub fn has(&self, log: &[u8]) -> bool {
        (0..self.count).any(|r| self.row(r) == log)
    }

    // The row of the earliest listed log.
    pub fn earliest(&self) -> usize {
        let mut best = 0;
        for r in 0..self.count {
            if earlier(self.row(r), self.row(best)) {
                best = r;
            }
        }
        best
    }

    // The listed orders of the log's events as letters, each in the place of its event.
    pub fn spelled(&self, log: &[u8]) -> Self {
        let mut words = *self;
        for i in 0..8 * (self.count % 4096) {
            let event = byte_at(&self.rows, i);
            put(&mut words.rows, i, byte(byte_at(log, event)));
        }
        words
    }

    // Letter i of row r.
    fn letter(&self, r: usize, i: usize) -> usize {
        byte_at(&self.rows, plus(row_at(r), i))
    }

    // Writes row r behind the listed ones, with the letters at i and i + 1 exchanged.
    fn put_exchanged(&mut self, r: usize, i: usize) {
        let at = row_at(self.count);
        for j in 0..self.n {
            let moved = self.letter(r, exchanged_place(i, j));
            put(&mut self.rows, plus(at, j), byte(moved));
        }
    }

    // Adds row r with its letters at i and i + 1 exchanged, where they commute and the log is new.
    fn add_exchange(&mut self, masks: &[u16], r: usize, i: usize) {
        if commute(masks, self.letter(r, i), self.letter(r, plus(i, 1))) {
            self.put_exchanged(r, i);
            if !self.has(self.row(self.count)) {
                self.count = plus(self.count, 1);
            }
        }
    }

    // Exchanges in row after row, until no row is left.
    fn close(&mut self, masks: &[u16]) {
        for r in 0..MOST {
            if self.count <= r {
                return;
            }
            for i in 0..minus(self.n, 1) {
                self.add_exchange(masks, r, i);
            }
        }
    }
}

// The mask of letter j with bit i set where bit j of mask i is.
fn turned_mask(masks: &[u16], j: usize) -> u16 {
    masks
        .iter()
        .enumerate()
        .filter(|(_, x)| bit(wide(**x), j))
        .fold(0, |mask, (i, _)| mask | one16(i))
}

// The masks turned round, by which exchanges are undone.
fn turn_masks(masks: &[u16], turned: &mut [u16]) {
    for (j, mask) in turned.iter_mut().take(masks.len()).enumerate() {
        *mask = turned_mask(masks, j);
    }
}

// Some pair may be exchanged one way and not the other.
pub fn one_way(masks: &[u16]) -> bool {
    masks
        .iter()
        .enumerate()
        .any(|(j, mask)| turned_mask(masks, j) != *mask)
}

// Log a comes before log b: at the first place where they differ its letter is smaller.
pub fn earlier(a: &[u8], b: &[u8]) -> bool {
    a < b
}
