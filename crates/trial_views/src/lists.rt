// Every list of letters up to a length: its visible part, and where it leads. Document 02, Paper 12: "some list of letters, of any length, that leads the
// profile from its start to a final state has a visible part reachable from that part".
use profile::Profile;
use trial::cells::{bit, part_of, plus, put, wide};
use trial::logs::put_log_number;
use trial_logs::listing::{Listing, earlier};
use trial_logs::paths::{beginnings, led};

// The profile, the mask of visible letters, and how many lists are tried: all up to a length that no shorter one needs.
#[derive(Clone, Copy)]
pub struct View<'a> {
    pub profile: &'a Profile<'a>,
    pub visible: usize,
    pub lists: usize,
}

// The letters of the list that the mask has, in their order; how many they are.
pub fn put_visible(visible: usize, letters: &[u8], out: &mut [u8]) -> usize {
    let mut n = 0;
    for letter in letters {
        if bit(visible, wide(*letter)) {
            put(out, n, *letter);
            n = plus(n, 1);
        }
    }
    n
}

// A list of letters, by its number.
#[derive(Clone, Copy)]
struct List {
    letters: [u8; 8],
    n: usize,
}

impl List {
    fn numbered(k: usize, v: usize) -> Self {
        let mut letters = [0u8; 8];
        let n = put_log_number(k, v, &mut letters);
        List { letters, n }
    }

    fn word(&self) -> &[u8] {
        part_of(&self.letters, 0, self.n)
    }

    // Its visible part.
    fn seen(&self, visible: usize) -> List {
        let mut letters = [0u8; 8];
        let n = put_visible(visible, self.word(), &mut letters);
        List { letters, n }
    }
}

impl View<'_> {
    // List v, where it shows a log of the class.
    fn showing(&self, class: &Listing, v: usize) -> Option<List> {
        let list = List::numbered(self.profile.shape.k, v);
        let seen = list.seen(self.visible);
        if class.has(seen.word()) {
            Some(list)
        } else {
            None
        }
    }

    // The states to which list v leads from the start, where it shows a log of the class.
    fn led_by(&self, class: &Listing, v: usize) -> u32 {
        match self.showing(class, v) {
            Some(list) => led(self.profile, list.word()),
            None => 0,
        }
    }

    // The states from which it leads to a final state.
    fn leading_by(&self, class: &Listing, v: usize) -> u32 {
        match self.showing(class, v) {
            Some(list) => beginnings(self.profile, list.word()),
            None => 0,
        }
    }

    // The states to which lists lead from the start that show a log of the class.
    pub fn led(&self, class: &Listing) -> u32 {
        (0..self.lists).fold(0, |out, v| out | self.led_by(class, v))
    }

    // The states from which lists lead to a final state that show a log of the class.
    pub fn leading(&self, class: &Listing) -> u32 {
        (0..self.lists).fold(0, |out, v| out | self.leading_by(class, v))
    }

    // The visible part of list v, where it shows a log of the class and leads from the start to a final state.
    fn shown_by(&self, class: &Listing, v: usize) -> Option<List> {
        let list = self.showing(class, v)?;
        if led(self.profile, list.word()) & self.profile.shape.finals == 0 {
            return None;
        }
        Some(list.seen(self.visible))
    }

    // "The order is the earliest such visible part"
    pub fn earliest_shown(&self, class: &Listing) -> Option<[u8; 8]> {
        let mut best = None;
        for v in 0..self.lists {
            best = earlier_of(best, self.shown_by(class, v));
        }
        match best {
            Some(list) => Some(list.letters),
            None => None,
        }
    }
}

// The earlier of what was found and of another list.
fn earlier_of(best: Option<List>, other: Option<List>) -> Option<List> {
    match (best, other) {
        (Some(a), Some(b)) => if earlier(a.word(), b.word()) {
            best
        } else {
            other
        },
        (Some(_), None) => best,
        (None, _) => other,
    }
}
