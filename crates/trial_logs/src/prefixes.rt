// Prefixes by the marking rule: whenever an event is marked, every earlier event with the same letter is, and "an earlier event must be marked unless its
// letter may be moved past by the marked one". Marks are the bits of a number, a bit for each event. A set that keeps the rule has the first so-many occurrences of each letter.
use crate::listing::commute;
use trial::cells::{bit, byte_at, part_of, plus, put, wide};
use trial::record_numbers::count_of;

// How often the letter stands among the first `end` events.
fn occurrences(log: &[u8], end: usize, letter: usize) -> usize {
    part_of(log, 0, end)
        .iter()
        .filter(|x| wide(**x) == letter)
        .count()
}

// Event j may not be moved ahead of the earlier event i: they have the same letter, or bit y of mask x is not set.
fn held(masks: &[u16], log: &[u8], i: usize, j: usize) -> bool {
    let x = byte_at(log, i);
    let y = byte_at(log, j);
    (x == y) | !commute(masks, x, y)
}

// Every earlier event that event j has to follow is marked.
fn earlier_marked(masks: &[u16], log: &[u8], marks: usize, j: usize) -> bool {
    (0..j).all(|i| !held(masks, log, i, j) | bit(marks, i))
}

// The marks keep the rule.
pub fn closed(masks: &[u16], log: &[u8], marks: usize) -> bool {
    (0..log.len()).all(|j| !bit(marks, j) | earlier_marked(masks, log, marks, j))
}

// The marks are events of the log, and a prefix; a log here has at most eight events.
pub fn is_prefix(masks: &[u16], log: &[u8], marks: usize) -> bool {
    closed(masks, log, marks) & (marks >> (log.len() % 16) == 0)
}

// P, by trying every set of marks.
pub fn prefix_count(masks: &[u16], log: &[u8]) -> usize {
    (0..256)
        .filter(|&marks| is_prefix(masks, log, marks))
        .count()
}

// The letters of which one can be added to the marks. Only a letter's first unmarked event can be marked beside them, so it stands for its letter.
fn additions(masks: &[u16], log: &[u8], marks: usize) -> usize {
    (0..log.len())
        .filter(|&i| !bit(marks, i) & closed(masks, log, marks | (1 << (i % 64))))
        .count()
}

// Looks: the pairs of a prefix and a letter such that adding one of that letter gives a prefix again.
pub fn look_count(masks: &[u16], log: &[u8]) -> usize {
    (0..256)
        .filter(|&marks| is_prefix(masks, log, marks))
        .fold(0, |sum, marks| plus(sum, additions(masks, log, marks)))
}

// The mark of event i: it is one of the first so-many occurrences of its letter that record r counts.
fn mark_of(log: &[u8], table: &[u32], r: usize, i: usize) -> usize {
    let letter = byte_at(log, i);
    if occurrences(log, i, letter) < count_of(table, r, letter) {
        1 << (i % 64)
    } else {
        0
    }
}

// The events that record r marks.
pub fn marks_of(log: &[u8], table: &[u32], r: usize) -> usize {
    (0..log.len()).fold(0, |marks, i| marks | mark_of(log, table, r, i))
}

// The events that are marked, or those that are not, in log order; how many they are.
pub fn take_events(log: &[u8], marks: usize, marked: bool, out: &mut [u8]) -> usize {
    let mut n = 0;
    for (i, letter) in log.iter().enumerate() {
        if bit(marks, i) == marked {
            put(out, n, *letter);
            n = plus(n, 1);
        }
    }
    n
}
