// Whether a text describes a list: of letters, or of the numbers of the letters typed, counted from 1. A list of n members has the nodes 0 to n,
// and a member leads from its node to the next. Where anything may come before the list, or behind it, every letter leads from node 0 to itself,
// or from node n.
use crate::parts::{Kind, meaning_of};
use crate::words::{letter_of, one, when};
use trial::cells::{bit, plus, wide};

// What may come around the list: nothing, anything before it, anything behind it, or both.
#[derive(Clone, Copy, PartialEq, Eq)]
pub enum Around {
    Alone,
    Ends,
    Begins,
    Inside,
}

// Members of the list: letters, or numbers of letters typed.
#[derive(Clone, Copy, PartialEq, Eq)]
pub enum Members {
    Letters,
    Typed,
}

// The path from node p to the next.
fn next_node(p: usize) -> usize {
    if p < 7 { one(9 * p + 1) } else { 0 }
}

fn loops(around: Around, n: usize) -> usize {
    let behind = if n < 8 { one(9 * n) } else { 0 };
    match around {
        Around::Alone => 0,
        Around::Ends => 1,
        Around::Begins => behind,
        Around::Inside => 1 | behind,
    }
}

// The paths of a member of the list.
fn paths_of(member: usize, list: &[u8], around: Around) -> usize {
    list.iter()
        .enumerate()
        .filter(|(_, x)| wide(**x) == member)
        .fold(loops(around, list.len()), |all, (p, _)| all | next_node(p))
}

// The paths of the letter at each place; other bytes have none.
fn put_paths(
    members: Members,
    k: usize,
    text: &[u8],
    list: &[u8],
    around: Around,
    letters: &mut [usize],
) {
    let mut number = 0;
    for (c, paths) in text.iter().zip(letters) {
        if let Some(a) = letter_of(k, *c) {
            number = plus(number, 1);
            let member = if members == Members::Letters {
                a
            } else {
                number
            };
            *paths = paths_of(member, list, around);
        }
    }
}

// The text describes the list, with what may come around it.
pub fn describes(
    members: Members,
    k: usize,
    text: &[u8],
    list: &[u8],
    around: Around,
    table: &mut [usize],
) -> bool {
    let mut letters = [0usize; 64];
    put_paths(members, k, text, list, around, &mut letters);
    bit(
        meaning_of(Kind::Paths, k, text, &letters, table),
        list.len(),
    )
}

// The log of the letter alone; no log for the letters behind a and b.
fn put_logs(k: usize, text: &[u8], letters: &mut [usize]) {
    for (c, logs) in text.iter().zip(letters) {
        if let Some(a) = letter_of(k, *c) {
            *logs = when(a < 2, one(plus(a, 1)));
        }
    }
}

// The logs of up to four letters a and b that the text describes.
pub fn described_logs(k: usize, text: &[u8], table: &mut [usize]) -> usize {
    let mut letters = [0usize; 64];
    put_logs(k, text, &mut letters);
    meaning_of(Kind::Logs, k, text, &letters, table)
}
