// What each part of a text means, at each level: a table over all parts, split at every place as the grammar says. A meaning is a set of logs,
// or a set of paths; a part that is not right at a level has none.
use crate::words::{is_letter, one, when};
use trial::cells::{bit, byte_at, minus, plus, put, value_at};

// A set of logs: bit v is log number v of those of up to four letters a and b. Or a set of paths: bit 8 p + q says that the part leads from node p to node q.
#[derive(Clone, Copy, PartialEq, Eq)]
pub enum Kind {
    Logs,
    Paths,
}

#[derive(Clone, Copy)]
enum Level {
    Factor,
    Sequence,
    Expression,
}

// The mark of a meaning. No path leads back, from node 7 to node 0.
pub const PART: usize = 72057594037927936;

// Every node leads to itself by nothing.
const NOTHING: usize = 9241421688590303745;

// Where the meaning of the part from i to j stands; i and j are below 64.
fn cell(level: Level, i: usize, j: usize) -> usize {
    ((level as usize) << 12) | (i << 6) | j
}

pub const CELLS: usize = 12288;

fn meaning(table: &[usize], level: Level, i: usize, j: usize) -> usize {
    value_at(table, cell(level, i, j))
}

pub fn is_part(x: usize) -> bool {
    bit(x, 56)
}

fn plain(x: usize) -> usize {
    x & (PART ^ 18446744073709551615)
}

// The letters of log number v.
fn log_length(v: usize) -> usize {
    if v < 1 {
        return 0;
    }
    if v < 3 {
        return 1;
    }
    if v < 7 {
        return 2;
    }
    if v < 15 { 3 } else { 4 }
}

// The set of log number u and then log number v; none where that has more than four letters.
fn joined(u: usize, v: usize) -> usize {
    let both = match log_length(u) {
        0 => v,
        1 => v << 1,
        2 => v << 2,
        3 => v << 3,
        _ => v << 4,
    };
    let number = plus(u, both);
    if number < 31 { one(number) } else { 0 }
}

// Log u and then each of the set.
fn log_and(u: usize, set: usize) -> usize {
    (0..31)
        .filter(|&v| bit(set, v))
        .fold(0, |all, v| all | joined(u, v))
}

// Each log of one set and then each of the other.
fn logs_follow(x: usize, y: usize) -> usize {
    (0..31)
        .filter(|&u| bit(x, u))
        .fold(0, |all, u| all | log_and(u, y))
}

// The paths from node p to m and on as y leads from m; c is 8 p + m.
fn path_and(c: usize, y: usize) -> usize {
    let m = c % 8;
    let row = (y >> (8 * m)) & 255;
    row << (8 * (c / 8 % 8))
}

fn paths_follow(x: usize, y: usize) -> usize {
    (0..64)
        .filter(|&c| bit(x, c))
        .fold(0, |all, c| all | path_and(c, y))
}

// One after the other.
fn follow(kind: Kind, x: usize, y: usize) -> usize {
    if !(is_part(x) & is_part(y)) {
        return 0;
    }
    if kind == Kind::Logs {
        PART | logs_follow(plain(x), plain(y))
    } else {
        PART | paths_follow(plain(x), plain(y))
    }
}

// One of two.
fn either(x: usize, y: usize) -> usize {
    when(is_part(x) & is_part(y), x | y)
}

// Rounds of a repetition: each adds a letter or nothing new.
const ROUNDS: usize = 8;

// "repeats what it follows zero or more times".
fn repeated(kind: Kind, x: usize) -> usize {
    if !is_part(x) {
        return 0;
    }
    let alone = if kind == Kind::Logs { 1 } else { NOTHING };
    (0..ROUNDS).fold(PART | alone, |all, _| all | follow(kind, x, all))
}

// A letter.
fn letter_factor(k: usize, text: &[u8], letters: &[usize], i: usize, j: usize) -> usize {
    when(
        (j == plus(i, 1)) & is_letter(k, text, i),
        PART | value_at(letters, i),
    )
}

// An expression in brackets.
fn bracket_factor(text: &[u8], table: &[usize], i: usize, j: usize) -> usize {
    let last = minus(j, 1);
    when(
        (byte_at(text, i) == 40) & (byte_at(text, last) == 41),
        meaning(table, Level::Expression, plus(i, 1), last),
    )
}

// A factor and `*`.
fn star_factor(kind: Kind, text: &[u8], table: &[usize], i: usize, j: usize) -> usize {
    let last = minus(j, 1);
    if byte_at(text, last) != 42 {
        return 0;
    }
    repeated(kind, meaning(table, Level::Factor, i, last))
}

// A factor, and a factor and a sequence, split at every place.
fn sequence_of(kind: Kind, table: &[usize], i: usize, j: usize) -> usize {
    let mut all = meaning(table, Level::Factor, i, j);
    for m in i..j {
        all = all
            | follow(
                kind,
                meaning(table, Level::Factor, i, m),
                meaning(table, Level::Sequence, m, j),
            );
    }
    all
}

// A sequence, and a sequence, `|` and an expression, split at every place.
fn expression_of(text: &[u8], table: &[usize], i: usize, j: usize) -> usize {
    let mut all = meaning(table, Level::Sequence, i, j);
    for m in i..j {
        if byte_at(text, m) == 124 {
            all = all
                | either(
                    meaning(table, Level::Sequence, i, m),
                    meaning(table, Level::Expression, plus(m, 1), j),
                );
        }
    }
    all
}

// Writes the meanings of the part from i to j, where those of the shorter parts stand.
fn put_part(
    kind: Kind,
    k: usize,
    text: &[u8],
    letters: &[usize],
    i: usize,
    j: usize,
    table: &mut [usize],
) {
    let factor = letter_factor(k, text, letters, i, j)
        | bracket_factor(text, table, i, j)
        | star_factor(kind, text, table, i, j);
    put(table, cell(Level::Factor, i, j), factor);
    let sequence = sequence_of(kind, table, i, j);
    put(table, cell(Level::Sequence, i, j), sequence);
    let expression = expression_of(text, table, i, j);
    put(table, cell(Level::Expression, i, j), expression);
}

// The parts of n bytes.
fn put_parts(kind: Kind, k: usize, text: &[u8], letters: &[usize], n: usize, table: &mut [usize]) {
    for i in 0..minus(plus(text.len(), 1), n) {
        put_part(kind, k, text, letters, i, plus(i, n), table);
    }
}

// What the whole text means, of up to 63 bytes; `letters` has the meaning of the letter at each place. The table may have been used before, with other texts.
pub fn meaning_of(
    kind: Kind,
    k: usize,
    text: &[u8],
    letters: &[usize],
    table: &mut [usize],
) -> usize {
    for n in 0..text.len() {
        put_parts(kind, k, text, letters, plus(n, 1), table);
    }
    meaning(table, Level::Expression, 0, text.len())
}
