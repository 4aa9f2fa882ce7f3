// Right texts: an expression is a sequence, or a sequence, `|` and an expression; a sequence is a factor, or a factor and a sequence; a factor is a letter, or
// an expression in brackets, or a factor and `*`. For each place and level, the set of the places where such a part ends that begins there.
use crate::words::{is_letter, one};
use trial::cells::{bit, byte_at, copy, minus, part_of, plus, put, put_run, value_at};

// The row of a place and level.
const SEQUENCE: usize = 64;

const EXPRESSION: usize = 128;

// The ends with a star behind them, and another.
fn starred(text: &[u8], ends: usize) -> usize {
    let mut all = ends;
    for (j, c) in text.iter().enumerate() {
        if bit(all, j) & (*c == b'*') {
            all = all | one(plus(j, 1));
        }
    }
    all
}

// The places behind a closing bracket that stands at one of the ends.
fn closed(text: &[u8], ends: usize) -> usize {
    text.iter()
        .enumerate()
        .filter(|(j, c)| bit(ends, *j) & (**c == b')'))
        .fold(0, |all, (j, _)| all | one(plus(j, 1)))
}

// Where a factor ends that begins at i.
fn factor_ends(k: usize, text: &[u8], i: usize, rows: &[usize]) -> usize {
    if is_letter(k, text, i) {
        return starred(text, one(plus(i, 1)));
    }
    if byte_at(text, i) == 40 {
        return starred(
            text,
            closed(text, value_at(rows, plus(EXPRESSION, plus(i, 1)))),
        );
    }
    0
}

// The ends of the factors, and of the sequences that begin there.
fn sequence_ends(text: &[u8], factors: usize, rows: &[usize]) -> usize {
    (0..text.len())
        .filter(|&j| bit(factors, j))
        .fold(factors, |all, j| all | value_at(rows, plus(SEQUENCE, j)))
}

// The ends of the sequences, and of the expressions behind a `|` that stands there.
fn expression_ends(text: &[u8], sequences: usize, rows: &[usize]) -> usize {
    text.iter()
        .enumerate()
        .filter(|(j, c)| bit(sequences, *j) & (**c == b'|'))
        .fold(
            sequences,
            |all, (j, _)| all | value_at(rows, plus(EXPRESSION, plus(j, 1))),
        )
}

// Writes the rows of place i, where those of the later places stand.
fn put_ends(k: usize, text: &[u8], i: usize, rows: &mut [usize]) {
    let sequences = sequence_ends(text, factor_ends(k, text, i, rows), rows);
    let expressions = expression_ends(text, sequences, rows);
    put(rows, plus(SEQUENCE, i), sequences);
    put(rows, plus(EXPRESSION, i), expressions);
}

// A text of up to 62 bytes is right: an expression that begins at its start may end at its end.
pub fn is_right(k: usize, text: &[u8]) -> bool {
    let mut rows = [0usize; 192];
    let n = text.len();
    for i in 0..n {
        put_ends(k, text, minus(n, plus(i, 1)), &mut rows);
    }
    bit(rows[EXPRESSION], n)
}

// The beginning is right with a letter behind it, or none, and so many closing brackets.
fn is_completed(k: usize, beginning: &[u8], letters: usize, brackets: usize) -> bool {
    let mut text = [0u8; 128];
    let n = beginning.len();
    let at = plus(n, letters);
    copy(beginning, &mut text);
    put(&mut text, n, b'a');
    put_run(&mut text, at, brackets, b')');
    is_right(k, part_of(&text, 0, plus(at, brackets)))
}

// Some right text has this beginning: at most a letter and the closing brackets were missing.
fn begins(k: usize, beginning: &[u8]) -> bool {
    let most = minus(62, beginning.len());
    for brackets in 0..most {
        if brackets <= beginning.len() {
            if is_completed(k, beginning, 0, brackets) | is_completed(k, beginning, 1, brackets) {
                return true;
            }
        }
    }
    false
}

// The place of 11 in a text that is not right: "the first byte that no right text with the same beginning has there, or the text's length".
pub fn place_of(k: usize, text: &[u8]) -> usize {
    (0..text.len())
        .find(|&i| !begins(k, part_of(text, 0, plus(i, 1))))
        .unwrap_or(text.len())
}
