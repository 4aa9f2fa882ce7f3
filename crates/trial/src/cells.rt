// Reads, writes and sums that are total: past the end a read is 0 and a write is none, so that a wrong answer of a tested call is counted and
// cannot stop the test.

pub fn wide(x: impl Into<u64>) -> usize {
    x.into() as usize
}

pub fn value_at<T: Copy + Default>(s: &[T], i: usize) -> T {
    s.get(i).copied().unwrap_or_default()
}

// Byte i as a number.
pub fn byte_at(s: &[u8], i: usize) -> usize {
    wide(value_at(s, i))
}

pub fn put<T: Copy>(s: &mut [T], i: usize, v: T) {
    if i < s.len() {
        s[i] = v;
    }
}

// The low byte.
pub fn byte(v: usize) -> u8 {
    (v % 256) as u8
}

pub fn plus(a: usize, b: usize) -> usize {
    a.wrapping_add(b)
}

// a - b, and 0 where b is larger.
pub fn minus(a: usize, b: usize) -> usize {
    a.saturating_sub(b)
}

pub fn times(a: usize, b: usize) -> usize {
    a.wrapping_mul(b)
}

// v div d and v mod d; 0 where d is.
pub fn quotient(v: usize, d: usize) -> usize {
    v.checked_div(d).unwrap_or(0)
}

pub fn rest(v: usize, d: usize) -> usize {
    v.checked_rem(d).unwrap_or(0)
}

// Bit i of v.
pub fn bit(v: usize, i: usize) -> bool {
    i < 64 && (v >> i) & 1 == 1
}

// Kept: one for each width; a generic shift wants a trait.
pub fn one32(i: usize) -> u32 {
    if i < 32 { 1 << i } else { 0 }
}

pub fn one16(i: usize) -> u16 {
    if i < 16 { 1 << i } else { 0 }
}

// The part from `from` on with `n` elements; none where that is not inside.
pub fn part_of<T>(s: &[T], from: usize, n: usize) -> &[T] {
    if from <= s.len() && n <= s.len() - from {
        &s[from..from + n]
    } else {
        &s[..0]
    }
}

// Writes as many elements as fit at the front.
pub fn copy<T: Copy>(from: &[T], to: &mut [T]) {
    for (x, v) in to.iter_mut().zip(from) {
        *x = *v;
    }
}

// Up to eight letters by value.
pub fn eight(word: &[u8]) -> [u8; 8] {
    let mut letters = [0u8; 8];
    copy(word, &mut letters);
    letters
}

// Writes v at n places from `from` on.
pub fn put_run<T: Copy>(s: &mut [T], from: usize, n: usize, v: T) {
    for x in s.iter_mut().skip(from).take(n) {
        *x = v;
    }
}
