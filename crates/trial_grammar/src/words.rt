// Sets as the bits of a number, and the letters of a text.
use trial::cells::wide;

// The set of i alone.
pub fn one(i: usize) -> usize {
    if i < 64 { 1usize << i } else { 0 }
}

// The set where the test holds; none where not.
pub fn when(test: bool, set: usize) -> usize {
    if test { set } else { 0 }
}

// "Letters are a to p": the letter below k that the byte stands for.
pub fn letter_of(k: usize, c: u8) -> Option<usize> {
    let a = wide(c).checked_sub(97)?;
    if (a < k) & (a < 16) { Some(a) } else { None }
}

pub fn letter_at(k: usize, text: &[u8], i: usize) -> Option<usize> {
    letter_of(k, *text.get(i)?)
}

pub fn is_letter(k: usize, text: &[u8], i: usize) -> bool {
    letter_at(k, text, i).is_some()
}

// How many letters are typed.
pub fn letter_count(k: usize, text: &[u8]) -> usize {
    text.iter().filter(|c| letter_of(k, **c).is_some()).count()
}
