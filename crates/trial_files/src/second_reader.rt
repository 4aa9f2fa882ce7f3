// A second reader of log files, from document 01's table of the trailer and its list of refusals, and document 02's words on long logs.
use trial::answers::Refused;
use trial::cells::{bit, byte_at, minus, plus, times};

// The number of two bytes at `at`, low byte first, and of four.
fn half(file: &[u8], at: usize) -> usize {
    (byte_at(file, plus(at, 1)) << 8) | byte_at(file, at)
}

pub fn word(file: &[u8], at: usize) -> usize {
    (half(file, plus(at, 2)) << 16) | half(file, at)
}

// Where the trailer begins.
pub fn trailer(file: &[u8]) -> usize {
    minus(file.len(), 16)
}

// Trailer byte i: k, s and start are 0, 1 and 2.
pub fn field(file: &[u8], i: usize) -> usize {
    byte_at(file, plus(trailer(file), i))
}

// n: "Trailer byte 10 becomes the high byte of n".
pub fn log_length(file: &[u8]) -> usize {
    (field(file, 10) << 8) | field(file, 3)
}

// s × k.
pub fn move_count(file: &[u8]) -> usize {
    times(field(file, 1), field(file, 0))
}

// The final set.
pub fn finals(file: &[u8]) -> usize {
    word(file, plus(trailer(file), 12))
}

// The distance at trailer bytes i and i + 1: 4 for the masks, 6 for the moves, 8 for the log.
fn distance(file: &[u8], i: usize) -> usize {
    half(file, plus(trailer(file), i))
}

// Where the section begins whose distance that is.
pub fn section(file: &[u8], i: usize) -> usize {
    minus(trailer(file), distance(file, i))
}

pub fn mask(file: &[u8], i: usize) -> usize {
    half(file, plus(section(file, 4), plus(i, i)))
}

pub fn move_set(file: &[u8], i: usize) -> usize {
    word(file, plus(section(file, 6), times(4, i)))
}

// Some bit of v from i on is set.
fn bit_from(v: usize, i: usize) -> bool {
    i < 64 && v >> i != 0
}

// 2; "byte 11 stays zero".
fn out_of_range(file: &[u8]) -> bool {
    let k = field(file, 0);
    let s = field(file, 1);
    (k < 1) | (16 < k) | (s < 1) | (32 < s) | (s <= field(file, 2)) | (field(file, 11) != 0)
}

// 3: "a distance is at least its section's size and at most the trailer's own offset".
fn far(file: &[u8], i: usize, size: usize) -> bool {
    let d = distance(file, i);
    (d < size) | (trailer(file) < d)
}

fn far_section(file: &[u8]) -> bool {
    far(file, 4, times(2, field(file, 0)))
        | far(file, 6, times(4, move_count(file)))
        | far(file, 8, log_length(file))
}

// 4.
fn bad_mask(file: &[u8]) -> bool {
    let k = field(file, 0);
    (0..k).any(|i| bit_from(mask(file, i), k) | bit(mask(file, i), i))
}

// 6.
fn bad_set(file: &[u8]) -> bool {
    let s = field(file, 1);
    (0..move_count(file)).any(|i| bit_from(move_set(file, i), s)) || bit_from(finals(file), s)
}

// 8: the first place whose byte is k or more.
fn bad_place(file: &[u8]) -> Option<usize> {
    let k = field(file, 0);
    let at = section(file, 8);
    (0..log_length(file)).find(|&i| k <= byte_at(file, plus(at, i)))
}

// 4, 6, 7 and 8. "Refusal 7 now starts at 4,001 and applies to files too, before 8."
fn content_refusal(file: &[u8]) -> Option<Refused> {
    if bad_mask(file) {
        return Some(Refused::by(4));
    }
    if bad_set(file) {
        return Some(Refused::by(6));
    }
    if 4000 < log_length(file) {
        return Some(Refused::by(7));
    }
    Some(Refused::at(8, bad_place(file)?))
}

// The refusal of the file by 1 to 8.
pub fn file_refusal(file: &[u8]) -> Option<Refused> {
    if file.len() < 16 {
        return Some(Refused::by(1));
    }
    if out_of_range(file) {
        return Some(Refused::by(2));
    }
    if far_section(file) {
        return Some(Refused::by(3));
    }
    content_refusal(file)
}
