// The bytes of a log file by the documents' words: masks, moves, log, trailer, without gaps.
use profile::{Profile, Shape};
use trial::cells::{byte_at, minus, plus, times, value_at, wide};

// Byte i of a number, low byte first.
fn digit(v: usize, i: usize) -> usize {
    if i < 8 {
        let shift = 8 * i;
        (v >> shift) & 255
    } else {
        0
    }
}

// The bytes of the masks and those of the moves.
fn mask_bytes(shape: Shape) -> usize {
    times(2, shape.k)
}

fn move_bytes(shape: Shape) -> usize {
    times(4, times(shape.s, shape.k))
}

pub fn file_size(shape: Shape, n: usize) -> usize {
    plus(plus(mask_bytes(shape), move_bytes(shape)), plus(n, 16))
}

// "k, s, start state", the low byte of n, the distances to masks, moves and log, "the high byte of n", zero, and the final set.
fn trailer_byte(shape: Shape, n: usize, i: usize) -> usize {
    let moves = plus(move_bytes(shape), n);
    match i {
        0 => shape.k,
        1 => shape.s,
        2 => shape.start,
        3 => digit(n, 0),
        4 | 5 => digit(plus(mask_bytes(shape), moves), i - 4),
        6 | 7 => digit(moves, i - 6),
        8 | 9 => digit(n, i - 8),
        10 => digit(n, 1),
        11 => 0,
        _ => digit(wide(shape.finals), minus(i, 12)),
    }
}

// Byte i of the file.
pub fn file_byte(profile: &Profile, log: &[u8], i: usize) -> usize {
    let moves_at = mask_bytes(profile.shape);
    let log_at = plus(moves_at, move_bytes(profile.shape));
    let end = plus(log_at, log.len());
    if i < moves_at {
        return digit(value_at(profile.masks, i / 2) as usize, i % 2);
    }
    if i < log_at {
        let j = minus(i, moves_at);
        return digit(wide(value_at(profile.moves, j / 4)), j % 4);
    }
    if i < end {
        return byte_at(log, minus(i, log_at));
    }
    trailer_byte(profile.shape, log.len(), minus(i, end))
}

// The file has these bytes.
pub fn bytes_right(profile: &Profile, log: &[u8], file: &[u8]) -> bool {
    file.iter()
        .enumerate()
        .all(|(i, x)| wide(*x) == file_byte(profile, log, i))
        && file.len() == file_size(profile.shape, log.len())
}
