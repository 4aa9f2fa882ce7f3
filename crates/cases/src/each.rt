// What is compared of each log of a profile, and every log up to a length.
use profile::Profile;
use trial::cells::{part_of, times};
use trial::logs::{log_count, put_log_number};
use trial::tally::Tally;
use trial::text_rows::{digit, put_masks_in, put_moves_in, rest_at, shape_in};
use trial_logs::orders::compare_with;

// All calls on a log, and its file.
pub fn compare_log(profile: &Profile, log: &[u8], extra: usize, t: &mut Tally) {
    trial_logs::compare::compare_log(profile, log, extra, t);
    trial_files::compare::compare_log(profile, log, extra, t);
}

fn compare_number(profile: &Profile, v: usize, t: &mut Tally) {
    let mut log = [0u8; 8];
    let n = put_log_number(profile.shape.k, v, &mut log);
    compare_log(profile, part_of(&log, 0, n), v, t);
}

// Every log of 0 to `longest` letters.
fn compare_numbers(profile: &Profile, longest: usize, t: &mut Tally) {
    for v in 0..log_count(profile.shape.k, longest) {
        compare_number(profile, v, t);
    }
}

// Every log of the profile in a row, up to the length behind its moves.
pub fn every_log(row: &[u8], t: &mut Tally) {
    let mut masks = [0u16; 16];
    let mut moves = [0u32; 16];
    let shape = shape_in(row);
    let many = times(shape.s, shape.k);
    put_masks_in(row, &mut masks);
    put_moves_in(row, many, &mut moves);
    compare_numbers(
        &Profile {
            shape,
            masks: part_of(&masks, 0, shape.k),
            moves: part_of(&moves, 0, many),
        },
        digit(row, rest_at(shape)),
        t,
    );
}

// Logs number v and w.
fn compare_two(k: usize, masks: &[u16], v: usize, w: usize, t: &mut Tally) {
    let mut first = [0u8; 8];
    let mut second = [0u8; 8];
    let n = put_log_number(k, v, &mut first);
    let m = put_log_number(k, w, &mut second);
    compare_with(k, masks, part_of(&first, 0, n), part_of(&second, 0, m), t);
}

fn compare_with_all(k: usize, masks: &[u16], v: usize, all: usize, t: &mut Tally) {
    for w in 0..all {
        compare_two(k, masks, v, w, t);
    }
}

fn compare_all(k: usize, masks: &[u16], all: usize, t: &mut Tally) {
    for v in 0..all {
        compare_with_all(k, masks, v, all, t);
    }
}

// Every pair of logs of 0 to `longest` letters; the row has k and the masks.
pub fn pairs_of(row: &[u8], longest: usize, t: &mut Tally) {
    let mut masks = [0u16; 16];
    let k = digit(row, 0);
    put_masks_in(row, &mut masks);
    compare_all(k, part_of(&masks, 0, k), log_count(k, longest), t);
}
