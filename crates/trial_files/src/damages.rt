// Files with a byte changed, cut files, and files whose sections stand anywhere.
use crate::reading::compare_file;
use profile::Profile;
use trial::cells::{byte, byte_at, copy, minus, part_of, plus, put, times};
use trial::random::{below, put_log, put_masks, put_moves, seed_of};
use trial::shapes::{alt, shape_of};
use trial::tally::{Counted, Tally};

// Compares the file with byte i changed to v.
fn compare_changed(file: &[u8], i: usize, v: usize, t: &mut Tally) {
    let mut changed = [0u8; 160];
    copy(file, &mut changed);
    put(&mut changed, i, byte(v));
    compare_file(part_of(&changed, 0, file.len()), 18, 520, t);
}

// Every byte changed to every value.
fn every_change(file: &[u8], t: &mut Tally) {
    for v in 0..times(file.len(), 256) {
        compare_changed(file, v / 256, v % 256, t);
    }
}

// One of six other values of byte i.
fn other_value(old: usize, i: usize, kind: usize) -> usize {
    match kind {
        0 => 0,
        1 => 255,
        2 => plus(old, 1),
        3 => plus(old, 255),
        4 => old ^ 128,
        _ => old ^ (1 << (i % 8)),
    }
}

// Every byte changed to six values.
fn some_changes(file: &[u8], t: &mut Tally) {
    for v in 0..times(file.len(), 6) {
        let i = v / 6;
        compare_changed(file, i, other_value(byte_at(file, i), i, v % 6), t);
    }
}

// The file cut at every length, its end left off, and then its beginning.
fn every_cut(file: &[u8], t: &mut Tally) {
    for m in 0..plus(file.len(), 1) {
        compare_file(part_of(file, 0, m), 16, 512, t);
        compare_file(part_of(file, m, minus(file.len(), m)), 16, 512, t);
    }
}

// Cuts and changes the file of a profile and a log; every value of a byte is tried where `all` is true.
fn damage(profile: &Profile, log: &[u8], all: bool, t: &mut Tally) {
    let mut out = [0u8; 160];
    let size = crate::written::file_size(profile.shape, log.len());
    let written = filewriter::write_file(profile, log, &mut out).ok();
    let file = part_of(&out, 0, size);
    t.expect(Counted::File, written == Some(size));
    every_cut(file, t);
    if all {
        every_change(file, t);
    } else {
        some_changes(file, t);
    }
}

// The file of document 01.
pub fn damage_document(t: &mut Tally) {
    damage(
        &Profile {
            shape: alt(),
            masks: &[2u16, 1],
            moves: &[2u32, 0, 0, 1],
        },
        &[1u8, 1, 0, 0],
        true,
        t,
    );
}

// The file of a random profile with k letters and s states, and a log of n letters.
fn damage_of(seed: usize, k: usize, s: usize, n: usize, t: &mut Tally) {
    let mut masks = [0u16; 16];
    let mut moves = [0u32; 16];
    let mut log = [0u8; 8];
    put_masks(seed, k, 5, &mut masks);
    put_moves(seed, s, k, &mut moves);
    put_log(seed, k, n, &mut log);
    damage(
        &Profile {
            shape: shape_of(k, s, 0, 1),
            masks: part_of(&masks, 0, k),
            moves: part_of(&moves, 0, times(s, k)),
        },
        part_of(&log, 0, n),
        false,
        t,
    );
}

// Files of random profiles with up to three letters and three states.
pub fn damage_many(seed: usize, many: usize, t: &mut Tally) {
    for i in 0..many {
        let one = seed_of(seed, i);
        let k = plus(1, below(one, 1, 3));
        let s = plus(1, below(one, 2, 3));
        damage_of(one, k, s, below(one, 3, 6), t);
    }
}

// Byte i before the trailer: mostly 0, so that sections that share bytes are often right.
fn sparse_byte(seed: usize, i: usize) -> usize {
    if below(seed, i, 8) < 6 {
        0
    } else {
        below(seed, plus(i, 500), 4)
    }
}

// Byte i of a trailer at `at`: k, s, start and n; distances up to one past the trailer's offset; state 0 is final.
fn trailer_byte(seed: usize, at: usize, i: usize) -> usize {
    match i {
        0 => plus(1, below(seed, 901, 3)),
        1 => plus(1, below(seed, 902, 2)),
        2 => below(seed, 903, plus(1, below(seed, 902, 2))),
        3 => below(seed, 904, 8),
        4 | 6 | 8 => below(seed, plus(910, i), plus(at, 2)),
        12 => 1,
        _ => 0,
    }
}

fn scattered_byte(seed: usize, at: usize, i: usize) -> usize {
    if i < at {
        sparse_byte(seed, i)
    } else {
        trailer_byte(seed, at, minus(i, at))
    }
}

fn put_scattered(seed: usize, at: usize, file: &mut [u8]) {
    for i in 0..plus(at, 16) {
        put(file, i, byte(scattered_byte(seed, at, i)));
    }
}

// A file whose sections stand anywhere before the trailer, and share bytes.
fn scatter(seed: usize, t: &mut Tally) {
    let mut file = [0u8; 160];
    let at = below(seed, 900, 80);
    put_scattered(seed, at, &mut file);
    compare_file(part_of(&file, 0, plus(at, 16)), 16, 512, t);
}

pub fn scatter_many(seed: usize, many: usize, t: &mut Tally) {
    for i in 0..many {
        scatter(seed_of(seed, i), t);
    }
}
