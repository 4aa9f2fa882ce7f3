// Random profiles, with random logs.
use crate::each::compare_log;
use profile::Profile;
use trial::cells::{byte, byte_at, minus, part_of, plus, times};
use trial::random::{below, put_log, put_masks, put_moves, random_shape, seed_of};
use trial::tally::Tally;
use trial_logs::orders::compare_with;

// Letter i of a log that is a little different: two letters exchanged, or one changed to any letter, or none.
fn near_letter(seed: usize, k: usize, log: &[u8], i: usize) -> usize {
    let kind = below(seed, 3, 4);
    let a = below(seed, 1, log.len());
    let b = below(seed, 2, log.len());
    if (kind == 2) & (i == a) {
        return below(seed, 4, k);
    }
    if (kind < 2) & (i == a) {
        return byte_at(log, b);
    }
    if (kind < 2) & (i == b) {
        return byte_at(log, a);
    }
    byte_at(log, i)
}

fn put_near(seed: usize, k: usize, log: &[u8], near: &mut [u8]) {
    for (i, letter) in near.iter_mut().take(log.len()).enumerate() {
        *letter = byte(near_letter(seed, k, log, i));
    }
}

// Compares a log with one that is a little different; where no letter is, it is one shorter.
fn compare_near(seed: usize, k: usize, masks: &[u16], log: &[u8], t: &mut Tally) {
    let mut near = [0u8; 8];
    put_near(seed, k, log, &mut near);
    let less = if below(seed, 3, 4) == 3 { 1 } else { 0 };
    compare_with(k, masks, log, part_of(&near, 0, minus(log.len(), less)), t);
}

// A random log of up to `longest` letters, and one near it.
fn random_log(seed: usize, profile: &Profile, longest: usize, t: &mut Tally) {
    let mut letters = [0u8; 8];
    let n = below(seed, 10, plus(longest, 1));
    put_log(seed, profile.shape.k, n, &mut letters);
    let log = part_of(&letters, 0, n);
    compare_log(profile, log, below(seed, 11, 1000), t);
    compare_near(seed, profile.shape.k, profile.masks, log, t);
}

// Four logs of a profile.
fn random_logs(seed: usize, profile: &Profile, longest: usize, t: &mut Tally) {
    for i in 0..4 {
        random_log(seed_of(seed, i), profile, longest, t);
    }
}

// A random profile with k letters and s states.
fn random_profile(seed: usize, k: usize, s: usize, longest: usize, t: &mut Tally) {
    let mut masks = [0u16; 16];
    let mut moves = [0u32; 512];
    put_masks(seed, k, below(seed, 999, 9), &mut masks);
    put_moves(seed, s, k, &mut moves);
    random_logs(
        seed,
        &Profile {
            shape: random_shape(seed, k, s),
            masks: part_of(&masks, 0, k),
            moves: part_of(&moves, 0, times(s, k)),
        },
        longest,
        t,
    );
}

// Profiles of 1 to 5 letters and 1 to 6 states.
pub fn small_profiles(seed: usize, many: usize, t: &mut Tally) {
    for i in 0..many {
        let one = seed_of(seed, i);
        let k = plus(1, below(one, 1000, 5));
        let s = plus(1, below(one, 1001, 6));
        random_profile(one, k, s, 7, t);
    }
}

// A profile of 6 to 16 letters and up to 32 states, and those at the ends of the ranges.
fn wide_profile(seed: usize, t: &mut Tally) {
    let k = plus(6, below(seed, 1000, 11));
    let s = plus(1, below(seed, 1001, 32));
    random_profile(seed, k, s, 6, t);
    random_profile(seed, 16, 1, 6, t);
    random_profile(seed, 1, 32, 7, t);
    random_profile(seed, 16, 32, 6, t);
}

pub fn wide_profiles(seed: usize, many: usize, t: &mut Tally) {
    for i in 0..many {
        wide_profile(seed_of(seed, i), t);
    }
}
