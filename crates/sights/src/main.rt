// Judges random logs for teachers who see some of their letters, and compares every answer, order and table with a listing of lists of letters. Prints how much
// was compared and how much was wrong.
#![tactic(auto)]

use profile::Profile;
use std::io;
use trial::cells::{minus, part_of, plus, quotient, times};
use trial::logs::log_count;
use trial::random::{below, put_log, put_masks, put_moves, random_shape, seed_of};
use trial::tally::Tally;
use trial_views::edges::compare_edges;
use trial_views::lists::{View, put_visible};
use trial_views::one_view::{Counted, compare_judge, compare_secret, compare_view, mask_of};

// The length up to which all lists are tried.
fn longest_of(k: usize) -> usize {
    if k < 3 { 8 } else { 7 }
}

// How many visible letters a log may have, so that no list longer than that is needed: hidden letters need stand at most s - 1 times in a row.
fn most_visible(k: usize, s: usize) -> usize {
    let most = quotient(minus(plus(longest_of(k), 1), s), s);
    if most < 5 { most } else { 5 }
}

// Mostly enough; else a few records, and now and then not one.
fn size_of(seed: usize) -> usize {
    if below(seed, 12, 3) == 0 {
        below(seed, 13, 90)
    } else {
        1400
    }
}

// All that is compared of one log; the second has the same visible part.
fn compare(view: &View, log: &[u8], seen: &[u8], seed: usize, t: &mut Tally) {
    let room = below(seed, 14, 9);
    let size = size_of(seed);
    let all = mask_of(minus(1 << (view.profile.shape.k % 64), 1));
    compare_view(view, log, 8, 1400, t);
    compare_view(view, log, room, size, t);
    compare_secret(view, log, seen, room, size, t);
    compare_judge(view.profile, log, all, room, t);
}

// The first letters of the log, or as many as may be visible.
fn cut(visible: usize, log: &[u8], most: usize, part: &mut [u8]) -> usize {
    if most < put_visible(visible, log, part) {
        most
    } else {
        log.len()
    }
}

fn view_with(profile: &Profile, seed: usize, t: &mut Tally) {
    let mut letters = [0u8; 8];
    let mut part = [0u8; 8];
    let k = profile.shape.k;
    let most = most_visible(k, profile.shape.s);
    let view = View {
        profile,
        visible: below(seed, 15, 1 << (k % 64)),
        lists: log_count(k, longest_of(k)),
    };
    let n = plus(most, below(seed, 16, 4));
    put_log(seed_of(seed, 17), k, n, &mut letters);
    let length = cut(view.visible, part_of(&letters, 0, n), most, &mut part);
    let log = part_of(&letters, 0, length);
    let m = put_visible(view.visible, log, &mut part);
    compare(&view, log, part_of(&part, 0, m), seed, t);
}

fn one_view(seed: usize, t: &mut Tally) {
    let mut masks = [0u16; 16];
    let mut moves = [0u32; 64];
    let k = plus(1, below(seed, 10, 3));
    let s = plus(1, below(seed, 11, 3));
    put_masks(seed, k, plus(2, below(seed, 18, 7)), &mut masks);
    put_moves(seed, s, k, &mut moves);
    let shape = random_shape(seed, k, s);
    view_with(
        &Profile {
            shape,
            masks: part_of(&masks, 0, k),
            moves: part_of(&moves, 0, times(s, k)),
        },
        seed,
        t,
    );
}

fn all_views(seed: usize, many: usize, t: &mut Tally) {
    for i in 0..many {
        one_view(seed_of(seed, i), t);
    }
}

fn main(rt: HostRuntime) -> io::Result<()> {
    let mut t = Tally::new();
    compare_edges(&mut t);
    all_views(12, 1500, &mut t);
    println!(rt;
        "views {}: with hidden letters {}, verdict 1 {}, not as the judge of the visible part {}, records {}, refused by 9 {}, by 10 {}",
        t.of(Counted::Views),
        t.of(Counted::Hiding),
        t.of(Counted::Accepted),
        t.of(Counted::NotSoJudged),
        t.of(Counted::Records),
        t.of(Counted::Short),
        t.of(Counted::Full)
    )?;
    println!(rt;
        "pairs of one visible part {}, as the judge {}, edges {}",
        t.of(Counted::Secrets),
        t.of(Counted::Judges),
        t.of(Counted::Edges)
    )?;
    println!(rt;
        "wrong: answer {}, table {}, refusal {}, secret {}, judge {}, edge {}",
        t.of(Counted::Answer),
        t.of(Counted::Table),
        t.of(Counted::Refusal),
        t.of(Counted::Secret),
        t.of(Counted::Judge),
        t.of(Counted::Edge)
    )
}
