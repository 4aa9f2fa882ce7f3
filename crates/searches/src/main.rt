// Searches built tables for prefixes by their counts, and compares what is found with a listing of the prefixes by total and counts. Prints how much was
// compared and how much was wrong.
#![tactic(auto)]

mod compare;
mod vectors;

use crate::compare::{Built, Counted, search_box, search_records};
use profile::Profile;
use std::io;
use trial::calls::build_in;
use trial::cells::{part_of, plus};
use trial::guarded::Guarded;
use trial::logs::{log_count, put_log_number};
use trial::random::{below, put_log, put_masks, seed_of};
use trial::shapes::shape_of;
use trial::tally::Tally;
use trial_logs::place_keys::Keys;

// Builds the table of a log, with the profile that accepts everything; every vector of the box where there are up to three letters, else those beside each record.
fn compare_log(k: usize, masks: &[u16], log: &[u8], t: &mut Tally) {
    let moves = [1u32; 16];
    let mut table = Guarded::<u32, 1416>::new(1400);
    build_in(
        &Profile {
            shape: shape_of(k, 1, 0, 1),
            masks,
            moves: part_of(&moves, 0, k),
        },
        log,
        &mut table,
    );
    let keys = Keys::of(masks, log);
    let built = Built {
        table: table.content(),
        keys: &keys,
    };
    t.count(Counted::Tables);
    if k < 4 {
        search_box(&built, k, t);
    } else {
        search_records(&built, t);
    }
}

// Log number v of k letters.
fn compare_number(k: usize, masks: &[u16], v: usize, t: &mut Tally) {
    let mut log = [0u8; 8];
    let n = put_log_number(k, v, &mut log);
    compare_log(k, masks, part_of(&log, 0, n), t);
}

// Every log of up to five letters.
fn every_log(k: usize, masks: &[u16], t: &mut Tally) {
    for v in 0..log_count(k, 5) {
        compare_number(k, masks, v, t);
    }
}

// One to three letters, of which `part` of 8 pairs may be exchanged.
fn small_relation(seed: usize, part: usize, t: &mut Tally) {
    let mut masks = [0u16; 16];
    let k = plus(1, part % 3);
    put_masks(seed, k, part, &mut masks);
    every_log(k, part_of(&masks, 0, k), t);
}

fn small_relations(seed: usize, t: &mut Tally) {
    for part in 0..9 {
        small_relation(seed_of(seed, part), part, t);
    }
}

// Four to sixteen letters, of which 4 to 8 of 8 pairs may be exchanged, and a log of up to seven.
fn wide_log(seed: usize, t: &mut Tally) {
    let mut masks = [0u16; 16];
    let mut log = [0u8; 8];
    let k = plus(4, below(seed, 0, 13));
    let n = below(seed, 1, 8);
    put_masks(seed, k, plus(4, below(seed, 2, 5)), &mut masks);
    put_log(seed, k, n, &mut log);
    compare_log(k, part_of(&masks, 0, k), part_of(&log, 0, n), t);
}

fn wide_logs(seed: usize, many: usize, t: &mut Tally) {
    for i in 0..many {
        wide_log(seed_of(seed, i), t);
    }
}

fn main(rt: HostRuntime) -> io::Result<()> {
    let mut t = Tally::new();
    small_relations(5, &mut t);
    wide_logs(11, 400, &mut t);
    println!(rt;
        "search: tables {}, searches {}, found {}",
        t.of(Counted::Tables),
        t.of(Counted::Searches),
        t.of(Counted::Present)
    )?;
    println!(rt; "wrong: search {}", t.of(Counted::Wrong))
}
