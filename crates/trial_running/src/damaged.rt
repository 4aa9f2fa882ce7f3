// Calls on a record or a table that no call left: each answers, is refused as the record says, and writes nothing outside the lent part.
use crate::lent::{Table, event_in, question_in};
use crate::run::Counted;
use crate::run_records::room;
use profile::{Profile, Shape};
use trial::cells::{byte, plus};
use trial::random::{below, seed_of};
use trial::tally::Tally;

// A number about the edges: of P and of the records that fit for `kind` below 8, else of the events taken.
fn edge(seed: usize, size: usize) -> u64 {
    let kind = below(seed, 0, 12);
    let near = below(seed, 1, plus(room(size), 3));
    if kind < 6 {
        return near as u64;
    }
    if kind == 6 {
        return 3999;
    }
    if kind == 7 {
        return 4000;
    }
    if kind == 8 {
        return 4294967297;
    }
    seed_of(seed, 2) as u64
}

fn number_of(seed: usize) -> u32 {
    let kind = below(seed, 0, 4);
    if kind == 0 {
        return 4294967295;
    }
    if kind == 1 {
        return 65535;
    }
    (seed_of(seed, 1) % 65536) as u32
}

// A table of `size` numbers, any numbers.
fn any_table(seed: usize, size: usize) -> Table {
    let mut table = Table::new(size);
    if let Some(part) = table.lend() {
        for (i, number) in part.iter_mut().enumerate() {
            *number = number_of(seed_of(seed, i));
        }
    }
    table
}

// The answer is the refusal that the record alone gives; else it is none, or 10 of an event.
fn answered(number: Option<u32>, early: Option<u32>, event: bool) -> bool {
    if early.is_some() {
        return number == early;
    }
    (number == Some(0)) | (event & (number == Some(10)))
}

fn early(shape: Shape, letter: u8, held: &[u64; 2], size: usize) -> Option<u32> {
    if 4000 <= held[1] {
        return Some(7);
    }
    if shape.k <= letter as usize {
        return Some(8);
    }
    early_question(held, size)
}

fn early_question(held: &[u64; 2], size: usize) -> Option<u32> {
    if (room(size) as u64) < held[0] {
        Some(10)
    } else {
        None
    }
}

// A question and an event on any record and any table.
pub fn compare_damaged(profile: &Profile, seed: usize, t: &mut Tally) {
    let size = below(seed, 15, 140);
    let mut table = any_table(seed_of(seed, 18), size);
    let mut held = [edge(seed_of(seed, 0), size), edge(seed_of(seed, 1), size)];
    let mut place = [99u64; 1];
    let mut told = [99u64; 4];
    let letter = byte(below(seed, 2, plus(profile.shape.k, 1)));
    let first = early_question(&held, size);
    let asked = question_in(profile, &held, &table, &mut told);
    let second = early(profile.shape, letter, &held, size);
    let given = event_in(profile, letter, &mut held, &mut table, &mut place);
    let right = answered(asked, first, false)
        & answered(given, second, true)
        & table.stays_behind(size);
    t.expect(Counted::Answer, right);
    t.count(Counted::Damaged);
}
