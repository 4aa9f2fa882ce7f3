// The search in a table, and in the part of one total, against the place that the counts have in the listing.
use crate::vectors::{box_size, change, counts_of, key_of, put_box, put_record};
use trial::cells::{minus, plus};
use trial::record_numbers::record_at;
use trial::tally::{Counter, Tally};
use trial_logs::place_keys::Keys;

// Counters, in the order in which they are printed.
#[derive(Clone, Copy)]
pub enum Counted {
    Tables,
    Searches,
    Present,
    Wrong,
}

impl Counter for Counted {
    fn place(self) -> usize {
        self as usize
    }
}

// The records `first` to `end` of a table; none where they are not in it.
fn part_of(table: &[u32], first: usize, end: usize) -> &[u32] {
    let from = record_at(first);
    let to = record_at(end);
    table.get(from..to).unwrap_or(&[])
}

// What is left of a place in the part from `first` to `end`.
fn place_in(place: usize, first: usize, end: usize) -> usize {
    if place < end {
        minus(place, first)
    } else {
        minus(end, first)
    }
}

// A built table, and the keys of its records.
#[derive(Clone, Copy)]
pub struct Built<'a> {
    pub table: &'a [u32],
    pub keys: &'a Keys,
}

// Searches the records `first` to `end` of a table.
fn search_part(built: &Built, vector: &[u8], first: usize, end: usize, t: &mut Tally) {
    let key = key_of(vector);
    let place = built.keys.place_of(key);
    let listed = built.keys.place_of(plus(key, 1)) != place;
    let present = listed & (first <= place) & (place < end);
    let found = search::find(part_of(built.table, first, end), counts_of(vector));
    let number = place_in(place, first, end);
    let right = found == if present { Ok(number) } else { Err(number) };
    t.count(Counted::Searches);
    t.count_if(Counted::Present, present);
    t.expect(Counted::Wrong, right);
}

// Searches the records of one total.
fn search_total(built: &Built, vector: &[u8], total: usize, t: &mut Tally) {
    let first = built.keys.place_of((total % 16) << 60);
    let end = if total < 15 {
        built.keys.place_of((total + 1) << 60)
    } else {
        built.keys.count()
    };
    search_part(built, vector, first, end, t);
}

// Searches the whole table, the records of the vector's total, and those of the totals beside it.
fn search_vector(built: &Built, vector: &[u8], t: &mut Tally) {
    let total = key_of(vector) >> 60;
    search_part(built, vector, 0, built.keys.count(), t);
    search_total(built, vector, total, t);
    search_total(built, vector, plus(total, 1), t);
    search_total(built, vector, minus(total, 1), t);
}

// Every count vector of the box around the whole log.
pub fn search_box(built: &Built, k: usize, t: &mut Tally) {
    let last = minus(built.keys.count(), 1);
    for v in 0..box_size(built.table, last, k) {
        let mut vector = [0u8; 16];
        put_box(built.table, last, k, v, &mut vector);
        search_vector(built, &vector, t);
    }
}

// The counts of record r, with one more and with one less of letter x.
fn search_beside(built: &Built, r: usize, x: usize, t: &mut Tally) {
    let mut more = [0u8; 16];
    put_record(built.table, r, &mut more);
    let mut less = more;
    change(&mut more, x, true);
    change(&mut less, x, false);
    search_vector(built, &more, t);
    search_vector(built, &less, t);
}

// The counts beside those of each record, of a letter that goes round; where the letter has none, one less is the record's own counts.
pub fn search_records(built: &Built, t: &mut Tally) {
    for r in 0..built.keys.count() {
        search_beside(built, r, r % 16, t);
    }
}
