// The cases of document 01 by their numbers, and every length of table for Alt.
use crate::each::compare_log;
use profile::Profile;
use trial::cells::{part_of, plus, times};
use trial::shapes::alt;
use trial::tally::{Counted, Tally};
use trial::text_rows::{digit, put_letters_in, put_masks_in, put_moves_in, rest_at, shape_in};
use trial_logs::compare::compare_table;
use trial_logs::listing::Listing;
use trial_logs::paths::earliest_accepted;
use trial_logs::prefixes::{look_count, prefix_count};

// The earliest accepted listed log is the expected one, or there is none.
fn order_listed(profile: &Profile, listing: &Listing, order: &[u8], accepted: bool) -> bool {
    match earliest_accepted(profile, listing) {
        Some(best) => accepted & (listing.row(best) == order),
        None => !accepted,
    }
}

// The listing agrees with the case's reachable logs, its P, looks and order, so that what the library is compared with is itself right.
fn listing_right(profile: &Profile, log: &[u8], order: &[u8], text: &[u8]) -> bool {
    let listing = Listing::of(profile.masks, log);
    (listing.count() == digit(text, 1))
        & (prefix_count(profile.masks, log) == digit(text, 2))
        & (look_count(profile.masks, log) == digit(text, 3))
        & order_listed(profile, &listing, order, digit(text, 4) != 0)
}

// A log with its order; the text has the log's length, the number of reachable logs, P, looks and the verdict.
fn compare_case(profile: &Profile, text: &[u8], t: &mut Tally) {
    let mut log = [0u8; 8];
    let mut order = [0u8; 8];
    let n = digit(text, 0);
    put_letters_in(text, 6, n, &mut log);
    put_letters_in(text, plus(7, n), n, &mut order);
    let right = listing_right(profile, part_of(&log, 0, n), part_of(&order, 0, n), text);
    t.edge(right);
    compare_log(profile, part_of(&log, 0, n), 0, t);
}

fn case(line: &[u8], t: &mut Tally) {
    let mut masks = [0u16; 16];
    let mut moves = [0u32; 16];
    let shape = shape_in(line);
    let many = times(shape.s, shape.k);
    let at = rest_at(shape);
    put_masks_in(line, &mut masks);
    put_moves_in(line, many, &mut moves);
    compare_case(
        &Profile {
            shape,
            masks: part_of(&masks, 0, shape.k),
            moves: part_of(&moves, 0, many),
        },
        part_of(line, at, trial::cells::minus(line.len(), at)),
        t,
    );
}

// M1 to M8; of M7 and M8 the free profile has the first order.
fn document_cases(t: &mut Tally) {
    case(b"2201 21 2001 01101  ", t);
    case(b"2201 21 2001 469c1 1100 0101", t);
    case(b"2201 21 2001 33670 101 000", t);
    case(b"2201 00 2001 21320 10 00", t);
    case(b"2304 21 024000 22441 01 10", t);
    case(b"2408 21 24088000 22441 10 01", t);
    case(b"4101 2100 1111 649a1 012103 012013", t);
    case(b"3101 252 111 33671 201 120", t);
}

// Alt on ba, where only b may be moved past, and where only a may.
fn one_way_cases(t: &mut Tally) {
    case(b"2201 01 2001 22441 10 01", t);
    case(b"2201 20 2001 21320 10 00", t);
}

// Alt on the log: of every table of up to 50 numbers those with its records are enough, and the rest stays.
fn table_lengths(log: &[u8], t: &mut Tally) {
    let masks = [2u16, 1];
    let moves = [2u32, 0, 0, 1];
    for size in 0..51 {
        compare_table(
            &Profile {
                shape: alt(),
                masks: &masks,
                moves: &moves,
            },
            log,
            log.len(),
            size,
            t,
        );
        t.count(Counted::Edges);
    }
}

// On ba 39 numbers are refused and 40 are enough; on the empty log 9 are refused and 10 are enough.
pub fn all_cases(t: &mut Tally) {
    document_cases(t);
    one_way_cases(t);
    table_lengths(&[1u8, 0], t);
    table_lengths(b"", t);
}
