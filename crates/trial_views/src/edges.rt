// Refusals of a view, one at a time and in pairs, and the edges of its buffers, by hand: Alt of document 01.
use crate::lent::view_in;
use crate::one_view::{Counted, Order, Table, is_cleared};
use profile::{Profile, Shape};
use trial::answers::{Refused, is_refusal, is_verdict};
use trial::cells::{minus, part_of};
use trial::shapes::{alt, shape_of};
use trial::tally::Tally;

// The mask of visible letters, the sizes of the lent buffers, and what is expected: P, or a refusal.
#[derive(Clone, Copy)]
struct Ask {
    visible: u32,
    room: usize,
    size: usize,
    expected: Result<usize, Refused>,
}

fn told(visible: u32, room: usize, size: usize, prefixes: usize) -> Ask {
    Ask {
        visible,
        room,
        size,
        expected: Ok(prefixes),
    }
}

fn refused(visible: u32, room: usize, size: usize, number: usize) -> Ask {
    Ask {
        visible,
        room,
        size,
        expected: Err(Refused::by(number)),
    }
}

// A call that is refused as expected, or that is answered with verdict 1, this P, and looks one less: the visible part is one letter, repeated or not at all.
fn right(asked: Ask, profile: &Profile, log: &[u8]) -> bool {
    let mut order = Order::new(asked.room);
    let mut table = Table::new(asked.size);
    let answer = view_in(profile, asked.visible, log, &mut order, &mut table);
    match asked.expected {
        Ok(prefixes) => is_verdict(answer, true, prefixes, minus(prefixes, 1)),
        Err(r) => {
            let left = if r.number == 10 {
                is_cleared(&order, &table)
            } else {
                order.stays() & table.stays()
            };
            is_refusal(answer, r) & left
        }
    }
}

fn compare(asked: Ask, profile: &Profile, log: &[u8], t: &mut Tally) {
    t.expect(Counted::Edge, right(asked, profile, log));
    t.count(Counted::Edges);
}

fn with_shape<'a>(profile: &Profile<'a>, shape: Shape) -> Profile<'a> {
    Profile {
        shape,
        masks: profile.masks,
        moves: profile.moves,
    }
}

// 2, 4 and 6, each before 20, 7 and 8; `long` has 4,001 letters and a bad one among them.
fn profile_edges(profile: &Profile, long: &[u8], t: &mut Tally) {
    let masks = profile.masks;
    let moves = profile.moves;
    let shape = profile.shape;
    let two = refused(4, 0, 0, 2);
    for bad in [
        shape_of(0, 2, 0, 1),
        shape_of(2, 33, 0, 1),
        shape_of(2, 2, 2, 1),
    ]
    .iter()
    {
        compare(two, &with_shape(profile, *bad), long, t);
    }
    let few_masks = Profile {
        shape,
        masks: part_of(masks, 0, 1),
        moves,
    };
    compare(two, &few_masks, long, t);
    let few_moves = Profile {
        shape,
        masks,
        moves: part_of(moves, 0, 3),
    };
    compare(two, &few_moves, long, t);
    let own = Profile {
        shape,
        masks: &[1u16, 1],
        moves,
    };
    compare(refused(4, 0, 0, 4), &own, long, t);
    let last = with_shape(profile, shape_of(2, 2, 0, 4));
    compare(refused(4, 0, 0, 6), &last, long, t);
}

// 20 before 7 and 8, for each bit from k on that is tried; 7 before 8 and 9; 8 before 9, at its place in the whole log.
fn mask_edges(profile: &Profile, long: &[u8], bad: &[u8], t: &mut Tally) {
    compare(refused(4, 0, 0, 20), profile, long, t);
    compare(refused(32768, 0, 0, 20), profile, bad, t);
    compare(refused(65536, 0, 0, 20), profile, bad, t);
    let two = part_of(bad, 0, 2);
    compare(refused(2147483649, 8, 100, 20), profile, two, t);
    compare(refused(1, 0, 0, 7), profile, long, t);
    for visible in [1u32, 0].iter() {
        let asked = Ask {
            visible: *visible,
            room: 0,
            size: 0,
            expected: Err(Refused::at(8, 3)),
        };
        compare(asked, profile, bad, t);
    }
}

// 9 by the visible length, also where the whole log is longer, and before 10; 10 by the visible part; 4,000 hidden letters.
fn buffer_edges(profile: &Profile, log: &[u8], hidden: &[u8], t: &mut Tally) {
    compare(refused(1, 1, 0, 9), profile, log, t);
    compare(refused(1, 2, 29, 10), profile, log, t);
    compare(told(1, 2, 30, 3), profile, log, t);
    compare(refused(0, 0, 9, 10), profile, log, t);
    compare(told(0, 0, 10, 1), profile, log, t);
    compare(told(1, 0, 10, 1), profile, hidden, t);
}

pub fn compare_edges(t: &mut Tally) {
    let profile = Profile {
        shape: alt(),
        masks: &[2u16, 1],
        moves: &[2u32, 0, 0, 1],
    };
    let long = [1u8; 4001];
    profile_edges(&profile, &long, t);
    mask_edges(&profile, &long, &[1u8, 0, 1, 5, 9], t);
    buffer_edges(&profile, &[1u8, 1, 0, 0], part_of(&long, 0, 4000), t);
}
