// Orders, swaps and floors found by hand.
use crate::lent::{Asked, Dated, Lent, Told, ask};
use crate::met::Met;
use profile::{Profile, Shape};
use trial::guarded::Guarded;
use trial::shapes::{alt, shape_of};
use trial::tally::Tally;

fn told_of(verdict: bool, prefixes: usize, looks: usize, swaps: usize, floor: usize) -> Told {
    Told {
        verdict,
        prefixes,
        looks,
        swaps,
        floor,
    }
}

// The answer, and the order where there is one; the two letters may be exchanged, both ways.
fn right(profile: &Profile, log: &[u8], asked: &Asked, told: Told, order: &[u8]) -> bool {
    let mut lent = Lent::<32, 1416, 600> {
        order: Guarded::new(8),
        table: Guarded::new(1400),
        costs: Guarded::new(500),
    };
    let answer = ask(profile, log, asked, &mut lent);
    let left = if told.verdict {
        lent.order.holds(order)
    } else {
        lent.order.stays()
    };
    (answer == Some(Ok(told))) & left
}

// A profile and a log, of which several budgets are tried.
#[derive(Clone, Copy)]
struct Case<'a> {
    shape: Shape,
    moves: &'a [u32],
    log: &'a [u8],
    dated: Option<Dated>,
}

impl Case<'_> {
    fn compare(&self, budget: u64, told: Told, order: &[u8], t: &mut Tally) {
        let profile = Profile {
            shape: self.shape,
            masks: &[2u16, 1],
            moves: self.moves,
        };
        let asked = Asked {
            dated: self.dated,
            budget,
        };
        t.expect(Met::Edge, right(&profile, self.log, &asked, told, order));
        t.count(Met::Edges);
    }
}

// Alt on bbaa: the pairs are the empty prefix at 0 swaps, a and ab at 2, aab and aabb at 3; abab is the one accepted order.
fn compare_bbaa(t: &mut Tally) {
    let case = Case {
        shape: alt(),
        moves: &[2u32, 0, 0, 1],
        log: &[1u8, 1, 0, 0],
        dated: None,
    };
    for (budget, floor) in [0usize, 2, 2, 3, 3, 3].iter().enumerate() {
        case.compare(
            budget as u64,
            told_of(true, 9, 12, 3, *floor),
            &[0u8, 1, 0, 1],
            t,
        );
    }
}

// One state that accepts everything, on ba: the empty prefix, b and ab at 0 swaps, a at 1. With three pairs the order is the judge's.
fn compare_ba(t: &mut Tally) {
    let case = Case {
        shape: shape_of(2, 1, 0, 1),
        moves: &[1u32, 1],
        log: &[1u8, 0],
        dated: None,
    };
    for budget in [0u64, 3].iter() {
        case.compare(*budget, told_of(true, 4, 4, 1, 0), &[0u8, 1], t);
    }
    for budget in [4u64, 5].iter() {
        case.compare(*budget, told_of(true, 4, 4, 0, 0), &[1u8, 0], t);
    }
}

// No order of bab is accepted by Alt; and the empty log.
fn compare_none(t: &mut Tally) {
    let case = Case {
        shape: alt(),
        moves: &[2u32, 0, 0, 1],
        log: &[1u8, 0, 1],
        dated: None,
    };
    for budget in [0u64, 99].iter() {
        case.compare(*budget, told_of(false, 6, 7, 0, 0), b"", t);
    }
    let empty = Case {
        shape: alt(),
        moves: &[2u32, 0, 0, 1],
        log: b"",
        dated: None,
    };
    for budget in [0u64, 1].iter() {
        empty.compare(*budget, told_of(true, 1, 0, 0, 0), b"", t);
    }
}

// Courses abab, by states 0 to 4, and baba, by 0 and 5 to 8: both are one swap away from abba, and the earlier is given.
fn compare_tie(t: &mut Tally) {
    let mut moves = [0u32; 18];
    moves[0] = 2;
    moves[3] = 4;
    moves[4] = 8;
    moves[7] = 16;
    moves[1] = 32;
    moves[10] = 64;
    moves[13] = 128;
    moves[14] = 256;
    let case = Case {
        shape: shape_of(2, 9, 0, 272),
        moves: &moves,
        log: &[0u8, 1, 1, 0],
        dated: None,
    };
    case.compare(99, told_of(true, 9, 12, 1, 1), &[0u8, 1, 0, 1], t);
}

pub fn compare_edges(t: &mut Tally) {
    compare_bbaa(t);
    compare_ba(t);
    compare_none(t);
    compare_tie(t);
}

// Events 0 and 1 in the second of two terms, 2 and 3 in the first.
fn two_terms() -> Dated {
    let mut terms = [0u32; 24];
    terms[0] = 20260901;
    terms[1] = 20261218;
    terms[2] = 20270104;
    terms[3] = 20270326;
    Dated {
        days: [20270111, 20270104, 20260901, 20261218, 0, 0, 0, 0],
        terms,
        numbers: 4,
    }
}

// Alt on baba: the pairs are the empty prefix at 0 swaps, a and ab at 1, aba and abab at 2; prefixes with the second a before the first b are none.
fn compare_terms(t: &mut Tally) {
    let case = Case {
        shape: alt(),
        moves: &[2u32, 0, 0, 1],
        log: &[1u8, 0, 1, 0],
        dated: Some(two_terms()),
    };
    let order = [0u8, 1, 0, 1];
    case.compare(0, told_of(true, 7, 8, 2, 0), &order, t);
    case.compare(2, told_of(true, 7, 8, 2, 1), &order, t);
    case.compare(3, told_of(true, 7, 8, 2, 2), &order, t);
    case.compare(5, told_of(true, 7, 8, 2, 2), &order, t);
}

// One state that accepts everything, on baba in two terms, and on bbaa with the letters in different terms: nothing moves.
fn compare_apart(t: &mut Tally) {
    let mixed = Case {
        shape: shape_of(2, 1, 0, 1),
        moves: &[1u32, 1],
        log: &[1u8, 0, 1, 0],
        dated: Some(two_terms()),
    };
    mixed.compare(6, told_of(true, 7, 8, 2, 0), &[0u8, 1, 0, 1], t);
    mixed.compare(7, told_of(true, 7, 8, 0, 0), mixed.log, t);
    let fixed = Case {
        shape: shape_of(2, 1, 0, 1),
        moves: &[1u32, 1],
        log: &[1u8, 1, 0, 0],
        dated: Some(two_terms()),
    };
    fixed.compare(4, told_of(true, 5, 4, 0, 0), fixed.log, t);
}

pub fn compare_term_edges(t: &mut Tally) {
    compare_terms(t);
    compare_apart(t);
}
