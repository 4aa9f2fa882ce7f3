// Cases with defects: the first that applies is given, and the buffers stay, save the work table at 10 and 22. A set of defects has a bit for each, in the
// order in which they are looked for: 2, 4, 21, 7, 8, 9, 10, 22.
use crate::cases::Case;
use crate::compare::Counted;
use crate::lent::Lent;
use trial::cells::{bit, byte, minus, plus};
use trial::tally::{Counter, Tally};

// What a call is refused by, in the order in which it is looked for.
#[derive(Clone, Copy, PartialEq, Eq)]
pub enum Defect {
    By2,
    By4,
    By21,
    By7,
    By8,
    By9,
    By10,
    By22,
}

const DEFECTS: [Defect; 8] = [
    Defect::By2,
    Defect::By4,
    Defect::By21,
    Defect::By7,
    Defect::By8,
    Defect::By9,
    Defect::By10,
    Defect::By22,
];

// Refusals that came as expected.
impl Counter for Defect {
    fn place(self) -> usize {
        6 + self as usize
    }
}

fn number_of(defect: Defect) -> u32 {
    match defect {
        Defect::By2 => 2,
        Defect::By4 => 4,
        Defect::By21 => 21,
        Defect::By7 => 7,
        Defect::By8 => 8,
        Defect::By9 => 9,
        Defect::By10 => 10,
        Defect::By22 => 22,
    }
}

fn has(defects: usize, defect: Defect) -> bool {
    bit(defects, defect as usize)
}

// The first defect of a set.
fn first_of(defects: usize) -> Option<Defect> {
    DEFECTS.iter().copied().find(|defect| has(defects, *defect))
}

// A rule that 21 refuses, or a number of names, or of rules.
fn with_bad_rule(case: Case, kind: usize) -> Case {
    let mut c = case;
    c.many = if case.many < 1 { 1 } else { case.many };
    let name = case.names % 16;
    let out = case.names == name;
    let none = 8192u16;
    if kind == 0 {
        c.names = 0;
    } else if kind == 1 {
        c.names = 17;
    } else if kind == 2 {
        c.many = 65;
    } else if kind == 3 {
        c.rules[0] = (case.k % 256) as u16;
    } else if kind == 4 {
        c.rules[0] = if out { (256 * name) as u16 } else { none };
    } else if kind == 5 {
        c.rules[0] = if out { (4096 + 16 * name) as u16 } else { none };
    } else if kind == 6 {
        c.rules[0] = if out { (4096 + name) as u16 } else { none };
    } else {
        c.rules[0] = 61440;
    }
    c
}

// Masks that are too many, or too few.
fn with_bad_masks(case: Case, kind: usize) -> Case {
    let mut c = case;
    if kind % 4 == 0 {
        c.k = 0;
    } else if kind % 4 == 1 {
        c.k = 17;
    } else if kind % 4 == 2 {
        c.letters = plus(case.letters, 1);
    } else {
        c.letters = minus(case.letters, 1);
    }
    c
}

fn with_own_bit(case: Case) -> Case {
    let mut c = case;
    c.masks[0] = c.masks[0] | 1;
    c
}

fn with_bad_letter(case: Case) -> Case {
    let mut c = case;
    if 0 < case.events {
        if case.events < 9 {
            c.log[case.events - 1] = byte(case.k);
        }
    }
    c
}

fn with_input_defects(case: Case, defects: usize, kind: usize) -> Case {
    let mut c = case;
    if has(defects, Defect::By8) {
        c = with_bad_letter(c);
    }
    if has(defects, Defect::By21) {
        c = with_bad_rule(c, kind % 8);
    }
    if has(defects, Defect::By4) {
        c = with_own_bit(c);
    }
    if has(defects, Defect::By2) {
        c = with_bad_masks(c, kind);
    }
    c
}

// One byte, one number or one set too few; the case has what it needs and no more.
fn with_short_buffers(case: Case, defects: usize) -> Case {
    let mut c = case;
    if has(defects, Defect::By9) {
        c.room = minus(case.room, 1);
    }
    if has(defects, Defect::By10) {
        c.size = minus(case.size, 1);
    }
    if has(defects, Defect::By22) {
        c.sets = minus(case.sets, 1);
    }
    c
}

// The defects that a case can have: an empty log has no letter, and needs no byte.
fn possible(case: &Case, defects: usize) -> usize {
    if case.events == 0 {
        defects & 199
    } else {
        defects & 247
    }
}

// The place of the refusal: that of the letter at 8.
fn place_right(told: &[u64; 4], defect: Defect, place: usize) -> bool {
    let expected = if defect == Defect::By8 { place } else { 0 };
    *told == [expected as u64, 0, 0, 0]
}

fn free_of(case: &Case, defect: Defect) -> usize {
    if (defect == Defect::By10) | (defect == Defect::By22) {
        case.size
    } else {
        0
    }
}

// A call with at least one defect, and a log that may be another than the case's own.
pub fn compare_refusal(case: &Case, log: &[u8], defect: Defect, place: usize, t: &mut Tally) {
    let mut lent = Lent::to(case);
    let number = lent.judge(case, log);
    let right = (number == Some(number_of(defect)))
        & place_right(&lent.told, defect, place)
        & lent.order.stays()
        & lent.sets.stays()
        & lent.table.stays_behind(free_of(case, defect));
    t.count_either(right, defect, Counted::Refusal);
}

// A case with some of the defects; it has what it needs and no more.
pub fn compare_defects(case: &Case, defects: usize, kind: usize, t: &mut Tally) {
    let some = possible(case, defects);
    if let Some(first) = first_of(some) {
        let c = with_short_buffers(with_input_defects(*case, some, kind), some);
        compare_refusal(&c, c.log(), first, minus(case.events, 1), t);
    }
}
