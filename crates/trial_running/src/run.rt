// A run: a start, then events and questions in any order, with the record and the table lent each time as the last call left them. After each call the answer,
// the record and the table are compared with the listing, and after each event the judge's answer for the events taken.
use crate::arrivals::Arrivals;
use crate::lent::{Table, event_in, question_in, start_in};
use crate::run_records::{accepted, room, table_right};
use profile::{Profile, Shape};
use trial::answers::is_verdict;
use trial::calls::judge_in;
use trial::cells::{byte, part_of, plus, put};
use trial::guarded::Guarded;
use trial::random::{below, seed_of};
use trial::tally::{Counter, Tally};
use trial_logs::prefixes::{look_count, prefix_count};

// Counters, in the order in which they are printed.
#[derive(Clone, Copy)]
pub enum Counted {
    Runs,
    RefusedStarts,
    Events,
    BadLetters,
    FullTables,
    Questions,
    Accepted,
    Records,
    Damaged,
    // Wrong comparisons.
    Start,
    Event,
    Question,
    Table,
    Judge,
    Listing,
    Answer,
}

impl Counter for Counted {
    fn place(self) -> usize {
        self as usize
    }
}

// The events taken, and the record and the table as the last call left them.
#[derive(Clone, Copy)]
pub struct Run {
    log: [u8; 8],
    taken: usize,
    held: [u64; 2],
    table: Table,
}

impl Run {
    // Before the start, with numbers in the record that no call left.
    pub fn new(size: usize) -> Self {
        Run {
            log: [0; 8],
            taken: 0,
            held: [77, 88],
            table: Table::new(size),
        }
    }

    fn events(&self) -> &[u8] {
        part_of(&self.log, 0, self.taken)
    }

    // The record has P and the number of events taken.
    fn holds(&self, prefixes: usize) -> bool {
        self.held == [prefixes as u64, self.taken as u64]
    }

    // The record and the table are those of the events taken, of which the listing has as many prefixes as there are sets that keep the rule.
    fn compare_left(&self, profile: &Profile, t: &mut Tally) {
        let log = self.events();
        let arrivals = Arrivals::of(profile.masks, log);
        let many = arrivals.many();
        let right = self.holds(many) & table_right(profile, log, &self.table, &arrivals);
        t.expect(Counted::Table, right);
        t.count_many(Counted::Records, many);
        t.expect(Counted::Listing, many == prefix_count(profile.masks, log));
    }

    // The judge for the list of events taken.
    fn compare_judge(&self, profile: &Profile, t: &mut Tally) {
        let mut order = Guarded::<u8, 32>::new(8);
        let mut work = Guarded::<u32, 1416>::new(1400);
        let log = self.events();
        let answer = judge_in(profile, log, &mut order, &mut work);
        let verdict = accepted(profile, log);
        let many = prefix_count(profile.masks, log);
        t.expect(
            Counted::Judge,
            is_verdict(answer, verdict, many, look_count(profile.masks, log)),
        );
    }

    fn ask(&self, profile: &Profile, t: &mut Tally) {
        let mut told = [99u64; 4];
        let log = self.events();
        let verdict = accepted(profile, log);
        let many = prefix_count(profile.masks, log);
        let number = question_in(profile, &self.held, &self.table, &mut told);
        let right = (number == Some(0))
            & (told == [0, verdict as u64, many as u64, self.taken as u64]);
        t.expect(Counted::Question, right);
        t.count(Counted::Questions);
        t.count_if(Counted::Accepted, verdict);
    }

    // An event that is taken stays in the log.
    fn give(&mut self, profile: &Profile, letter: u8, t: &mut Tally) {
        let mut told = [99u64; 1];
        let taken = self.taken;
        put(&mut self.log, taken, letter);
        let longer = plus(taken, 1);
        let many = prefix_count(profile.masks, part_of(&self.log, 0, longer));
        let refused = refusal_of(profile.shape, letter, many, self.table.size());
        let place = if refused == Some(8) { taken as u64 } else { 0 };
        let number = event_in(profile, letter, &mut self.held, &mut self.table, &mut told);
        if refused.is_none() {
            self.taken = longer;
        }
        count_event(refused, t);
        t.expect(
            Counted::Event,
            (number == Some(refused.unwrap_or(0))) & (told == [place]),
        );
        self.compare_judge(profile, t);
    }

    // Event or question i; after six events taken, or five of many letters, there are only questions.
    fn call(&mut self, profile: &Profile, seed: usize, t: &mut Tally) {
        let most = if profile.shape.k < 4 { 6 } else { 5 };
        let kind = below(seed, 0, 8);
        if (kind < 2) | (most <= self.taken) {
            self.ask(profile, t);
        } else {
            self.give(profile, letter_of(profile.shape, seed, kind), t);
        }
        self.compare_left(profile, t);
    }

    // A start, then `many` calls.
    pub fn compare(&mut self, profile: &Profile, seed: usize, many: usize, t: &mut Tally) {
        let mut told = [99u64; 1];
        let number = start_in(profile, &mut self.held, &mut self.table, &mut told);
        if room(self.table.size()) < 1 {
            let right = (number == Some(10)) & (told == [0]) & (self.held == [77, 88]);
            t.expect(Counted::Start, right);
            t.count(Counted::RefusedStarts);
            return;
        }
        t.expect(Counted::Start, (number == Some(0)) & (told == [0]));
        self.compare_left(profile, t);
        for i in 0..many {
            self.call(profile, seed_of(seed, i), t);
        }
    }
}

// What refuses an event that leaves `many` prefixes: 8 or 10.
fn refusal_of(shape: Shape, letter: u8, many: usize, size: usize) -> Option<u32> {
    if shape.k <= letter as usize {
        return Some(8);
    }
    if room(size) < many { Some(10) } else { None }
}

// Counts an event by what is to be said of it.
fn count_event(refused: Option<u32>, t: &mut Tally) {
    match refused {
        Some(8) => t.count(Counted::BadLetters),
        Some(_) => t.count(Counted::FullTables),
        None => t.count(Counted::Events),
    }
}

// A letter of the profile, but for one kind, where it is bad.
fn letter_of(shape: Shape, seed: usize, kind: usize) -> u8 {
    let good = below(seed, 1, shape.k);
    byte(if kind == 2 { plus(shape.k, good) } else { good })
}
