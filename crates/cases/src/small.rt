// Small profiles as rows, with every log up to the length at the end of the row.
use crate::each::{every_log, pairs_of};
use trial::tally::Tally;

// The free profile; no final state; lengths that 3 divides; a start from which two paths part.
fn one_letter(t: &mut Tally) {
    every_log(b"1101 0 1 7", t);
    every_log(b"1100 0 1 7", t);
    every_log(b"1312 0 241 7", t);
    every_log(b"1408 0 60c4 7", t);
}

// Alt, and with nothing independent; only ba; ab and ba; a course that ends.
fn two_letters(t: &mut Tally) {
    every_log(b"2201 21 2001 7", t);
    every_log(b"2201 00 2001 7", t);
    every_log(b"2304 21 024000 5", t);
    every_log(b"2408 21 24088000 5", t);
    every_log(b"2408 00 24088000 7", t);
}

// The same courses where only a may be moved past, and where only b may.
fn two_letters_one_way(t: &mut Tally) {
    every_log(b"2201 20 2001 7", t);
    every_log(b"2201 01 2001 7", t);
    every_log(b"2304 20 024000 5", t);
    every_log(b"2304 01 024000 5", t);
    every_log(b"2408 20 24088000 5", t);
    every_log(b"2408 01 24088000 5", t);
}

// a and b, b and c independent, not a and c: dead ends and several ways from a state; a profile that asks for ba first. All independent, and none.
fn three_letters(t: &mut Tally) {
    every_log(b"3405 252 608092403010 6", t);
    every_log(b"3408 252 020400008180 5", t);
    every_log(b"3301 653 201043160 6", t);
    every_log(b"3326 000 201043160 5", t);
}

// One way only: a before b before c; its reverse; a ring, both ways round. Both ways for a and b, one way for b and c, each way.
fn three_letters_one_way(t: &mut Tally) {
    every_log(b"3405 240 608092403010 6", t);
    every_log(b"3408 012 020400008180 5", t);
    every_log(b"3301 241 201043160 5", t);
    every_log(b"3301 412 201043160 5", t);
    every_log(b"3326 250 201043160 5", t);
    every_log(b"3326 212 201043160 5", t);
}

// Only a and b independent; a path; a ring.
fn four_letters(t: &mut Tally) {
    every_log(b"4301 2100 210406101032 5", t);
    every_log(b"4312 25a4 210406101032 5", t);
    every_log(b"4304 a5a5 210406101032 5", t);
}

// Rings one way, both ways round; a path of which every other pair is one-way; a ring of both kinds.
fn four_letters_one_way(t: &mut Tally) {
    every_log(b"4301 2481 210406101032 5", t);
    every_log(b"4301 8124 210406101032 5", t);
    every_log(b"4312 2184 210406101032 5", t);
    every_log(b"4304 a1a0 210406101032 5", t);
}

pub fn small_profiles(t: &mut Tally) {
    two_letters_one_way(t);
    three_letters_one_way(t);
    four_letters_one_way(t);
    one_letter(t);
    two_letters(t);
    three_letters(t);
    four_letters(t);
}

// Every pair of short logs, with one-way relations.
fn every_pair_one_way(t: &mut Tally) {
    pairs_of(b"2000 20", 5, t);
    pairs_of(b"2000 01", 5, t);
    pairs_of(b"3000 241", 4, t);
    pairs_of(b"3000 412", 4, t);
    pairs_of(b"3000 250", 4, t);
    pairs_of(b"4000 2184", 3, t);
    pairs_of(b"4000 8124", 3, t);
}

// With relations that are transitive and that are not, besides.
pub fn every_pair(t: &mut Tally) {
    every_pair_one_way(t);
    pairs_of(b"1000 0", 6, t);
    pairs_of(b"2000 00", 4, t);
    pairs_of(b"2000 21", 5, t);
    pairs_of(b"3000 653", 4, t);
    pairs_of(b"3000 252", 4, t);
    pairs_of(b"4000 25a4", 3, t);
    pairs_of(b"4000 a5a5", 3, t);
}
