// Files of logs about 255 letters, where n leaves one byte, and up to 4,000; 4,001 letters are refused by 7, by the writer and in a file.
use crate::compare::compare_log;
use crate::reading::compare_file;
use crate::second_reader::file_refusal;
use crate::written::{file_byte, file_size};
use profile::Profile;
use trial::answers::{Refused, is_refusal};
use trial::calls::write_in;
use trial::cells::{byte, minus, part_of, plus, put, put_run};
use trial::guarded::Guarded;
use trial::shapes::shape_of;
use trial::tally::{Call, Counted, Tally};

// The file of n letters of sixteen, with 32 states; with 4,000 it is the longest that is written, 6,096 bytes.
fn long_file(n: usize, t: &mut Tally) {
    let masks = [0u16; 16];
    let moves = [4294967295u32; 512];
    let mut log = [0u8; 4000];
    put_run(&mut log, 200, 3800, 15);
    compare_log(
        &Profile {
            shape: shape_of(16, 32, 31, 4294967295),
            masks: &masks,
            moves: &moves,
        },
        part_of(&log, 0, n),
        1,
        t,
    );
    t.count(Counted::Edges);
}

// The writer refuses 4,001 letters.
fn too_long_file(t: &mut Tally) {
    let masks = [0u16; 16];
    let moves = [4294967295u32; 512];
    let log = [15u8; 4001];
    let mut out = Guarded::<u8, 6160>::new(6140);
    let answer = write_in(
        &Profile {
            shape: shape_of(16, 32, 31, 4294967295),
            masks: &masks,
            moves: &moves,
        },
        &log,
        &mut out,
    );
    let right = is_refusal(answer, Refused::by(7)) & out.stays();
    t.refused_edge(right, Call::Write, Some(7));
}

// The bytes of a file that the writer may refuse.
fn put_file(profile: &Profile, log: &[u8], file: &mut [u8]) {
    for i in 0..file_size(profile.shape, log.len()) {
        put(file, i, byte(file_byte(profile, log, i)));
    }
}

// The file of n letters of two, the last of them `last`, with byte i changed to v: a mask from 0 on, a move from 4 on, the trailer from n + 12 on. The
// second reader refuses it by the number, if there is one.
fn compare_made(n: usize, last: usize, i: usize, v: usize, number: Option<usize>, t: &mut Tally) {
    let mut log = [0u8; 4001];
    let mut file = [0u8; 4032];
    put(&mut log, minus(n, 1), byte(last));
    put_file(
        &Profile {
            shape: shape_of(2, 1, 0, 1),
            masks: &[2u16, 1],
            moves: &[1u32, 1],
        },
        part_of(&log, 0, n),
        &mut file,
    );
    put(&mut file, i, byte(v));
    let made = part_of(&file, 0, plus(n, 28));
    t.edge(file_refusal(made).map(|r| r.number) == number);
    compare_file(made, 2, 2, t);
}

// n letters, as they are; the last one bad.
fn compare_last(n: usize, t: &mut Tally) {
    compare_made(n, 1, 0, 2, None, t);
    compare_made(n, 2, 0, 2, Some(8), t);
}

// n is read in both of its bytes, and 8 is at every place.
fn lengths(t: &mut Tally) {
    for n in [255, 256, 257, 512, 3999, 4000].iter() {
        compare_last(*n, t);
    }
}

// 4,001 letters: 7, also where one is bad. A bad mask, a bad move, the log's distance, a high byte of n that reaches past the file, and byte 11 go before it.
fn too_long(t: &mut Tally) {
    compare_made(4001, 1, 0, 2, Some(7), t);
    compare_made(4001, 2, 0, 2, Some(7), t);
    compare_made(4001, 1, 0, 3, Some(4), t);
    compare_made(4001, 1, 4, 3, Some(6), t);
    compare_made(4001, 1, 4021, 160, Some(3), t);
    compare_made(4001, 1, 4023, 16, Some(3), t);
    compare_made(4001, 1, 4024, 1, Some(2), t);
}

// What a file of 256 letters says with its high byte left out: no letter.
fn without_high_byte(t: &mut Tally) {
    compare_made(256, 2, 278, 0, None, t);
}

pub fn long_files(t: &mut Tally) {
    too_long_file(t);
    for n in [255, 256, 257, 3999, 4000].iter() {
        long_file(*n, t);
    }
    lengths(t);
    too_long(t);
    without_high_byte(t);
}
