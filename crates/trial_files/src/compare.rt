// The file of a log: what the writer writes, byte by byte, what the reader makes of it, and the log's events.
use crate::read_events::compare_events;
use crate::reading::compare_file;
use crate::written::{bytes_right, file_size};
use profile::{Profile, Shape};
use trial::answers::{Answer, Refused, is_refusal, is_told};
use trial::calls::write_in;
use trial::cells::{minus, part_of, plus, times};
use trial::guarded::Guarded;
use trial::tally::{Call, Counted, Tally};

// The writer tells the file's length, and the guards around the file stand.
fn answer_right(answer: Answer, size: usize, out: &Guarded<u8, 6160>) -> bool {
    is_told(answer, None, size, 0) & out.stays_behind(size)
}

// What is read from a written file is written as the same file.
fn written_again(file: &[u8]) -> bool {
    let mut masks = [0u16; 16];
    let mut moves = [0u32; 512];
    let reading = logfile::read_file(file, &mut masks, &mut moves);
    match reading {
        Err(_) => false,
        Ok((shape, _)) => same_file(
            &Profile {
                shape,
                masks: part_of(&masks, 0, shape.k),
                moves: part_of(&moves, 0, times(shape.s, shape.k)),
            },
            file,
        ),
    }
}

fn same_file(profile: &Profile, file: &[u8]) -> bool {
    let mut out = Guarded::<u8, 6160>::new(6144);
    let answer = write_in(profile, logfile::log_part(file), &mut out);
    answer_right(answer, file.len(), &out) & (out.first(file.len()) == file)
}

// Writes with one byte too little: refused by 9, nothing written.
fn refuse_short(profile: &Profile, log: &[u8], t: &mut Tally) {
    let room = minus(file_size(profile.shape, log.len()), 1);
    let mut out = Guarded::<u8, 6160>::new(room);
    let answer = write_in(profile, log, &mut out);
    let right = is_refusal(answer, Refused::by(9)) & out.stays();
    t.refused(Counted::File, right, Call::Write, Some(9));
}

// Reads a written file into exact and longer buffers, and into ones that are too short.
fn compare_rooms(shape: Shape, file: &[u8], extra: usize, t: &mut Tally) {
    let k = shape.k;
    let many = times(shape.s, k);
    compare_file(file, plus(k, extra % 3), plus(many, extra % 5), t);
    compare_file(file, minus(k, 1), plus(many, extra % 2), t);
    compare_file(file, plus(k, extra % 2), minus(many, 1), t);
    compare_file(file, 0, 0, t);
}

// Writes the file of a log into more room than it needs; `extra` varies how much. Then reads it.
fn compare_written(profile: &Profile, log: &[u8], extra: usize, t: &mut Tally) {
    let size = file_size(profile.shape, log.len());
    let mut out = Guarded::<u8, 6160>::new(plus(size, extra % 3));
    let answer = write_in(profile, log, &mut out);
    let file = out.first(size);
    let right = answer_right(answer, size, &out)
        & bytes_right(profile, log, file)
        & written_again(file);
    t.expect(Counted::File, right);
    t.count(Counted::Written);
    compare_rooms(profile.shape, file, extra, t);
}

// All that is compared of one log.
pub fn compare_log(profile: &Profile, log: &[u8], extra: usize, t: &mut Tally) {
    compare_written(profile, log, extra, t);
    refuse_short(profile, log, t);
    compare_events(log, t);
}
