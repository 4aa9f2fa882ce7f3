// The reader and the log part on a file, against the second reader.
use crate::second_reader::{
    field, file_refusal, finals, log_length, mask, move_count, move_set, section,
};
use profile::{Refusal, Shape};
use trial::answers::Refused;
use trial::cells::{part_of, value_at, wide};
use trial::guarded::Guarded;
use trial::tally::{Call, Counted, Tally};

// The refusal that is expected: 9 where a lent buffer is too short and the file is right.
fn expected_refusal(file: &[u8], mask_room: usize, move_room: usize) -> Option<Refused> {
    let whole = file_refusal(file);
    if whole.is_none() & ((mask_room < field(file, 0)) | (move_room < move_count(file))) {
        return Some(Refused::by(9));
    }
    whole
}

// The file's numbers.
fn numbers_right(file: &[u8], shape: Shape, n: usize) -> bool {
    (shape.k == field(file, 0))
        & (shape.s == field(file, 1))
        & (shape.start == field(file, 2))
        & (n == log_length(file))
        & (wide(shape.finals) == finals(file))
}

// The answer is the refusal that is expected, or has the file's numbers where none is.
fn answer_right(
    file: &[u8],
    reading: Result<(Shape, usize), Refusal>,
    expected: Option<Refused>,
) -> bool {
    match reading {
        Err(r) => expected == Some(Refused::of(r)),
        Ok((shape, n)) => expected.is_none() & numbers_right(file, shape, n),
    }
}

// The first masks of the lent part are those of the file, and the others stay.
fn masks_right(file: &[u8], masks: &Guarded<u16, 32>) -> bool {
    let k = field(file, 0);
    (0..k).all(|i| value_at(masks.content(), i) as usize == mask(file, i)) && masks.stays_behind(k)
}

fn moves_right(file: &[u8], moves: &Guarded<u32, 536>) -> bool {
    let many = move_count(file);
    (0..many).all(|i| wide(value_at(moves.content(), i)) == move_set(file, i))
        && moves.stays_behind(many)
}

// The reader fills both buffers, or leaves them unchanged where the call is refused.
fn read_right(
    file: &[u8],
    expected: Option<Refused>,
    masks: &mut Guarded<u16, 32>,
    moves: &mut Guarded<u32, 536>,
) -> Option<bool> {
    let reading = logfile::read_file(file, masks.lend()?, moves.lend()?);
    let filled = if expected.is_none() {
        masks_right(file, masks) & moves_right(file, moves)
    } else {
        masks.stays() & moves.stays()
    };
    Some(answer_right(file, reading, expected) & filled)
}

fn reading_right(
    file: &[u8],
    mask_room: usize,
    move_room: usize,
    expected: Option<Refused>,
) -> bool {
    let mut masks = Guarded::<u16, 32>::new(mask_room);
    let mut moves = Guarded::<u32, 536>::new(move_room);
    read_right(file, expected, &mut masks, &mut moves) == Some(true)
}

// The log part is the log section, and empty where the file is refused by 1 to 8.
fn part_right(file: &[u8], expected: Option<Refused>) -> bool {
    let part = logfile::log_part(file);
    if expected.is_none() {
        (part.len() == log_length(file)) & (part == part_of(file, section(file, 8), part.len()))
    } else {
        part.len() == 0
    }
}

// Where the log section stands, or why the file is refused.
fn location_right(file: &[u8], expected: Option<Refused>) -> bool {
    match logfile::locate_log(file) {
        Err(r) => expected == Some(Refused::of(r)),
        Ok((at, n)) => { expected.is_none() & (at == section(file, 8)) & (n == log_length(file)) }
    }
}

fn log_right(file: &[u8], expected: Option<Refused>) -> bool {
    part_right(file, expected) & location_right(file, expected)
}

// Compares the calls on a file with the second reader.
pub fn compare_file(file: &[u8], mask_room: usize, move_room: usize, t: &mut Tally) {
    let expected = expected_refusal(file, mask_room, move_room);
    let whole = file_refusal(file);
    t.count(Counted::Read);
    let right = reading_right(file, mask_room, move_room, expected);
    let located = log_right(file, whole);
    if expected.is_none() {
        t.expect(Counted::File, right & located);
        t.count(Counted::Told);
        return;
    }
    t.refused(Counted::File, right, Call::Read, number_of(expected));
    t.refused(Counted::File, located, Call::Part, number_of(whole));
}

fn number_of(refused: Option<Refused>) -> Option<usize> {
    refused.map(|r| r.number)
}
