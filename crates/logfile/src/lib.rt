// The file reader: refusals 1 to 9, the masks and moves of a file, its log part.
#![tactic(auto)]

ghost use Rattle.std.specs.Prelude.{◌≡◌, false, ℕ, List, ◌++◌, map, ◌+◌, ◌*◌, ◌≤◌, length, get_or, take, drop};
ghost use Rattle.profile.specs.Limits.{finals_byte};
ghost use Rattle.profile.specs.Lists.{below};
ghost use Rattle.profile.specs.Tables.{pack};
ghost use Rattle.profile.specs.Refusals.{refused_by, lowest};
ghost use Rattle.logfile.specs.Files.{Reads, content_refusals, distance_out_of_range, field, file_log, file_out_of_range, file_profile, file_refusals, file_shape, half, log_length, log_location, log_part_of, numbers_out_of_range, outside, section, trailer};

use profile::limits::{
    FINALS_BYTE, LENGTH_BYTE, LENGTH_HIGH_BYTE, LETTERS_BYTE, LOG_BYTE, MASKS_BYTE, MOST_LETTERS,
    MOST_MOVES, MOST_STATES, MOVES_BYTE, START_BYTE, STATES_BYTE, TRAILER_LENGTH, ZERO_BYTE,
};
use profile::{Profile, Refusal, Shape};

// Byte i; 0 past the end.
fn byte_at(f: &[u8], i: usize) -> u8
    ensures { result ≡ get_or f.now i 0 }
{
    if i < f.len() { f[i] } else { 0 }
}

// A number that stands in a file in so many bytes, the low byte first.
pub trait Number: Copy {
    const WIDTH: usize;

    ghost WIDTH: { ℕ };

    // The number of the first bytes of a list; bytes that are not there are 0.
    ghost value: { List ℕ → Self };

    fn from_bytes(bytes: &[u8]) -> Self
        ensures { result ≡ value bytes.now };
}

impl Number for u16 {
    const WIDTH: usize = 2;

    ghost WIDTH = { 2 };

    ghost value = { λ l. pack 8 (take 2 l) };

    fn from_bytes(bytes: &[u8]) -> u16 {
        u16::from_le_bytes([byte_at(bytes, 0), byte_at(bytes, 1)])
    }
}

impl Number for u32 {
    const WIDTH: usize = 4;

    ghost WIDTH = { 4 };

    ghost value = { λ l. pack 8 (take 4 l) };

    fn from_bytes(bytes: &[u8]) -> u32 {
        u32::from_le_bytes([
            byte_at(bytes, 0),
            byte_at(bytes, 1),
            byte_at(bytes, 2),
            byte_at(bytes, 3),
        ])
    }
}

// The number at place i.
fn number_at<T: Number>(f: &[u8], i: usize) -> T
    ensures { result ≡ T.value (drop i f.now) }
{
    T::from_bytes(&f[i.min(f.len())..])
}

// Where the trailer begins.
fn trailer_at(f: &[u8]) -> usize
    ensures { result ≡ trailer f.now }
{
    if f.len() < TRAILER_LENGTH {
        return 0;
    }
    f.len() - TRAILER_LENGTH
}

// Trailer byte i.
fn field_at(f: &[u8], i: usize) -> usize
    requires { i ≤ finals_byte }
    ensures { result ≡ field f.now i }
{
    let end = trailer_at(f);
    byte_at(f, end + i) as usize
}

// The log's length: trailer byte 3, and byte 10 above it.
fn length_at(f: &[u8]) -> usize
    ensures { result ≡ log_length f.now }
{
    let end = trailer_at(f);
    let low = byte_at(f, end + LENGTH_BYTE);
    let high = byte_at(f, end + LENGTH_HIGH_BYTE);
    u16::from_le_bytes([low, high]) as usize
}

// The numbers of the file's profile.
fn shape_of(f: &[u8]) -> Shape
    ensures { result ≡ file_shape f.now }
{
    let k = field_at(f, LETTERS_BYTE);
    let s = field_at(f, STATES_BYTE);
    let start = field_at(f, START_BYTE);
    let end = trailer_at(f);
    let finals = number_at::<u32>(f, end + FINALS_BYTE);
    Shape {
        k: k,
        s: s,
        start: start,
        finals: finals,
    }
}

// The number of two bytes at trailer byte i.
fn trailer_half(f: &[u8], i: usize) -> usize
    requires { i ≤ finals_byte }
    ensures { result ≡ half f.now (trailer f.now + i) }
{
    let end = trailer_at(f);
    number_at::<u16>(f, end + i) as usize
}

// Where the section begins whose distance stands at trailer byte i.
fn section_at(f: &[u8], i: usize) -> usize
    requires { i ≤ finals_byte }
    ensures { result ≡ section f.now i }
{
    let end = trailer_at(f);
    let back = trailer_half(f, i);
    if end < back {
        return 0;
    }
    end - back
}

// 2, of the numbers: k, s or start out of range.
fn numbers_refused(k: usize, s: usize, start: usize) -> bool
    ensures { result ≡ numbers_out_of_range k s start }
{
    if k < 1 {
        return true;
    }
    if MOST_LETTERS < k {
        return true;
    }
    if s < 1 {
        return true;
    }
    if MOST_STATES < s {
        return true;
    }
    s <= start
}

// 2: k, s or start out of range, or trailer byte 11 not zero.
fn range_refused(f: &[u8]) -> bool
    ensures { result ≡ file_out_of_range f.now }
{
    let k = field_at(f, LETTERS_BYTE);
    let s = field_at(f, STATES_BYTE);
    let start = field_at(f, START_BYTE);
    if numbers_refused(k, s, start) {
        return true;
    }
    field_at(f, ZERO_BYTE) != 0
}

// 3, of the distance at trailer byte i: below its section's size, or above the trailer's own offset.
fn outside_at(f: &[u8], i: usize, size: usize) -> bool
    requires { i ≤ finals_byte }
    ensures { result ≡ outside f.now i size }
{
    let back = trailer_half(f, i);
    if back < size {
        return true;
    }
    trailer_at(f) < back
}

// 3: a distance out of its range.
fn distance_refused(f: &[u8]) -> bool
    requires { file_out_of_range f.now ≡ false }
    ensures { result ≡ distance_out_of_range f.now }
{
    let k = field_at(f, LETTERS_BYTE);
    let s = field_at(f, STATES_BYTE);
    let n = length_at(f);
    if outside_at(f, MASKS_BYTE, 2 * k) {
        return true;
    }
    if outside_at(f, MOVES_BYTE, 4 * (s * k)) {
        return true;
    }
    outside_at(f, LOG_BYTE, n)
}

// Puts the n numbers that stand from place `at` on.
fn fill<T: Number>(f: &[u8], at: usize, n: usize, numbers: &mut [T])
    requires { (at + T.WIDTH * n ≤ length f.now) × (n ≤ length numbers.old) }
    ensures { numbers.new ≡ map (λ j. T.value (drop (at + T.WIDTH * j) f.now)) (below n) ++ drop n numbers.old }
{
    for j in 0..n {
        numbers[j] = number_at(f, at + T::WIDTH * j);
    }
}

// The lowest of refusals 4 and 6 to 8 that applies to a file whose sections stand inside it. Not inlined: among the other answers of `check_file` the loop
// over the letters would set the three numbers of its answer at each letter.
#[inline(never)]
fn check_content(f: &[u8]) -> Result<(), Refusal>
    requires { (file_out_of_range f.now ≡ false) × (distance_out_of_range f.now ≡ false) }
    ensures { refused_by result ≡ lowest (content_refusals (file_profile f.now) (file_log f.now)) }
{
    let shape = shape_of(f);
    let k = shape.k;
    let s = shape.s;
    let count = s * k;
    let mut masks = [0u16; MOST_LETTERS];
    let mut moves = [0u32; MOST_MOVES];
    fill(f, section_at(f, MASKS_BYTE), k, &mut masks);
    fill(f, section_at(f, MOVES_BYTE), count, &mut moves);
    checks::check_profile(&Profile {
        shape,
        masks: &masks[0..k],
        moves: &moves[0..count],
    })?;
    let from = section_at(f, LOG_BYTE);
    let end = from + length_at(f);
    logcheck::check_log(k, &f[from..end])
}

// The lowest of refusals 1 to 8 that applies to a file.
fn check_file(f: &[u8]) -> Result<(), Refusal>
    ensures { refused_by result ≡ lowest (file_refusals f.now) }
{
    if f.len() < TRAILER_LENGTH {
        return Err(Refusal::ShortFile);
    }
    if range_refused(f) {
        return Err(Refusal::OutOfRange);
    }
    if distance_refused(f) {
        return Err(Refusal::Distance);
    }
    check_content(f)
}

// Where the log section stands: its first place and its length, or the lowest of refusals 1 to 8.
pub fn locate_log(file: &[u8]) -> Result<(usize, usize), Refusal>
    ensures { result ≡ log_location file.now }
{
    check_file(file)?;
    Ok((section_at(file, LOG_BYTE), length_at(file)))
}

// The log section as that part of the file, uncopied; empty where the file is refused by 1 to 8.
pub fn log_part(file: &[u8]) -> &[u8]
    ensures { result.now ≡ log_part_of file.now }
{
    if check_file(file).is_err() {
        return &file[0..0];
    }
    let from = section_at(file, LOG_BYTE);
    let end = from + length_at(file);
    &file[from..end]
}

// Tells k, s, start state, final set and n, and fills the mask buffer and the move buffer from their starts.
pub fn read_file(
    file: &[u8],
    masks: &mut [u16],
    moves: &mut [u32],
) -> Result<(Shape, usize), Refusal>
    ensures { Reads file.now masks.old masks.new moves.old moves.new result }
{
    check_file(file)?;
    let shape = shape_of(file);
    let k = shape.k;
    let s = shape.s;
    let count = s * k;
    if masks.len() < k {
        return Err(Refusal::ShortBuffer);
    }
    if moves.len() < count {
        return Err(Refusal::ShortBuffer);
    }
    fill(file, section_at(file, MASKS_BYTE), k, masks);
    fill(file, section_at(file, MOVES_BYTE), count, moves);
    Ok((shape, length_at(file)))
}
