// The file writer: masks, moves, log and trailer, without gaps.
#![tactic(auto)]

ghost use Rattle.std.specs.Prelude.{◌≡◌, ℕ, List, ◌+◌, ◌≤◌, ◌<◌, length};
ghost use Rattle.std.proofs.lemmas.List.Edits.{sets};
ghost use Rattle.profile.specs.Lists.{flat_map};
ghost use Rattle.profile.specs.Automata.{lent};
ghost use Rattle.putting.specs.Putting.{Put};
ghost use Rattle.filewriter.specs.Written.{Fit, Writes, file_bytes, low_bytes, trailer_of};

use profile::limits::TRAILER_LENGTH;
use profile::{Profile, Refusal, Shape};
use putting::put_bytes;

// A number as a file holds it.
trait Written: Copy {
    ghost bytes: { Self → List ℕ };

    // Puts its bytes from place `at` on, and tells the place behind them.
    fn put(self, out: &mut [u8], at: usize) -> usize
        requires { at + length (bytes self) ≤ length out.old }
        ensures { Put out.old at (bytes self) out.new result };
}

impl Written for u16 {
    ghost bytes = { low_bytes 2 };

    fn put(self, out: &mut [u8], at: usize) -> usize {
        put_bytes(out, at, &self.to_le_bytes())
    }
}

impl Written for u32 {
    ghost bytes = { low_bytes 4 };

    fn put(self, out: &mut [u8], at: usize) -> usize {
        put_bytes(out, at, &self.to_le_bytes())
    }
}

// Puts the numbers from place `at` on, one after the other, and tells the place behind them.
fn put_numbers<T: Written>(out: &mut [u8], at: usize, numbers: &[T]) -> usize
    requires { at + length (flat_map T.bytes numbers.now) ≤ length out.old }
    ensures { Put out.old at (flat_map T.bytes numbers.now) out.new result }
{
    let mut to = at;
    for number in numbers {
        to = number.put(out, to);
    }
    to
}

// The trailer of a log of n letters, with the distances back to the masks and to the moves.
fn trailer_bytes(shape: Shape, n: u16, masks: u16, moves: u16) -> [u8; TRAILER_LENGTH]
    requires { (shape.k < 256) × (shape.s < 256) × (shape.start < 256) }
    ensures { result ≡ trailer_of shape n masks moves }
{
    let [n_low, n_high] = n.to_le_bytes();
    let [masks_low, masks_high] = masks.to_le_bytes();
    let [moves_low, moves_high] = moves.to_le_bytes();
    let [finals_0, finals_1, finals_2, finals_3] = shape.finals.to_le_bytes();
    [
        shape.k as u8,
        shape.s as u8,
        shape.start as u8,
        n_low,
        masks_low,
        masks_high,
        moves_low,
        moves_high,
        n_low,
        n_high,
        n_high,
        0,
        finals_0,
        finals_1,
        finals_2,
        finals_3,
    ]
}

// Puts masks, moves, log and trailer, without gaps.
fn put_file(profile: &Profile, log: &[u8], out: &mut [u8])
    requires { Fit profile.now.shape profile.now.masks.now profile.now.moves.now log.now out.old }
    ensures { out.new ≡ sets out.old 0 (file_bytes (lent profile.now) log.now) }
{
    let moves_at = put_numbers(out, 0, profile.masks);
    let log_at = put_numbers(out, moves_at, profile.moves);
    let end = put_bytes(out, log_at, log);
    let to_masks = end as u16;
    let to_moves = (end - moves_at) as u16;
    let trailer = trailer_bytes(profile.shape, log.len() as u16, to_masks, to_moves);
    put_bytes(out, end, &trailer);
}

// Puts masks, moves, log and trailer, without gaps, and tells the file's length.
pub fn write_file(profile: &Profile, log: &[u8], out: &mut [u8]) -> Result<usize, Refusal>
    ensures { Writes (lent profile.now) log.now out.old out.new result }
{
    checks::check_profile(profile)?;
    logcheck::check_log(profile.shape.k, log)?;
    let size = 2 * profile.masks.len() + 4 * profile.moves.len() + log.len() + TRAILER_LENGTH;
    if out.len() < size {
        return Err(Refusal::ShortBuffer);
    }
    put_file(profile, log, out);
    Ok(size)
}
