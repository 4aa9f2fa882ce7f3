// Bytes put in a lent buffer one behind the other: files and texts are written so.
#![tactic(auto)]

ghost use Rattle.std.specs.Prelude.{◌+◌, ◌≤◌, length};
ghost use Rattle.putting.specs.Putting.{Put};

// Puts the bytes from place `at` on, and tells the place behind them.
pub fn put_bytes(out: &mut [u8], at: usize, bytes: &[u8]) -> usize
    requires { at + length bytes.now ≤ length out.old }
    ensures { Put out.old at bytes.now out.new result }
{
    // Byte by byte: for `copy_from_slice` an archive for C would need `memmove` from outside.
    for (i, byte) in bytes.iter().enumerate() {
        out[at + i] = *byte;
    }
    at + bytes.len()
}
