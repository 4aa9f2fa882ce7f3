// The streams of a program: a whole input and a whole output. A call that fails is told from the end of the input; a call that a signal interrupted is
// made again.
#![tactic(auto)]

ghost use Rattle.std.specs.Prelude.{length};
ghost use Rattle.streams.specs.Streams.{input_within, moved_within, read_within};

use std::io;
use std::io::{Error, ErrorKind, Read, Write};

// How many calls are made at most, so that the loops end whatever the system answers.
const MOST_CALLS: u64 = u64::MAX;

// The error of a stream for which the calls have run out.
fn too_many() -> Error {
    Error::other("too many calls")
}

// A call that failed, unless a signal interrupted it: such a call moved nothing.
fn failed(e: Error) -> io::Result<usize>
    ensures { moved_within 0 result }
{
    if e.kind() == ErrorKind::Interrupted {
        return Ok(0);
    }
    Err(e)
}

// One read: how many bytes it moved, none where a signal interrupted it; `None` at the end of the input.
fn read_some<R: Read>(from: &mut R, buf: &mut [u8]) -> io::Result<Option<usize>>
    ensures { read_within (length buf.old) result }
{
    match from.read(buf) {
        Ok(0) => Ok(None),
        Ok(n) => Ok(Some(n)),
        Err(e) => Ok(Some(failed(e)?)),
    }
}

// One write: how many bytes it moved. One that takes no byte is one that failed.
fn write_some<W: Write>(to: &mut W, buf: &[u8]) -> io::Result<usize>
    ensures { moved_within (length buf.now) result }
{
    match to.write(buf) {
        Ok(0) => Err(Error::new(ErrorKind::WriteZero, "no byte was taken")),
        Ok(n) => Ok(n),
        Err(e) => failed(e),
    }
}

// Reads until the input ends, the buffer is full or a read fails, and tells how many bytes of the input are in the buffer.
pub fn read_input<R: Read>(from: &mut R, buf: &mut [u8]) -> io::Result<usize>
    ensures { input_within (length buf.new) result }
{
    let mut done = 0;
    for _ in 0..MOST_CALLS {
        if done == buf.len() {
            return Ok(done);
        }
        match read_some(from, &mut buf[done..])? {
            None => return Ok(done),
            Some(n) => done += n,
        }
    }
    if done == buf.len() {
        return Ok(done);
    }
    Err(too_many())
}

// Writes all bytes, or tells why not all are written.
// Kept: std's `write_all` to standard output gives up when signals have interrupted some of its calls, and this goes on.
pub fn write_output<W: Write>(to: &mut W, bytes: &[u8]) -> io::Result<()> {
    let mut rest = bytes;
    for _ in 0..MOST_CALLS {
        if rest.is_empty() {
            return Ok(());
        }
        let n = write_some(to, rest)?;
        rest = &rest[n..];
    }
    if rest.is_empty() {
        return Ok(());
    }
    Err(too_many())
}

// Tells a failure on standard error, with the words. Where that fails too, nothing is left to be done.
pub fn tell(rt: &impl Eprint, words: &str, why: Error) {
    let _ = eprintln!(rt; "{words}: {why}");
}

// Writes the bytes to standard output, and tells whether all are written; a write that fails is told on standard error, with the words.
// Kept: not a Result, as the error is told here, and whoever calls has only to know that there was one.
pub fn print(rt: &(impl Print + Eprint), bytes: &[u8], words: &str) -> bool {
    match write_output(&mut io::writer(rt), bytes) {
        Ok(()) => true,
        Err(e) => {
            tell(rt, words, e);
            false
        }
    }
}
