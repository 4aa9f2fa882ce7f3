// Random texts that keep to the rules, and damages of them.
use trial::cells::{byte, byte_at, minus, plus, put, put_run};
use trial::random::{below, seed_of};

// Where the typing stands: a letter or a bracket must come; the brackets that are open.
#[derive(Clone, Copy)]
struct Standing {
    must: bool,
    open: usize,
}

fn stands(must: bool, open: usize) -> Standing {
    Standing {
        must: must,
        open: open,
    }
}

fn letter(seed: usize, k: usize) -> u8 {
    byte(plus(97, below(seed, 1, k)))
}

// A bracket, where fewer than five are open, or a letter.
fn bracket_or_letter(seed: usize, k: usize, open: usize) -> u8 {
    if open < 5 { b'(' } else { letter(seed, k) }
}

// The byte that comes next.
fn next_byte(seed: usize, k: usize, now: Standing) -> u8 {
    let x = below(seed, 0, 16);
    if now.must {
        return if x < 5 {
            bracket_or_letter(seed, k, now.open)
        } else {
            letter(seed, k)
        };
    }
    if x < 4 {
        return letter(seed, k);
    }
    if x < 6 {
        return bracket_or_letter(seed, k, now.open);
    }
    if x < 9 {
        return b'|';
    }
    if (x < 13) & (0 < now.open) {
        b')'
    } else {
        b'*'
    }
}

fn after(now: Standing, c: u8) -> Standing {
    match c {
        b'(' => stands(true, plus(now.open, 1)),
        b')' => stands(false, minus(now.open, 1)),
        b'|' => stands(true, now.open),
        _ => stands(false, now.open),
    }
}

// Writes n bytes, and tells where the typing stands.
fn put_bytes(seed: usize, k: usize, n: usize, text: &mut [u8]) -> Standing {
    let mut now = stands(true, 0);
    for i in 0..n {
        let c = next_byte(seed_of(seed, i), k, now);
        put(text, i, c);
        now = after(now, c);
    }
    now
}

// Writes a right text of n bytes and those that end it, and tells its length.
fn put_right(seed: usize, k: usize, n: usize, text: &mut [u8]) -> usize {
    let now = put_bytes(seed, k, n, text);
    let at = if now.must { plus(n, 1) } else { n };
    put(text, n, b'a');
    put_run(text, at, now.open, b')');
    plus(at, now.open)
}

// In one of three cases changes a byte, or takes the last one away; the new length.
fn damage(seed: usize, n: usize, text: &mut [u8]) -> usize {
    let kind = below(seed, 42, 36);
    if kind < 1 {
        return minus(n, 1);
    }
    if kind < 12 {
        put(
            text,
            below(seed, 43, n),
            byte(byte_at(b" ()*|aqp`{+", kind)),
        );
    }
    n
}

// Writes a text of up to 40 bytes, or a little more, and tells its length.
pub fn put_text(seed: usize, k: usize, text: &mut [u8]) -> usize {
    let n = put_right(seed, k, plus(4, below(seed, 41, 30)), text);
    damage(seed, n, text)
}
