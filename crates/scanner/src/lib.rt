// The pass over a text: where it breaks the rules, how deep its brackets go, its letters.
#![tactic(auto)]

ghost use Rattle.std.specs.Prelude.{◌≡◌, [], ◌∷◌, ◌+◌, ◌-◌, ◌^◌, ◌<◌, ◌≤◌, get_or, length, replicate, set};
ghost use Rattle.std.specs.Int.Bits.{bit_or};
ghost use Rattle.profile.specs.Limits.{most_letters, most_states, most_typed};
ghost use Rattle.expressions.specs.Texts.{letter?};
ghost use Rattle.expressions.specs.Passes.{letters_of, next, sign};
ghost use Rattle.scanner.specs.Scan.{placed, scanned, sets_of};

// Where the pass stands: whether a letter or a bracket must come, and how many brackets are open.
#[derive(Clone, Copy)]
struct Stand {
    want: bool,
    depth: usize,
}

// What a text that keeps the rules has: how deep its brackets go, and how many letters are typed.
#[derive(Clone, Copy)]
pub struct Scanned {
    pub deepest: usize,
    pub letters: usize,
}

// The byte types a letter below k.
pub fn is_letter(k: usize, c: u8) -> bool
    requires { k ≤ most_letters }
    ensures { result ≡ letter? k c }
{
    let n = c as usize;
    if n < 97 {
        return false;
    }
    n < 97 + k
}

// Where the pass stands after one byte more; none where the byte breaks the rules.
fn step(k: usize, c: u8, want: bool, depth: usize) -> Option<Stand>
    requires { (k ≤ most_letters) × (depth + 1 < 18446744073709551616) }
    ensures { placed result ≡ next (sign k c) want depth }
{
    if is_letter(k, c) {
        return Some(Stand {
            want: false,
            depth: depth,
        });
    }
    if c == 40 {
        return Some(Stand {
            want: true,
            depth: depth + 1,
        });
    }
    if want {
        return None;
    }
    if c == 41 {
        if depth == 0 {
            return None;
        }
        return Some(Stand {
            want: false,
            depth: depth - 1,
        });
    }
    if c == 42 {
        return Some(Stand {
            want: false,
            depth: depth,
        });
    }
    if c == 124 {
        return Some(Stand {
            want: true,
            depth: depth,
        });
    }
    None
}

// How many letters a byte types.
fn letters_in(k: usize, c: u8) -> usize
    requires { k ≤ most_letters }
    ensures { result ≡ length (letters_of k (c ∷ [])) }
{
    if is_letter(k, c) { 1 } else { 0 }
}

// The pass over a text, or the place where it breaks the rules: 11 is decided over the whole of it, before depth and letters are looked at.
pub fn scan(k: usize, text: &[u8]) -> Result<Scanned, usize>
    requires { k ≤ most_letters }
    ensures { result ≡ scanned k text.now }
{
    let mut want = true;
    let mut depth = 0;
    let mut deepest = 0;
    let mut letters = 0;
    for (i, c) in text.iter().enumerate() {
        let Some(s) = step(k, *c, want, depth) else {
            return Err(i);
        };
        deepest = deepest.max(depth);
        letters += letters_in(k, *c);
        want = s.want;
        depth = s.depth;
    }
    if want {
        return Err(text.len());
    }
    if depth != 0 {
        return Err(text.len());
    }
    Ok(Scanned {
        deepest: deepest,
        letters: letters,
    })
}

// Puts number n into the set of the letter that the byte types.
fn add_number(sets: &mut [u32], c: u8, n: usize)
    requires { (97 ≤ c) × (c - 97 < length sets.old) × (n < most_states) }
    ensures { sets.new ≡ set sets.old (c - 97) (bit_or (get_or sets.old (c - 97) 0) (2 ^ n)) }
{
    let a = (c as usize) - 97;
    sets[a] = sets[a] | (1u32 << n);
}

// For each letter the set of the numbers, from 1 on, under which it is typed; `sets` was all 0.
pub fn letter_sets(k: usize, text: &[u8], sets: &mut [u32])
    requires { (k ≤ most_letters) × (length (letters_of k text.now) ≤ most_typed) × (sets.old ≡ replicate most_letters 0) }
    ensures { sets.new ≡ sets_of k text.now }
{
    let mut n = 1usize;
    for c in text {
        if is_letter(k, *c) {
            add_number(sets, *c, n);
            n += 1;
        }
    }
}
