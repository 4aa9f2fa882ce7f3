// What the program prints for an input: document 01, "Program".
#![tactic(auto)]

ghost use Rattle.std.specs.Prelude.{◌≡◌, ◌+◌, ◌*◌, ◌≤◌, length};
ghost use Rattle.profile.specs.Limits.{program_text};
ghost use Rattle.profile.specs.Lists.{flat_map};
ghost use Rattle.profile.specs.Automata.{lent};
ghost use Rattle.putting.specs.Putting.{Put};
ghost use Rattle.report.specs.Report.{Responds, decimal, file_table, file_text, judged_table, judged_text, number_line, order_line, refusal_line, spaced, verdict_lines};

use profile::limits::{LONGEST, LONGEST_INPUT, MOST_LETTERS, MOST_MOVES, PROGRAM_TEXT};
use profile::{Profile, Refusal};
use putting::put_bytes;
use verdict::Judged;

// Puts n, decimal, and tells the place behind it.
fn put_decimal(out: &mut [u8], at: usize, n: u64) -> usize
    requires { at + length (decimal n) ≤ length out.old }
    ensures { Put out.old at (decimal n) out.new result }
{
    let mut text = [0u8; 20];
    let k = io::decimal(n, &mut text);
    put_bytes(out, at, &text[0..k])
}

// Puts a space and n, and tells the place behind them.
fn put_spaced(out: &mut [u8], at: usize, n: u64) -> usize
    requires { at + length (spaced n) ≤ length out.old }
    ensures { Put out.old at (spaced n) out.new result }
{
    let digits = put_bytes(out, at, b" ");
    put_decimal(out, digits, n)
}

// Puts a word, n and a line end, and tells the place behind them.
fn put_line(out: &mut [u8], at: usize, word: &[u8], n: u64) -> usize
    requires { at + length (number_line word.now n) ≤ length out.old }
    ensures { Put out.old at (number_line word.now n) out.new result }
{
    let digits = put_bytes(out, at, word);
    let end = put_decimal(out, digits, n);
    put_bytes(out, end, b"\n")
}

// Puts each letter behind a space, and tells the place behind them.
fn put_letters(out: &mut [u8], at: usize, letters: &[u8]) -> usize
    requires { at + 4 * length letters.now ≤ length out.old }
    ensures put { Put out.old at (flat_map spaced letters.now) out.new result }
    ensures upper_bound { result ≤ at + 4 * length letters.now }
{
    let mut to = at;
    for letter in letters {
        to = put_spaced(out, to, *letter as u64);
    }
    to
}

// Puts the line of an order, and tells the place behind it.
fn put_order(out: &mut [u8], at: usize, order: &[u8]) -> usize
    requires { at + (6 + 4 * length order.now) ≤ length out.old }
    ensures { Put out.old at (order_line order.now) out.new result }
{
    let letters = put_bytes(out, at, b"order");
    let end = put_letters(out, letters, order);
    put_bytes(out, end, b"\n")
}

// Puts the line of a refusal, and tells its length.
fn put_refused(out: &mut [u8], refusal: Refusal) -> usize
    requires { 64 ≤ length out.old }
    ensures { Put out.old 0 (refusal_line refusal) out.new result }
{
    let number = refusals::number(refusal) as u64;
    put_line(out, 0, b"refused ", number)
}

// Puts the lines of a verdict and P, and tells their length.
fn put_verdict(out: &mut [u8], verdict: u64, prefixes: u64) -> usize
    requires { 64 ≤ length out.old }
    ensures put { Put out.old 0 (verdict_lines verdict prefixes) out.new result }
    ensures upper_bound { result ≤ 64 }
{
    let end = put_line(out, 0, b"verdict ", verdict);
    put_line(out, end, b"prefixes ", prefixes)
}

// Puts what is printed for a profile and a log, and tells its length.
fn put_judged(profile: &Profile, log: &[u8], out: &mut [u8], work: &mut [u32]) -> usize
    requires { program_text ≤ length out.old }
    ensures put { Put out.old 0 (judged_text (lent profile.now) log.now (length work.old)) out.new result }
    ensures judged_table { judged_table (lent profile.now) log.now work.old work.new }
{
    let mut order = [0u8; LONGEST];
    match verdict::judge(profile, log, &mut order, work) {
        Err(r) => put_refused(out, r),
        Ok(Judged::NoOrder { prefixes, looks: _ }) => put_verdict(out, 0, prefixes as u64),
        Ok(Judged::Order { prefixes, looks: _ }) => {
            let end = put_verdict(out, 1, prefixes as u64);
            let n = log.len();
            put_order(out, end, &order[0..n])
        }
    }
}

// Puts what is printed for a file, and tells its length.
fn put_file(file: &[u8], out: &mut [u8], work: &mut [u32]) -> usize
    requires { program_text ≤ length out.old }
    ensures put { Put out.old 0 (file_text file.now (length work.old)) out.new result }
    ensures file_table { file_table file.now work.old work.new }
{
    let mut masks = [0u16; MOST_LETTERS];
    let mut moves = [0u32; MOST_MOVES];
    match logfile::read_file(file, &mut masks, &mut moves) {
        Err(r) => put_refused(out, r),
        Ok((shape, _)) => {
            let k = shape.k;
            let s = shape.s;
            let count = s * k;
            let log = logfile::log_part(file);
            put_judged(
                &Profile {
                    shape,
                    masks: &masks[0..k],
                    moves: &moves[0..count],
                },
                log,
                out,
                work,
            )
        }
    }
}

// Puts what the program prints for its input, with the table that is lent, and tells its length; the other bytes of `out` stay. With fewer bytes than
// the longest text may need nothing is put. The table is as before where the input is too long or a refusal before 10 is printed, free after 10, and
// holds the prefixes after a verdict.
pub fn respond(input: &[u8], out: &mut [u8], work: &mut [u32]) -> usize
    ensures { Responds input.now out.old out.new work.old work.new result }
{
    if out.len() < PROGRAM_TEXT {
        return 0;
    }
    if LONGEST_INPUT < input.len() {
        return put_bytes(out, 0, b"too long\n");
    }
    put_file(input, out, work)
}
