// Terms: document 02, Paper 8. Terms are the first and the last day of each, one term after the other.
#![tactic(auto)]

ghost use Rattle.std.specs.Prelude.{◌≡◌, not, ◌++◌, map, ◌<◌, length, drop, get_or};
ghost use Rattle.profile.specs.Refusals.{refused_by, lowest};
ghost use Rattle.terms.specs.Terms.{bad_term, events as events_of, has_term?, in_term?, no_term, rise?, rises?, term_count, term_of as term_by, term_refusals};
ghost use Rattle.terms.specs.Coded.{Coding, code_of};

use profile::{Calendar, Refusal};
use terms::{MOST_TERMS, TERM_BOUND};

// What stands at place i; 0 past the end.
fn number_at(numbers: &[u32], i: usize) -> u32
    ensures { result ≡ get_or numbers.now i 0 }
{
    numbers.get(i).copied().unwrap_or(0)
}

// The first day of term i is no later than its last, which is before the first of the next term, if there is one.
fn rises(terms: &[u32], i: usize) -> bool
    requires { i < term_count terms.now }
    ensures { result ≡ rises? terms.now i }
{
    let last = number_at(terms, 2 * i + 1);
    if last < number_at(terms, 2 * i) {
        return false;
    }
    if terms.len() / 2 <= i + 1 {
        return true;
    }
    last < number_at(terms, 2 * i + 2)
}

// Every term rises.
fn rise(terms: &[u32]) -> bool
    ensures { result ≡ rise? terms.now }
{
    (0..terms.len() / 2).all(|i| rises(terms, i))
}

// The terms break the rules.
fn terms_bad(terms: &[u32]) -> bool
    ensures { result ≡ bad_term terms.now }
{
    if terms.len() % 2 != 0 {
        return true;
    }
    let n = terms.len() / 2;
    if n < 1 {
        return true;
    }
    if MOST_TERMS < n {
        return true;
    }
    if days::has_bad_day(terms) {
        return true;
    }
    !rise(terms)
}

// Day d is in term i.
fn in_term(terms: &[u32], d: u32, i: usize) -> bool
    requires { i < term_count terms.now }
    ensures { result ≡ in_term? terms.now d i }
{
    if d < number_at(terms, 2 * i) {
        return false;
    }
    d <= number_at(terms, 2 * i + 1)
}

// The term that a day is in, counted from 0; the number of terms where it is in none.
// Kept: not an Option, as the code of an event in no term has that number, and `code_events` may be called for such events.
fn term_of(terms: &[u32], d: u32) -> usize
    ensures { result ≡ term_by terms.now d }
{
    let n = terms.len() / 2;
    (0..n).position(|i| in_term(terms, d, i)).unwrap_or(n)
}

// The day is in no term.
fn is_outside(terms: &[u32], d: u32) -> bool
    ensures { result ≡ not (has_term? terms.now d) }
{
    terms.len() / 2 <= term_of(terms, d)
}

// One of the days is in no term.
fn has_day_outside(calendar: &Calendar) -> bool
    ensures { result ≡ no_term calendar.now.days.now calendar.now.terms.now }
{
    calendar
        .days
        .iter()
        .any(|day| is_outside(calendar.terms, *day))
}

// The days and terms of a log: refused by 14, 15 and 16.
pub fn check_terms(log: &[u8], calendar: &Calendar) -> Result<(), Refusal>
    ensures { refused_by result ≡ lowest (term_refusals log.now calendar.now.days.now calendar.now.terms.now) }
{
    if calendar.days.len() != log.len() {
        return Err(Refusal::BadDay);
    }
    if days::has_bad_day(calendar.days) {
        return Err(Refusal::BadDay);
    }
    if terms_bad(calendar.terms) {
        return Err(Refusal::BadTerm);
    }
    if has_day_outside(calendar) {
        return Err(Refusal::NoTerm);
    }
    Ok(())
}

// Puts the code of each event: its letter and its term in one byte.
pub fn code_events(log: &[u8], calendar: &Calendar, codes: &mut [u8])
    requires { Coding log.now calendar.now.days.now calendar.now.terms.now (length codes.old) }
    ensures { codes.new ≡ map (code_of calendar.now.terms.now) (events_of log.now calendar.now.days.now) ++ drop (length log.now) codes.old }
{
    for (i, letter) in log.iter().enumerate() {
        let t = term_of(calendar.terms, calendar.days[i]) as u8;
        codes[i] = TERM_BOUND * *letter + t;
    }
}
