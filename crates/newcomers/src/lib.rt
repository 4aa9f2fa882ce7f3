// The records that one event brings to the table of the running judge: Paper 7, "records stand in order of arrival".
#![tactic(auto)]

ghost use Rattle.std.specs.Prelude.{◌≡◌, true, ◌+◌, ◌≤◌, ◌<◌, length};
ghost use Rattle.profile.specs.Limits.{most_letters, most_states};
ghost use Rattle.profile.specs.Automata.{lent};
ghost use Rattle.profile.specs.Traces.{independent as independent_by};
ghost use Rattle.counts.specs.Counts.{words};
ghost use Rattle.records.specs.Records.{counts_at};
ghost use Rattle.arrival.specs.Arrival.{HasRoom};
ghost use Rattle.newcomers.specs.Newcomers.{Brought, Inside, Moved, PlaceFor, PlaceTold, Put, PutIf, Scanned, allows?, count_in, gives?, joining, joins_at?, led_at, led_from};

use counts::Counts;
use profile::Profile;
use profile::limits::{COUNT_NUMBERS, MOST_LETTERS};

// Letter b does not keep an event of letter a from being added: a may pass b, or the counts `own` have as many b as `last`.
fn allows(
    masks: &[u16],
    own: &[u32; COUNT_NUMBERS],
    last: &[u32; COUNT_NUMBERS],
    a: usize,
    b: usize,
) -> bool
    requires { b < most_letters }
    ensures { result ≡ allows? (independent_by masks.now) last.now a own.now b }
{
    if counts::count_of(own, b) == counts::count_of(last, b) {
        return true;
    }
    commutation::independent(masks, b, a)
}

// An event of letter a, after the events whose counts are `last`, can be added to record j: of each letter that a may not pass it has as many.
// Part of the loops that call it: a call for each record takes half as much time again.
#[inline(always)]
fn joins(t: &[u32], j: usize, profile: &Profile, a: usize, last: &[u32; COUNT_NUMBERS]) -> bool
    requires { (profile.now.shape.k ≤ most_letters) × HasRoom t.now (j + 1) }
    ensures { result ≡ joins_at? (independent_by profile.now.masks.now) profile.now.shape.k last.now a (counts_at t.now j) }
{
    let own = counts::numbers(records::counts_at(t, j));
    for b in 0..profile.shape.k {
        if !allows(profile.masks, &own, last, a, b) {
            return false;
        }
    }
    true
}

// How many of the n records an event of letter a can be added to.
pub fn number_joining(t: &[u32], n: usize, profile: &Profile, a: usize) -> usize
    requires { (profile.now.shape.k ≤ most_letters) × (1 ≤ n) × HasRoom t.now n }
    ensures value { result ≡ length (joining (independent_by profile.now.masks.now) profile.now.shape.k t.now n a) }
    ensures upper_bound { result ≤ n }
{
    let last = counts::numbers(records::counts_at(t, n - 1));
    let mut number = 0;
    for j in 0..n {
        number += usize::from(joins(t, j, profile, a, &last));
    }
    number
}

// Record j gives the counts c by one more of letter b.
fn gives(t: &[u32], j: usize, b: usize, c: Counts) -> bool
    requires { HasRoom t.now (j + 1) }
    ensures { result ≡ gives? t.now b (words c) j }
{
    counts::same_counts(counts::one_more(records::counts_at(t, j), b), c)
}

// One more than the place of a record from `from` to before i that gives c by one more of b; 0 where there is none. The search goes back from i.
// Kept: 0 for none is no plainer as an Option: a place counts the records up to it, so it begins the next search and bounds the table as it is.
fn search_back(t: &[u32], from: usize, i: usize, b: usize, c: Counts) -> usize
    requires { HasRoom t.now i }
    ensures { Scanned (gives? t.now b (words c)) from i result }
{
    for j in (from..i).rev() {
        if gives(t, j, b, c) {
            return j + 1;
        }
    }
    0
}

// The same; the search goes on from `from`.
fn search_on(t: &[u32], from: usize, i: usize, b: usize, c: Counts) -> usize
    requires { HasRoom t.now i }
    ensures { Scanned (gives? t.now b (words c)) from i result }
{
    for j in from..i {
        if gives(t, j, b, c) {
            return j + 1;
        }
    }
    0
}

// The count of letter b in counts.
fn count(c: Counts, b: usize) -> usize
    requires { b < most_letters }
    ensures { result ≡ count_in (words c) b }
{
    let row = counts::numbers(c);
    counts::count_of(&row, b)
}

// One more than the place of c with one b less among the new records before record i, where c is to stand; 0 where there is none. `before` is the
// same for record i − 1. Records with one h of events after the last b of c stand side by side, those without that b directly before those with it:
// so c begins such a run where record i − 1 has fewer b, and else continues the run of record i − 1, if that has one b less at all.
fn place_less(t: &[u32], first: usize, i: usize, b: usize, c: Counts, before: usize) -> usize
    requires { (b < most_letters) × (1 ≤ i) × HasRoom t.now i }
    ensures { PlaceTold t.now first i b (words c) before result }
{
    let own = count(c, b);
    let last = count(records::counts_at(t, i - 1), b);
    if last < own {
        return search_back(t, first, i, b, c);
    }
    if own < last {
        return 0;
    }
    if before == 0 {
        return 0;
    }
    search_on(t, before, i, b, c)
}

// A new record: it is to be record i, record r with one letter more, and the new records begin with record `first`.
#[derive(Clone, Copy)]
struct Newcomer {
    first: usize,
    i: usize,
    r: usize,
}

// One more than the place of c with one b less; 0 where there is none. For the event's letter a that is record r, to which a is added.
fn place(t: &[u32], at: Newcomer, a: usize, b: usize, c: Counts, before: usize) -> usize
    requires { (b < most_letters) × (at.r < at.i) × HasRoom t.now at.i }
    ensures { PlaceFor t.now at.first at.i at.r a b (words c) before result }
{
    if b == a {
        return at.r + 1;
    }
    if at.i == at.first {
        return 0;
    }
    place_less(t, at.first, at.i, b, c, before)
}

// The places of c, which is to be record i, with one less of each letter below k, from those of record i − 1.
fn move_places(t: &[u32], at: Newcomer, a: usize, k: usize, c: Counts, places: &mut [usize])
    requires { (k ≤ most_letters) × (most_letters ≤ length places.old) × (at.r < at.i) × HasRoom t.now at.i }
    ensures { Moved t.now at.first at.i at.r a k (words c) places.old places.new }
{
    for b in 0..k {
        let to = place(t, at, a, b, c, places[b]);
        places[b] = to;
    }
}

// The states to which letter b leads from the forward set of the record before place `at`; none where the place is 0.
fn led(t: &[u32], profile: &Profile, at: usize, b: usize) -> u32
    requires { (profile.now.shape.k ≤ most_letters) × (profile.now.shape.s ≤ most_states) × HasRoom t.now at }
    ensures { result ≡ led_at profile.now.shape.k profile.now.shape.s profile.now.moves.now t.now at b }
{
    if at == 0 {
        return 0;
    }
    let k = profile.shape.k;
    let s = profile.shape.s;
    steps::step_forward(profile.moves, k, s, records::forward_at(t, at - 1), b)
}

// The states to which the letters below k lead from the forward sets of the records at their places.
fn forward_from(t: &[u32], profile: &Profile, places: &[usize]) -> u32
    requires { (profile.now.shape.k ≤ most_letters) × (profile.now.shape.s ≤ most_states) × Inside profile.now.shape.k (length t.now) places.now }
    ensures { result ≡ led_from profile.now.shape.k profile.now.shape.s profile.now.moves.now t.now places.now }
{
    let mut out = 0u32;
    for b in 0..profile.shape.k {
        out = out | led(t, profile, places[b], b);
    }
    out
}

// Puts record i, record r with one more of letter a; its backward number stays.
fn put_newcomer(t: &mut [u32], at: Newcomer, profile: &Profile, a: usize, places: &mut [usize])
    requires { (profile.now.shape.k ≤ most_letters) × (profile.now.shape.s ≤ most_states) × (most_letters ≤ length places.old) × (at.r < at.i) × HasRoom t.old (at.i + 1) }
    ensures { Put (lent profile.now) at.first at.i at.r a t.old t.new places.old places.new }
{
    let c = counts::one_more(records::counts_at(t, at.r), a);
    move_places(t, at, a, profile.shape.k, c, places);
    let forward = forward_from(t, profile, places);
    let last = records::last_at(t, at.i);
    records::put(t, at.i, c, forward, last);
}

// Puts record r with one more of letter a as record i, if the event can be added to record r; the place behind the last record then.
fn put_if_joins(
    t: &mut [u32],
    at: Newcomer,
    profile: &Profile,
    a: usize,
    last: &[u32; COUNT_NUMBERS],
    places: &mut [usize],
) -> usize
    requires k_le_most_letters { (profile.now.shape.k ≤ most_letters) × (profile.now.shape.s ≤ most_states) × (most_letters ≤ length places.old) × (at.r < at.i) × HasRoom t.old at.i }
    requires layout_in_bounds { joins_at? (independent_by profile.now.masks.now) profile.now.shape.k last.now a (counts_at t.old at.r) ≡ true → HasRoom t.old (at.i + 1) }
    ensures { PutIf (lent profile.now) (joins_at? (independent_by profile.now.masks.now) profile.now.shape.k last.now a (counts_at t.old at.r)) at.first at.i at.r a t.old t.new places.old places.new result }
{
    if joins(t, at.r, profile, a, last) {
        put_newcomer(t, at, profile, a, places);
        return at.i + 1;
    }
    at.i
}

// Puts the records that an event of letter a brings behind the n records.
pub fn put_newcomers(t: &mut [u32], n: usize, profile: &Profile, a: usize)
    requires { (profile.now.shape.k ≤ most_letters) × (profile.now.shape.s ≤ most_states) × (1 ≤ n) × HasRoom t.old (n + length (joining (independent_by profile.now.masks.now) profile.now.shape.k t.old n a)) }
    ensures { Brought (lent profile.now) n a t.old t.new }
{
    let last = counts::numbers(records::counts_at(t, n - 1));
    let mut places = [0usize; MOST_LETTERS];
    let mut i = n;
    for r in 0..n {
        let at = Newcomer { first: n, i, r };
        i = put_if_joins(t, at, profile, a, &last, &mut places);
    }
}
