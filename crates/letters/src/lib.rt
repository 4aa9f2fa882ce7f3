// The letters that can be added to a prefix, given by its packed counts.
#![tactic(auto)]

ghost use Rattle.std.specs.Prelude.{◌≡◌, Bool, false, List, ℕ, ◌++◌, ◌≤◌, ◌<◌, ◌^◌, length, drop};
ghost use Rattle.profile.specs.Limits.{most_letters};
ghost use Rattle.profile.specs.Automata.{union};
ghost use Rattle.profile.specs.Traces.{independent};
ghost use Rattle.counts.specs.Counts.{words};
ghost use Rattle.letters.specs.Letters.{Hands, letter_by, letters_by, neither, next_by, place_by, tested_by};

use counts::{Counts, NUMBERS};
use events::Keepers;
use profile::Places;
use profile::limits::{MOST_LETTERS, Place};

// So many letters are tested each by itself; for more the places of all letters are put in a row first.
const FEW: u32 = 3;

// The set of the letters that can be added, and how many they are.
#[derive(Clone, Copy)]
pub struct Letters {
    pub set: u32,
    pub number: u32,
}

// What finds the letters that can be added to a prefix of a log: by the places of its events alone, or in terms too.
pub trait Finder {
    // whether the log has terms
    ghost termed: { Bool };

    // the letters that can be added to a prefix with these numbers of counts
    ghost found: { Self → List ℕ → List ℕ };

    // Their set, and how many they are.
    fn addable(&self, c: Counts) -> Letters
        ensures { (result.set ≡ union (λ x. 2 ^ x) (found self.now (words c))) × (result.number ≡ length (found self.now (words c))) };

    // Their set again, where prefixes with one letter less tell of some letters that they can be added, and of others that they can if they are among those.
    fn addable_with(&self, c: Counts, handed: u32, passed: u32) -> u32
        requires { Hands termed (found self.now (words c)) handed passed }
        ensures { result ≡ union (λ x. 2 ^ x) (found self.now (words c)) };
}

// A finder by the places of the events of a log of n events.
#[derive(Clone, Copy)]
pub struct ByPlaces<'a> {
    pub keepers: &'a Keepers<'a>,
    pub n: usize,
    pub placed: &'a Places<'a>,
}

// Puts the place of the next event of each letter below k.
pub fn next_places(c: Counts, k: usize, placed: &Places, next: &mut [Place])
    requires { (k ≤ most_letters) × (k ≤ length next.old) }
    ensures { next.new ≡ next_by k placed.now.starts.now placed.now.places.now (words c) ++ drop k next.old }
{
    let t = counts::numbers(c);
    for y in 0..k {
        let n = counts::count_of(&t, y) as Place;
        next[y] = places::next_place(placed, y, n);
    }
}

// The place of the next event of letter x, by the numbers of counts t.
fn place_of(t: &[u32; NUMBERS], placed: &Places, x: usize) -> Place
    requires { x < most_letters }
    ensures { result ≡ place_by placed.now.starts.now placed.now.places.now t.now x }
{
    let n = counts::count_of(t, x) as Place;
    places::next_place(placed, x, n)
}

// The set of letter x alone where it can be added to the counts with the numbers t, else no letter. Each turn takes the lowest of the letters that keep it
// out of the set that is left.
fn tested_letter(by: &ByPlaces, t: &[u32; NUMBERS], x: usize) -> u32
    requires { x < by.now.keepers.now.k }
    ensures { result ≡ letter_by (independent by.now.keepers.now.masks.now) by.now.keepers.now.k by.now.n by.now.placed.now.starts.now by.now.placed.now.places.now t.now x }
{
    let own = place_of(t, by.placed, x);
    if by.n <= own as usize {
        return 0;
    }
    let mut rest = by.keepers.sets[x];
    while rest != 0 {
        let y = u32::trailing_zeros(rest) as usize;
        if place_of(t, by.placed, y) <= own {
            return 0;
        }
        rest = rest & (rest - 1);
    }
    1u32 << x
}

// Of a set of letters, those that can be added to the counts c, each by itself. Each turn takes the lowest letter out of those that are left.
fn tested_few(by: &ByPlaces, c: Counts, set: u32) -> u32
    ensures { result ≡ tested_by (independent by.now.keepers.now.masks.now) by.now.keepers.now.k by.now.n by.now.placed.now.starts.now by.now.placed.now.places.now (words c) set }
{
    let t = counts::numbers(c);
    let mut out = 0u32;
    let mut rest = set;
    while rest != 0 {
        let x = u32::trailing_zeros(rest) as usize;
        if x < by.keepers.k {
            out = out | tested_letter(by, &t, x);
        }
        rest = rest & (rest - 1);
    }
    out
}

// Of a set of letters, those that can be added to the counts c. For many letters the places of all are put in a row first.
pub fn tested(by: &ByPlaces, c: Counts, set: u32) -> u32
    ensures { result ≡ tested_by (independent by.now.keepers.now.masks.now) by.now.keepers.now.k by.now.n by.now.placed.now.starts.now by.now.placed.now.places.now (words c) set }
{
    if u32::count_ones(set) <= FEW {
        return tested_few(by, c, set);
    }
    let found = by.addable(c);
    found.set & set
}

// The letters below k that are in neither set.
pub fn in_neither(k: usize, a: u32, b: u32) -> u32
    requires { k ≤ most_letters }
    ensures { result ≡ neither k a b }
{
    ((1u32 << k) - 1) & !(a | b)
}

impl Finder for ByPlaces<'_> {
    ghost termed = { false };

    ghost found = { λ by. letters_by (independent by.keepers.now.masks.now) by.keepers.now.k by.n by.placed.now.starts.now by.placed.now.places.now };

    fn addable(&self, c: Counts) -> Letters {
        let keepers = self.keepers;
        // k itself. `min` shows the compiler, which reads no contract, that it is at most 16: no place is then tested again in the loops over the letters.
        let end = keepers.k.min(MOST_LETTERS);
        let mut next: [Place; MOST_LETTERS] = [0; MOST_LETTERS];
        next_places(c, end, self.placed, &mut next);
        let mut set = 0u32;
        let mut number = 0u32;
        for x in 0..end {
            if events::comes_next(keepers, self.n, &next, x) {
                set = set | (1u32 << x);
                number += 1;
            }
        }
        Letters { set, number }
    }

    // What is handed on can be added. What is passed and not handed on cannot. The others are tested.
    fn addable_with(&self, c: Counts, handed: u32, passed: u32) -> u32 {
        let open = in_neither(self.keepers.k, handed, passed);
        handed | tested(self, c, open)
    }
}
