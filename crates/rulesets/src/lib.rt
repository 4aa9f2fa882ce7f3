// Sets of names by the rules of a grammar: document 02, Paper 13.
#![tactic(auto)]

ghost use Rattle.std.specs.Prelude.{◌≡◌, cond, ◌^◌, ◌≤◌, ◌<◌, length, position};
ghost use Rattle.profile.specs.Traces.{bit};
ghost use Rattle.grammars.specs.Grammars.{most_names, name_of};
ghost use Rattle.grammars.specs.Sets.{lettered as letter_set, lettered_by};
ghost use Rattle.rulesets.specs.Rulesets.{Spread, closed as closed_set, closed_by, fits?};

use rules::{Rule, name, read};

// The set of the rule's name, if the test holds.
fn when(test: bool, x: u16) -> u16
    ensures { result ≡ cond test (2 ^ name_of x) 0 }
{
    let n = name(x);
    if test { 1u16 << n } else { 0 }
}

// The set of the rule's name, if it gives the letter a.
fn by_letter(a: usize, x: u16) -> u16
    ensures { result ≡ lettered_by a x }
{
    let rule = read(x);
    match rule {
        Rule::Letter(b) => when(b == a, x),
        Rule::Names(_, _) => 0,
        Rule::Neither => 0,
    }
}

// Name n is in the set.
pub fn has(set: u16, n: usize) -> bool
    requires { n < most_names }
    ensures { result ≡ bit set n }
{
    (set >> n) & 1 == 1
}

// The set of the rule's name, if it gives two names, the second in the set of the first.
fn by_names(acc: &[u16], x: u16) -> u16
    requires { most_names ≤ length acc.now }
    ensures { result ≡ closed_by acc.now x }
{
    let rule = read(x);
    match rule {
        Rule::Letter(_) => 0,
        Rule::Names(l, r) => when(has(acc[l], r), x),
        Rule::Neither => 0,
    }
}

// The rule gives the name n two names, the first of x and the second of y.
fn fits(n: usize, x: u16, y: u16, z: u16) -> bool
    ensures { result ≡ fits? n x y z }
{
    let rule = read(z);
    match rule {
        Rule::Letter(_) => false,
        Rule::Names(l, r) => (name(z) == n) & (has(x, l) & has(y, r)),
        Rule::Neither => false,
    }
}

// The names to which a rule gives the letter a.
pub fn lettered(rules: &[u16], a: usize) -> u16
    ensures { result ≡ letter_set rules.now a }
{
    rules.iter().fold(0, |out, x| out | by_letter(a, *x))
}

// Adds the set y to those of each name in the set x: each turn takes the lowest name out of those that are left.
pub fn spread(x: u16, y: u16, acc: &mut [u16])
    requires { most_names ≤ length acc.old }
    ensures { Spread x y acc.old acc.new }
{
    let mut rest = x as u32;
    while rest != 0 {
        let l = u32::trailing_zeros(rest) as usize;
        acc[l] = acc[l] | y;
        rest = rest & (rest - 1);
    }
}

// The names to which a rule gives two names, the second in the set of the first.
pub fn closed(rules: &[u16], acc: &[u16]) -> u16
    requires { most_names ≤ length acc.now }
    ensures { result ≡ closed_set rules.now acc.now }
{
    rules.iter().fold(0, |out, x| out | by_names(acc, *x))
}

// The place of the first rule that gives the name n two names, the first of x and the second of y.
pub fn fitting(rules: &[u16], n: usize, x: u16, y: u16) -> Option<usize>
    ensures { result ≡ position (fits? n x y) rules.now }
{
    rules.iter().position(|z| fits(n, x, y, *z))
}
