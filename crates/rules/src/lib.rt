// The rules of a grammar as numbers, and their check: document 02, Paper 13.
#![tactic(auto)]

ghost use Rattle.std.specs.Prelude.{◌≡◌};
ghost use Rattle.std.specs.List.{list_any};
ghost use Rattle.grammars.specs.Grammars.{bad_rules as rules_bad, first_of, kind_of, letter_of, name_of, rule_out_of_range, second_of};
ghost use Rattle.rules.specs.Rules.{RuleIs};

// The names and the rules of a grammar: so many at most.
pub const MOST_NAMES: usize = 16;

pub const MOST_RULES: usize = 64;

// A grammar as a call is lent it: its names and rules, and the letters that it derives, with their masks.
#[derive(Clone, Copy)]
pub struct Grammar<'a> {
    pub k: usize,
    pub masks: &'a [u16],
    pub names: usize,
    pub rules: &'a [u16],
}

// What a rule gives its name: one letter, or two names; or it is of neither kind.
#[derive(Clone, Copy)]
pub enum Rule {
    Letter(usize),
    Names(usize, usize),
    Neither,
}

// The digits of a rule, which C hands as a number of 16 bits.
pub fn kind(x: u16) -> usize
    ensures { result ≡ kind_of x }
{
    (x / 4096) as usize
}

pub fn name(x: u16) -> usize
    ensures { result ≡ name_of x }
{
    (x / 256 % 16) as usize
}

pub fn first(x: u16) -> usize
    ensures { result ≡ first_of x }
{
    (x / 16 % 16) as usize
}

pub fn second(x: u16) -> usize
    ensures { result ≡ second_of x }
{
    (x % 16) as usize
}

pub fn letter(x: u16) -> usize
    ensures { result ≡ letter_of x }
{
    (x % 256) as usize
}

// What a rule gives, by its digits.
pub fn read(x: u16) -> Rule
    ensures { RuleIs x result }
{
    match kind(x) {
        0 => Rule::Letter(letter(x)),
        1 => Rule::Names(first(x), second(x)),
        _ => Rule::Neither,
    }
}

// A rule uses a name or a letter out of range, or is of neither kind.
fn bad_rule(k: usize, names: usize, x: u16) -> bool
    ensures { result ≡ rule_out_of_range k names x }
{
    let n = name(x);
    let rule = read(x);
    match rule {
        Rule::Letter(a) => (names <= n) | (k <= a),
        Rule::Names(l, r) => (names <= n) | ((names <= l) | (names <= r)),
        Rule::Neither => true,
    }
}

// Some rule is bad.
fn some_bad(k: usize, names: usize, rules: &[u16]) -> bool
    ensures { result ≡ list_any (rule_out_of_range k names) rules.now }
{
    rules.iter().any(|x| bad_rule(k, names, *x))
}

// The grammar is refused by 21.
pub fn bad_rules(k: usize, names: usize, rules: &[u16]) -> bool
    ensures { result ≡ rules_bad k names rules.now }
{
    if names < 1 {
        return true;
    }
    if MOST_NAMES < names {
        return true;
    }
    if MOST_RULES < rules.len() {
        return true;
    }
    some_bad(k, names, rules)
}
