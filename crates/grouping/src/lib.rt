// The check of letter groups: refusal 18 of document 02, Paper 11.
#![tactic(auto)]

ghost use Rattle.std.specs.Prelude.{◌&&◌, ◌≡◌, get_or};
ghost use Rattle.profile.specs.Automata.{meets};
ghost use Rattle.profile.specs.Lists.{any};
ghost use Rattle.profile.specs.Refusals.{bit_from};
ghost use Rattle.profile.specs.Traces.{bit};
ghost use Rattle.ceilings.specs.Ceilings.{bad_groups, exchanges, group_bad, lacks_letter};

use ceilings::MOST_GROUPS;

// The group has a bit from k on.
fn has_from(group: u16, k: usize) -> bool
    ensures { result ≡ bit_from k group }
{
    if 16 <= k {
        return false;
    }
    0 < group >> k
}

// The letter is in the group and may be exchanged with another of it.
fn passes(masks: &[u16], group: u16, x: usize) -> bool
    ensures { result ≡ (bit group x && meets (get_or masks.now x 0) group) }
{
    if !ceilings::has(group, x) {
        return false;
    }
    if masks.len() <= x {
        return false;
    }
    masks[x] & group != 0
}

// Two letters of the group may be exchanged.
fn pair_refused(masks: &[u16], group: u16) -> bool
    ensures { result ≡ exchanges masks.now group }
{
    for letter in 0..masks.len() {
        if passes(masks, group, letter) {
            return true;
        }
    }
    false
}

// A bit from k on, or two letters that may be exchanged.
fn group_refused(k: usize, masks: &[u16], group: u16) -> bool
    ensures { result ≡ group_bad k masks.now group }
{
    if has_from(group, k) {
        return true;
    }
    pair_refused(masks, group)
}

// One of the groups is refused.
fn some_refused(k: usize, masks: &[u16], groups: &[u16]) -> bool
    ensures { result ≡ any (group_bad k masks.now) groups.now }
{
    groups.iter().any(|group| group_refused(k, masks, *group))
}

// The letter is in one of the groups.
fn held(groups: &[u16], x: usize) -> bool
    ensures { result ≡ any (λ g. bit g x) groups.now }
{
    groups.iter().any(|group| ceilings::has(*group, x))
}

// A letter below k is in no group.
fn letter_missing(k: usize, groups: &[u16]) -> bool
    ensures { result ≡ lacks_letter k groups.now }
{
    for x in 0..k {
        if !held(groups, x) {
            return true;
        }
    }
    false
}

// 18: the groups break the rules, are none or above 16, or hold a bit from k on.
pub fn groups_refused(k: usize, masks: &[u16], groups: &[u16]) -> bool
    ensures { result ≡ bad_groups k masks.now groups.now }
{
    if groups.len() < 1 {
        return true;
    }
    if MOST_GROUPS < groups.len() {
        return true;
    }
    if some_refused(k, masks, groups) {
        return true;
    }
    letter_missing(k, groups)
}
