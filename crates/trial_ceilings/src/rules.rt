// The rules of the groups and the ceiling, in the paper's words.
use trial::cells::{bit, plus, times, wide};
use trial_logs::listing::commute;

// Letter x is in the group.
fn in_group(group: u16, x: usize) -> bool {
    bit(wide(group), x)
}

// "hold a bit from k on"
fn bit_from(k: usize, group: u16) -> bool {
    (k..16).any(|x| in_group(group, x))
}

// A letter of the group that may be exchanged with x, which is in it too, in either direction.
fn exchanged_with(masks: &[u16], group: u16, x: usize) -> bool {
    (0..16).any(|y| in_group(group, y) & (commute(masks, x, y) | commute(masks, y, x)))
}

// "no two letters of one group may be exchanged in either direction"
fn exchanged(masks: &[u16], group: u16) -> bool {
    (0..16).any(|x| in_group(group, x) & exchanged_with(masks, group, x))
}

// Some group breaks a rule of its own.
fn some_wrong(k: usize, masks: &[u16], groups: &[u16]) -> bool {
    groups
        .iter()
        .any(|group| bit_from(k, *group) | exchanged(masks, *group))
}

fn in_some(groups: &[u16], x: usize) -> bool {
    groups.iter().any(|group| in_group(*group, x))
}

// "together they hold every letter"
fn hold_every(k: usize, groups: &[u16]) -> bool {
    (0..k).all(|x| in_some(groups, x))
}

// 18: "when the groups break these rules, are none or above 16, or hold a bit from k on"
pub fn wrong_groups(k: usize, masks: &[u16], groups: &[u16]) -> bool {
    (groups.len() == 0)
        | (16 < groups.len())
        | some_wrong(k, masks, groups)
        | !hold_every(k, groups)
}

// "the number of events in that group"
fn events_of(log: &[u8], group: u16) -> usize {
    log.iter()
        .filter(|letter| in_group(group, wide(**letter)))
        .count()
}

// "the product, over the groups, of one plus the number of events in that group"; here far below 64 bits.
pub fn product_of(log: &[u8], groups: &[u16]) -> usize {
    groups.iter().fold(1, |product, group| {
        times(plus(1, events_of(log, *group)), product)
    })
}
