// An order that can be derived, written by the sets of names of all pairs of prefixes: document 02, Paper 13, "and such a log is returned".
#![tactic(auto)]

ghost use Rattle.std.specs.Prelude.{◌≤◌, ◌<◌, length};
ghost use Rattle.pairs.specs.Pairs.{AllKnown, Between};
ghost use Rattle.derivation.specs.Deriving.{Written};

use pairs::nested::Nested;
use parts::{Step, next_step};

// Writes an order of the events between the prefixes of the records i and j that can be derived from the name, at their places. It calls itself for the
// smaller of two parts and goes on with the larger, so at most 12 calls are open.
pub fn put_part(nested: &Nested, sets: &[u16], name: usize, i: usize, j: usize, order: &mut [u8])
    requires known { AllKnown nested.now sets.now }
    requires i_lt_j { (i < j) × (j < nested.now.records) × (length nested.now.log.now ≤ length order.old) × Between nested.now i j name }
    ensures { Written nested.now i j name order.old order.new }
{
    let mut n = name;
    let mut from = i;
    let mut to = j;
    loop {
        let step = next_step(nested, sets, n, from, to);
        match step {
            Step::Leaf(at, a) => {
                order[at] = a;
                return;
            }
            Step::Parts(parts, left) => {
                let middle = parts.at;
                if left {
                    put_part(nested, sets, parts.first, from, middle, order);
                    n = parts.second;
                    from = middle;
                } else {
                    put_part(nested, sets, parts.second, middle, to, order);
                    n = parts.first;
                    to = middle;
                }
            }
        }
    }
}
