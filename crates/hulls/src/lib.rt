// Hidden letters behind the last letter of each forward set, record by record.
#![tactic(auto)]

ghost use Rattle.std.specs.Prelude.{◌≡◌, ◌*◌, ◌≤◌, length};
ghost use Rattle.profile.specs.Limits.{most_states};
ghost use Rattle.profile.specs.Tables.{layout, record_length};
ghost use Rattle.hulls.specs.Hulls.{hulled};

use profile::limits::{COUNT_NUMBERS, RECORD_NUMBERS};

// Replaces the forward sets of the first records by what hidden letters reach from them.
pub fn put_hulls(table: &mut [u32], records: usize, s: usize, reach: &[u32])
    requires { (record_length layout * records ≤ length table.old) × (s ≤ most_states) }
    ensures { table.new ≡ hulled s reach.now records table.old }
{
    for j in 0..records {
        let at = RECORD_NUMBERS * j + COUNT_NUMBERS;
        let to = steps::step_forward(reach, 1, s, table[at], 0);
        table[at] = to;
    }
}
