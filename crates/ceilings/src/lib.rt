// How large a table to buy: document 02, Paper 11. Its limits, and the test of a group's letter.
#![tactic(auto)]

ghost use Rattle.std.specs.Prelude.{◌≡◌, [], ◌∷◌};
ghost use Rattle.profile.specs.Traces.{bit};
ghost use Rattle.ceilings.specs.Ceilings.{highest_ceiling, most_groups};

// The groups of a call, so many at most.
pub const MOST_GROUPS: usize = 16;

// The largest ceiling that is told.
pub const HIGHEST_CEILING: u64 = 4294967295;

// These limits are those of the definitions.
pub fn ceiling_limits() -> [u64; 2]
    ensures { result ≡ most_groups ∷ highest_ceiling ∷ [] }
{
    [MOST_GROUPS as u64, HIGHEST_CEILING]
}

// The letter is in the group.
pub fn has(group: u16, x: usize) -> bool
    ensures { result ≡ bit group x }
{
    if 16 <= x {
        return false;
    }
    (group >> x) & 1 == 1
}
