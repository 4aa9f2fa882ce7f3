// The running judge's event on a record that is lent: Paper 7, "its record belongs to the caller and each event updates it there".
#![tactic(auto)]

ghost use Rattle.std.specs.Prelude.{◌≡◌};
ghost use Rattle.profile.specs.Automata.{lent};
ghost use Rattle.running.specs.Running.{StepPromise};

use profile::{Profile, Refusal};
use running::Running;

// An event: the record is updated where it stands. Refused by 2, 4, 6, 7, 8 and 10, and then neither the record nor the table is changed.
pub fn event(
    r: &mut Running,
    profile: &Profile,
    letter: u8,
    table: &mut [u32],
) -> Result<(), Refusal>
    ensures { StepPromise (lent profile.now) letter r.old r.new table.old table.new result }
{
    let held = *r;
    let after = taking::step(held, profile, letter, table);
    *r = after.held;
    after.answer
}
