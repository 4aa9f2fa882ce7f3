// The calls of a running judge as C has them: Paper 7. Each returns the refusal's number, or 0; the record, P and the number of events taken, is lent as two numbers. `capi` exports them.
#![tactic(auto)]

ghost use Rattle.std.specs.Prelude.{◌≡◌};
ghost use Rattle.profile.specs.Automata.{lent};
ghost use Rattle.calls.specs.Calls.{Asking, Starting, Stepping};

use profile::Profile;
use refusals::refuse;
use running::Running;

// A start: tells the place.
pub fn start(profile: &Profile, held: &mut [u64; 2], table: &mut [u32], told: &mut [u64; 1]) -> u32
    ensures { Starting (lent profile.now) held.old held.new table.old table.new result told.new }
{
    match running::start(profile, table) {
        Err(r) => refuse(r, told),
        Ok(begun) => {
            *held = begun.into();
            *told = [0];
            0
        }
    }
}

// An event: tells the place.
pub fn event(
    profile: &Profile,
    letter: u8,
    held: &mut [u64; 2],
    table: &mut [u32],
    told: &mut [u64; 1],
) -> u32
    ensures { Stepping (lent profile.now) letter held.old held.new table.old table.new result told.new }
{
    let stepped = taking::step(Running::from(*held), profile, letter, table);
    *held = stepped.held.into();
    match stepped.answer {
        Err(r) => refuse(r, told),
        Ok(()) => {
            *told = [0];
            0
        }
    }
}

// A question: tells the place, the verdict, P and the number of events taken.
pub fn question(profile: &Profile, held: &[u64; 2], table: &[u32], told: &mut [u64; 4]) -> u32
    ensures { Asking (lent profile.now) held.now table.now result told.new }
{
    match running::question(Running::from(*held), profile, table) {
        Err(unasked) => refuse(unasked, told),
        Ok(answer) => {
            let verdict = answer.verdict as u64;
            let prefixes = answer.prefixes as u64;
            let taken = answer.taken as u64;
            *told = [0, verdict, prefixes, taken];
            0
        }
    }
}
