// The running judge: Paper 7, "Verdict while the class is lending".
#![tactic(auto)]

ghost use Rattle.std.specs.Prelude.{◌≡◌, [], ◌∷◌, ◌++◌, ◌-◌, ◌^◌, ◌<◌, ltb};
ghost use Rattle.profile.specs.Limits.{most_states};
ghost use Rattle.profile.specs.Automata.{lent, meets};
ghost use Rattle.profile.specs.Tables.{layout, packed};
ghost use Rattle.profile.specs.Refusals.{refused_by, lowest, profile_refusals};
ghost use Rattle.profile.specs.declared.Refusal.TheVariants.{FullTable};
ghost use Rattle.records.specs.Records.{forward_at, last_at, put_record};
ghost use Rattle.arrival.specs.Arrival.{HasRoom};
ghost use Rattle.running.specs.Running.{QuestionPromise, StartPromise};

use profile::{Profile, Refusal};

// The record of a running judge: P, and the number of events taken.
#[derive(Clone, Copy)]
pub struct Running {
    pub prefixes: usize,
    pub taken: usize,
}

// The record as C lends it: P, and the number of events taken.
impl From<[u64; 2]> for Running {
    ghost use Rattle.running.specs.Running.{held_of};

    ghost from_gives = { λ numbers held. held ≡ held_of numbers };

    fn from(numbers: [u64; 2]) -> Running {
        Running {
            prefixes: numbers[0] as usize,
            taken: numbers[1] as usize,
        }
    }
}

impl From<Running> for [u64; 2] {
    ghost use Rattle.running.specs.Running.{held_numbers};

    ghost from_gives = { λ held numbers. numbers ≡ held_numbers held };

    fn from(held: Running) -> [u64; 2] {
        [held.prefixes as u64, held.taken as u64]
    }
}

// What an event with the record by value gives back: the record after it, as it was where the event is refused, and the answer.
#[derive(Clone, Copy)]
pub struct Stepped {
    pub held: Running,
    pub answer: Result<(), Refusal>,
}

// What a question is told: verdict, P and the number of events taken.
#[derive(Clone, Copy)]
pub struct Told {
    pub verdict: bool,
    pub prefixes: usize,
    pub taken: usize,
}

// The lowest refusal of a start or a question: 2, 4, 6, or 10 where `prefixes` records do not fit.
fn check_question(profile: &Profile, prefixes: usize, room: usize) -> Result<(), Refusal>
    ensures { refused_by result ≡ lowest (profile_refusals (lent profile.now) ++ ((ltb room prefixes, FullTable) ∷ [])) }
{
    checks::check_profile(profile)?;
    if room < prefixes {
        return Err(Refusal::FullTable);
    }
    Ok(())
}

// Puts the record of the empty prefix, with the start state, as the first; its backward number stays.
fn put_empty(table: &mut [u32], start: usize)
    requires { (start < most_states) × HasRoom table.old 1 }
    ensures { table.new ≡ put_record table.old 0 (packed layout [] ++ (2 ^ start ∷ last_at table.old 0 ∷ [])) }
{
    let last = records::last_at(table, 0);
    let c = counts::none_counted();
    records::put(table, 0, c, 1u32 << start, last);
}

// Starts a running judge: the record of the empty prefix is put; refused by 2, 4, 6 and 10.
pub fn start(profile: &Profile, table: &mut [u32]) -> Result<Running, Refusal>
    ensures { StartPromise (lent profile.now) table.old table.new result }
{
    let room = records::capacity(table);
    check_question(profile, 1, room)?;
    put_empty(table, profile.shape.start);
    Ok(Running {
        prefixes: 1,
        taken: 0,
    })
}

// The verdict by the record of all events taken, the last of n: its forward set has a final state.
fn verdict_at(table: &[u32], n: usize, finals: u32) -> bool
    requires { HasRoom table.now n }
    ensures { 0 < n → result ≡ meets (forward_at table.now (n - 1)) finals }
{
    if n == 0 {
        return false;
    }
    steps::meet(records::forward_at(table, n - 1), finals)
}

// Verdict, P and the number of events taken; refused by 2, 4, 6 and 10.
pub fn question(held: Running, profile: &Profile, table: &[u32]) -> Result<Told, Refusal>
    ensures { QuestionPromise (lent profile.now) held table.now result }
{
    let prefixes = held.prefixes;
    let taken = held.taken;
    check_question(profile, prefixes, records::capacity(table))?;
    let verdict = verdict_at(table, prefixes, profile.shape.finals);
    Ok(Told {
        verdict,
        prefixes,
        taken,
    })
}
