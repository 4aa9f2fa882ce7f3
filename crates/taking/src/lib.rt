// Events of the running judge: Paper 7, "its record belongs to the caller and each event updates it there".
#![tactic(auto)]

ghost use Rattle.std.specs.Prelude.{◌≡◌, Err, [], ◌∷◌, ◌++◌, ◌≤◌, ◌<◌, leb, ltb};
ghost use Rattle.profile.specs.Limits.{most_letters, most_states};
ghost use Rattle.profile.specs.Automata.{lent};
ghost use Rattle.profile.specs.Refusals.{refused_by, longest, lowest, profile_refusals};
ghost use Rattle.profile.specs.declared.Refusal.TheVariants.{BadLetter, FullTable, LongLog};
ghost use Rattle.arrival.specs.Arrival.{HasRoom};
ghost use Rattle.running.specs.Running.{StepPromise};
ghost use Rattle.taking.specs.Taking.{Took};

use profile::limits::LONGEST;
use profile::{Profile, Refusal};
use running::{Running, Stepped};

// The lowest refusal of an event by its letter and the record alone: 2, 4, 6, 7, 8, or 10 where P records do not fit.
fn check_event(profile: &Profile, letter: u8, held: Running, room: usize) -> Result<(), Refusal>
    ensures { refused_by result ≡ lowest (profile_refusals (lent profile.now) ++ ((leb longest held.taken, LongLog) ∷ (leb profile.now.shape.k letter, BadLetter held.taken) ∷ (ltb room held.prefixes, FullTable) ∷ [])) }
{
    let taken = held.taken;
    let prefixes = held.prefixes;
    let k = profile.shape.k;
    checks::check_profile(profile)?;
    if LONGEST <= taken {
        return Err(Refusal::LongLog);
    }
    if k <= letter as usize {
        return Err(Refusal::BadLetter(taken));
    }
    if room < prefixes {
        return Err(Refusal::FullTable);
    }
    Ok(())
}

// An event refused: the record stays.
fn refuse(held: Running, refusal: Refusal) -> Stepped
    ensures held_value { result.held ≡ held }
    ensures answer_value { result.answer ≡ Err refusal }
{
    Stepped {
        held,
        answer: Err(refusal),
    }
}

// Takes an event that nothing but 10 refuses: the new records are counted, and put where they fit.
fn take(held: Running, profile: &Profile, a: usize, table: &mut [u32], room: usize) -> Stepped
    requires { (profile.now.shape.k ≤ most_letters) × (profile.now.shape.s ≤ most_states) × (held.taken < longest) × (held.prefixes ≤ room) × HasRoom table.old room }
    ensures { Took (lent profile.now) a held result.held room table.old table.new result.answer }
{
    let n = held.prefixes;
    let taken = held.taken;
    if n == 0 {
        return refuse(held, Refusal::FullTable);
    }
    let new = newcomers::number_joining(table, n, profile, a);
    if room - n < new {
        return refuse(held, Refusal::FullTable);
    }
    newcomers::put_newcomers(table, n, profile, a);
    Stepped {
        held: Running {
            prefixes: n + new,
            taken: taken + 1,
        },
        answer: Ok(()),
    }
}

// An event, with the record by value; refused by 2, 4, 6, 7, 8 and 10, and then nothing is changed.
pub fn step(held: Running, profile: &Profile, letter: u8, table: &mut [u32]) -> Stepped
    ensures { StepPromise (lent profile.now) letter held result.held table.old table.new result.answer }
{
    let room = records::capacity(table);
    // Kept: no `?` here, since a refused event gives back its record too.
    if let Err(r) = check_event(profile, letter, held, room) {
        return refuse(held, r);
    }
    take(held, profile, letter as usize, table, room)
}
