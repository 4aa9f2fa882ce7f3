// The table of prefixes: document 01, "Prefixes and their table".
#![tactic(auto)]

ghost use Rattle.std.specs.Prelude.{false, length};
ghost use Rattle.profile.specs.Automata.{lent};
ghost use Rattle.terms.specs.Coded.{rules_of};
ghost use Rattle.table.specs.Table.{Fills, Promise, Sound};
ghost use Rattle.forward.specs.Forward.{Finds};

use events::Keepers;
use letters::{ByPlaces, Finder};
use profile::limits::{MOST_LETTERS, MOST_PLACES, Place, RECORD_NUMBERS};
use profile::{Places, Profile, Refusal};

// A table that is filled: P and looks.
#[derive(Clone, Copy)]
pub struct Filled {
    pub prefixes: usize,
    pub looks: u64,
}

// Fills the table, where `room` records fit, of events that are letters or, with terms, codes: by what finds the letters that can be added.
pub fn fill<F: Finder>(
    table: &mut [u32],
    room: usize,
    profile: &Profile,
    log: &[u8],
    finder: &F,
) -> Result<Filled, Refusal>
    requires sound { Sound (rules_of (lent profile.now) F.termed) log.now (length table.old) room }
    requires finds { Finds (rules_of (lent profile.now) F.termed) log.now (F.found finder.now) }
    ensures { Fills (rules_of (lent profile.now) F.termed) log.now table.old table.new result }
{
    let used = RECORD_NUMBERS * room;
    let pass = forward::fill_forward(&mut table[0..used], room, profile, log, finder).ok_or(
        Refusal::FullTable,
    )?;
    backward::fill_backward(table, pass.records, profile, log);
    Ok(Filled {
        prefixes: pass.records,
        looks: pass.looks,
    })
}

// Fills the table for a log without terms.
fn fill_plain(
    table: &mut [u32],
    room: usize,
    profile: &Profile,
    log: &[u8],
) -> Result<Filled, Refusal>
    requires { Sound (rules_of (lent profile.now) false) log.now (length table.old) room }
    ensures { Fills (rules_of (lent profile.now) false) log.now table.old table.new result }
{
    let k = profile.shape.k;
    let mut starts: [Place; MOST_LETTERS] = [0; MOST_LETTERS];
    let mut places: [Place; MOST_PLACES] = [0; MOST_PLACES];
    places::place_events(log, k, &mut starts, &mut places);
    let finder = ByPlaces {
        keepers: &Keepers::of(profile.masks, k),
        n: log.len(),
        placed: &Places {
            starts: &starts,
            places: &places,
        },
    };
    fill(table, room, profile, log, &finder)
}

// The record of every prefix of the log, by rising total; refused by 2, 4, 6 to 8 and 10.
pub fn build(profile: &Profile, log: &[u8], table: &mut [u32]) -> Result<Filled, Refusal>
    ensures { Promise (lent profile.now) log.now table.old table.new result }
{
    checks::check_profile(profile)?;
    logcheck::check_log(profile.shape.k, log)?;
    let room = records::capacity(table);
    fill_plain(table, room, profile, log)
}
