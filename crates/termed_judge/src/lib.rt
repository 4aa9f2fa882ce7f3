// The judge of a log with terms: document 02, Paper 8.
#![tactic(auto)]

ghost use Rattle.std.specs.Prelude.{true, ◌≤◌, length};
ghost use Rattle.profile.specs.Automata.{lent};
ghost use Rattle.terms.specs.Coded.{rules_of};
ghost use Rattle.table.specs.Table.{Fills};
ghost use Rattle.termed.specs.Termed.{Promise};
ghost use Rattle.termed_judge.specs.CodedCalls.{Answered, CodedCall};

use events::Keepers;
use profile::limits::{LONGEST, MOST_LETTERS, MOST_PLACES, Place};
use profile::{Calendar, Places, Profile, Refusal};
use table::Filled;
use term_letters::InTerms;
use verdict::Judged;

// Fills the table with the records of events that are codes; the log has their letters.
pub fn fill_coded(
    table: &mut [u32],
    profile: &Profile,
    log: &[u8],
    codes: &[u8],
) -> Result<Filled, Refusal>
    requires { CodedCall (lent profile.now) log.now codes.now }
    ensures { Fills (rules_of (lent profile.now) true) codes.now table.old table.new result }
{
    let k = profile.shape.k;
    let mut starts: [Place; MOST_LETTERS] = [0; MOST_LETTERS];
    let mut places: [Place; MOST_PLACES] = [0; MOST_PLACES];
    places::place_events(log, k, &mut starts, &mut places);
    let mut turns: [Place; MOST_PLACES] = [0; MOST_PLACES];
    turning::put_turns(codes, k, &mut turns);
    let room = records::capacity(table);
    let finder = InTerms {
        keepers: &Keepers::of(profile.masks, k),
        n: codes.len(),
        placed: &Places {
            starts: &starts,
            places: &places,
        },
        turns: &turns,
    };
    table::fill(table, room, profile, codes, &finder)
}

// The verdict of events that are codes, where nothing but 10 can refuse; the log has their letters.
fn judge_coded(
    profile: &Profile,
    log: &[u8],
    codes: &[u8],
    order: &mut [u8],
    work: &mut [u32],
) -> Result<Judged, Refusal>
    requires coded_call { CodedCall (lent profile.now) log.now codes.now }
    requires codes_in_bounds { length codes.now ≤ length order.old }
    ensures { Answered (rules_of (lent profile.now) true) codes.now order.old order.new work.old work.new result }
{
    let Filled { prefixes, looks } = fill_coded(work, profile, log, codes)?;
    if verdict::put_verdict(work, prefixes, profile, codes, order) {
        Ok(Judged::Order { prefixes, looks })
    } else {
        Ok(Judged::NoOrder { prefixes, looks })
    }
}

// The verdict of a log with a day for each event and with terms, with its order, P and looks; refused by 2, 4, 6 to 8, 14 to 16, 9 and 10.
pub fn judge(
    profile: &Profile,
    log: &[u8],
    calendar: &Calendar,
    order: &mut [u8],
    work: &mut [u32],
) -> Result<Judged, Refusal>
    ensures { Promise (lent profile.now) log.now calendar.now.days.now calendar.now.terms.now order.old order.new work.old work.new result }
{
    term_checks::check_call(profile, log, calendar, order.len())?;
    let mut codes = [0u8; LONGEST];
    dates::code_events(log, calendar, &mut codes);
    let n = log.len();
    judge_coded(profile, log, &codes[0..n], order, work)
}
