// The calls of the running judge on a lent part of a guarded buffer, each with its number; none where the buffer is too small for the part.
use profile::Profile;
use trial::guarded::Guarded;

// The table of a run.
pub type Table = Guarded<u32, 1424>;

pub fn start_in(
    profile: &Profile,
    held: &mut [u64; 2],
    table: &mut Table,
    told: &mut [u64; 1],
) -> Option<u32> {
    Some(calls::start(profile, held, table.lend()?, told))
}

pub fn event_in(
    profile: &Profile,
    letter: u8,
    held: &mut [u64; 2],
    table: &mut Table,
    told: &mut [u64; 1],
) -> Option<u32> {
    Some(calls::event(profile, letter, held, table.lend()?, told))
}

pub fn question_in(
    profile: &Profile,
    held: &[u64; 2],
    table: &Table,
    told: &mut [u64; 4],
) -> Option<u32> {
    let part = table.first(table.size());
    if part.len() < table.size() {
        return None;
    }
    Some(calls::question(profile, held, part, told))
}
