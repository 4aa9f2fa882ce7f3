// The forward pass: the records of all prefixes, one total after the other; document 01, "Prefixes and their table".
#![tactic(auto)]

ghost use Rattle.std.specs.Prelude.{◌≡◌, [], ◌∷◌, ◌++◌, suc, ◌+◌, ◌*◌, ◌≤◌, length, replicate};
ghost use Rattle.profile.specs.Limits.{most_letters};
ghost use Rattle.profile.specs.Automata.{lent};
ghost use Rattle.profile.specs.Tables.{layout, record_length};
ghost use Rattle.terms.specs.Coded.{rules_of};
ghost use Rattle.counts.specs.Counts.{words};
ghost use Rattle.cursors.specs.Cursors.{started};
ghost use Rattle.records.specs.Records.{put_record};
ghost use Rattle.forward.specs.Forward.{Forward, Ready};
ghost use Rattle.forward.specs.Merging.{Comes, Grows, Halfway, Standing, Steps, begun, pairs, records_between, totals};

use counts::Counts;
use letters::Finder;
use merge::Handed;
use profile::Profile;
use profile::limits::{MOST_LETTERS, MOST_MOVES};
use records::RECORD;
use rows::Rows;

// The bits of the half of a record's last number that has the letters that can be added; above it are those that lead to the record.
const HALF: u32 = 16;

// The records of all prefixes that are put, so many, and the looks.
#[derive(Clone, Copy)]
pub struct Filled {
    pub records: usize,
    pub looks: u64,
}

// What a pass goes by: the profile with its moves by letter, the log, and what finds the letters that can be added; `room` records fit the table.
#[derive_where(Clone, Copy)]
struct Pass<'a, F> {
    rows: &'a Rows<'a, 'a>,
    log: &'a [u8],
    finder: &'a F,
    room: usize,
}

// Where total t stands in the table: from record `from` to before record `first`, at which the next total begins.
#[derive(Clone, Copy)]
struct Part {
    t: usize,
    from: usize,
    first: usize,
}

// Puts the record of the empty prefix; the number of letters that can be added to it.
fn put_first<F: Finder>(table: &mut [u32], pass: &Pass<F>) -> u32
    requires { Ready (rules_of (lent pass.now.rows.now.profile) F.termed) pass.now.log.now (length table.old) 1 (F.found pass.now.finder.now) }
    ensures { (result ≡ pairs (rules_of (lent pass.now.rows.now.profile) F.termed) pass.now.log.now (totals (rules_of (lent pass.now.rows.now.profile) F.termed) pass.now.log.now 1))
        × (table.new ≡ begun (rules_of (lent pass.now.rows.now.profile) F.termed) pass.now.log.now (totals (rules_of (lent pass.now.rows.now.profile) F.termed) pass.now.log.now 1) table.old) }
{
    let start = pass.rows.profile.shape.start;
    let c = counts::none_counted();
    let letters = pass.finder.addable(c);
    records::put(table, 0, c, 1u32 << start, letters.set);
    letters.number
}

// The next counts by the cursors, of the total after the one in `level`, the letters that lead to them, and what the records from which these lead hand
// on; none where there are none. Their cursors move on.
fn next_counts(level: &[u32], rows: &Rows, cursors: &mut [usize]) -> Option<(Counts, u32, Handed)>
    requires { (rows.now.profile.shape.k ≤ most_letters)
        × (most_letters ≤ length cursors.old)
        × (rows.now.profile.shape.k ≤ length rows.now.profile.masks.now) }
    ensures { Comes (lent rows.now.profile) level.now cursors.old cursors.new result }
{
    let k = rows.profile.shape.k;
    let (c, set) = merge::least_counts(level, k, cursors)?;
    let handed = merge::unite(level, rows, cursors, set);
    cursors::advance(level, k, cursors, set);
    Some((c, set, handed))
}

// Puts record j of the total that begins at record `first`.
fn put_in(table: &mut [u32], first: usize, j: usize, c: Counts, forward: u32, last: u32)
    requires { record_length layout * (first + j) + record_length layout ≤ length table.old }
    ensures { table.new ≡ put_record table.old (first + j) (words c ++ (forward ∷ last ∷ [])) }
{
    let at = RECORD * first;
    records::put(&mut table[at..], j, c, forward, last);
}

// Puts record j of the total behind the part, if there is one, and tells the number of letters that can be added to it; `None` where it does not fit.
fn merge_next<F: Finder>(
    table: &mut [u32],
    pass: &Pass<F>,
    part: Part,
    j: usize,
    cursors: &mut [usize],
) -> Option<Option<u32>>
    requires { Halfway (rules_of (lent pass.now.rows.now.profile) F.termed) pass.now.log.now table.old pass.now.room part j cursors.old (F.found pass.now.finder.now) }
    ensures { Steps (rules_of (lent pass.now.rows.now.profile) F.termed) pass.now.log.now pass.now.room part.t part.first j table.old table.new cursors.new result }
{
    let room = pass.room;
    let first = part.first;
    let start = RECORD * part.from;
    let end = RECORD * first;
    let next = next_counts(&table[start..end], pass.rows, cursors);
    match next {
        None => Some(None),
        Some((c, from, handed)) => {
            if first + j < room {
                let set = pass.finder.addable_with(c, handed.letters, handed.passed);
                put_in(table, first, j, c, handed.forward, set | (from << HALF));
                Some(Some(u32::count_ones(set)))
            } else {
                None
            }
        }
    }
}

// The cursor of each letter below k, at the first record of the part to which the letter can be added.
fn first_cursors(table: &[u32], part: Part, k: usize) -> [usize; MOST_LETTERS]
    requires { (k ≤ most_letters) × (part.from ≤ part.first) × (record_length layout * part.first ≤ length table.now) }
    ensures { result ≡ started k (records_between table.now part.from part.first) (replicate most_letters 0) }
{
    let start = RECORD * part.from;
    let end = RECORD * part.first;
    let mut cursors = [0usize; MOST_LETTERS];
    cursors::start_cursors(&table[start..end], k, &mut cursors);
    cursors
}

// Puts the records of the total behind the part: so many, with the pairs of one of them and a letter that can be added to it; none where they do not fit.
fn fill_total<F: Finder>(table: &mut [u32], pass: &Pass<F>, part: Part) -> Option<(usize, u64)>
    requires { Standing (rules_of (lent pass.now.rows.now.profile) F.termed) pass.now.log.now table.old pass.now.room part (F.found pass.now.finder.now) }
    ensures { Grows (rules_of (lent pass.now.rows.now.profile) F.termed) pass.now.log.now pass.now.room part.t part.first table.old table.new result }
{
    let mut cursors = first_cursors(table, part, pass.rows.profile.shape.k);
    let mut pairs = 0u64;
    let mut j = 0;
    // Kept: a `for` has no end to go to, since only the merge tells how many records the total has.
    while let Some(n) = merge_next(table, pass, part, j, &mut cursors)? {
        pairs += n as u64;
        j += 1;
    }
    Some((j, pairs))
}

// Puts the records of the totals behind the part, where those up to it have `number` pairs of a record and a letter that can be added.
fn fill_totals<F: Finder>(
    table: &mut [u32],
    pass: &Pass<F>,
    part: Part,
    number: u32,
) -> Option<Filled>
    requires standing { Standing (rules_of (lent pass.now.rows.now.profile) F.termed) pass.now.log.now table.old pass.now.room part (F.found pass.now.finder.now) }
    requires t_in_bounds { (part.t ≤ length pass.now.log.now) × (number ≡ pairs (rules_of (lent pass.now.rows.now.profile) F.termed) pass.now.log.now (totals (rules_of (lent pass.now.rows.now.profile) F.termed) pass.now.log.now (suc part.t))) }
    ensures { Forward (rules_of (lent pass.now.rows.now.profile) F.termed) pass.now.log.now pass.now.room table.old table.new result }
{
    let mut at = part;
    let mut looks = number as u64;
    // Kept: the part has the number of its total, which the next part comes from; a `for` would count the totals twice.
    while at.t < pass.log.len() {
        let (records, pairs) = fill_total(table, pass, at)?;
        at = Part {
            t: at.t + 1,
            from: at.first,
            first: at.first + records,
        };
        looks += pairs;
    }
    Some(Filled {
        records: at.first,
        looks: looks,
    })
}

// Fills the records of all prefixes, where `room` records fit. It keeps a frame of its own: within its caller's, the numbers of its rows would stand beside
// those of the backward pass.
#[inline(never)]
pub fn fill_forward<F: Finder>(
    table: &mut [u32],
    room: usize,
    profile: &Profile,
    log: &[u8],
    finder: &F,
) -> Option<Filled>
    requires { Ready (rules_of (lent profile.now) F.termed) log.now (length table.old) room (F.found finder.now) }
    ensures { Forward (rules_of (lent profile.now) F.termed) log.now room table.old table.new result }
{
    if room == 0 {
        return None;
    }
    let mut numbers = [0u32; MOST_MOVES];
    let rows = Rows::of(profile, &mut numbers);
    let pass = Pass {
        rows: &rows,
        log,
        finder,
        room,
    };
    let number = put_first(table, &pass);
    let part = Part {
        t: 0,
        from: 0,
        first: 1,
    };
    fill_totals(table, &pass, part, number)
}
