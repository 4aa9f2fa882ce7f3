// What C and Rust call: each function returns the refusal's number, or 0, and tells the rest as numbers. The crate `capi_c` exports them, and
// `include/fumarehi.h` declares them.
#![tactic(auto)]

ghost use Rattle.std.specs.Prelude.{◌≡◌, length};
ghost use Rattle.profile.specs.Automata.{profile_of};
ghost use Rattle.comparison.specs.Comparison.{comparison};
ghost use Rattle.order.specs.Order.{ordered_buffer, ordering};
ghost use Rattle.logfile.specs.Files.{file_masks, file_moves, file_shape, filled, log_location, log_length, read_refusal, reading};
ghost use Rattle.filewriter.specs.Written.{file_bytes, write_refusal, writing};
ghost use Rattle.logreader.specs.Events.{event_of, place_behind};
ghost use Rattle.expression.specs.Making.{made_buffer, making};
ghost use Rattle.capi.specs.Numbers.{Building, Finding, Judging, compared_code, compared_told, event_number, located_code, located_told, made_code, made_told, ordered_code, ordered_told, reading_code, reading_told, writing_code, writing_told};
ghost use Rattle.calls.specs.Calls.{Asking, Starting, Stepping};
ghost use Rattle.term_calls.specs.TermCalls.{TermJudging};
ghost use Rattle.view_calls.specs.ViewCalls.{Viewing};
ghost use Rattle.grammar_calls.specs.GrammarCalls.{Judging as GrammarJudging};
ghost use Rattle.ceiling_calls.specs.CeilingCalls.{Bounding};
ghost use Rattle.closest_calls.specs.Calls.{Closing, TermClosing};

use profile::{Calendar, Profile, Refusal, Shape};
use refusals::refuse;
use rules::Grammar;

// The profile that a caller hands as numbers and slices.
fn lend<'a>(
    k: usize,
    s: usize,
    start: usize,
    finals: u32,
    masks: &'a [u16],
    moves: &'a [u32],
) -> Profile<'a>
    ensures { (result.shape ≡ record { k = k; s = s; start = start; finals = finals }) × (result.masks ≡ masks.entry) × (result.moves ≡ moves.entry) }
{
    Profile {
        shape: Shape {
            k,
            s,
            start,
            finals,
        },
        masks,
        moves,
    }
}

// The judge.
pub fn fumarehi_judge(
    k: usize,
    s: usize,
    start: usize,
    finals: u32,
    masks: &[u16],
    moves: &[u32],
    log: &[u8],
    order: &mut [u8],
    work: &mut [u32],
    told: &mut [u64; 4],
) -> u32
    ensures { Judging (profile_of (record { k = k; s = s; start = start; finals = finals }) masks.now moves.now) log.now order.old order.new work.old work.new result told.new }
{
    let profile = lend(k, s, start, finals, masks, moves);
    let judged = verdict::judge(&profile, log, order, work);
    answers::tell_judged(judged, told)
}

// The prefix table.
pub fn fumarehi_table(
    k: usize,
    s: usize,
    start: usize,
    finals: u32,
    masks: &[u16],
    moves: &[u32],
    log: &[u8],
    table: &mut [u32],
    told: &mut [u64; 3],
) -> u32
    ensures { Building (profile_of (record { k = k; s = s; start = start; finals = finals }) masks.now moves.now) log.now table.old table.new result told.new }
{
    let profile = lend(k, s, start, finals, masks, moves);
    match table::build(&profile, log, table) {
        Err(unbuilt) => refuse(unbuilt, told),
        Ok(filled) => {
            *told = [0, filled.prefixes as u64, filled.looks];
            0
        }
    }
}

// The search for a prefix by its counts, among the records of a table or of a part of one.
pub fn fumarehi_find(table: &[u32], counts: &[u32], told: &mut [u64; 2]) -> u32
    ensures { Finding table.now counts.now result told.new }
{
    if counts.len() != counts::NUMBERS {
        return refuse(Refusal::OutOfRange, told);
    }
    *told = match search::find(table, counts::from_numbers(counts)) {
        Ok(record) => [1, record as u64],
        Err(before) => [0, before as u64],
    };
    0
}

// Same.
pub fn fumarehi_same(
    k: usize,
    masks: &[u16],
    first: &[u8],
    second: &[u8],
    told: &mut [u64; 3],
) -> u32
    ensures { let c = comparison k masks.now first.now second.now in (result ≡ compared_code c) × (told.new ≡ compared_told c) }
{
    match comparison::same(k, masks, first, second) {
        Ok(same) => {
            *told = [0, 0, u64::from(same)];
            0
        }
        Err(refused) => {
            let number = refuse(refused.refusal, told);
            told[1] = refused.log as u64;
            number
        }
    }
}

// First order.
pub fn fumarehi_first_order(
    k: usize,
    masks: &[u16],
    log: &[u8],
    order: &mut [u8],
    told: &mut [u64; 1],
) -> u32
    ensures fact { let o = ordering k masks.now log.now (length order.old) in (result ≡ ordered_code o) × (told.new ≡ ordered_told o) }
    ensures order_after { order.new ≡ ordered_buffer k masks.now log.now order.old }
{
    match order::first_order(k, masks, log, order) {
        Err(unordered) => refuse(unordered, told),
        Ok(()) => {
            *told = [0];
            0
        }
    }
}

// The file reader.
pub fn fumarehi_read_file(
    file: &[u8],
    masks: &mut [u16],
    moves: &mut [u32],
    told: &mut [u64; 6],
) -> u32
    ensures { let f = file.now in let q = read_refusal f (length masks.old) (length moves.old) in
        let a = reading q (file_shape f) (log_length f) in
        (result ≡ reading_code a) × (told.new ≡ reading_told a) × (masks.new ≡ filled q (file_masks f) masks.old)
        × (moves.new ≡ filled q (file_moves f) moves.old) }
{
    match logfile::read_file(file, masks, moves) {
        Err(unread) => refuse(unread, told),
        Ok((shape, n)) => {
            let k = shape.k as u64;
            let s = shape.s as u64;
            let start = shape.start as u64;
            let finals = shape.finals as u64;
            *told = [0, k, s, start, finals, n as u64];
            0
        }
    }
}

// The log part.
pub fn fumarehi_log_part(file: &[u8], told: &mut [u64; 3]) -> u32
    ensures { let a = log_location file.now in (result ≡ located_code a) × (told.new ≡ located_told a) }
{
    match logfile::locate_log(file) {
        Err(why) => refuse(why, told),
        Ok((offset, n)) => {
            *told = [0, offset as u64, n as u64];
            0
        }
    }
}

// The file writer. Its profile is put together here and not by `lend`, so that its proof is the writer's promise as it stands.
pub fn fumarehi_write_file(
    k: usize,
    s: usize,
    start: usize,
    finals: u32,
    masks: &[u16],
    moves: &[u32],
    log: &[u8],
    file: &mut [u8],
    told: &mut [u64; 2],
) -> u32
    ensures { let p = profile_of (record { k = k; s = s; start = start; finals = finals }) masks.now moves.now in
        let l = file_bytes p log.now in let q = write_refusal p log.now (length file.old) in let a = writing q (length l) in
        (result ≡ writing_code a) × (told.new ≡ writing_told a) × (file.new ≡ filled q l file.old) }
{
    let shape = Shape {
        k,
        s,
        start,
        finals,
    };
    let profile = Profile {
        shape,
        masks,
        moves,
    };
    match filewriter::write_file(&profile, log, file) {
        Err(unwritten) => refuse(unwritten, told),
        Ok(n) => {
            *told = [0, n as u64];
            0
        }
    }
}

// The log reader: the event at a place, which advances one.
pub fn fumarehi_next_event(log: &[u8], at: &mut usize) -> u32
    ensures value { result ≡ event_number (event_of log.now at.old) }
    ensures at_after { at.new ≡ place_behind log.now at.old }
{
    let from = *at;
    let event = logreader::event_at(log, from);
    *at = logreader::place_after(log, from);
    match event {
        Some(letter) => letter as u32,
        None => 256,
    }
}

// Courses typed as an expression.
pub fn fumarehi_expression(k: usize, text: &[u8], moves: &mut [u32], told: &mut [u64; 4]) -> u32
    ensures { let a = making k text.now (length moves.old) in
        (result ≡ made_code a) × (told.new ≡ made_told a) × (moves.new ≡ made_buffer k text.now moves.old) }
{
    match expression::make(k, text, moves) {
        Err(r) => refuse(r, told),
        Ok(shape) => {
            let s = shape.s as u64;
            let start = shape.start as u64;
            let finals = shape.finals as u64;
            *told = [0, s, start, finals];
            0
        }
    }
}

// The running judge's start: `held` is its record, P and the number of events taken.
pub fn fumarehi_run_start(
    k: usize,
    s: usize,
    start: usize,
    finals: u32,
    masks: &[u16],
    moves: &[u32],
    held: &mut [u64; 2],
    table: &mut [u32],
    told: &mut [u64; 1],
) -> u32
    ensures { Starting (profile_of (record { k = k; s = s; start = start; finals = finals }) masks.now moves.now) held.old held.new table.old table.new result told.new }
{
    let profile = lend(k, s, start, finals, masks, moves);
    calls::start(&profile, held, table, told)
}

// The running judge's event.
pub fn fumarehi_run_event(
    k: usize,
    s: usize,
    start: usize,
    finals: u32,
    masks: &[u16],
    moves: &[u32],
    letter: u8,
    held: &mut [u64; 2],
    table: &mut [u32],
    told: &mut [u64; 1],
) -> u32
    ensures { Stepping (profile_of (record { k = k; s = s; start = start; finals = finals }) masks.now moves.now) letter held.old held.new table.old table.new result told.new }
{
    let profile = lend(k, s, start, finals, masks, moves);
    calls::event(&profile, letter, held, table, told)
}

// The running judge's question.
pub fn fumarehi_run_question(
    k: usize,
    s: usize,
    start: usize,
    finals: u32,
    masks: &[u16],
    moves: &[u32],
    held: &[u64; 2],
    table: &[u32],
    told: &mut [u64; 4],
) -> u32
    ensures { Asking (profile_of (record { k = k; s = s; start = start; finals = finals }) masks.now moves.now) held.now table.now result told.new }
{
    let profile = lend(k, s, start, finals, masks, moves);
    calls::question(&profile, held, table, told)
}

// The judge with terms: days and terms are numbers year × 10,000 + month × 100 + day, terms the first and the last day of each in turn.
pub fn fumarehi_judge_terms(
    k: usize,
    s: usize,
    start: usize,
    finals: u32,
    masks: &[u16],
    moves: &[u32],
    log: &[u8],
    days: &[u32],
    terms: &[u32],
    order: &mut [u8],
    work: &mut [u32],
    told: &mut [u64; 4],
) -> u32
    ensures { TermJudging (profile_of (record { k = k; s = s; start = start; finals = finals }) masks.now moves.now) log.now days.now terms.now order.old order.new work.old work.new result told.new }
{
    let profile = lend(k, s, start, finals, masks, moves);
    let calendar = Calendar { days, terms };
    term_calls::judge(&profile, log, &calendar, order, work, told)
}

// A teacher's view.
pub fn fumarehi_view(
    k: usize,
    s: usize,
    start: usize,
    finals: u32,
    visible: u32,
    masks: &[u16],
    moves: &[u32],
    log: &[u8],
    order: &mut [u8],
    work: &mut [u32],
    told: &mut [u64; 4],
) -> u32
    ensures { Viewing (profile_of (record { k = k; s = s; start = start; finals = finals }) masks.now moves.now) visible log.now order.old order.new work.old work.new result told.new }
{
    let profile = lend(k, s, start, finals, masks, moves);
    view_calls::view(&profile, visible, log, order, work, told)
}

// The judge for grammars.
pub fn fumarehi_grammar(
    k: usize,
    masks: &[u16],
    names: usize,
    rules: &[u16],
    log: &[u8],
    order: &mut [u8],
    work: &mut [u32],
    sets: &mut [u16],
    told: &mut [u64; 4],
) -> u32
    ensures { GrammarJudging k masks.now names rules.now log.now order.old order.new work.old work.new sets.old sets.new result told.new }
{
    let grammar = Grammar {
        k,
        masks,
        names,
        rules,
    };
    grammar_calls::judge(&grammar, log, order, work, sets, told)
}

// A ceiling: place, ceiling.
pub fn fumarehi_ceiling(
    k: usize,
    masks: &[u16],
    log: &[u8],
    groups: &[u16],
    told: &mut [u64; 2],
) -> u32
    ensures { Bounding k masks.now log.now groups.now result told.new }
{
    ceiling_calls::tell(k, masks, log, groups, told)
}

// The order closest to what was recorded: place, verdict, P, looks, swaps, floor.
pub fn fumarehi_closest(
    k: usize,
    s: usize,
    start: usize,
    finals: u32,
    masks: &[u16],
    moves: &[u32],
    log: &[u8],
    order: &mut [u8],
    work: &mut [u32],
    costs: &mut [u32],
    budget: u64,
    told: &mut [u64; 6],
) -> u32
    ensures { Closing (profile_of (record { k = k; s = s; start = start; finals = finals }) masks.now moves.now) log.now budget order.old order.new work.old work.new costs.old costs.new result told.new }
{
    let profile = lend(k, s, start, finals, masks, moves);
    closest_calls::closest(&profile, log, order, work, costs, budget, told)
}

// The same for a log with terms; days and terms as the judge with terms has them.
pub fn fumarehi_closest_terms(
    k: usize,
    s: usize,
    start: usize,
    finals: u32,
    masks: &[u16],
    moves: &[u32],
    log: &[u8],
    days: &[u32],
    terms: &[u32],
    order: &mut [u8],
    work: &mut [u32],
    costs: &mut [u32],
    budget: u64,
    told: &mut [u64; 6],
) -> u32
    ensures { TermClosing (profile_of (record { k = k; s = s; start = start; finals = finals }) masks.now moves.now) log.now days.now terms.now budget order.old order.new work.old work.new costs.old costs.new result told.new }
{
    let profile = lend(k, s, start, finals, masks, moves);
    let calendar = Calendar { days, terms };
    closest_calls::closest_terms(&profile, log, &calendar, order, work, costs, budget, told)
}
