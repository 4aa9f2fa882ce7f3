// The judge for grammars: document 02, Paper 13, "Nested loans".
#![tactic(auto)]

ghost use Rattle.std.specs.Prelude.{◌≤◌, length};
ghost use Rattle.pairs.specs.Pairs.{Room};
ghost use Rattle.grammar_judge.specs.GrammarJudge.{Promise, VerdictIs};

use pairs::nested::Nested;
use profile::Refusal;
use rules::Grammar;
use table::Filled;
use verdict::Judged;

// The verdict by the second table, with the order.
fn put_verdict(nested: &Nested, sets: &mut [u16], order: &mut [u8]) -> bool
    requires { Room nested.now sets.old × (length nested.now.log.now ≤ length order.old) }
    ensures { VerdictIs nested.now.grammar.masks.now nested.now.grammar.rules.now nested.now.log.now order.old order.new result }
{
    let records = nested.records;
    if records < 2 {
        return false;
    }
    filling::fill_sets(nested, sets);
    if !rulesets::has(sets[records - 1], 0) {
        return false;
    }
    derivation::put_part(nested, sets, 0, 0, records - 1, order);
    true
}

// The verdict of a log by a grammar, with an order, P and looks; refused by 2, 4, 21, 7, 8, 9, 10 and 22.
pub fn judge(
    grammar: &Grammar,
    log: &[u8],
    order: &mut [u8],
    work: &mut [u32],
    sets: &mut [u16],
) -> Result<Judged, Refusal>
    ensures { Promise grammar.now.k grammar.now.masks.now grammar.now.names grammar.now.rules.now log.now order.old order.new work.old work.new sets.old sets.new result }
{
    let k = grammar.k;
    let masks = grammar.masks;
    checks::check_relation(k, masks)?;
    if rules::bad_rules(k, grammar.names, grammar.rules) {
        return Err(Refusal::BadRule);
    }
    logcheck::check_log(k, log)?;
    if order.len() < log.len() {
        return Err(Refusal::ShortBuffer);
    }
    let Filled { prefixes, looks } = bare::build(k, masks, log, work)?;
    if sets.len() < prefixes * prefixes {
        return Err(Refusal::ShortSets);
    }
    let nested = Nested {
        grammar: *grammar,
        log,
        table: work,
        records: prefixes,
    };
    if put_verdict(&nested, sets, order) {
        Ok(Judged::Order { prefixes, looks })
    } else {
        Ok(Judged::NoOrder { prefixes, looks })
    }
}
