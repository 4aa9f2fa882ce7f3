// The judge for grammars as C has it: Paper 13. It returns the refusal's number, or 0, and tells the place, the verdict, P and looks. `capi` exports it.
#![tactic(auto)]

ghost use Rattle.grammar_calls.specs.GrammarCalls.{Judging};

use rules::Grammar;

pub fn judge(
    grammar: &Grammar,
    log: &[u8],
    order: &mut [u8],
    work: &mut [u32],
    sets: &mut [u16],
    told: &mut [u64; 4],
) -> u32
    ensures { Judging grammar.now.k grammar.now.masks.now grammar.now.names grammar.now.rules.now log.now order.old order.new work.old work.new sets.old sets.new result told.new }
{
    let judged = grammar_judge::judge(grammar, log, order, work, sets);
    answers::tell_judged(judged, told)
}
