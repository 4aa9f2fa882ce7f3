// What the second table is filled for: a grammar, and a log with the table that has the counts of its prefixes.
ghost use Rattle.pairs.specs.Settings.{Setting};

use rules::Grammar;

#[derive(Clone, Copy)]
pub struct Nested<'a> {
    pub grammar: Grammar<'a>,
    pub log: &'a [u8],
    pub table: &'a [u32],
    pub records: usize,
    pub ghost setting: { Setting grammar.k grammar.masks.now log.now table.now records },
}
