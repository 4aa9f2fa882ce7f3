// The counters of this test, in the order in which they are printed.
use trial::tally::{Counter, Tally};

#[derive(Clone, Copy)]
pub enum Counted {
    Texts,
    Right,
    Random,
    RandomRight,
    Edges,
    Bits,
    Set,
    // Logs judged, each followed by those of verdict 1: with nothing independent, with a and b independent, and of random texts.
    Logs,
    DescribedLogs,
    PairLogs,
    DescribedPairLogs,
    RandomLogs,
    DescribedRandomLogs,
    // Wrong comparisons.
    Refusal = 40,
    Profile,
    Moves,
    Verdict,
    Edge,
}

impl Counter for Counted {
    fn place(self) -> usize {
        self as usize
    }
}

// Refusals by a number that came as expected.
#[derive(Clone, Copy)]
pub struct RefusedBy(pub usize);

impl Counter for RefusedBy {
    // Past all cells where there is no such number.
    fn place(self) -> usize {
        if self.0 < 16 { 20 + self.0 } else { 128 }
    }
}

// Counts a refusal by the number, where it came as expected, or a wrong comparison of the group.
pub fn refused(group: impl Counter, right: bool, number: usize, t: &mut Tally) {
    t.count_either(right, RefusedBy(number), group);
}

// Counts a log that was judged, whether it is described, and whether the verdict was wrong.
pub fn judged(
    logs: Counted,
    described_logs: Counted,
    described: bool,
    verdict: Option<bool>,
    t: &mut Tally,
) {
    t.count(logs);
    t.count_if(described_logs, described);
    t.expect(Counted::Verdict, verdict == Some(described));
}
