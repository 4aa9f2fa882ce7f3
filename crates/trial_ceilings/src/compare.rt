// One call for a ceiling, and P beside it.
use crate::rules::{product_of, wrong_groups};
use trial::answers::Refused;
use trial::tally::{Counter, Tally};

// Counters, in the order in which they are printed.
#[derive(Clone, Copy)]
pub enum Counted {
    Calls,
    Told,
    Met,
    BadGroups,
    Edges,
    Combined,
    // Wrong comparisons.
    Answer,
    Exceeded,
    Edge,
    Combination,
}

impl Counter for Counted {
    fn place(self) -> usize {
        self as usize
    }
}

// The call is given as many masks as letters, but where k says otherwise.
#[derive(Clone, Copy)]
pub struct Call<'a> {
    pub k: usize,
    pub masks: &'a [u16],
    pub log: &'a [u8],
    pub groups: &'a [u16],
}

impl Call<'_> {
    // The call tells the ceiling, or is refused.
    pub fn tells(&self, expected: Result<u64, Refused>) -> bool {
        let mut told = [99u64; 2];
        let number = ceiling_calls::tell(self.k, self.masks, self.log, self.groups, &mut told);
        match expected {
            Ok(ceiling) => (number == 0) & (told == [0, ceiling]),
            Err(r) => (number as usize == r.number) & (told == [r.place as u64, 0]),
        }
    }
}

// A call on right masks and a right log that has `prefixes` prefixes.
pub fn compare_groups(call: &Call, prefixes: usize, t: &mut Tally) {
    t.count(Counted::Calls);
    if wrong_groups(call.k, call.masks, call.groups) {
        t.expect(Counted::Answer, call.tells(Err(Refused::by(18))));
        t.count(Counted::BadGroups);
        return;
    }
    let ceiling = product_of(call.log, call.groups);
    t.expect(Counted::Answer, call.tells(Ok(ceiling as u64)));
    t.count(Counted::Told);
    t.expect(Counted::Exceeded, prefixes <= ceiling);
    t.count_if(Counted::Met, prefixes == ceiling);
}
