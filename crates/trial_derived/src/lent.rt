// The call on lent parts of guarded buffers. Where a buffer is too small for the part there is no call.
use crate::cases::Case;
use trial::guarded::Guarded;

// What a call is lent, and what it tells.
#[derive(Clone, Copy)]
pub struct Lent {
    pub order: Guarded<u8, 24>,
    pub table: Guarded<u32, 700>,
    pub sets: Guarded<u16, 4128>,
    pub told: [u64; 4],
}

impl Lent {
    pub fn to(case: &Case) -> Self {
        Lent {
            order: Guarded::new(case.room),
            table: Guarded::new(case.size),
            sets: Guarded::new(case.sets),
            told: [99; 4],
        }
    }

    // The number that the call gives; its log may be another than the case's own.
    pub fn judge(&mut self, case: &Case, log: &[u8]) -> Option<u32> {
        let grammar = case.grammar();
        Some(grammar_calls::judge(
            &grammar,
            log,
            self.order.lend()?,
            self.table.lend()?,
            self.sets.lend()?,
            &mut self.told,
        ))
    }
}
