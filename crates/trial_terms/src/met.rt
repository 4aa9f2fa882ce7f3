// What is counted, in the order in which it is printed.
use trial::tally::Counter;

#[derive(Clone, Copy)]
pub enum Met {
    Logs,
    Accepted,
    Reachable,
    Records,
    OneWay,
    // Logs with neighbours in two terms; with a day before the day of the event before it; with fewer prefixes than without terms; with another verdict.
    Turns,
    Falls,
    Fewer,
    OtherVerdict,
    Twelve,
    OneTerm,
    ShortOrders,
    ShortTables,
    // Numbers tried as the day of an event and as a term; lists of terms.
    Days,
    Dates,
    Lists,
    RightLists,
    NotAsMany,
    Outside,
    Combined,
    // Wrong comparisons.
    Judge,
    SameAsJudge,
    Buffer,
    Day,
    List,
    OutsideWrong,
    Refusal,
}

impl Counter for Met {
    fn place(self) -> usize {
        self as usize
    }
}

// Combined refusals, by the first damage, if there is one.
#[derive(Clone, Copy)]
pub struct ByDamage(pub Option<usize>);

impl Counter for ByDamage {
    // Past all cells where there is no such damage.
    fn place(self) -> usize {
        match self.0 {
            Some(i) => if i < 11 { 32 + i } else { 128 },
            None => 43,
        }
    }
}
