// What is counted, in the order in which it is printed.
use trial::tally::Counter;

#[derive(Clone, Copy)]
pub enum Met {
    Logs,
    Accepted,
    OneWay,
    // Logs whose closest order is not the judge's, and those whose closest order is not the log.
    OtherOrder,
    Swapped,
    Pairs,
    Budgets,
    // Budgets below all pairs: with a floor above 0, and of these with one below the fewest swaps.
    Floors,
    LowFloors,
    Covering,
    ShortOrders,
    ShortTables,
    ShortCosts,
    Edges,
    Combined,
    // Wrong comparisons.
    Listing,
    Judge,
    Budget,
    Buffer,
    Edge,
    Refusal,
    // Logs with neighbours in two terms; with a day before the day of the event before it; with fewer prefixes than without terms.
    Turns = 24,
    Falls,
    Fewer,
}

impl Counter for Met {
    fn place(self) -> usize {
        self as usize
    }
}
