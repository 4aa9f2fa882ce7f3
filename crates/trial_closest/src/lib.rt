// The closest order against a listing: the swaps of every order, all pairs of a prefix and a state ranked by their fewest swaps, and every budget.
#![tactic(auto)]

pub mod budgets;
pub mod edges;
pub mod expected;
pub mod lent;
pub mod met;
pub mod order_swaps;
pub mod ranks;
pub mod refusing;
