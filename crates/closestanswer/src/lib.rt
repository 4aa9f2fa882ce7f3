// The answer of the call for the closest order: document 02, Paper 10.
#![tactic(auto)]

// The verdict, P and looks, and with an order its swaps and the floor. A call gives this or a refusal.
#[derive(Clone, Copy)]
pub enum Closest {
    NoOrder {
        prefixes: usize,
        looks: u64,
    },
    Order {
        prefixes: usize,
        looks: u64,
        swaps: u32,
        floor: u32,
    },
}
