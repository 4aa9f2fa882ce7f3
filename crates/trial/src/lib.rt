// What the test programs share: total reads and writes, random profiles and logs, profiles as rows of text, the tested calls on guarded buffers, and the
// counters.
#![tactic(auto)]

pub mod answers;
pub mod calls;
pub mod cells;
pub mod guarded;
pub mod logs;
pub mod random;
pub mod record_numbers;
pub mod shapes;
pub mod tally;
pub mod text_rows;
