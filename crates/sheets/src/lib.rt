// A sheet of marks judged by itself: whether it covers every claim of an accepted file (`cover`), and its total (`total`).
//
// One table has a cell of 16 bits for each group. It takes the prices of the groups, by which the claims are covered or not, and
// then their limits, for the total. The cost is rows + groups; the table is all the memory.
#![tactic(auto)]

pub mod cover;
pub mod total;
