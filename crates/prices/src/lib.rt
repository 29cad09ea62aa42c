// The solver's state, a choice and prices that are level, and its prices: how they rise where a search failed, and how they are read
// off as marks.
#![tactic(auto)]

pub mod marks;
pub mod step;
