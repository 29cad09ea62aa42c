// What changes the choice under prices that stay: rows are filled in where there is a place, and a path is turned round.
#![tactic(auto)]

pub mod fill;
pub mod join;
