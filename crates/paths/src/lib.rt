// Paths of open arcs, turned round.
#![tactic(auto)]

pub mod flip;
