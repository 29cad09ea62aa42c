// The lent scratch: which table lies where, how it is read and written, and cleared.
#![tactic(auto)]

pub mod cells;
pub mod clear;
pub mod pick;

// The sizes of the tables, the first row that may be turned, the toll, and the label of the nodes that a search
// may reach.
#[derive(Clone, Copy)]
pub struct Shape {
    pub cards: usize,
    pub groups: usize,
    pub rows: usize,
    pub free: usize,
    pub toll: usize,
    pub fresh: usize,
}
