//! The name of a cell.

/// A cell: the number of its generation, and its index in that generation.
#[derive(Clone, Copy)]
pub struct Cell {
    pub generation: u32,
    pub index: u64,
}
