//! What the table's calls answer.

/// What an insert found: its own entry is in the map now, or the key had a value.
#[derive(Clone, Copy, Debug, PartialEq, Eq)]
pub enum Kept {
    Placed,
    Found(u64),
}

/// An insert found no room.
#[derive(Clone, Copy, Debug, PartialEq, Eq)]
pub struct Full;

/// The generation that a table is in, how many cells it has, and whether it is the last.
#[derive(Clone, Copy, Debug, PartialEq, Eq)]
pub struct Shape {
    pub generation: u32,
    pub cells: u64,
    pub last: bool,
}
