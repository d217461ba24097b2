//! A map from keys to values that threads share without locks. It keeps the first value of each key.
//!
//! Keys and values are numbers of 64 bits, neither 0 nor the greatest. A `Table` is shared by reference. Each caller
//! has a `Pass`, which a first caller gets with the table and from which others are split. Every call answers as a
//! plain map that keeps the first value of each key, at one point of one history of successful inserts, whatever other
//! threads do meanwhile (`map_core`'s `specs/Calls.antt`). No call but `Table::new` takes memory, and none waits.
//!
//! A table begins with 64 cells, and moves to twice as many whenever three quarters of them are taken. An insert that
//! placed its entry helps with a move that is due (`block_moves`).
#![tactic(auto)]

mod answers;
mod table;

pub use answers::{Full, Kept, Shape};
pub use map_cells::{AnyPair, Facts, Pass};
pub use table::Table;
