//! The plain machine of the shared table: its sizes, its words, its events and the facts that every event keeps.
//!
//! The table is a map from keys to values that keeps the first value of each key. Keys and values are numbers of
//! 64 bits, neither 0 nor the greatest. This crate has no memory and no threads: it says what the words of a table
//! may be, what one atomic step may do to them, and what a call of the table has to answer. `map_cells` binds it to
//! atomic words.
#![tactic(auto)]

mod cell;
mod entry;
mod laws;
mod layout;
mod places;
mod view;

pub use cell::Cell;
pub use entry::Entry;
pub use laws::{Fitting, calls_in_order, first_value_is_kept, lawful_events};
pub use layout::{Layout, MOST_ENTRIES, MOST_PASSES};
pub use places::{COUNT_WORD, CURRENT_WORD, FIRST_CELL_WORD, FIRST_TAKE_WORD, HASH_MULTIPLIER};
pub use view::View;
