//! String tables: bytes that hold texts, each ended by a zero byte (System V gABI, chapter 4,
//! "String Table"; DWARF 5 section 7.26).
//!
//! [`StringTable`] answers the text that begins at a place. It keeps where texts end, so that many
//! questions for places of one long text cost a walk over one block of 128 bytes each.
//! [`first_zero`] is the search for the byte that ends a text.
#![tactic(auto)]

mod search;
mod string_table;

pub use search::first_zero;
pub use string_table::StringTable;
