//! The rows of the line tables of many units, and the row that an address belongs to (DWARF 5
//! section 6.2).
//!
//! Two neighbouring rows cover the addresses from the first one's up to, and without, the second
//! one's, where the first one ends no sequence. An address belongs to the first row of the first pair
//! that covers it, in the order of units and rows (`specs/Rows.antt`). Rows may go backwards, and
//! sequences may overlap. [`RowIndex::build`] keeps each row once, and takes time in the order of
//! `n log n` on any input; [`RowIndex::find`] bisects twice and takes no memory. Promised: what it
//! answers is what a walk over all rows finds, as [`RowIndex::find_slowly`] does. Of rows that are left
//! as they are ([`RowIndex::unsorted`]) both walk.
#![tactic(auto)]

mod row_index;
mod rows;
mod runs;
mod walking;

pub use row_index::RowIndex;
pub use rows::KeptRow;
