//! The places in the source that addresses come from (DWARF 5 section 6.2).
//!
//! [`AddressIndex::build`] runs the line program of each unit once, and keeps of each row what a place
//! needs. A unit whose header, first entry or line program is refused gives no rows.
//! [`AddressIndex::place_of`] bisects, and takes no memory. Promised: what it answers is `place_of` of
//! `specs/Places.antt`, the place of the first pair of neighbouring rows, in the order of units and
//! rows, that covers the address; that definition sorts nothing. [`AddressIndex::place_of_slowly`]
//! answers the same by a walk over all rows, and so does `place_of` of an index for a few addresses
//! ([`AddressIndex::build_for_few`]).
#![tactic(auto)]

mod address_index;
mod names;
mod place;
mod programs;
mod tables;

pub use address_index::AddressIndex;
pub use place::Place;
