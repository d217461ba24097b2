//! Range lists and location lists: `.debug_rnglists` and `.debug_loclists` (DWARF 5, sections 2.6.2,
//! 2.17.3, 7.7.3 and 7.25), and for units of version 4 `.debug_ranges` and `.debug_loc` (DWARF 4,
//! sections 2.6.2, 2.17.3, 7.7.3 and 7.23).
//!
//! [`read_ranges`] and [`read_locations`] read one list from its offset to its end. The list, and the
//! first refusal in the order of reading, are exact: `ranges_of` of `specs/Ranges.antt` and
//! `locations_of` of `specs/Locations.antt`. An index in a list is resolved as soon as
//! it is read.
#![tactic(auto)]

mod bounds;
mod context;
mod entry;
mod kinds;
mod laws;
mod list_step;
mod lists;
mod locations;
mod operands;
mod pairs;
mod ranges;

pub use bounds::Range;
pub use laws::{locations_are_their_entries, ranges_are_their_entries};
pub use locations::{Location, read_locations};
pub use ranges::read_ranges;
