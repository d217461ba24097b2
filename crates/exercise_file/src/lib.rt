//! The file that `exercise` dumps: so many units of seven entries each, and a table of declarations for
//! each ten of them (DWARF 5 sections 7.5.1 to 7.5.3).
//!
//! [`generate`] makes it, byte by byte as `generated_file` of `specs/Generated.antt` spells it. The laws say
//! what readers find in it, for every number of units up to [`MOST_UNITS`]: [`sections_are_found`] its sections,
//! [`nothing_is_refused`] that each unit's header, root, entries and text are read without a fault, and
//! [`room_is_left`] that the table of its handle has more room than the file has keys.
#![tactic(auto)]

mod functions;
mod generated;
mod laws;
mod numbers;
mod pieces;
mod tables;
mod units;

pub use generated::{MOST_UNITS, generate};
pub use laws::{nothing_is_refused, room_is_left, sections_are_found};
