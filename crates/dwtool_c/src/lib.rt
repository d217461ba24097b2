//! The library for callers in C, C++, Rust, Go, Python and whatever else calls C: exports over the bytes of an
//! ELF file (System V gABI chapter 4) with debugging information (DWARF 4 and 5).
//!
//! An export keeps nothing, and has no condition on the bytes or the numbers that it is given. It fills the
//! front of the caller's buffer and tells the length of the whole: [`dwtool_text`] what a command prints of a
//! file and [`dwtool_unit_text`] of a unit; [`dwtool_sections`], [`dwtool_units`] and [`dwtool_lines`] rows;
//! [`dwtool_section_name`] a name; [`dwtool_places`] the places of addresses. Promised: the status, the buffer,
//! the length and the refusal are those of a definition in `specs/`, which is the library's; or memory was wanting.
//!
//! `include/dwtool.h` declares them for C, and says what a caller must guarantee.
#![tactic(auto)]

mod answers;
mod commands;
mod front;
mod lines;
mod places;
mod refusal;
mod sections;
mod texts;
mod unit_texts;
mod units;

pub use answers::{DONE, NO_MEMORY, NONE_SUCH, REFUSED};
pub use commands::{ABBREV, DUMP, LINES, RANGES, SECTIONS, UNITS};
pub use lines::{DwtoolLine, dwtool_lines};
pub use places::{DwtoolPlace, NAMED, NO_NAME, NO_PLACE, dwtool_places};
pub use refusal::{DwtoolRefusal, NOTHING, OF_FILE, OF_TABLES, OF_UNIT};
pub use sections::{DwtoolSection, dwtool_section_name, dwtool_sections};
pub use texts::dwtool_text;
pub use unit_texts::dwtool_unit_text;
pub use units::{DwtoolUnit, dwtool_units};
