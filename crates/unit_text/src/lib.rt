//! The texts of units, sections, abbreviation tables and lists, appended to a list of bytes.
//!
//! [`write_section`] and [`write_unit_line`] append a line, and [`write_tables`] all tables of `.debug_abbrev`.
//! [`stream_unit`] and [`stream_lists`] make the text of a unit, and that of its range lists and location lists, as
//! its entries are read, so that these need not lie in memory. Lists that were read last go from unit to unit in
//! [`LastLists`].
//!
//! Each text is a definition of `specs/`, and is appended exactly; after any refusal the list is as it was. There are
//! two exceptions: of abbreviation tables the text up to the fault in them stays, and the text of [`stream_unit`] takes
//! the place of what the list held, which is empty after a refusal.
#![tactic(auto)]

mod declaration_text;
mod entry_line;
mod last_lists;
mod laws;
mod list_attrs;
mod list_sink;
mod list_stream;
mod lists;
mod pieces;
mod plain_texts;
mod section_line;
mod tables;
mod unit;
mod unit_line;
mod unit_sink;
mod unit_stream;
mod values;

pub use last_lists::LastLists;
pub use laws::tables_tile_the_section;
pub use list_stream::stream_lists;
pub use section_line::write_section;
pub use tables::write_tables;
pub use unit_line::write_unit_line;
pub use unit_stream::stream_unit;
