//! Line programs (DWARF 5 section 6.2): the header of a program with its directories and files, and
//! the rows that its operations append.
//!
//! [`LineHeader::read`] reads a header of version 4 or 5 out of `.debug_line`; [`LineHeader::rows`]
//! runs its program, and [`LineHeader::rows_as`] keeps of each row what a caller wants.
//! [`LineHeader::read_with`] reads many headers with one finder of the texts that their
//! paths name, [`PathTexts`]. The header and every refusal are exact: they are `line_header_of` of
//! `specs/Headers.antt`. The rows are `line_rows` of `line_machine`.
#![tactic(auto)]

mod defined_files;
mod formats;
mod front;
mod header;
mod laws;
mod names;
mod path_texts;
mod tables;
mod text_tables;

pub use formats::Format;
pub use header::LineHeader;
pub use laws::{
    defined_files_are_those_of_the_operations, last_value_of_a_content_type_counts,
    text_tables_are_their_entries,
};
pub use line_machine::{OfRow, Row};
pub use names::FileName;
pub use path_texts::PathTexts;
