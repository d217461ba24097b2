//! The texts of line tables (DWARF 5 section 6.2), appended to a list of bytes.
//!
//! [`write_lines`] reads a unit's line program and appends its directories, its files and its rows;
//! [`write_lines_with`] does the same over [`LineTables`], which keep the table that was read last from
//! unit to unit. After any refusal the list is as it was. A row takes no memory of its own but the list's growth.
#![tactic(auto)]

mod line_table;
mod line_tables;
mod names;
mod row_text;

pub use line_table::{write_lines, write_lines_with};
pub use line_tables::LineTables;
