//! The tables of directories and files in a header of version 4 (DWARF 4 section 6.2.4, items 11 and
//! 12): texts, ended by an empty one.

ghost use Rattle.std.specs.Prelude.{map, option_map};
ghost use Rattle.dw_fields.specs.Reading.{Reads};
ghost use Rattle.unit_headers.specs.Refusals.{AnswersAt};
ghost use Rattle.line_programs.specs.Shapes.{name_view};
ghost use Rattle.line_programs.specs.TextTables.{directory_entry_at, file_entry_at, text_entry_at, text_table_at};

use crate::front::in_header;
use crate::names::FileName;
use dw_fields::{Code, Cut, Fault};
use line_machine::read_file_numbers;
use std::alloc::Global;
use unit_headers::UnitRefusal;

/// Which table of texts it is.
#[derive(Clone, Copy, Debug, PartialEq, Eq)]
pub(crate) enum TextTable {
    /// `include_directories`.
    Directories,
    /// `file_names`.
    Files,
}

/// A table by its numbers, which begin at 1: number 0 is an empty text.
#[tactic(auto, using(crate::proofs::Entries::entries_start))]
pub(crate) fn read_text_table<'f>(
    alloc: Global,
    cut: &mut Cut<'f>,
    table: TextTable,
) -> Result<Vec<FileName<'f>>, UnitRefusal>
    ensures { AnswersAt (λ v. map name_view v.items) result (text_table_at table) cut.old cut.new }
{
    let end = cut.end();
    let left = cut.left();
    let mut names = Vec::new(alloc);
    names.push(FileName {
        path: b"",
        directory: 0,
    })?;
    'entries: for _turn in 0..left {
        let found = read_text_entry(cut, table)?;
        let Some(name) = found else {
            return Ok(names);
        };
        names.push(name)?;
    }
    Err(UnitRefusal::Refused(Fault::at(Code::LineTruncated, end)))
}

/// An entry of a table, or none at the empty text that ends it.
#[tactic(auto, unfolding(crate::specs::TextTables::text_entry_at))]
fn read_text_entry<'f>(cut: &mut Cut<'f>, table: TextTable) -> Result<Option<FileName<'f>>, Fault>
    ensures { Reads (option_map name_view) result (text_entry_at table) cut.old cut.new }
{
    match table {
        TextTable::Directories => read_directory(cut),
        TextTable::Files => read_file(cut),
    }
}

/// A directory: its path.
#[tactic(auto, unfolding(crate::specs::TextTables::directory_entry_at))]
fn read_directory<'f>(cut: &mut Cut<'f>) -> Result<Option<FileName<'f>>, Fault>
    ensures { Reads (option_map name_view) result directory_entry_at cut.old cut.new }
{
    let path = in_header(cut.text())?;
    if path.is_empty() {
        return Ok(None);
    }
    Ok(Some(FileName { path, directory: 0 }))
}

/// A file: its path, the number of its directory, its time and its size.
#[tactic(auto, unfolding(crate::specs::TextTables::file_entry_at))]
fn read_file<'f>(cut: &mut Cut<'f>) -> Result<Option<FileName<'f>>, Fault>
    ensures { Reads (option_map name_view) result file_entry_at cut.old cut.new }
{
    let path = in_header(cut.text())?;
    if path.is_empty() {
        return Ok(None);
    }
    let directory = in_header(read_file_numbers(cut))?;
    Ok(Some(FileName { path, directory }))
}
