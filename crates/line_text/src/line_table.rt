//! The text of a unit's line table (DWARF 5 section 6.2).

ghost use Rattle.std.specs.Prelude.{◌≡◌, Ok};
ghost use Rattle.dw_fields.specs.Reading.{IsAddressSize};
ghost use Rattle.dw_text.specs.Added.{Adds};
ghost use Rattle.elf_sections.specs.Shapes.{sections_view};
ghost use Rattle.unit_text.specs.Pieces.{Writes};
ghost use Rattle.line_text.specs.LineTable.{head_line, lines_text, names_text, table_text};

use crate::line_tables::{LastTable, LineTables};
use crate::names::{first_number, push_directories, push_files};
use crate::row_text::push_rows;
use dw_text::{keep_whole, push_decimal_after, push_hex_after, push_text};
use elf_sections::Sections;
use form_values::UnitFacts;
use line_machine::Row;
use line_programs::LineHeader;
use std::alloc::{AllocError, Global};
use unit_headers::{UnitHeader, UnitRefusal};

/// Appends the line table of a unit: its directories, its files and its rows. A unit without a line
/// offset has none.
///
/// # Errors
/// The first refusal of [`LineHeader::read`] and then of [`LineHeader::rows`], in the order of
/// reading, or want of memory. `out` is then as it was.
pub fn write_lines(
    alloc: Global,
    sections: &Sections<'_>,
    header: &UnitHeader,
    facts: &UnitFacts,
    out: &mut Vec<u8>,
) -> Result<(), UnitRefusal>
    requires { IsAddressSize header.now.address_size }
    ensures { Writes result out.old.items out.new.items
        (lines_text (sections_view sections.now) header.now facts.now.line) }
{
    let mut tables = LineTables::new(sections);
    write_lines_with(alloc, &mut tables, header, facts, out)
}

/// Appends the same, with the tables that were read for the file's other units: a program that the
/// unit before named too is not read again, and a run over all units goes over each section of
/// texts twice at most.
///
/// # Errors
/// Those of [`write_lines`]. `out` is then as it was.
pub fn write_lines_with(
    alloc: Global,
    tables: &mut LineTables<'_>,
    header: &UnitHeader,
    facts: &UnitFacts,
    out: &mut Vec<u8>,
) -> Result<(), UnitRefusal>
    requires { IsAddressSize header.now.address_size }
    ensures text { Writes result out.old.items out.new.items
        (lines_text tables.old header.now facts.now.line) }
    ensures tables { tables.new ≡ tables.old }
{
    match facts.line {
        Some(offset) => tables.write_table(alloc, header, offset, out),
        None => Ok(()),
    }
}

/// Appends the text of a table that was read, as that of a unit.
pub(crate) fn append_table(
    out: &mut Vec<u8>,
    header: &UnitHeader,
    offset: u64,
    table: &LastTable<'_>,
) -> Result<(), UnitRefusal>
    ensures { Writes result out.old.items out.new.items
        (Ok (table_text header.now.number offset table.now.program table.now.rows.items)) }
{
    let before = out.len();
    let done = push_table(
        out,
        u64::from(header.number),
        offset,
        &table.program,
        table.rows.as_slice(),
    );
    Ok(keep_whole(out, before, done)?)
}

/// Appends the head, the directories, the files and the rows of a table.
#[tactic(auto, unfolding(crate::specs::LineTable::table_text))]
fn push_table(
    out: &mut Vec<u8>,
    unit: u64,
    offset: u64,
    program: &LineHeader<'_>,
    rows: &[Row],
) -> Result<(), AllocError>
    ensures { Adds result out.old.items out.new.items
        (table_text unit offset program.now rows.now) }
{
    push_head(out, unit, offset)?;
    push_names(out, program)?;
    push_rows(out, rows)?;
    Ok(())
}

/// Appends the directories and the files of a program.
#[tactic(auto, unfolding(crate::specs::LineTable::names_text))]
fn push_names(out: &mut Vec<u8>, program: &LineHeader<'_>) -> Result<(), AllocError>
    ensures { Adds result out.old.items out.new.items (names_text program.now) }
{
    let first = first_number(program.version());
    push_directories(out, first, program.directories())?;
    push_files(out, first, program.files())?;
    Ok(())
}

/// Appends the first line of a table.
#[tactic(auto, unfolding(crate::specs::LineTable::head_line))]
fn push_head(out: &mut Vec<u8>, unit: u64, offset: u64) -> Result<(), AllocError>
    ensures { Adds result out.old.items out.new.items (head_line unit offset) }
{
    push_decimal_after(out, b"lines of unit ", unit)?;
    push_hex_after(out, b" at 0x", offset)?;
    push_text(out, b"\n")?;
    Ok(())
}
