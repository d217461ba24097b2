//! The rows of a unit's line table.

ghost use Rattle.std.specs.Prelude.{◌≡◌, ◌<◌, IfOk};
ghost use Rattle.dw_fields.specs.Reading.{IsAddressSize};
ghost use Rattle.elf_sections.specs.Shapes.{AreShort, sections_of, sections_view};
ghost use Rattle.entry_tree.specs.Units.{units_of};
ghost use Rattle.line_machine.specs.Running.{kept_rows};
ghost use Rattle.unit_headers.specs.Headers.{unit_count};
ghost use Rattle.unit_headers.specs.Refusals.{Answers};
ghost use Rattle.dwtool_c.specs.Answers.{Ends, IsTold, on_unit_numbered};
ghost use Rattle.dwtool_c.specs.Lines.{flag_number, line_row, lines_answer, lines_of_elf, rows_at, rows_named, unit_lines};

use crate::answers::{Told, hand_out, told_of_unit};
use crate::refusal::{DwtoolRefusal, file_refusal};
use crate::units::read_index;
use abbrev_decl::{Scanner, Steps};
use elf_sections::{Elf, OpenRefusal, Sections};
use entry_tree::root_facts;
use line_programs::{LineHeader, OfRow, Row};
use std::alloc::{AllocError, Global};
use unit_headers::{UnitHeader, UnitIndex, UnitRefusal};

/// A row of a unit's line table (DWARF 5 section 6.2.2). A flag is 1 where it holds, else 0.
#[repr(C)]
#[derive(Clone, Copy, Debug, PartialEq, Eq)]
pub struct DwtoolLine {
    /// The address of an instruction, or of its first operation.
    pub address: u64,
    /// Which operation of the instruction, on machines that pack several into one.
    pub op_index: u64,
    /// The number of the source file.
    pub file: u64,
    /// The line in that file; modulo `2^64`.
    pub line: u64,
    /// The column in that line; 0 where none is told.
    pub column: u64,
    /// The instruction set.
    pub isa: u64,
    /// Tells blocks of one line apart.
    pub discriminator: u64,
    /// Whether the instruction is a good place for a breakpoint.
    pub stmt: u8,
    /// Whether a basic block begins here.
    pub block: u8,
    /// Whether a function's prologue ends here.
    pub prologue_end: u8,
    /// Whether a function's epilogue begins here.
    pub epilogue_begin: u8,
    /// Whether the address is the first behind a sequence of instructions.
    pub end: u8,
}

/// 1 where the flag holds.
fn flag_number(flag: bool) -> u8
    ensures { result ≡ flag_number flag }
{
    if flag { 1 } else { 0 }
}

/// All of a row.
impl OfRow for DwtoolLine {
    ghost use Rattle.dwtool_c.specs.Lines.{line_row};

    ghost kept = { line_row };

    #[tactic(auto, unfolding(crate::specs::Lines::line_row))]
    fn of_row(row: &Row) -> DwtoolLine {
        DwtoolLine {
            address: row.address,
            op_index: row.op_index,
            file: row.file,
            line: row.line,
            column: row.column,
            isa: row.isa,
            discriminator: row.discriminator,
            stmt: flag_number(row.stmt),
            block: flag_number(row.block),
            prologue_end: flag_number(row.prologue_end),
            epilogue_begin: flag_number(row.epilogue_begin),
            end: flag_number(row.end),
        }
    }
}

/// The rows of the program at an offset of `.debug_line`.
#[tactic(auto, unfolding(crate::specs::Lines::rows_at, line_programs::specs::LineTables::table_of))]
fn read_program(
    alloc: Global,
    sections: &Sections<'_>,
    header: &UnitHeader,
    offset: u64,
) -> Result<Vec<DwtoolLine>, UnitRefusal>
    requires { IsAddressSize header.now.address_size }
    ensures { Answers (λ v. v.items) result (kept_rows line_row
        (rows_at (sections_view sections.now) header.now.address_size offset)) }
{
    let program = LineHeader::read(alloc, sections, header, offset)?;
    program.rows_as(alloc)
}

/// The rows of the program that a unit names, if it names one.
fn read_named(
    alloc: Global,
    sections: &Sections<'_>,
    header: &UnitHeader,
    offset: Option<u64>,
) -> Result<Vec<DwtoolLine>, UnitRefusal>
    requires { IsAddressSize header.now.address_size }
    ensures { Answers (λ v. v.items) result (kept_rows line_row
        (rows_named (sections_view sections.now) header.now offset)) }
{
    match offset {
        Some(offset) => read_program(alloc, sections, header, offset),
        None => Ok(Vec::new(alloc)),
    }
}

/// The rows of a unit.
#[tactic(auto, unfolding(crate::specs::Lines::unit_rows))]
fn read_lines(
    alloc: Global,
    sections: &Sections<'_>,
    index: &UnitIndex<'_>,
    unit: u32,
) -> Result<Vec<DwtoolLine>, UnitRefusal>
    requires short { AreShort (sections_view sections.now) }
    requires index { index.now ≡ units_of (sections_view sections.now) }
    requires unit { unit < unit_count index.now.info index.now.order }
    ensures { Answers (λ v. v.items) result (unit_lines (sections_view sections.now) unit) }
{
    let header = index.header(unit)?;
    let mut scanner = Scanner::new(sections.abbrev);
    let mut steps = Steps::start(());
    let facts = root_facts(&mut scanner, &header, sections, &mut steps)?;
    read_named(alloc, sections, &header, facts.line)
}

/// The rows of the unit of this number.
fn told_lines(
    alloc: Global,
    sections: &Sections<'_>,
    unit: u32,
) -> Result<Told<DwtoolLine>, AllocError>
    requires { AreShort (sections_view sections.now) }
    ensures { IfOk result (λ t. IsTold
        (on_unit_numbered unit_lines unit (sections_view sections.now))
        t.status t.items.items t.refusal) }
{
    let index = read_index(alloc, sections)?;
    if unit < index.count() {
        return told_of_unit(alloc, unit, read_lines(alloc, sections, &index, unit));
    }
    Ok(Told::none_such(alloc))
}

/// The rows of a unit of a file's bytes, or the refusal of the file or the unit.
#[tactic(auto, unfolding(crate::specs::Lines::lines_answer))]
fn tell_lines(alloc: Global, file: &[u8], unit: u32) -> Result<Told<DwtoolLine>, AllocError>
    ensures { IfOk result
        (λ t. IsTold (lines_answer unit file.now) t.status t.items.items t.refusal) }
{
    match Elf::read(alloc, file) {
        Ok(elf) => told_lines(alloc, &elf.debug_sections(), unit),
        Err(OpenRefusal::Refused(refusal)) => Ok(Told::refused(alloc, file_refusal(&refusal))),
        Err(OpenRefusal::OutOfMemory) => Err(AllocError),
    }
}

/// The rows of the line table that a unit names, in the order of its line program: the front of them
/// that fits `rows`. `count` is how many there are; a unit that names no line program has none.
/// `refusal` is that of the section table, of the unit's header, of its first entry or of its line
/// program.
///
/// # Errors
/// Answers `DONE`; `REFUSED`, and then there is no row; `NONE_SUCH` where there is no unit of this
/// number; or `NO_MEMORY`, and then `rows` is as it was and `count` is 0.
#[unsafe(no_mangle)]
pub extern "C" fn dwtool_lines(
    alloc: Global,
    file: &[u8],
    unit: u32,
    rows: &mut [DwtoolLine],
    count: &mut usize,
    refusal: &mut DwtoolRefusal,
) -> u8
    ensures { Ends (lines_answer unit file.now) result rows.old rows.new count.new refusal.new }
{
    hand_out(tell_lines(alloc, file, unit), rows, count, refusal)
}
