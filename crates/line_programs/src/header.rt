//! The header of a line program (DWARF 5 section 6.2.4, DWARF 4 section 6.2.4).

ghost use Rattle.std.specs.Prelude.{◌≡◌, ◌+◌, ◌-◌, ◌<◌, length, map, IfOk};
ghost use Rattle.dw_fields.specs.Reading.{IsAddressSize, Reads, bytes_at};
ghost use Rattle.elf_sections.specs.Shapes.{sections_view};
ghost use Rattle.unit_headers.specs.Refusals.{Answers};
ghost use Rattle.line_machine.specs.Running.{kept_rows, line_rows};
ghost use Rattle.line_programs.specs.Shapes.{machine_view, name_view, tables_view};
ghost use Rattle.line_programs.specs.Front.{in_header};
ghost use Rattle.line_programs.specs.Headers.{IsLineHeader, fields_of, line_header_of, machine_at, tables_of, tables_of_version_4, tables_of_version_5};

use crate::defined_files::add_defined_files;
use crate::front::{
    in_header, read_bounds, read_instruction_fields, read_special_opcodes, read_start,
};
use crate::names::FileName;
use crate::path_texts::PathTexts;
use crate::tables::{paths, read_table};
use crate::text_tables::{TextTable, read_text_table};
use dw_fields::{Code, Cut, Fault};
use elf_sections::Sections;
use form_values::Widths;
use line_machine::{OfRow, Program, Row, rows, rows_as};
use std::alloc::Global;
use std::marker::Model;
use unit_headers::{UnitHeader, UnitRefusal};

/// The header of a line program, with its directories and files.
#[derive(Drop)]
pub struct LineHeader<'f> {
    code: Cut<'f>,
    program: Program,
    lengths: &'f [u8],
    directories: Vec<&'f [u8]>,
    files: Vec<FileName<'f>>,
}

impl<'f> Model for LineHeader<'f> {
    ghost use Rattle.std.specs.Prelude.{map};
    ghost use Rattle.line_programs.specs.Shapes.{LineView, name_view};
    ghost use Rattle.line_programs.specs.Headers.{IsLineHeader};

    ghost Value = { LineView };

    ghost view = { λ h. record {
      program = h.program;
      lengths = h.lengths.now;
      code = h.code;
      directories = map (λ b. b.now) h.directories.items;
      files = map name_view h.files.items;
    } };

    ghost invariant = { λ h. IsLineHeader h.program h.lengths.now };
}

impl<'f> LineHeader<'f> {
    /// Reads the header at an offset of `.debug_line`, of the unit with this header.
    ///
    /// # Errors
    /// The first in the order of reading:
    /// - `NoSection` at 0 where `.debug_line` is absent;
    /// - `LineTruncated` at the section's length where the offset is at or past it, at the length
    ///   where the program passes the section's end, at `header_length` where the header passes the
    ///   program's end, and at a field or text that passes the header's end;
    /// - `LengthReserved`, `LineVersion`, `MaxOps` and `LineRange` at their fields;
    /// - `LineForm` at a form that its content type can't have, and at a count of entries that have
    ///   no format;
    /// - `LebTooLarge` at a LEB128 outside 64 bits;
    /// - `NoSection`, `TextOutside` and `TextUnended` at a path that stands in another section.
    ///
    /// Or want of memory.
    pub fn read(
        alloc: Global,
        sections: &Sections<'f>,
        header: &UnitHeader,
        offset: u64,
    ) -> Result<LineHeader<'f>, UnitRefusal>
        requires { IsAddressSize header.now.address_size }
        ensures { Answers (λ h. h) result
            (line_header_of (sections_view sections.entry.now) header.now.address_size offset) }
    {
        let mut texts = PathTexts::new(sections);
        LineHeader::read_with(alloc, &mut texts, header, offset)
    }

    /// Reads the same header, with the finder of texts that other headers of the file were read
    /// with. However many paths name one text, a section of texts is gone over twice at most.
    ///
    /// # Errors
    /// Those of [`LineHeader::read`].
    #[tactic(auto, unfolding(crate::specs::Headers::line_header_of))]
    pub fn read_with(
        alloc: Global,
        texts: &mut PathTexts<'f>,
        header: &UnitHeader,
        offset: u64,
    ) -> Result<LineHeader<'f>, UnitRefusal>
        requires { IsAddressSize header.now.address_size }
        ensures header { Answers (λ h. h) result
            (line_header_of texts.old header.now.address_size offset) }
        ensures texts { texts.new ≡ texts.old }
    {
        let order = texts.order();
        let Some(section) = texts.line_section() else {
            return Err(UnitRefusal::from(Fault::at(Code::NoSection, 0)));
        };
        let bounds = read_bounds(section, order, offset)?;
        let mut code = Cut::new(section, bounds.place, bounds.end, order);
        let start = read_start(&mut code, bounds.wide)?;
        let fields = code.front(start.size);
        code.pass(start.size);
        let widths = Widths {
            wide: bounds.wide,
            address_size: header.address_size,
        };
        read_fields(alloc, texts, widths, start.version, code, fields)
    }

    /// The version, 4 or 5. In version 4 the numbers of directories and files begin at 1, and those of
    /// number 0 are empty.
    pub fn version(&self) -> u16
        ensures { result ≡ self.now.program.version }
    {
        self.program.version
    }

    /// The paths of the directories by their numbers.
    pub fn directories(&self) -> &[&'f [u8]]
        ensures { map (λ b. b.now) result.now ≡ self.now.directories }
    {
        self.directories.as_slice()
    }

    /// The files by their numbers. In version 4 those that the program defines stand behind those of the
    /// header.
    pub fn files(&self) -> &[FileName<'f>]
        ensures { map name_view result.now ≡ self.now.files }
    {
        self.files.as_slice()
    }

    /// The rows of the program.
    ///
    /// # Errors
    /// The first operation's that is refused:
    /// - `LineTruncated` at a field that passes the program's end, and behind the length of an
    ///   extended operation that passes it;
    /// - `ExtendedLength` at the length of an extended operation that is 0 or that an operand passes,
    ///   or whose address isn't 2, 4 or 8 bytes;
    /// - `LebTooLarge` at a LEB128 outside 64 bits.
    pub fn rows(&self, alloc: Global) -> Result<Vec<Row>, UnitRefusal>
        ensures { Answers (λ v. v.items) result
            (line_rows self.now.program self.now.lengths self.now.code) }
    {
        rows(alloc, self.code.fork(), &self.program, self.lengths)
    }

    /// What a caller keeps of the rows of the program. No list of whole rows is made.
    ///
    /// # Errors
    /// Those of [`LineHeader::rows`].
    pub fn rows_as<K: OfRow>(&self, alloc: Global) -> Result<Vec<K>, UnitRefusal>
        ensures { Answers (λ v. v.items) result
            (kept_rows K.kept (line_rows self.now.program self.now.lengths self.now.code)) }
    {
        rows_as(alloc, self.code.fork(), &self.program, self.lengths)
    }
}

/// What a header tells its machine.
#[derive(Clone, Copy)]
struct Machine<'f> {
    program: Program,
    lengths: &'f [u8],
}

/// The fields of the machine.
#[tactic(auto, unfolding(crate::specs::Headers::machine_at))]
fn read_machine<'f>(cut: &mut Cut<'f>, version: u16, address_size: u8) -> Result<Machine<'f>, Fault>
    requires { IsAddressSize address_size }
    ensures field { Reads machine_view result (machine_at version address_size) cut.old cut.new }
    ensures runs { IfOk result (λ m. IsLineHeader m.program m.lengths.now) }
{
    let instruction = read_instruction_fields(cut)?;
    let special = read_special_opcodes(cut)?;
    let lengths = read_lengths(cut, special.opcode_base)?;
    let program = Program {
        version,
        min_length: instruction.min_length,
        max_ops: instruction.max_ops,
        default_stmt: instruction.default_stmt,
        line_base: special.line_base,
        line_range: special.line_range,
        opcode_base: special.opcode_base,
        address_size,
    };
    Ok(Machine { program, lengths })
}

/// The lengths of the standard opcodes, as one field.
fn read_lengths<'f>(cut: &mut Cut<'f>, opcode_base: u8) -> Result<&'f [u8], Fault>
    requires { 0 < opcode_base }
    ensures field { Reads (λ b. b.now) result
        (λ s. in_header (bytes_at (opcode_base - 1) s)) cut.old cut.new }
    ensures size { IfOk result (λ b. length b.now + 1 ≡ opcode_base) }
{
    in_header(cut.bytes(u64::from(opcode_base - 1)))
}

/// The directories and files of a header by their numbers.
#[derive(Drop)]
struct Tables<'f> {
    directories: Vec<FileName<'f>>,
    files: Vec<FileName<'f>>,
}

/// The fields from those of the machine on. `code` is the program, and `fields` what is left of the
/// header.
#[tactic(auto, unfolding(crate::specs::Headers::fields_of))]
fn read_fields<'f>(
    alloc: Global,
    texts: &mut PathTexts<'f>,
    widths: Widths,
    version: u16,
    code: Cut<'f>,
    mut fields: Cut<'f>,
) -> Result<LineHeader<'f>, UnitRefusal>
    requires { IsAddressSize widths.address_size }
    ensures header { Answers (λ h. h) result
        (fields_of texts.old widths version code.entry fields.entry) }
    ensures texts { texts.new ≡ texts.old }
{
    let machine = read_machine(&mut fields, version, widths.address_size)?;
    let tables = read_tables(alloc, texts, widths, &machine, &code, fields)?;
    let directories = paths(alloc, tables.directories.as_slice())?;
    Ok(LineHeader {
        code,
        program: machine.program,
        lengths: machine.lengths,
        directories,
        files: tables.files,
    })
}

/// The directories and files, behind the fields of this machine.
#[tactic(auto, unfolding(crate::specs::Headers::tables_of))]
fn read_tables<'f>(
    alloc: Global,
    texts: &mut PathTexts<'f>,
    widths: Widths,
    machine: &Machine<'f>,
    code: &Cut<'f>,
    fields: Cut<'f>,
) -> Result<Tables<'f>, UnitRefusal>
    requires size { IsAddressSize widths.address_size }
    requires known { IsLineHeader machine.now.program machine.now.lengths.now }
    ensures tables { Answers tables_view result
        (tables_of texts.old widths (machine_view machine.now) code.now fields.entry) }
    ensures texts { texts.new ≡ texts.old }
{
    if machine.program.version == 4 {
        return read_tables_of_version_4(alloc, machine, code, fields);
    }
    read_tables_of_version_5(alloc, texts, widths, fields)
}

/// Tables that have formats.
#[tactic(auto, unfolding(crate::specs::Headers::tables_of_version_5))]
fn read_tables_of_version_5<'f>(
    alloc: Global,
    texts: &mut PathTexts<'f>,
    widths: Widths,
    mut fields: Cut<'f>,
) -> Result<Tables<'f>, UnitRefusal>
    requires { IsAddressSize widths.address_size }
    ensures tables { Answers tables_view result
        (tables_of_version_5 texts.old widths fields.entry) }
    ensures texts { texts.new ≡ texts.old }
{
    let directories = read_table(alloc, &mut fields, texts, widths)?;
    let files = read_table(alloc, &mut fields, texts, widths)?;
    Ok(Tables { directories, files })
}

/// Tables of texts, and the files that the program defines.
#[tactic(auto, unfolding(crate::specs::Headers::tables_of_version_4))]
fn read_tables_of_version_4<'f>(
    alloc: Global,
    machine: &Machine<'f>,
    code: &Cut<'f>,
    mut fields: Cut<'f>,
) -> Result<Tables<'f>, UnitRefusal>
    requires { IsLineHeader machine.now.program machine.now.lengths.now }
    ensures { Answers tables_view result
        (tables_of_version_4 (machine_view machine.now) code.now fields.entry) }
{
    let directories = read_text_table(alloc, &mut fields, TextTable::Directories)?;
    let mut files = read_text_table(alloc, &mut fields, TextTable::Files)?;
    add_defined_files(&mut files, code.fork(), &machine.program, machine.lengths)?;
    Ok(Tables { directories, files })
}
