//! The texts of units.

ghost use Rattle.std.specs.Prelude.{◌≡◌, ◌<◌, [], IfOk, OnErr};
ghost use Rattle.elf_sections.specs.Shapes.{AreShort, sections_view};
ghost use Rattle.entry_tree.specs.Units.{IsUnitOf, facts_of};
ghost use Rattle.dump_workers.specs.UnitDumps.{unit_dump};
ghost use Rattle.unit_headers.specs.Headers.{unit_count};
ghost use Rattle.unit_headers.specs.Refusals.{Answers};
ghost use Rattle.unit_text.specs.Pieces.{Writes};
ghost use Rattle.unit_text.specs.UnitStreams.{streamed_lists, streamed_unit};
ghost use Rattle.unit_text.specs.UnitView.{unit_of};
ghost use Rattle.dw_run.specs.Parts.{unit_part};
ghost use Rattle.dw_run.specs.declared.parts.Part.TheVariants as parts;
ghost use Rattle.dwtool_c.specs.Answers.{Ends, IsTold, on_unit_numbered};
ghost use Rattle.dwtool_c.specs.Texts.{text_of_elf, unit_text, unit_text_answer, unit_text_by, unit_text_of_file};

use crate::answers::{Told, hand_out, told_of_unit};
use crate::commands::{UnitCommand, unit_command};
use crate::refusal::{DwtoolRefusal, file_refusal};
use crate::units::read_index;
use abbrev_decl::Steps;
use bumpalo::Bump;
use dw_fields::Fault;
use elf_sections::{Elf, OpenRefusal, Sections};
use entry_tree::root_facts;
use form_values::UnitFacts;
use line_text::{LineTables, write_lines_with};
use std::alloc::{AllocError, Global};
use std::marker::Model;
use unit_headers::{UnitHeader, UnitIndex, UnitRefusal};
use unit_text::{LastLists, stream_lists, stream_unit, write_unit_line};
use walked_tables::TableWalker;

/// What the first entry of a unit says of it. Its declaration is found by this walker.
fn read_facts<'f>(
    walker: &mut TableWalker<'f>,
    sections: &Sections<'f>,
    header: &UnitHeader,
) -> Result<UnitFacts, Fault>
    requires walks { walker.old ≡ (sections_view sections.now).«abbrev» }
    requires short { AreShort (sections_view sections.now) }
    requires unit { IsUnitOf (sections_view sections.now) header.now }
    ensures facts { result ≡ facts_of (sections_view sections.now) header.now }
    ensures walks { walker.new ≡ walker.old }
{
    let mut steps = Steps::start(());
    root_facts(walker, header, sections, &mut steps)
}

/// Puts the text of a unit in the place of what `out` held. The declarations of its entries are found by this walker.
fn put_unit_text<'a, 'f: 'a>(
    alloc: Global,
    arena: &'a Bump,
    walker: &mut TableWalker<'f>,
    sections: &Sections<'f>,
    header: &UnitHeader,
    facts: &UnitFacts,
    out: &mut Vec<u8>,
) -> Result<(), UnitRefusal>
    requires walks { walker.old ≡ (sections_view sections.now).«abbrev» }
    requires short { AreShort (sections_view sections.now) }
    requires unit { IsUnitOf (sections_view sections.now) header.now }
    ensures text { Answers (λ done. out.new.items) result
        (streamed_unit (unit_of (sections_view sections.entry.now) header.now facts.now)) }
    ensures empty { OnErr result (out.new.items ≡ []) }
    ensures walks { walker.new ≡ walker.old }
{
    let mut steps = Steps::start(());
    match stream_unit(
        alloc, arena, walker, header, sections, facts, out, &mut steps,
    ) {
        Ok(_) => Ok(()),
        Err(refusal) => Err(refusal),
    }
}

/// Appends the lists of a unit. The declarations of its entries are found by this walker.
fn write_unit_lists<'a, 'f: 'a>(
    alloc: Global,
    arena: &'a Bump,
    walker: &mut TableWalker<'f>,
    lists: &mut LastLists<'f>,
    sections: &Sections<'f>,
    header: &UnitHeader,
    facts: &UnitFacts,
    out: &mut Vec<u8>,
) -> Result<(), UnitRefusal>
    requires walks { walker.old ≡ (sections_view sections.now).«abbrev» }
    requires lists { lists.old ≡ sections_view sections.now }
    requires short { AreShort (sections_view sections.now) }
    requires unit { IsUnitOf (sections_view sections.now) header.now }
    ensures text { Writes result out.old.items out.new.items
        (streamed_lists (unit_of (sections_view sections.entry.now) header.now facts.now)) }
    ensures walks { walker.new ≡ walker.old }
    ensures lists { lists.new ≡ lists.old }
{
    let mut steps = Steps::start(());
    stream_lists(
        alloc, lists, arena, walker, header, sections, facts, out, &mut steps,
    )
}

/// The units of a file, with the line table and the lists that were read last, and how far the declarations of
/// the last unit were walked.
#[derive(Drop)]
pub(crate) struct FileUnits<'f> {
    sections: Sections<'f>,
    index: UnitIndex<'f>,
    walker: TableWalker<'f>,
    tables: LineTables<'f>,
    lists: LastLists<'f>,
}

impl<'f> Model for FileUnits<'f> {
    ghost use Rattle.std.specs.Prelude.{◌≡◌};
    ghost use Rattle.elf_sections.specs.Shapes.{AreShort, SectionsView, sections_view};
    ghost use Rattle.entry_tree.specs.Units.{units_of};

    ghost Value = { SectionsView };

    ghost view = { λ u. sections_view u.sections };

    ghost invariant = { λ u. AreShort (sections_view u.sections)
        × (u.index ≡ units_of (sections_view u.sections))
        × (u.tables ≡ sections_view u.sections) × (u.lists ≡ sections_view u.sections)
        × (u.walker ≡ (sections_view u.sections).«abbrev») };
}

impl<'f> FileUnits<'f> {
    /// The units of some sections, of which nothing was read yet.
    pub(crate) fn read(alloc: Global, sections: &Sections<'f>) -> Result<FileUnits<'f>, AllocError>
        requires { AreShort (sections_view sections.now) }
        ensures { IfOk result (λ u. u ≡ sections_view sections.entry.now) }
    {
        let index = read_index(alloc, sections)?;
        Ok(FileUnits {
            sections: *sections,
            index,
            walker: TableWalker::new(alloc, sections.abbrev),
            tables: LineTables::new(sections),
            lists: LastLists::new(sections),
        })
    }

    /// How many units there are.
    pub(crate) fn count(&self) -> u32
        ensures { result ≡ unit_count self.now.info self.now.order }
    {
        self.index.count()
    }

    /// Puts what a command prints of a unit into `out`, which is empty. The declarations of the unit's entries lie in
    /// the arena.
    ///
    /// # Errors
    /// The first fault of the unit, or want of memory; `out` is then empty.
    pub(crate) fn put_text(
        &mut self,
        alloc: Global,
        command: UnitCommand,
        arena: &Bump,
        unit: u32,
        out: &mut Vec<u8>,
    ) -> Result<(), UnitRefusal>
        requires unit { unit < unit_count self.old.info self.old.order }
        requires empty { out.old.items ≡ [] }
        ensures text { Writes result out.old.items out.new.items
            (unit_text command self.old unit) }
        ensures same { self.new ≡ self.old }
    {
        match command {
            UnitCommand::Units => self.append_line(alloc, unit, out),
            UnitCommand::Dump => self.put_entries(alloc, arena, unit, out),
            UnitCommand::Lines => self.append_lines(alloc, unit, out),
            UnitCommand::Ranges => self.append_lists(alloc, arena, unit, out),
        }
    }

    /// Appends the line of a unit.
    #[tactic(auto, unfolding(dw_run::specs::Parts::unit_part, dw_run::specs::Parts::part_of))]
    fn append_line(&self, alloc: Global, unit: u32, out: &mut Vec<u8>) -> Result<(), UnitRefusal>
        requires { unit < unit_count self.now.info self.now.order }
        ensures { Writes result out.old.items out.new.items
            (unit_part parts.Line self.now unit) }
    {
        let header = self.index.header(unit)?;
        Ok(write_unit_line(alloc, &header, out)?)
    }

    /// Puts the text of a unit with its entries into `out`, which is empty.
    #[tactic(auto, unfolding(dump_workers::specs::UnitDumps::unit_dump, unit_text::specs::UnitStreams::streamed_unit))]
    fn put_entries(
        &mut self,
        alloc: Global,
        arena: &Bump,
        unit: u32,
        out: &mut Vec<u8>,
    ) -> Result<(), UnitRefusal>
        requires unit { unit < unit_count self.old.info self.old.order }
        requires empty { out.old.items ≡ [] }
        ensures text { Writes result out.old.items out.new.items (unit_dump self.old unit) }
        ensures same { self.new ≡ self.old }
    {
        let header = self.index.header(unit)?;
        let facts = read_facts(&mut self.walker, &self.sections, &header)?;
        put_unit_text(
            alloc,
            arena,
            &mut self.walker,
            &self.sections,
            &header,
            &facts,
            out,
        )
    }

    /// Appends the line table of a unit.
    #[tactic(auto, unfolding(dw_run::specs::Parts::unit_part, dw_run::specs::Parts::part_of))]
    fn append_lines(
        &mut self,
        alloc: Global,
        unit: u32,
        out: &mut Vec<u8>,
    ) -> Result<(), UnitRefusal>
        requires { unit < unit_count self.old.info self.old.order }
        ensures text { Writes result out.old.items out.new.items
            (unit_part parts.LineTable self.old unit) }
        ensures same { self.new ≡ self.old }
    {
        let header = self.index.header(unit)?;
        let facts = read_facts(&mut self.walker, &self.sections, &header)?;
        write_lines_with(alloc, &mut self.tables, &header, &facts, out)
    }

    /// Appends the range lists and location lists of a unit, whose declarations lie in the arena.
    #[tactic(auto, unfolding(dw_run::specs::Parts::unit_part, dw_run::specs::Parts::part_of))]
    fn append_lists(
        &mut self,
        alloc: Global,
        arena: &Bump,
        unit: u32,
        out: &mut Vec<u8>,
    ) -> Result<(), UnitRefusal>
        requires { unit < unit_count self.old.info self.old.order }
        ensures text { Writes result out.old.items out.new.items
            (unit_part parts.Lists self.old unit) }
        ensures same { self.new ≡ self.old }
    {
        let header = self.index.header(unit)?;
        let facts = read_facts(&mut self.walker, &self.sections, &header)?;
        write_unit_lists(
            alloc,
            arena,
            &mut self.walker,
            &mut self.lists,
            &self.sections,
            &header,
            &facts,
            out,
        )
    }
}

/// What a command prints of a unit.
fn read_text(
    alloc: Global,
    command: UnitCommand,
    units: &mut FileUnits<'_>,
    unit: u32,
) -> Result<Vec<u8>, UnitRefusal>
    requires { unit < unit_count units.old.info units.old.order }
    ensures { Answers (λ v. v.items) result (unit_text command units.old unit) }
{
    let arena = Bump::new(alloc);
    let mut text = Vec::new(alloc);
    units.put_text(alloc, command, &arena, unit, &mut text)?;
    Ok(text)
}

/// What a command prints of the unit of this number, among these.
fn told_among(
    alloc: Global,
    command: UnitCommand,
    units: &mut FileUnits<'_>,
    unit: u32,
) -> Result<Told<u8>, AllocError>
    ensures { IfOk result (λ t. IsTold (on_unit_numbered (unit_text command) unit units.old)
        t.status t.items.items t.refusal) }
{
    if unit < units.count() {
        let read = read_text(alloc, command, units, unit);
        return told_of_unit(alloc, unit, read);
    }
    Ok(Told::none_such(alloc))
}

/// What a command prints of the unit of this number.
fn told_text(
    alloc: Global,
    command: UnitCommand,
    sections: &Sections<'_>,
    unit: u32,
) -> Result<Told<u8>, AllocError>
    requires { AreShort (sections_view sections.now) }
    ensures { IfOk result (λ t. IsTold
        (on_unit_numbered (unit_text command) unit (sections_view sections.now))
        t.status t.items.items t.refusal) }
{
    let mut units = FileUnits::read(alloc, sections)?;
    told_among(alloc, command, &mut units, unit)
}

/// What a command prints of a unit of a file's bytes, or the refusal of the file or the unit.
#[tactic(auto, unfolding(crate::specs::Texts::unit_text_of_file))]
fn tell_text(
    alloc: Global,
    command: UnitCommand,
    file: &[u8],
    unit: u32,
) -> Result<Told<u8>, AllocError>
    ensures { IfOk result
        (λ t. IsTold (unit_text_of_file command unit file.now) t.status t.items.items t.refusal) }
{
    match Elf::read(alloc, file) {
        Ok(elf) => told_text(alloc, command, &elf.debug_sections(), unit),
        Err(OpenRefusal::Refused(refusal)) => Ok(Told::refused(alloc, file_refusal(&refusal))),
        Err(OpenRefusal::OutOfMemory) => Err(AllocError),
    }
}

/// The same, of the command of this number.
fn tell_numbered(
    alloc: Global,
    command: u32,
    file: &[u8],
    unit: u32,
) -> Result<Told<u8>, AllocError>
    ensures { IfOk result
        (λ t. IsTold (unit_text_answer command unit file.now) t.status t.items.items t.refusal) }
{
    match unit_command(command) {
        Some(command) => tell_text(alloc, command, file, unit),
        None => Ok(Told::none_such(alloc)),
    }
}

/// What the command of this number prints of one unit: the front of the text that fits `text`.
/// `size` is how many bytes it has. The texts of all units, in their order, are what the program
/// prints of the file. Commands are `UNITS`, `DUMP`, `LINES` and `RANGES`. `refusal` is that of the
/// section table or of the unit.
///
/// # Errors
/// Answers `DONE`; `REFUSED`, and then there is no text; `NONE_SUCH` where there is no unit of this
/// number, or the number is that of no such command; or `NO_MEMORY`, and then `text` is as it was and
/// `size` is 0.
#[unsafe(no_mangle)]
pub extern "C" fn dwtool_unit_text(
    alloc: Global,
    command: u32,
    file: &[u8],
    unit: u32,
    text: &mut [u8],
    size: &mut usize,
    refusal: &mut DwtoolRefusal,
) -> u8
    ensures { Ends (unit_text_answer command unit file.now) result text.old text.new
        size.new refusal.new }
{
    hand_out(
        tell_numbered(alloc, command, file, unit),
        text,
        size,
        refusal,
    )
}
