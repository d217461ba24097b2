//! The line tables of units, as they are gathered.

ghost use Rattle.std.specs.Prelude.{◌≡◌, ◌<◌, ◌^◌, [], ◌∷◌, ◌++◌, length, option_map, IfOk, IfSome, OnOk};
ghost use Rattle.std.specs.Result.{result_ok};
ghost use Rattle.dw_fields.specs.Reading.{IsAddressSize};
ghost use Rattle.elf_sections.specs.Shapes.{sections_view};
ghost use Rattle.unit_headers.specs.Refusals.{Answers};
ghost use Rattle.line_programs.specs.LineTables.{table_of};
ghost use Rattle.address_lookup.specs.Kept.{kept_table, kept_table_view};
ghost use Rattle.address_lookup.specs.Built.{AddsTable, IsGathered, NotesProgram};

use crate::names::UnitNames;
use crate::programs::{ProgramKey, UnitProgram};
use elf_sections::Sections;
use line_programs::{LineHeader, PathTexts};
use row_index::KeptRow;
use std::alloc::{AllocError, Global};
use std::collections::BTreeSet;
use unit_headers::UnitRefusal;

/// The greatest number of files that a kept row can tell apart.
const MOST_FILES: usize = 4_294_967_295;

/// The line table of a unit.
#[derive(Drop)]
pub(crate) struct UnitTable<'f> {
    pub names: UnitNames<'f>,
    pub rows: Vec<KeptRow>,
}

/// Reads the header of a unit's line program and runs the program.
#[tactic(auto, unfolding(line_programs::specs::LineTables::table_of))]
fn read_table<'f>(
    alloc: Global,
    texts: &mut PathTexts<'f>,
    unit: u32,
    program: &UnitProgram,
) -> Result<UnitTable<'f>, UnitRefusal>
    requires { IsAddressSize program.now.header.address_size }
    ensures table { Answers kept_table_view result (kept_table
        (table_of texts.old program.now.header.address_size program.now.offset)) }
    ensures number { IfOk result (λ table. table.names.number ≡ unit) }
    ensures texts { texts.new ≡ texts.old }
{
    let header = LineHeader::read_with(alloc, texts, &program.header, program.offset)?;
    let rows = header.rows_as(alloc)?;
    let names = UnitNames {
        number: unit,
        header,
    };
    Ok(UnitTable { names, rows })
}

/// The line table of a unit, if its program isn't refused.
///
/// # Errors
/// Want of memory. A table of more files than 32 bits can number takes 96 GiB, and is not kept: no
/// section has so many bytes.
fn find_table<'f>(
    alloc: Global,
    texts: &mut PathTexts<'f>,
    unit: u32,
    program: &UnitProgram,
) -> Result<Option<UnitTable<'f>>, AllocError>
    requires { IsAddressSize program.now.header.address_size }
    ensures table { IfOk result (λ table. option_map kept_table_view table ≡ result_ok (kept_table
        (table_of texts.old program.now.header.address_size program.now.offset))) }
    ensures number { IfOk result (λ table. IfSome table (λ t. t.names.number ≡ unit)) }
    ensures files { IfOk result (λ table. IfSome table
        (λ t. length t.names.header.files < 2 ^ 32)) }
    ensures texts { texts.new ≡ texts.old }
{
    match read_table(alloc, texts, unit, program) {
        Ok(table) => {
            if table.names.header.files().len() > MOST_FILES {
                return Err(AllocError);
            }
            Ok(Some(table))
        }
        Err(UnitRefusal::Refused(_)) => Ok(None),
        Err(UnitRefusal::OutOfMemory) => Err(AllocError),
    }
}

/// The line tables that were gathered from the units so far.
#[derive(Drop)]
pub(crate) struct Tables<'f> {
    texts: PathTexts<'f>,
    /// The programs that were run.
    programs: BTreeSet<ProgramKey>,
    /// The units that have a table, in their order.
    pub units: Vec<UnitNames<'f>>,
    /// The rows of each of these units.
    pub rows: Vec<Vec<KeptRow>>,
}

/// Notes that a program is run; tells whether it is for the first time.
fn note(programs: &mut BTreeSet<ProgramKey>, key: ProgramKey) -> Result<bool, AllocError>
    ensures { IfOk result (NotesProgram programs.old programs.new key) }
{
    Ok(programs.insert(key)?)
}

impl<'f> Tables<'f> {
    /// No tables yet.
    pub(crate) fn new(alloc: Global, sections: &Sections<'f>) -> Tables<'f>
        ensures gathered { IsGathered (sections_view sections.entry.now) result }
        ensures units { result.units.items ≡ [] }
        ensures rows { result.rows.items ≡ [] }
    {
        Tables {
            texts: PathTexts::new(sections),
            programs: BTreeSet::new(alloc),
            units: Vec::new(alloc),
            rows: Vec::new(alloc),
        }
    }

    /// Adds the table of a unit's program. One that was run for an earlier unit, with addresses of the
    /// same size, is not run again: its rows tell nothing new.
    pub(crate) fn add(
        &mut self,
        alloc: Global,
        unit: u32,
        program: &UnitProgram,
    ) -> Result<(), AllocError>
        requires size { IsAddressSize program.now.header.address_size }
        requires gathered { IsGathered self.old.texts self.old }
        ensures gathered { OnOk result (IsGathered self.old.texts self.new) }
        ensures added { OnOk result (AddsTable unit program.now self.old self.new) }
    {
        if !note(&mut self.programs, program.key())? {
            return Ok(());
        }
        match find_table(alloc, &mut self.texts, unit, program)? {
            Some(table) => self.keep(table),
            None => Ok(()),
        }
    }

    /// Puts a table behind the others.
    fn keep(&mut self, table: UnitTable<'f>) -> Result<(), AllocError>
        ensures units { OnOk result (self.new.units.items
            ≡ self.old.units.items ++ table.entry.names ∷ []) }
        ensures rows { OnOk result (self.new.rows.items
            ≡ self.old.rows.items ++ table.entry.rows ∷ []) }
        ensures texts { self.new.texts ≡ self.old.texts }
        ensures programs { self.new.programs ≡ self.old.programs }
    {
        self.units.push(table.names)?;
        self.rows.push(table.rows)?;
        Ok(())
    }
}
