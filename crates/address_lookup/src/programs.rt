//! Where the line programs of units stand (DWARF 5 section 3.1.1).

ghost use Rattle.std.specs.Prelude.{◌≡◌, ◌<◌, IfOk, IfSome};
ghost use Rattle.dw_fields.specs.Reading.{IsAddressSize};
ghost use Rattle.elf_sections.specs.Shapes.{sections_view};
ghost use Rattle.unit_headers.specs.Headers.{unit_count};
ghost use Rattle.entry_tree.specs.Units.{units_of};
ghost use Rattle.address_lookup.specs.Programs.{key_of, program_of, program_read, unit_program};

use abbrev_decl::{Decls, Steps};
use dw_fields::Fault;
use elf_sections::Sections;
use entry_tree::root_facts;
use form_values::UnitFacts;
use unit_headers::{UnitHeader, UnitIndex};

/// The line program of a unit: the unit's header, and the offset in `.debug_line`.
#[derive(Clone, Copy)]
pub(crate) struct UnitProgram {
    pub header: UnitHeader,
    pub offset: u64,
}

/// What the table of a program depends on besides the sections.
#[derive(Clone, Copy, PartialEq, Eq, PartialOrd, Ord)]
pub(crate) struct ProgramKey {
    pub offset: u64,
    pub address_size: u8,
}

impl UnitProgram {
    /// What its table depends on.
    pub(crate) fn key(&self) -> ProgramKey
        ensures { result ≡ key_of self.now }
    {
        ProgramKey {
            offset: self.offset,
            address_size: self.header.address_size,
        }
    }
}

/// The program that a unit's first entry names, if it names one.
fn program_of(header: UnitHeader, facts: &UnitFacts) -> Option<UnitProgram>
    ensures { result ≡ program_of header facts.now }
{
    match facts.line {
        Some(offset) => Some(UnitProgram { header, offset }),
        None => None,
    }
}

/// Reads the header and the first entry of a unit.
#[tactic(auto, unfolding(crate::specs::Programs::program_read))]
fn read_program<'f, D: Decls<'f>, L>(
    sections: &Sections<'f>,
    index: &UnitIndex<'f>,
    decls: &mut D,
    steps: &mut Steps<L>,
    unit: u32,
) -> Result<Option<UnitProgram>, Fault>
    requires index { index.now ≡ units_of (sections_view sections.now) }
    requires section { D.section decls.old ≡ (sections_view sections.now).«abbrev» }
    requires unit { unit < unit_count index.now.info index.now.order }
    ensures program { result ≡ program_read (sections_view sections.entry.now) unit }
    ensures size { IfOk result (λ found. IfSome found
        (λ program. IsAddressSize program.header.address_size)) }
    ensures follows { D.follows decls.old decls.new }
{
    let header = index.header(unit)?;
    let facts = root_facts(decls, &header, sections, steps)?;
    Ok(program_of(header, &facts))
}

/// The line program of a unit, if neither its header nor its first entry is refused and it has one.
#[tactic(auto, unfolding(crate::specs::Programs::unit_program))]
pub(crate) fn find_program<'f, D: Decls<'f>, L>(
    sections: &Sections<'f>,
    index: &UnitIndex<'f>,
    decls: &mut D,
    steps: &mut Steps<L>,
    unit: u32,
) -> Option<UnitProgram>
    requires index { index.now ≡ units_of (sections_view sections.now) }
    requires section { D.section decls.old ≡ (sections_view sections.now).«abbrev» }
    requires unit { unit < unit_count index.now.info index.now.order }
    ensures program { result ≡ unit_program (sections_view sections.entry.now) unit }
    ensures size { IfSome result (λ program. IsAddressSize program.header.address_size) }
    ensures follows { D.follows decls.old decls.new }
{
    match read_program(sections, index, decls, steps, unit) {
        Ok(program) => program,
        Err(_) => None,
    }
}
