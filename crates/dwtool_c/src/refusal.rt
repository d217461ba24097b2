//! Refusals as numbers.

ghost use Rattle.std.specs.Prelude.{◌≡◌};
ghost use Rattle.dwtool_c.specs.Refusals.{file_refusal, no_refusal, section_named, tables_refusal, unit_refusal};

use dw_fields::Fault;
use dw_run::file_number;
use elf_sections::ElfRefusal;

/// Nothing is refused.
pub const NOTHING: u16 = 0;
/// The file's section table is refused.
pub const OF_FILE: u16 = 1;
/// A unit is refused.
pub const OF_UNIT: u16 = 2;
/// The abbreviation tables are refused.
pub const OF_TABLES: u16 = 3;

/// A refusal: what is refused, and why.
#[repr(C)]
#[derive(Clone, Copy, Debug, PartialEq, Eq)]
pub struct DwtoolRefusal {
    /// The place of the fault, from the start of its section; 0 where the file is refused.
    pub place: u64,
    /// The number of the section that a file's refusal names, and else 0.
    pub section: u64,
    /// The number of the unit that is refused, and else 0.
    pub unit: u32,
    /// The number of the cause, as the program's line has it; 0 where nothing is refused.
    pub number: u16,
    /// What is refused: nothing (0), the file (1), a unit (2) or the abbreviation tables (3).
    pub what: u16,
}

/// Nothing is refused.
pub(crate) fn no_refusal() -> DwtoolRefusal
    ensures { result ≡ no_refusal }
{
    DwtoolRefusal {
        place: 0,
        section: 0,
        unit: 0,
        number: 0,
        what: NOTHING,
    }
}

/// The refusal of a file's section table.
pub(crate) fn file_refusal(refusal: &ElfRefusal) -> DwtoolRefusal
    ensures { result ≡ file_refusal refusal.now }
{
    DwtoolRefusal {
        place: 0,
        section: section_named(refusal),
        unit: 0,
        number: file_number(refusal) as u16,
        what: OF_FILE,
    }
}

/// The refusal of a unit.
pub(crate) fn unit_refusal(unit: u32, fault: Fault) -> DwtoolRefusal
    ensures { result ≡ unit_refusal unit fault }
{
    DwtoolRefusal {
        place: fault.place,
        section: 0,
        unit,
        number: u16::from(fault.code.number()),
        what: OF_UNIT,
    }
}

/// The refusal of the abbreviation tables.
pub(crate) fn tables_refusal(fault: Fault) -> DwtoolRefusal
    ensures { result ≡ tables_refusal fault }
{
    DwtoolRefusal {
        place: fault.place,
        section: 0,
        unit: 0,
        number: u16::from(fault.code.number()),
        what: OF_TABLES,
    }
}

/// The section that it names, and 0 where it names none.
fn section_named(refusal: &ElfRefusal) -> u64
    ensures { result ≡ section_named refusal.now }
{
    match refusal {
        ElfRefusal::SectionBounds(section) => *section,
        ElfRefusal::Compressed(section) => *section,
        ElfRefusal::NameOutside(section) => *section,
        _ => 0,
    }
}
