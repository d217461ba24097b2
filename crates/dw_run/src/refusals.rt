//! What can end a command: a refusal of the file, of a unit, or of the abbreviation tables.

use dw_fields::Fault;
use elf_sections::ElfRefusal;

/// The refusal that a run ends with.
#[derive(Clone, Copy, Debug, PartialEq, Eq)]
pub enum Refusal {
    /// The file's section table is refused.
    File(ElfRefusal),
    /// A unit is refused.
    Unit {
        /// The number of the unit.
        unit: u32,
        /// The first fault of the unit.
        fault: Fault,
    },
    /// The abbreviation tables are refused.
    Tables(Fault),
}
