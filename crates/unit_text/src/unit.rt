//! What the texts of a unit are made of.

use elf_sections::Sections;
use form_values::UnitFacts;
use unit_headers::UnitHeader;

/// A unit's header and facts, and the sections that they are of.
#[derive(Clone, Copy)]
pub(crate) struct Unit<'a, 'f> {
    /// The sections.
    pub sections: &'a Sections<'f>,
    /// The header.
    pub header: &'a UnitHeader,
    /// What the unit's root says of it.
    pub facts: &'a UnitFacts,
}
