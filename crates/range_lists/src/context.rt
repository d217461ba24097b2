//! What the entries of a list depend on besides its bytes.

ghost use Rattle.std.specs.Prelude.{◌≡◌};
ghost use Rattle.range_lists.specs.Context.{has_pairs};

use elf_sections::Sections;
use form_values::Bases;
use unit_headers::UnitHeader;

/// The unit that a list belongs to: its header, its bases, and the sections.
#[derive(Clone, Copy)]
pub(crate) struct UnitContext<'a, 'f> {
    pub sections: &'a Sections<'f>,
    pub header: &'a UnitHeader,
    pub bases: &'a Bases,
}

/// Whether the lists of units of this version are pairs of addresses, in sections of their own.
#[inline]
#[tactic(auto, unfolding(crate::specs::Context::has_pairs))]
pub(crate) fn has_pairs(version: u16) -> bool
    ensures { result ≡ has_pairs version }
{
    version == 4
}
