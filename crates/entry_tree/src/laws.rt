//! What the definitions of a unit's entries and facts say in the format's own words. The functions do
//! nothing: their contracts are the laws.

ghost use Rattle.std.specs.Prelude.{◌≡◌};
ghost use Rattle.elf_sections.specs.Shapes.{sections_view};
ghost use Rattle.entry_tree.specs.Facts.{facts_from};
ghost use Rattle.entry_tree.specs.Units.{EntriesTileUnit, IsFirstEntry, entries_of, facts_of, root_of};

use elf_sections::Sections;
use unit_headers::UnitHeader;

/// The entries of a unit tile its area: each stands where what is before it ends, from the area's start
/// at depth 0 up to its end, at whatever depth that is. Where the entries are refused, those before the
/// refusal tile the area up to the place of what is refused.
pub fn entries_tile_the_unit(sections: &Sections<'_>, header: &UnitHeader)
    ensures { EntriesTileUnit (sections_view sections.now) header.now }
{}

/// The facts of a unit are those of the first of its entries. Without a root there is no entry, and a
/// refused root is the refusal of the entries.
pub fn facts_are_of_the_first_entry(sections: &Sections<'_>, header: &UnitHeader)
    ensures first { IsFirstEntry (root_of (sections_view sections.now) header.now)
        (entries_of (sections_view sections.now) header.now) }
    ensures facts { facts_of (sections_view sections.now) header.now
        ≡ facts_from header.now.address_size (sections_view sections.now)
        (root_of (sections_view sections.now) header.now) }
{}
