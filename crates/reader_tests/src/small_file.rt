//! The sections of a small file: its units and its declarations, and no others; and the header of a small unit.

ghost use Rattle.std.specs.Prelude.{◌≡◌, ◌<◌, ◌^◌, length};
ghost use Rattle.dw_fields.specs.declared.byte_order.Order.TheVariants.{Little};
ghost use Rattle.elf_sections.specs.Shapes.{sections_view, AreShort};

use dw_fields::Order;
use elf_sections::Sections;
use unit_headers::{Extra, UnitHeader, UnitKind};

/// The header of a unit that is the first 25 bytes of `.debug_info`.
pub(crate) const HEADER: UnitHeader = UnitHeader {
    number: 0,
    place: 0,
    end: 25,
    wide: false,
    version: 5,
    kind: UnitKind::Compile,
    address_size: 8,
    abbrev: 0,
    entries: 12,
    extra: Extra::Nothing,
};

/// A little-endian file of these bytes of `.debug_info` and of `.debug_abbrev`.
pub(crate) fn sections_of<'f>(info: &'f [u8], declarations: &'f [u8]) -> Sections<'f>
    requires info { length info.now < 2 ^ 31 }
    requires declarations { length declarations.now < 2 ^ 31 }
    ensures order { (sections_view result).order ≡ Little }
    ensures info { (sections_view result).info ≡ info.entry.now }
    ensures declarations { (sections_view result).«abbrev» ≡ declarations.entry.now }
    ensures short { AreShort (sections_view result) }
{
    Sections {
        info,
        abbrev: declarations,
        ..Sections::none(Order::Little)
    }
}
