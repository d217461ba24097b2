//! What an offset or an index in a value stands for (DWARF 5, sections 7.26 to 7.29).

ghost use Rattle.std.specs.Prelude.{◌≡◌, IsTrue, option_map};
ghost use Rattle.dw_fields.specs.Reading.{IsAddressSize};
ghost use Rattle.elf_sections.specs.Shapes.{sections_view};
ghost use Rattle.form_values.specs.View.{raw_view, is_text, is_address, is_list};
ghost use Rattle.form_values.specs.Resolved.{SameText, text_of, address_of, list_of, indexed_text as text_by_index, indexed_address as address_by_index, indexed_list as list_by_index, offset_size};

use crate::raw::{Bases, Raw};
use crate::words::{text_at_offset, text_in, word};
use dw_fields::{Code, Order};
use elf_sections::Sections;
use unit_headers::UnitHeader;

/// The text that a value stands for. The value is one of `Text`, `TextOffset`, `LineTextOffset` and
/// `TextIndex`.
///
/// # Errors
/// The first of these causes.
/// - `NoBase`: the value is an index and the unit has no base for it.
/// - `NoSection`: a section that is needed is absent.
/// - `IndexOutside`: the offset that the index names isn't wholly in its section.
/// - `TextOutside`: the text's offset is at or past its section's end.
/// - `TextUnended`: no zero byte ends the text.
#[tactic(auto, unfolding(crate::specs::Resolved::text_of))]
pub fn resolve_text<'f>(
    raw: &Raw<'f>,
    header: &UnitHeader,
    sections: &Sections<'f>,
    bases: &Bases,
) -> Result<&'f [u8], Code>
    requires { IsTrue (is_text (raw_view raw.now)) }
    ensures { SameText result (text_of (raw_view raw.entry.now) header.now.wide
        (sections_view sections.entry.now) bases.now) }
{
    match *raw {
        Raw::Text(text) => Ok(text),
        Raw::TextOffset(offset) => text_in(sections.text, offset),
        Raw::LineTextOffset(offset) => text_in(sections.line_text, offset),
        Raw::TextIndex(index) => indexed_text(index, header.wide, sections, bases.text),
        _ => unreachable!(),
    }
}

/// The address that a value stands for. The value is one of `Address` and `AddressIndex`, and the unit's
/// address size is 2, 4 or 8.
///
/// # Errors
/// The first of these causes.
/// - `NoBase`: the value is an index and the unit has no base for it.
/// - `NoSection`: `.debug_addr` is absent.
/// - `IndexOutside`: the address that the index names isn't wholly in its section.
#[tactic(auto, unfolding(crate::specs::Resolved::address_of))]
pub fn resolve_address(
    raw: &Raw<'_>,
    header: &UnitHeader,
    sections: &Sections<'_>,
    bases: &Bases,
) -> Result<u64, Code>
    requires kind { IsTrue (is_address (raw_view raw.now)) }
    requires size { IsAddressSize header.now.address_size }
    ensures { result ≡ address_of (raw_view raw.entry.now) header.now.address_size
        (sections_view sections.entry.now) bases.now }
{
    match *raw {
        Raw::Address(address) => Ok(address),
        Raw::AddressIndex(index) => indexed_address(
            index,
            header.address_size,
            sections,
            bases.address,
        ),
        _ => unreachable!(),
    }
}

/// The place that a value stands for in the section of the lists of its kind, or of other data. The
/// value is one of `Offset`, `RangeIndex` and `LocationIndex`.
///
/// # Errors
/// The first of these causes.
/// - `NoBase`: the value is an index and the unit has no base for it.
/// - `NoSection`: the section of the lists is absent.
/// - `IndexOutside`: the offset that the index names isn't wholly in its section, or 64 bits don't hold
///   the place.
#[tactic(auto, unfolding(crate::specs::Resolved::list_of))]
pub fn resolve_list(
    raw: &Raw<'_>,
    header: &UnitHeader,
    sections: &Sections<'_>,
    bases: &Bases,
) -> Result<u64, Code>
    requires { IsTrue (is_list (raw_view raw.now)) }
    ensures { result ≡ list_of (raw_view raw.entry.now) header.now.wide
        (sections_view sections.entry.now) bases.now }
{
    match *raw {
        Raw::Offset(offset) => Ok(offset),
        Raw::RangeIndex(index) => indexed_list(
            index,
            header.wide,
            sections.order,
            sections.range_lists,
            bases.ranges,
        ),
        Raw::LocationIndex(index) => indexed_list(
            index,
            header.wide,
            sections.order,
            sections.location_lists,
            bases.locations,
        ),
        _ => unreachable!(),
    }
}

/// How many bytes an offset has.
#[inline]
fn offset_bytes(wide: bool) -> u8
    ensures value { result ≡ offset_size wide }
    ensures known { IsAddressSize result }
{
    if wide { 8 } else { 4 }
}

/// The text whose offset stands in `.debug_str_offsets`.
#[tactic(auto, unfolding(crate::specs::Resolved::indexed_text))]
fn indexed_text<'f>(
    index: u64,
    wide: bool,
    sections: &Sections<'f>,
    base: Option<u64>,
) -> Result<&'f [u8], Code>
    ensures { SameText result (text_by_index index wide (sections_view sections.entry.now) base) }
{
    let Some(base) = base else {
        return Err(Code::NoBase);
    };
    let (Some(table), Some(texts)) = (sections.text_offsets, sections.text) else {
        return Err(Code::NoSection);
    };
    let offset = word(table, sections.order, offset_bytes(wide), base, index)?;
    text_at_offset(texts, offset)
}

/// The address that stands in `.debug_addr`.
#[tactic(auto, unfolding(crate::specs::Resolved::indexed_address))]
fn indexed_address(
    index: u64,
    size: u8,
    sections: &Sections<'_>,
    base: Option<u64>,
) -> Result<u64, Code>
    requires { IsAddressSize size }
    ensures { result ≡ address_by_index index size (sections_view sections.entry.now) base }
{
    let Some(base) = base else {
        return Err(Code::NoBase);
    };
    let Some(table) = sections.address else {
        return Err(Code::NoSection);
    };
    word(table, sections.order, size, base, index)
}

/// The place of the list whose offset from the base stands in a table at the base.
#[tactic(auto, unfolding(crate::specs::Resolved::indexed_list, crate::specs::Resolved::within_place))]
fn indexed_list(
    index: u64,
    wide: bool,
    order: Order,
    section: Option<&[u8]>,
    base: Option<u64>,
) -> Result<u64, Code>
    ensures { result ≡ list_by_index index wide order (option_map (λ b. b.now) section.entry) base }
{
    let Some(base) = base else {
        return Err(Code::NoBase);
    };
    let Some(table) = section else {
        return Err(Code::NoSection);
    };
    let offset = word(table, order, offset_bytes(wide), base, index)?;
    match base.checked_add(offset) {
        Some(place) => Ok(place),
        None => Err(Code::IndexOutside),
    }
}
