//! The sections with debugging data, by their names (DWARF 5 section 7.1 and appendix B).

ghost use Rattle.std.specs.Prelude.{◌≡◌, ◌<◌, ◌^◌, [], length, map, unwrap_or};
ghost use Rattle.elf_sections.specs.Rows.{bytes_named, AllShort};
ghost use Rattle.elf_sections.specs.Shapes.{row, no_sections, sections_view, sections_of, AreShort};

use crate::named::first_named;
use crate::section::Section;
use dw_fields::Order;

/// The sections with debugging data. An absent `.debug_info` or `.debug_abbrev` is empty; each
/// other absent section is `None`. A section that is present and has no bytes is there, and empty.
#[derive(Clone, Copy, Debug)]
pub struct Sections<'f> {
    /// The byte order of the file, and so of the numbers in its sections.
    pub order: Order,
    /// `.debug_info`
    pub info: &'f [u8],
    /// `.debug_abbrev`
    pub abbrev: &'f [u8],
    /// `.debug_str`
    pub text: Option<&'f [u8]>,
    /// `.debug_line_str`
    pub line_text: Option<&'f [u8]>,
    /// `.debug_str_offsets`
    pub text_offsets: Option<&'f [u8]>,
    /// `.debug_addr`
    pub address: Option<&'f [u8]>,
    /// `.debug_rnglists`
    pub range_lists: Option<&'f [u8]>,
    /// `.debug_loclists`
    pub location_lists: Option<&'f [u8]>,
    /// `.debug_line`
    pub line: Option<&'f [u8]>,
    /// `.debug_ranges`
    pub ranges: Option<&'f [u8]>,
    /// `.debug_loc`
    pub locations: Option<&'f [u8]>,
    /// `.debug_frame`
    pub frame: Option<&'f [u8]>,
}

impl<'f> Sections<'f> {
    /// The sections of a file that has none of them, with numbers in this byte order.
    pub fn none(order: Order) -> Sections<'f>
        ensures { sections_view result ≡ no_sections order }
    {
        Sections {
            order,
            info: &[],
            abbrev: &[],
            text: None,
            line_text: None,
            text_offsets: None,
            address: None,
            range_lists: None,
            location_lists: None,
            line: None,
            ranges: None,
            locations: None,
            frame: None,
        }
    }
}

/// The bytes of the first of these sections that has this name; an absent section counts as empty.
fn first_named_or_empty<'f>(sections: &[Section<'f>], name: &[u8]) -> &'f [u8]
    requires { AllShort (map row sections.now) }
    ensures bytes { result.now ≡ unwrap_or (bytes_named name.now (map row sections.now)) [] }
    ensures short { length result.now < 2 ^ 31 }
{
    match first_named(sections, name) {
        Some(bytes) => bytes,
        None => &[],
    }
}

/// The sections with debugging data among these.
#[tactic(auto, unfolding(crate::specs::Shapes::sections_of))]
pub(crate) fn debug_sections_among<'f>(order: Order, sections: &[Section<'f>]) -> Sections<'f>
    requires { AllShort (map row sections.now) }
    ensures sections { sections_view result
        ≡ sections_of (record { order = order; sections = map row sections.now }) }
    ensures short { AreShort (sections_view result) }
    ensures declarations { length (sections_view result).«abbrev» < 2 ^ 31 }
{
    Sections {
        order,
        info: first_named_or_empty(sections, b".debug_info"),
        abbrev: first_named_or_empty(sections, b".debug_abbrev"),
        text: first_named(sections, b".debug_str"),
        line_text: first_named(sections, b".debug_line_str"),
        text_offsets: first_named(sections, b".debug_str_offsets"),
        address: first_named(sections, b".debug_addr"),
        range_lists: first_named(sections, b".debug_rnglists"),
        location_lists: first_named(sections, b".debug_loclists"),
        line: first_named(sections, b".debug_line"),
        ranges: first_named(sections, b".debug_ranges"),
        locations: first_named(sections, b".debug_loc"),
        frame: first_named(sections, b".debug_frame"),
    }
}
