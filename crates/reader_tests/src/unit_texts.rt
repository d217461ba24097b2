//! The texts of a small unit with a range list and a location list.

ghost use Rattle.std.specs.Prelude.{◌≡◌, ◌<◌, ◌^◌, length};
ghost use Rattle.elf_sections.specs.Shapes.{sections_view, AreShort};
ghost use Rattle.entry_tree.specs.Units.{IsUnitOf};

use crate::small_file::{self, HEADER};
use abbrev_decl::{Scanner, Steps};
use bumpalo::Bump;
use dw_fields::Fault;
use elf_sections::Sections;
use entry_tree::root_facts;
use form_values::UnitFacts;
use std::alloc::Global;
use std::test::Fail;
use unit_headers::{UnitHeader, UnitRefusal};
use unit_text::{LastLists, stream_lists, stream_unit};

/// Code 1: compile_unit with children, a name as string and the offset of its ranges. Code 2: variable with the
/// offset of its locations.
const ABBREV: [u8; 17] = [
    0x01, 0x11, 0x01, 0x03, 0x08, 0x55, 0x17, 0, 0, 0x02, 0x34, 0, 0x02, 0x17, 0, 0, 0,
];

/// The root "a" at 0xc with the ranges at 1, and below it at 0x13 a variable with the locations at 0.
const INFO: [u8; 25] = [
    0x15, 0, 0, 0, 0x05, 0, 0x01, 0x08, 0, 0, 0, 0, 0x01, 0x61, 0, 1, 0, 0, 0, 0x02, 0, 0, 0, 0, 0,
];

/// At 1 a list of the range from 1 to 2.
const RANGES: [u8; 5] = [9, 4, 1, 2, 0];

/// At 0 a list of one expression, which holds from 3 to 4.
const LOCATIONS: [u8; 6] = [4, 3, 4, 1, 0x9c, 0];

const UNIT_TEXT: &str =
    "unit 0 at 0x0 format 32 version 5 type compile address 8 abbrev 0x0 entries 0xc end 0x19
[0xc] 0 compile_unit
  name text \"a\"
  ranges offset 0x1
[0x13] 1 variable
  location offset 0x0
";

const LISTS_TEXT: &str = "ranges of 0xc
 0x1 0x2
locations of 0x13 location
 0x3 0x4 1 9c
";

/// The text of a unit and that of its lists.
#[derive(Drop)]
struct Texts {
    unit: Vec<u8>,
    lists: Vec<u8>,
}

/// A little-endian file of these bytes.
fn sections_of<'f>(
    info: &'f [u8],
    declarations: &'f [u8],
    ranges: &'f [u8],
    locations: &'f [u8],
) -> Sections<'f>
    requires info { length info.now < 2 ^ 31 }
    requires declarations { length declarations.now < 2 ^ 31 }
    requires ranges { length ranges.now < 2 ^ 31 }
    requires locations { length locations.now < 2 ^ 31 }
    ensures info { (sections_view result).info ≡ info.entry.now }
    ensures declarations { (sections_view result).«abbrev» ≡ declarations.entry.now }
    ensures short { AreShort (sections_view result) }
{
    Sections {
        range_lists: Some(ranges),
        location_lists: Some(locations),
        ..small_file::sections_of(info, declarations)
    }
}

/// What the root says of its unit.
fn facts_of(sections: &Sections<'_>, header: &UnitHeader) -> Result<UnitFacts, Fault>
    requires unit { IsUnitOf (sections_view sections.now) header.now }
{
    let mut scanner = Scanner::new(sections.abbrev);
    root_facts(&mut scanner, header, sections, &mut Steps::start(()))
}

/// The texts as the entries are read.
fn stream_texts(
    alloc: Global,
    sections: &Sections<'_>,
    header: &UnitHeader,
    facts: &UnitFacts,
) -> Result<Texts, UnitRefusal>
    requires unit { IsUnitOf (sections_view sections.now) header.now }
    requires short { AreShort (sections_view sections.now) }
{
    let arena = Bump::new(alloc);
    let mut scanner = Scanner::new(sections.abbrev);
    let mut steps = Steps::start(());
    let mut unit = Vec::new(alloc);
    stream_unit(
        alloc,
        &arena,
        &mut scanner,
        header,
        sections,
        facts,
        &mut unit,
        &mut steps,
    )?;
    let mut last = LastLists::new(sections);
    let mut lists = Vec::new(alloc);
    stream_lists(
        alloc,
        &mut last,
        &arena,
        &mut scanner,
        header,
        sections,
        facts,
        &mut lists,
        &mut steps,
    )?;
    Ok(Texts { unit, lists })
}

#[test]
fn a_small_unit_has_its_texts(rt: HostRuntime) -> Result<(), Fail> {
    let alloc = rt.alloc();
    let sections = sections_of(&INFO, &ABBREV, &RANGES, &LOCATIONS);
    let facts = facts_of(&sections, &HEADER).expect(&rt, "facts");
    let texts = stream_texts(alloc, &sections, &HEADER, &facts).expect(&rt, "texts");
    assert_eq!(rt; texts.unit.as_slice(), UNIT_TEXT.as_bytes());
    assert_eq!(rt; texts.lists.as_slice(), LISTS_TEXT.as_bytes());
    Ok(())
}
