//! Small lists: every kind once in both sections, pairs of version 4, and every refusal once with its
//! place.

ghost use Rattle.std.specs.Prelude.{◌≡◌};

use dw_fields::Order;
use elf_sections::Sections;
use form_values::{Bases, UnitFacts};
use range_lists::{Location, Range, read_locations, read_ranges};
use std::alloc::{AllocError, Global};
use std::test::Fail;
use unit_headers::{Extra, UnitHeader, UnitKind, UnitRefusal};

/// The addresses 0x1000 and 0x2000.
const ADDRESSES: [u8; 16] = [0, 0x10, 0, 0, 0, 0, 0, 0, 0, 0x20, 0, 0, 0, 0, 0, 0];

/// Sections of which both list sections of version 5 hold these bytes.
fn sections_of<'f>(lists: Option<&'f [u8]>, address: Option<&'f [u8]>) -> Sections<'f> {
    Sections {
        order: Order::Little,
        info: &[],
        abbrev: &[],
        text: None,
        line_text: None,
        text_offsets: None,
        address,
        range_lists: lists,
        location_lists: lists,
        line: None,
        ranges: None,
        locations: None,
        frame: None,
    }
}

/// Sections of which both list sections of version 4 hold these bytes.
fn pair_sections_of<'f>(lists: &'f [u8]) -> Sections<'f> {
    Sections {
        ranges: Some(lists),
        locations: Some(lists),
        ..sections_of(None, None)
    }
}

fn header_of(version: u16, address_size: u8) -> UnitHeader
    ensures { result.address_size ≡ address_size }
{
    UnitHeader {
        number: 0,
        place: 0,
        end: 12,
        wide: false,
        version,
        kind: UnitKind::Compile,
        address_size,
        abbrev: 0,
        entries: 12,
        extra: Extra::Nothing,
    }
}

fn facts_of(low_pc: Option<u64>, address: Option<u64>) -> UnitFacts {
    UnitFacts {
        bases: Bases {
            text: None,
            address,
            ranges: None,
            locations: None,
        },
        low_pc,
        line: None,
        root_end: None,
    }
}

fn refusal_text(alloc: Global, refusal: UnitRefusal) -> Result<String, AllocError> {
    match refusal {
        UnitRefusal::Refused(fault) => {
            format!(in alloc; "refusal {} at {}", fault.code.number(), fault.place)
        }
        UnitRefusal::OutOfMemory => Err(AllocError),
    }
}

fn ranges_text(alloc: Global, read: Result<Vec<Range>, UnitRefusal>) -> Result<String, AllocError> {
    match read {
        Ok(ranges) => {
            let mut text = String::new(alloc);
            for range in &ranges {
                let one = format!(in alloc; "{:x}-{:x} ", range.low, range.high)?;
                text.push_str(one.as_str())?;
            }
            Ok(text)
        }
        Err(refusal) => refusal_text(alloc, refusal),
    }
}

fn locations_text(
    alloc: Global,
    read: Result<Vec<Location<'_>>, UnitRefusal>,
) -> Result<String, AllocError> {
    match read {
        Ok(locations) => {
            let mut text = String::new(alloc);
            for location in &locations {
                let one = match location.range {
                    Some(range) => format!(in alloc; "{:x}-{:x}", range.low, range.high)?,
                    None => String::from_str(alloc, "default")?,
                };
                text.push_str(one.as_str())?;
                for byte in location.expression {
                    let byte = format!(in alloc; ":{byte:x}")?;
                    text.push_str(byte.as_str())?;
                }
                text.push_str(" ")?;
            }
            Ok(text)
        }
        Err(refusal) => refusal_text(alloc, refusal),
    }
}

/// The lists of a unit with 8-byte addresses whose lowest address is 0x100.
const RANGES: [(&[u8], u64, &str); 20] = [
    (&[0], 0, ""),
    (&[4, 1, 2, 0], 0, "101-102 "),
    (&[1, 1, 4, 1, 2, 0], 0, "2001-2002 "),
    (&[2, 0, 1, 0], 0, "1000-2000 "),
    (&[3, 1, 0x10, 0], 0, "2000-2010 "),
    (&[5, 0, 5, 0, 0, 0, 0, 0, 0, 4, 0, 0, 0], 0, "500-500 "),
    (
        &[6, 0x10, 0, 0, 0, 0, 0, 0, 0, 0x20, 0, 0, 0, 0, 0, 0, 0, 0],
        0,
        "10-20 ",
    ),
    (
        &[7, 255, 255, 255, 255, 255, 255, 255, 255, 2, 0],
        0,
        "ffffffffffffffff-1 ",
    ),
    (&[9, 9, 4, 1, 2, 4, 3, 4, 0, 9], 2, "101-102 103-104 "),
    (&[], 0, "refusal 62 at 0"),
    (&[0], 5, "refusal 62 at 1"),
    (&[4, 1, 2], 0, "refusal 62 at 3"),
    (&[4, 1, 2, 8], 0, "refusal 60 at 3"),
    (&[4, 1], 0, "refusal 61 at 2"),
    (&[4, 1, 0x80], 0, "refusal 61 at 2"),
    (&[5, 1, 2], 0, "refusal 61 at 1"),
    (&[6, 0, 0, 0, 0, 0, 0, 0, 0, 1, 2], 0, "refusal 61 at 9"),
    (&[3, 0, 0x80], 0, "refusal 61 at 2"),
    (
        &[
            4, 0x80, 0x80, 0x80, 0x80, 0x80, 0x80, 0x80, 0x80, 0x80, 0x7f, 0, 0,
        ],
        0,
        "refusal 32 at 1",
    ),
    (&[0, 2, 2, 0x80], 1, "refusal 44 at 1"),
];

const LOCATIONS: [(&[u8], &str); 16] = [
    (&[0], ""),
    (&[4, 1, 2, 1, 0x9c, 0], "101-102:9c "),
    (&[1, 1, 4, 1, 2, 0, 0], "2001-2002 "),
    (&[2, 0, 1, 2, 0x91, 0, 0], "1000-2000:91:0 "),
    (&[3, 1, 0x10, 0, 0], "2000-2010 "),
    (&[5, 1, 0x50, 4, 1, 1, 0, 0], "default:50 101-101 "),
    (&[6, 0, 5, 0, 0, 0, 0, 0, 0, 4, 0, 1, 0, 0], "500-501 "),
    (
        &[
            7, 0x10, 0, 0, 0, 0, 0, 0, 0, 0x20, 0, 0, 0, 0, 0, 0, 0, 0, 0,
        ],
        "10-20 ",
    ),
    (&[8, 0x10, 0, 0, 0, 0, 0, 0, 0, 2, 1, 0x30, 0], "10-12:30 "),
    (&[], "refusal 62 at 0"),
    (&[9], "refusal 60 at 0"),
    (&[5], "refusal 61 at 1"),
    (&[4, 1, 2], "refusal 61 at 3"),
    (&[4, 1, 2, 2, 0x9c], "refusal 61 at 4"),
    (&[5, 0], "refusal 62 at 2"),
    (&[2, 2, 0x80], "refusal 44 at 0"),
];

/// The lists of a unit of version 4 with 2-byte addresses whose lowest address is 0x100.
const RANGE_PAIRS: [(&[u8], u64, &str); 13] = [
    (&[0, 0, 0, 0], 0, ""),
    (&[1, 0, 2, 0, 0, 0, 0, 0], 0, "101-102 "),
    (&[0, 0, 2, 0, 0, 0, 0, 0], 0, "100-102 "),
    (
        &[1, 0, 2, 0, 255, 255, 0, 32, 0, 0, 8, 0, 0, 0, 0, 0],
        0,
        "101-102 2000-2008 ",
    ),
    (&[0, 255, 1, 255, 5, 0, 5, 0, 0, 0, 0, 0], 0, "0-1 105-105 "),
    (&[9, 9, 1, 0, 2, 0, 0, 0, 0, 0, 9], 2, "101-102 "),
    (&[], 0, "refusal 62 at 0"),
    (&[0, 0, 0, 0], 4, "refusal 62 at 4"),
    (&[1, 0, 2, 0], 0, "refusal 62 at 4"),
    (&[1], 0, "refusal 61 at 0"),
    (&[0, 0], 0, "refusal 61 at 2"),
    (&[1, 0, 2], 0, "refusal 61 at 2"),
    (&[255, 255, 0], 0, "refusal 61 at 2"),
];

const LOCATION_PAIRS: [(&[u8], &str); 8] = [
    (&[0, 0, 0, 0], ""),
    (&[0, 0, 4, 0, 1, 0, 0x50, 0, 0, 0, 0], "100-104:50 "),
    (
        &[255, 255, 0, 32, 0, 0, 1, 0, 0, 0, 0, 0, 0, 0],
        "2000-2001 ",
    ),
    (&[1, 0, 2, 0], "refusal 61 at 4"),
    (&[1, 0, 2, 0, 1], "refusal 61 at 4"),
    (&[1, 0, 2, 0, 2, 0, 0x9c], "refusal 61 at 6"),
    (&[1, 0, 2, 0, 0, 0], "refusal 62 at 6"),
    (&[1, 0, 2], "refusal 61 at 2"),
];

#[test]
fn small_range_lists(rt: HostRuntime) -> Result<(), Fail> {
    let alloc = rt.alloc();
    let header = header_of(5, 8);
    let facts = facts_of(Some(0x100), Some(0));
    for (list, offset, expected) in RANGES {
        let sections = sections_of(Some(list), Some(&ADDRESSES));
        let read = read_ranges(alloc, &sections, &header, &facts, offset);
        let text = ranges_text(alloc, read)?;
        assert_eq!(rt; text.as_str(), expected);
    }
    Ok(())
}

#[test]
fn small_location_lists(rt: HostRuntime) -> Result<(), Fail> {
    let alloc = rt.alloc();
    let header = header_of(5, 8);
    let facts = facts_of(Some(0x100), Some(0));
    for (list, expected) in LOCATIONS {
        let sections = sections_of(Some(list), Some(&ADDRESSES));
        let read = read_locations(alloc, &sections, &header, &facts, 0);
        let text = locations_text(alloc, read)?;
        assert_eq!(rt; text.as_str(), expected);
    }
    Ok(())
}

#[test]
fn pairs_of_version_4(rt: HostRuntime) -> Result<(), Fail> {
    let alloc = rt.alloc();
    let header = header_of(4, 2);
    let facts = facts_of(Some(0x100), None);
    for (list, offset, expected) in RANGE_PAIRS {
        let sections = pair_sections_of(list);
        let read = read_ranges(alloc, &sections, &header, &facts, offset);
        let text = ranges_text(alloc, read)?;
        assert_eq!(rt; text.as_str(), expected);
    }
    for (list, expected) in LOCATION_PAIRS {
        let sections = pair_sections_of(list);
        let read = read_locations(alloc, &sections, &header, &facts, 0);
        let text = locations_text(alloc, read)?;
        assert_eq!(rt; text.as_str(), expected);
    }
    let sections = sections_of(Some(&[0]), None);
    let read = read_ranges(alloc, &sections, &header, &facts, 0);
    let text = ranges_text(alloc, read)?;
    assert_eq!(rt; text.as_str(), "refusal 47 at 0");
    Ok(())
}

#[test]
fn units_of_other_kinds(rt: HostRuntime) -> Result<(), Fail> {
    let alloc = rt.alloc();
    let header = header_of(5, 4);
    let pair: &[u8] = &[4, 1, 2, 0];
    let index: &[u8] = &[1, 0, 0];
    for (lists, address, low_pc, base, expected) in [
        (Some(pair), None, Some(0xffff_ffff), None, "0-1 "),
        (Some(pair), None, None, None, "1-2 "),
        (
            Some(index),
            Some(&ADDRESSES[..]),
            None,
            None,
            "refusal 45 at 0",
        ),
        (Some(index), None, None, Some(0), "refusal 47 at 0"),
        (None, None, None, None, "refusal 47 at 0"),
    ] {
        let sections = sections_of(lists, address);
        let facts = facts_of(low_pc, base);
        let ranges = read_ranges(alloc, &sections, &header, &facts, 0);
        let text = ranges_text(alloc, ranges)?;
        assert_eq!(rt; text.as_str(), expected);
    }
    Ok(())
}
