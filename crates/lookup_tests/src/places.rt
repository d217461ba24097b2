//! The places of addresses, as both calls answer them.

use crate::programs::{APART, AROUND, FILES, SEQUENCE, Unit, few_index_of, index_of, info_of};
use address_lookup::AddressIndex;
use std::alloc::{AllocError, Global};

/// The unit and the line of an address, where both calls answer the same; else a unit that none has.
fn told(index: &AddressIndex<'_>, address: u64) -> Option<(u32, u64)> {
    let found = index
        .place_of(address)
        .map(|place| (place.unit, place.line));
    let walked = index
        .place_of_slowly(address)
        .map(|place| (place.unit, place.line));
    if found == walked {
        found
    } else {
        Some((u32::MAX, 0))
    }
}

/// Whether these addresses have these units and lines, in a file of these units; with an index for a few
/// addresses, too.
fn are_told(
    alloc: Global,
    units: &[Unit],
    wanted: &[(u64, Option<(u32, u64)>)],
) -> Result<bool, AllocError> {
    let info = info_of(alloc, units)?;
    let index = index_of(alloc, &info)?;
    let few = few_index_of(alloc, &info)?;
    for (address, place) in wanted {
        if told(&index, *address) != *place || told(&few, *address) != *place {
            return Ok(false);
        }
    }
    Ok(true)
}

#[test]
fn an_address_has_the_place_of_the_pair_around_it(rt: HostRuntime) {
    let wanted = [
        (0xfff, None),
        (0x1000, Some((0, 1))),
        (0x1003, Some((0, 1))),
        (4100, Some((0, 3))),
        (0x1005, Some((0, 3))),
        (0x1006, None),
        (0, None),
        (u64::MAX, None),
    ];
    let units = [Unit::Program(SEQUENCE)];
    assert_eq!(rt; are_told(rt.alloc(), &units, &wanted), Ok(true));
}

#[test]
fn no_pair_goes_across_the_end_of_a_sequence(rt: HostRuntime) {
    let wanted = [
        (0x1005, Some((0, 1))),
        (0x1006, None),
        (0x100f, None),
        (0x1010, Some((0, 1))),
        (0x1013, Some((0, 1))),
        (0x1014, None),
    ];
    let units = [Unit::Program(APART)];
    assert_eq!(rt; are_told(rt.alloc(), &units, &wanted), Ok(true));
}

#[test]
fn the_first_of_overlapping_units_is_told(rt: HostRuntime) {
    let wanted = [
        (0xfef, None),
        (0xff0, Some((1, 1))),
        (0x1000, Some((0, 1))),
        (0x1005, Some((0, 3))),
        (0x1006, Some((1, 1))),
        (0x100f, Some((1, 1))),
        (0x1010, Some((1, 7))),
        (0x101f, Some((1, 7))),
        (0x1020, None),
    ];
    let inner = Unit::Program(SEQUENCE);
    let outer = Unit::Program(AROUND);
    assert_eq!(rt; are_told(rt.alloc(), &[inner, outer], &wanted), Ok(true));
    // A program that several units name is that of the first of them.
    let units = [inner, outer, outer, inner, inner];
    assert_eq!(rt; are_told(rt.alloc(), &units, &wanted), Ok(true));
    let wanted = [(0x1000, Some((0, 1))), (0x1005, Some((0, 1)))];
    assert_eq!(rt; are_told(rt.alloc(), &[outer, inner], &wanted), Ok(true));
}

#[test]
fn units_that_are_refused_are_passed_over(rt: HostRuntime) {
    let units = [
        Unit::OtherVersion,
        Unit::NoDeclaration,
        // a program that is refused
        Unit::Program(255),
        Unit::Program(255),
        Unit::Program(SEQUENCE),
    ];
    let wanted = [(0xfff, None), (0x1000, Some((4, 1)))];
    assert_eq!(rt; are_told(rt.alloc(), &units, &wanted), Ok(true));
}

#[test]
fn a_place_has_the_names_of_its_file(rt: HostRuntime) {
    let info = info_of(rt.alloc(), &[Unit::Program(FILES)]).expect(&rt, "info");
    let index = index_of(rt.alloc(), &info).expect(&rt, "index");
    // Directory 5 isn't there, file 7 isn't, and file 0 lies in directory 0.
    let wanted = [
        (0x1000, b"".as_slice(), Some(b"a.c".as_slice())),
        (0x1004, b"".as_slice(), None),
        (0x1008, b"/s".as_slice(), Some(b"a.c".as_slice())),
    ];
    for (address, directory, name) in wanted {
        let place = index.place_of(address).expect(&rt, "place");
        assert!(rt; place.directory == directory);
        assert!(rt; place.name == name);
    }
}

#[test]
fn many_addresses_are_asked_of_one_index(rt: HostRuntime) {
    let units = [
        Unit::Program(SEQUENCE),
        Unit::Program(AROUND),
        Unit::Program(APART),
    ];
    let info = info_of(rt.alloc(), &units).expect(&rt, "info");
    let index = index_of(rt.alloc(), &info).expect(&rt, "index");
    let mut found = 0_u64;
    let mut apart = 0_u64;
    for address in 0..65_536_u64 {
        match told(&index, address) {
            Some((u32::MAX, _)) => apart = apart.saturating_add(1),
            Some(_) => found = found.saturating_add(1),
            None => {}
        }
    }
    assert_eq!(rt; found, 0x30);
    assert_eq!(rt; apart, 0);
}
