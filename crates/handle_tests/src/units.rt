//! Facts of units that the words of a table must give back.

use crate::files::{TWO_CODES, file_of};
use crate::readers::check_unit;
use abbrev_decl::Steps;
use form_values::{Bases, UnitFacts};
use handle_cache::Handle;
use std::test::Fail;

/// No facts at all.
pub(crate) const NO_FACTS: UnitFacts = UnitFacts {
    bases: Bases {
        text: None,
        address: None,
        ranges: None,
        locations: None,
    },
    low_pc: None,
    line: None,
    root_end: None,
};

#[test]
fn a_unit_without_a_root_has_no_facts(rt: HostRuntime) -> Result<(), Fail> {
    let unit = [
        0x0a, 0x00, 0x00, 0x00, 0x05, 0x00, 0x01, 0x08, 0x00, 0x00, 0x00, 0x00, 0x00, 0x00,
    ];
    let file = file_of(rt.alloc(), &TWO_CODES, &unit)?;
    let (handle, mut pass) = Handle::open(rt.alloc(), file.as_slice(), 1)?;
    let mut steps = Steps::start(());
    check_unit(&rt, &handle, &mut pass, &mut steps, NO_FACTS, (1, 8));
    check_unit(&rt, &handle, &mut pass, &mut steps, NO_FACTS, (1, 8));
    Ok(())
}

#[test]
fn every_fact_comes_back(rt: HostRuntime) -> Result<(), Fail> {
    // str_offsets_base, addr_base, rnglists_base and loclists_base as data8, low_pc as an address, and
    // stmt_list as data4
    let declarations = [
        0x01, 0x11, 0x00, 0x72, 0x07, 0x73, 0x07, 0x74, 0x07, 0x8c, 0x01, 0x07, 0x11, 0x01, 0x10,
        0x06, 0x00, 0x00, 0x00,
    ];
    // the first base is 2^40 + 1, and so past every section
    let unit = [
        0x35, 0x00, 0x00, 0x00, 0x05, 0x00, 0x01, 0x08, 0x00, 0x00, 0x00, 0x00, 0x01, 0x01, 0x00,
        0x00, 0x00, 0x00, 0x01, 0x00, 0x00, 0x08, 0x00, 0x00, 0x00, 0x00, 0x00, 0x00, 0x00, 0x0c,
        0x00, 0x00, 0x00, 0x00, 0x00, 0x00, 0x00, 0x00, 0x00, 0x00, 0x00, 0x00, 0x01, 0x00, 0x00,
        0x88, 0x77, 0x66, 0x55, 0x44, 0x33, 0x22, 0xff, 0x04, 0x03, 0x02, 0x01,
    ];
    let file = file_of(rt.alloc(), &declarations, &unit)?;
    let (handle, mut pass) = Handle::open(rt.alloc(), file.as_slice(), 1)?;
    let mut steps = Steps::start(());
    let wanted = UnitFacts {
        bases: Bases {
            text: Some(1 << 40),
            address: Some(8),
            ranges: Some(12),
            locations: Some(1 << 40),
        },
        low_pc: Some(0xff22334455667788),
        line: Some(0x01020304),
        root_end: Some(0x39),
    };
    check_unit(&rt, &handle, &mut pass, &mut steps, wanted, (2, 9));
    check_unit(&rt, &handle, &mut pass, &mut steps, wanted, (2, 9));
    Ok(())
}
