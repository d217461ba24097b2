//! Declarations as one reader finds them.
ghost use Rattle.std.specs.Prelude.{◌≤◌};
ghost use Rattle.handle_cache.specs.Handles.{Belongs};

use crate::files::{ONE_UNIT, TWO_CODES, file_of};
use crate::readers::{check_find, check_unit, find_place};
use crate::units::NO_FACTS;
use abbrev_decl::{Decls, FindFault, Steps};
use form_values::UnitFacts;
use handle_cache::{Handle, HandlePass};
use std::process::Abort;
use std::test::Fail;

#[test]
fn finds_and_facts_count_their_steps(rt: HostRuntime) -> Result<(), Fail> {
    let file = file_of(rt.alloc(), &TWO_CODES, &ONE_UNIT)?;
    let (handle, mut pass) = Handle::open(rt.alloc(), file.as_slice(), 1)?;
    let mut steps = Steps::start(());
    assert_eq!(rt; handle.capacity(), 75);
    check_find(&rt, &handle, &mut pass, 2, &mut steps, Ok(7), (2, 1));
    check_find(&rt, &handle, &mut pass, 2, &mut steps, Ok(7), (2, 1));
    let missing = Err(FindFault::CodeMissing);
    check_find(&rt, &handle, &mut pass, 3, &mut steps, missing, (5, 1));
    let facts = UnitFacts {
        root_end: Some(0xf),
        ..NO_FACTS
    };
    check_unit(&rt, &handle, &mut pass, &mut steps, facts, (7, 10));
    check_unit(&rt, &handle, &mut pass, &mut steps, facts, (7, 10));
    Ok(())
}

#[test]
fn the_declarations_of_a_pass_are_lent(rt: HostRuntime) -> Result<(), Fail> {
    let file = file_of(rt.alloc(), &TWO_CODES, &ONE_UNIT)?;
    let (handle, mut pass) = Handle::open(rt.alloc(), file.as_slice(), 1)?;
    let mut steps = Steps::start(());
    assert_eq!(rt;
        handle
            .elf()
            .section(".debug_abbrev")
            .map_or(0, |bytes| bytes.len()),
        18
    );
    let mut cached = handle.cached(&mut pass);
    let place = match cached.find(0, 1, &mut steps) {
        Ok(declaration) => Some(declaration.place()),
        Err(_) => None,
    };
    assert_eq!(rt; place, Some(0));
    Ok(())
}

#[test]
fn the_first_of_a_repeated_code_is_found(rt: HostRuntime) -> Result<(), Fail> {
    let declarations = [
        0x05, 0x11, 0x00, 0x03, 0x08, 0x00, 0x00, 0x05, 0x34, 0x00, 0x03, 0x08, 0x00, 0x00, 0x00,
    ];
    let unit = [
        0x0b, 0x00, 0x00, 0x00, 0x05, 0x00, 0x01, 0x08, 0x00, 0x00, 0x00, 0x00, 0x05, 0x61, 0x00,
    ];
    let file = file_of(rt.alloc(), &declarations, &unit)?;
    let (handle, mut pass) = Handle::open(rt.alloc(), file.as_slice(), 1)?;
    let mut steps = Steps::start(());
    check_find(&rt, &handle, &mut pass, 5, &mut steps, Ok(0), (1, 1));
    check_find(&rt, &handle, &mut pass, 5, &mut steps, Ok(0), (1, 1));
    Ok(())
}

#[test]
fn a_code_of_33_bits_is_walked_to_each_time(rt: HostRuntime) -> Result<(), Fail> {
    let declarations = [
        0x01, 0x11, 0x00, 0x00, 0x00, 0x80, 0x80, 0x80, 0x80, 0x10, 0x34, 0x00, 0x00, 0x00, 0x00,
    ];
    let file = file_of(rt.alloc(), &declarations, &[])?;
    let (handle, mut pass) = Handle::open(rt.alloc(), file.as_slice(), 1)?;
    let mut steps = Steps::start(());
    check_find(&rt, &handle, &mut pass, 1 << 32, &mut steps, Ok(5), (2, 0));
    check_find(&rt, &handle, &mut pass, 1 << 32, &mut steps, Ok(5), (4, 0));
    Ok(())
}

/// Twenty declarations of five bytes each, of the codes 1 to 20.
fn twenty_codes() -> [u8; 101] {
    let mut bytes = [0; 101];
    for code in 0..20 {
        bytes[5 * code] = code as u8 + 1;
        bytes[5 * code + 1] = 0x34;
    }
    bytes
}

/// Finds the codes from this one on, each from the place where the first of them is declared.
fn find_from<'f, R: Abort>(
    rt: &R,
    handle: &Handle<'f>,
    pass: &mut HandlePass<'f>,
    first: u32,
    steps: &mut Steps<()>,
)
    requires ready { Belongs handle.now pass.old }
    requires first { (1 ≤ first) × (first ≤ 20) }
    ensures { Belongs handle.now pass.new }
{
    let table = 5 * (first - 1);
    for code in first..21 {
        assert!(rt; table as usize <= handle.sections().abbrev.len());
        let found = find_place(handle, pass, table, u64::from(code), steps);
        assert_eq!(rt; found, Ok(u64::from(5 * (code - 1))), "{table} {code}");
    }
}

/// Finds each of the twenty codes from each place where it or a smaller one is declared: 210 keys.
fn find_all<'f, R: Abort>(
    rt: &R,
    handle: &Handle<'f>,
    pass: &mut HandlePass<'f>,
    steps: &mut Steps<()>,
)
    requires { Belongs handle.now pass.old }
    ensures { Belongs handle.now pass.new }
{
    for first in 1..21 {
        find_from(rt, handle, pass, first, steps);
    }
}

#[test]
fn a_full_table_is_passed_over(rt: HostRuntime) -> Result<(), Fail> {
    let unit = [
        0x09, 0x00, 0x00, 0x00, 0x05, 0x00, 0x01, 0x08, 0x00, 0x00, 0x00, 0x00, 0x01,
    ];
    let file = file_of(rt.alloc(), &twenty_codes(), &unit)?;
    let (handle, mut pass) = Handle::open(rt.alloc(), file.as_slice(), 1)?;
    // 20 declarations, 8 words and 64
    assert_eq!(rt; handle.capacity(), 92);
    let mut steps = Steps::start(());
    find_all(&rt, &handle, &mut pass, &mut steps);
    find_all(&rt, &handle, &mut pass, &mut steps);
    // the root's declaration is in the table, and the unit's words are not
    let facts = UnitFacts {
        root_end: Some(0xd),
        ..NO_FACTS
    };
    let mut steps = Steps::start(());
    check_unit(&rt, &handle, &mut pass, &mut steps, facts, (1, 92));
    check_unit(&rt, &handle, &mut pass, &mut steps, facts, (2, 92));
    Ok(())
}
