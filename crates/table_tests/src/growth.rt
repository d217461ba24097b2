//! A table that grows while it is used: its entries move to larger generations.
use crate::calls::{Call, check_calls, check_found, fill, new_table, split};
use std::test::Fail;

#[test]
fn the_48th_entry_makes_a_table_grow(rt: HostRuntime) -> Result<(), Fail> {
    let (table, mut pass) = new_table(rt.alloc(), 1000, 1)?;
    fill(&rt, &table, &mut pass, 1, 48);
    check_calls(
        &rt,
        &table,
        &mut pass,
        &[
            Call::IsIn(0, 64, false),
            Call::Places(48, 148),
            Call::IsIn(1, 128, false),
        ],
    );
    check_found(&rt, &table, &mut pass, 49);
    check_calls(
        &rt,
        &table,
        &mut pass,
        &[Call::Lacks(49), Call::Meets(48, 148)],
    );
    Ok(())
}

#[test]
fn a_table_of_96_entries_has_grown_twice(rt: HostRuntime) -> Result<(), Fail> {
    let (table, mut pass) = new_table(rt.alloc(), 1000, 1)?;
    fill(&rt, &table, &mut pass, 1, 97);
    check_calls(&rt, &table, &mut pass, &[Call::IsIn(2, 256, false)]);
    check_found(&rt, &table, &mut pass, 97);
    fill(&rt, &table, &mut pass, 97, 1001);
    check_calls(&rt, &table, &mut pass, &[Call::IsIn(5, 2048, true)]);
    check_found(&rt, &table, &mut pass, 1001);
    Ok(())
}

#[test]
fn a_pass_that_slept_finds_what_moved_meanwhile(rt: HostRuntime) -> Result<(), Fail> {
    let (table, mut a) = new_table(rt.alloc(), 1000, 2)?;
    let mut b = split(&rt, &table, &mut a);
    fill(&rt, &table, &mut a, 1, 200);
    check_found(&rt, &table, &mut b, 200);
    check_calls(
        &rt,
        &table,
        &mut b,
        &[Call::Lacks(200), Call::IsIn(3, 512, false)],
    );
    Ok(())
}
