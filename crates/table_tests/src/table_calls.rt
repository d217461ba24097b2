//! The calls of the table, one after another on one thread.
use crate::calls::{Call, check_calls, check_found, fill, join, new_table, split};
use std::test::Fail;

#[test]
fn a_table_with_two_passes_keeps_the_first_values(rt: HostRuntime) -> Result<(), Fail> {
    let (table, mut a) = new_table(rt.alloc(), 100, 2)?;
    check_calls(
        &rt,
        &table,
        &mut a,
        &[
            Call::Places(5, 7),
            Call::Meets(5, 7),
            Call::Finds(5, 7),
            Call::Lacks(6),
            Call::IsIn(0, 64, false),
            Call::HasPasses(0, 1),
        ],
    );
    let mut b = split(&rt, &table, &mut a);
    check_calls(
        &rt,
        &table,
        &mut b,
        &[Call::HasPasses(1, 0), Call::Finds(5, 7), Call::Places(6, 8)],
    );
    join(&rt, &table, &mut a, b);
    check_calls(
        &rt,
        &table,
        &mut a,
        &[Call::HasPasses(0, 0), Call::Finds(6, 8), Call::HasPlaced(2)],
    );
    Ok(())
}

// Keys 5 and 149 have one home among 64 cells, and the home of 144 and 288 is the last of them.
#[test]
fn walks_go_past_other_keys_and_wrap(rt: HostRuntime) -> Result<(), Fail> {
    let (table, mut pass) = new_table(rt.alloc(), 100, 1)?;
    check_calls(
        &rt,
        &table,
        &mut pass,
        &[
            Call::Places(5, 7),
            Call::Lacks(149),
            Call::Places(149, 11),
            Call::Meets(149, 11),
            Call::Meets(5, 7),
            Call::Finds(149, 11),
            Call::Finds(5, 7),
            Call::Places(144, 8),
            Call::Lacks(288),
            Call::Places(288, 9),
            Call::Finds(288, 9),
            Call::Finds(144, 8),
        ],
    );
    Ok(())
}

#[test]
fn a_full_table_stays_as_it_was(rt: HostRuntime) -> Result<(), Fail> {
    let (table, mut a) = new_table(rt.alloc(), 64, 2)?;
    let mut b = split(&rt, &table, &mut a);
    fill(&rt, &table, &mut a, 1, 65);
    check_calls(
        &rt,
        &table,
        &mut a,
        &[
            Call::IsIn(1, 128, true),
            Call::Refuses(65),
            Call::Meets(10, 110),
            Call::Lacks(65),
            Call::Refuses(300),
            Call::Lacks(300),
            Call::HasPlaced(64),
        ],
    );
    check_calls(
        &rt,
        &table,
        &mut b,
        &[Call::Refuses(65), Call::Meets(64, 164), Call::HasPlaced(0)],
    );
    check_found(&rt, &table, &mut b, 65);
    Ok(())
}
