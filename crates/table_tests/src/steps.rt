//! The sizes of a table, and its cells by themselves.
use map_cells::{Cells, Layout};
use map_core::{MOST_ENTRIES, MOST_PASSES};
use share_map::AnyPair;
use std::test::Fail;

// The last generation of a table and its cells, where there may be such a table.
fn sizes_of(capacity: u64, passes: u32) -> Option<(u32, u64)> {
    if capacity == 0 || capacity > MOST_ENTRIES {
        return None;
    }
    if passes == 0 || passes > MOST_PASSES {
        return None;
    }
    let layout = Layout::of(capacity, passes);
    Some((layout.last, layout.cells(layout.last)))
}

#[test]
fn sizes_are_the_least_that_suffice(rt: HostRuntime) {
    // capacity, passes, the last generation, its cells: at least four thirds of capacity and passes
    let cases = [
        (1, 1, 0, 64),
        (46, 2, 0, 64),
        (47, 2, 1, 128),
        (64, 2, 1, 128),
        (94, 2, 1, 128),
        (95, 2, 2, 256),
        (100, 2, 2, 256),
        (4194304, 128, 17, 8388608),
    ];
    for (capacity, passes, last, cells) in cases {
        let right = sizes_of(capacity, passes) == Some((last, cells));
        assert!(rt; right, "capacity {capacity}");
    }
}

#[test]
fn the_greatest_table_is_made_and_let_go(rt: HostRuntime) -> Result<(), Fail> {
    let (cells, pass) = Cells::new(rt.alloc(), Layout::of(4194304, 128), 128, &AnyPair)?;
    assert_eq!(rt; cells.layout().last, 17);
    assert_eq!(rt; pass.spare(), 127);
    Ok(())
}

#[test]
fn new_cells_have_no_entry(rt: HostRuntime) -> Result<(), Fail> {
    let (cells, pass) = Cells::new(rt.alloc(), Layout::of(64, 2), 2, &AnyPair)?;
    assert_eq!(rt; pass.number(), 0);
    assert_eq!(rt; cells.close(pass), 0, "the count at the end");
    Ok(())
}
