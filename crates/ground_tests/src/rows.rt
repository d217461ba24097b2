//! Two units: sequences that overlap, one that falls, and rows behind the last end of a sequence.

use row_index::{KeptRow, RowIndex};

fn row(address: u64, line: u64, end: bool) -> KeptRow {
    KeptRow {
        address,
        line,
        file: 1,
        end,
    }
}

#[test]
fn the_first_pair_in_unit_and_row_order_is_found(rt: HostRuntime) {
    let first = vec![in rt.alloc();
        row(16, 1, false),
        row(20, 2, false),
        row(28, 3, true),
        row(4, 4, false),
        row(8, 5, false),
        row(6, 6, false),
        row(12, 7, true),
    ];
    let second = vec![in rt.alloc();
        row(0, 8, false),
        row(40, 9, false),
        row(44, 10, true),
        row(60, 11, false),
    ];
    let units = vec![in rt.alloc(); first.expect(&rt, "rows"), second.expect(&rt, "rows")];
    let units = units.expect(&rt, "units");
    let again = vec![in rt.alloc();
        units[0].clone().expect(&rt, "rows"),
        units[1].clone().expect(&rt, "rows"),
    ];
    let unsorted = RowIndex::unsorted(again.expect(&rt, "units"));
    let index = RowIndex::build(rt.alloc(), units).expect(&rt, "memory");
    for (address, found) in [
        (0, Some((1, 8))),
        (3, Some((1, 8))),
        (4, Some((0, 4))),
        (7, Some((0, 4))),
        (8, Some((0, 6))),
        (11, Some((0, 6))),
        (12, Some((1, 8))),
        (16, Some((0, 1))),
        (19, Some((0, 1))),
        (20, Some((0, 2))),
        (27, Some((0, 2))),
        (28, Some((1, 8))),
        (40, Some((1, 9))),
        (43, Some((1, 9))),
        (44, None),
        (59, None),
        (60, None),
        (u64::MAX, None),
    ] {
        assert_eq!(rt;
            index.find(address).map(|found| (found.0, found.1.line)),
            found
        );
        assert_eq!(rt; index.find_slowly(address), index.find(address));
        assert_eq!(rt; unsorted.find(address), index.find(address));
    }
}
