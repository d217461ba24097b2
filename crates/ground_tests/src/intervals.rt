//! Overlapping intervals, each number of them compared with a walk.

use interval_index::{Interval, IntervalIndex};

/// They overlap, lie in one another, end where others begin, have no number, or the wrong way round.
const INTERVALS: [Interval; 9] = [
    Interval { low: 10, high: 20 },
    Interval { low: 5, high: 15 },
    Interval { low: 12, high: 30 },
    Interval { low: 40, high: 40 },
    Interval { low: 0, high: 3 },
    Interval { low: 50, high: 45 },
    Interval { low: 30, high: 35 },
    Interval { low: 2, high: 44 },
    Interval {
        low: 18_446_744_073_709_551_614,
        high: 18_446_744_073_709_551_615,
    },
];

/// None of them lies behind one before it.
const DESCENDING: [Interval; 8] = [
    Interval { low: 64, high: 84 },
    Interval { low: 56, high: 76 },
    Interval { low: 48, high: 68 },
    Interval { low: 40, high: 60 },
    Interval { low: 32, high: 52 },
    Interval { low: 24, high: 44 },
    Interval { low: 16, high: 36 },
    Interval { low: 8, high: 28 },
];

#[test]
fn the_first_of_overlapping_intervals_is_found(rt: HostRuntime) {
    let index = IntervalIndex::build(rt.alloc(), &INTERVALS).expect(&rt, "memory");
    for number in 0..60u64 {
        let mut walked = None;
        for k in 0..9usize {
            if walked.is_none() && INTERVALS[k].low <= number && number < INTERVALS[k].high {
                walked = Some(k);
            }
        }
        assert_eq!(rt; index.first(number), walked);
    }
    assert_eq!(rt; index.first(12), Some(0));
    assert_eq!(rt; index.first(20), Some(2));
    assert_eq!(rt; index.first(44), None);
    assert_eq!(rt; index.first(u64::MAX - 1), Some(8));
    assert_eq!(rt; index.first(u64::MAX), None);
}

#[test]
fn intervals_that_descend_and_overlap_are_found(rt: HostRuntime) {
    let index = IntervalIndex::build(rt.alloc(), &DESCENDING).expect(&rt, "memory");
    assert_eq!(rt; index.first(7), None);
    assert_eq!(rt; index.first(8), Some(7));
    assert_eq!(rt; index.first(16), Some(6));
    assert_eq!(rt; index.first(35), Some(4));
    assert_eq!(rt; index.first(63), Some(1));
    assert_eq!(rt; index.first(64), Some(0));
    assert_eq!(rt; index.first(83), Some(0));
    assert_eq!(rt; index.first(84), None);
}

#[test]
fn no_interval_has_no_number(rt: HostRuntime) {
    let index = IntervalIndex::build(rt.alloc(), &[]).expect(&rt, "memory");
    assert_eq!(rt; index.first(0), None);
}
