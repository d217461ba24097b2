//! Dumps with several numbers of workers.

use crate::files::{FIRST_TEXT, THREE_TEXTS, file_of, texts_of};
use crate::gates::{MeetingGate, RefusalGate};
use crate::seats::{Ended, check_dump, check_file, check_stopped};
use dump_workers::split_seats;
use handle_cache::Handle;
use std::test::Fail;

#[test]
fn any_number_of_workers_writes_the_same(rt: HostRuntime) -> Result<(), Fail> {
    let alloc = rt.alloc();
    let file = file_of(alloc, 3, &[])?;
    // eight words for each unit, and one declaration
    let ended = Ended::Whole(3, 3, 25);
    check_file(&rt, alloc, file.as_slice(), 1, THREE_TEXTS, ended)?;
    check_file(&rt, alloc, file.as_slice(), 2, THREE_TEXTS, ended)?;
    check_file(&rt, alloc, file.as_slice(), 7, THREE_TEXTS, ended)?;
    check_file(&rt, alloc, file.as_slice(), 64, THREE_TEXTS, ended)
}

#[test]
fn a_dump_into_a_failing_sink_counts_nothing_that_is_known(rt: HostRuntime) -> Result<(), Fail> {
    let alloc = rt.alloc();
    let file = file_of(alloc, 3, &[])?;
    check_stopped(&rt, alloc, file.as_slice(), 1, THREE_TEXTS)?;
    check_stopped(&rt, alloc, file.as_slice(), 2, THREE_TEXTS)
}

#[test]
fn any_number_of_workers_stops_at_the_first_refused_unit(rt: HostRuntime) -> Result<(), Fail> {
    let alloc = rt.alloc();
    let file = file_of(alloc, 3, &[1, 2])?;
    check_file(
        &rt,
        alloc,
        file.as_slice(),
        1,
        FIRST_TEXT,
        Ended::Refused(1),
    )?;
    check_file(
        &rt,
        alloc,
        file.as_slice(),
        2,
        FIRST_TEXT,
        Ended::Refused(1),
    )?;
    check_file(
        &rt,
        alloc,
        file.as_slice(),
        64,
        FIRST_TEXT,
        Ended::Refused(1),
    )
}

#[test]
fn a_file_without_units_is_dumped(rt: HostRuntime) -> Result<(), Fail> {
    let alloc = rt.alloc();
    let file = file_of(alloc, 0, &[])?;
    check_file(&rt, alloc, file.as_slice(), 1, b"", Ended::Whole(0, 0, 0))?;
    check_file(&rt, alloc, file.as_slice(), 7, b"", Ended::Whole(0, 0, 0))
}

#[test]
fn units_stand_in_two_windows(rt: HostRuntime) -> Result<(), Fail> {
    let alloc = rt.alloc();
    let file = file_of(alloc, 300, &[])?;
    let text = texts_of(alloc, 300)?;
    let ended = Ended::Whole(300, 300, 2401);
    check_file(&rt, alloc, file.as_slice(), 4, text.as_slice(), ended)?;
    let file = file_of(alloc, 300, &[270, 299])?;
    let text = texts_of(alloc, 270)?;
    let ended = Ended::Refused(270);
    check_file(&rt, alloc, file.as_slice(), 1, text.as_slice(), ended)?;
    check_file(&rt, alloc, file.as_slice(), 4, text.as_slice(), ended)
}

#[test]
fn units_behind_a_refused_one_are_skipped(rt: HostRuntime) -> Result<(), Fail> {
    let alloc = rt.alloc();
    let file = file_of(alloc, 300, &[3, 200])?;
    let text = texts_of(alloc, 3)?;
    let (handle, first) = Handle::open(alloc, file.as_slice(), 2)?;
    let mut seats = split_seats(alloc, &handle, first, 2)?;
    let gate = RefusalGate::new(3);
    check_dump(
        &rt,
        alloc,
        &handle,
        &mut seats,
        &gate,
        text.as_slice(),
        Some(3),
    );
    // of the 256 units of the window the workers read four, and those that they drew before they were told
    assert!(rt; gate.entered() < 128);
    Ok(())
}

#[test]
fn two_workers_are_inside_at_once(rt: HostRuntime) -> Result<(), Fail> {
    let alloc = rt.alloc();
    let file = file_of(alloc, 4, &[])?;
    let text = texts_of(alloc, 4)?;
    let (handle, first) = Handle::open(alloc, file.as_slice(), 2)?;
    let mut seats = split_seats(alloc, &handle, first, 2)?;
    let gate = MeetingGate::new();
    check_dump(
        &rt,
        alloc,
        &handle,
        &mut seats,
        &gate,
        text.as_slice(),
        None,
    );
    assert_eq!(rt; gate.most(), 2);
    Ok(())
}
