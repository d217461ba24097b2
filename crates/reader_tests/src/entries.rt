//! A unit with a root and two more entries, and the same unit with wrong bytes.

use crate::small_file::{HEADER, sections_of};
use abbrev_decl::{Scanner, Steps};
use bumpalo::Bump;
use dw_fields::{Code, Fault};
use entry_tree::{AllAttrs, EntryBatch, EntryCursor, read_entries, root_facts};
use form_values::Raw;
use std::alloc::Global;
use std::test::Fail;
use unit_headers::UnitRefusal;

/// Code 1: compile_unit with children, a name as string and a line offset of one byte twice. Code 2:
/// variable, a name as string and an implicit file.
const ABBREV: [u8; 22] = [
    0x01, 0x11, 0x01, 0x03, 0x08, 0x10, 0x0b, 0x10, 0x0b, 0, 0, 0x02, 0x34, 0, 0x03, 0x08, 0x3a,
    0x21, 0x7f, 0, 0, 0,
];

/// From 12 on: a zero at depth 0, the root "a" with the line offsets 7 and 9, "b" below it, the end of
/// its children, and "c" at depth 0, up to 25; then zeros.
const INFO: [u8; 96] = [
    0x15, 0, 0, 0, 0x05, 0, 0x01, 0x08, 0, 0, 0, 0, 0, 0x01, 0x61, 0, 7, 9, 0x02, 0x62, 0, 0, 0x02,
    0x63, 0, 0, 0, 0, 0, 0, 0, 0, 0, 0, 0, 0, 0, 0, 0, 0, 0, 0, 0, 0, 0, 0, 0, 0, 0, 0, 0, 0, 0, 0,
    0, 0, 0, 0, 0, 0, 0, 0, 0, 0, 0, 0, 0, 0, 0, 0, 0, 0, 0, 0, 0, 0, 0, 0, 0, 0, 0, 0, 0, 0, 0, 0,
    0, 0, 0, 0, 0, 0, 0, 0, 0, 0,
];

/// The refusal of the unit with one byte of `.debug_info` changed.
fn refusal_with(alloc: Global, place: usize, value: u8) -> Option<UnitRefusal> {
    let mut info = INFO;
    if place < 96 {
        info[place] = value;
    }
    let abbrev = ABBREV;
    let sections = sections_of(&info, &abbrev);
    let arena = Bump::new(alloc);
    let mut scanner = Scanner::new(&abbrev);
    let mut steps = Steps::start(());
    match read_entries(&arena, &mut scanner, &HEADER, &sections, &mut steps) {
        Ok(_) => None,
        Err(refusal) => Some(refusal),
    }
}

#[test]
fn depth_falls_at_a_zero_and_stays_0(rt: HostRuntime) -> Result<(), Fail> {
    let info = INFO;
    let abbrev = ABBREV;
    let sections = sections_of(&info, &abbrev);
    let arena = Bump::new(rt.alloc());
    let mut scanner = Scanner::new(&abbrev);
    let mut steps = Steps::start(());
    let entries = match read_entries(&arena, &mut scanner, &HEADER, &sections, &mut steps) {
        Ok(entries) => entries,
        Err(_) => return Err(Fail::from("refused")),
    };
    assert_eq!(rt; entries.len(), 3);
    let want = [
        (13, 0, 1, 0x11, 3),
        (18, 1, 2, 0x34, 2),
        (22, 0, 2, 0x34, 2),
    ];
    for (entry, (place, depth, code, tag, attrs)) in entries.iter().zip(want) {
        assert_eq!(rt; entry.place, place);
        assert_eq!(rt; entry.depth, depth);
        assert_eq!(rt; entry.code, code);
        assert_eq!(rt; entry.tag, tag);
        assert_eq!(rt; entry.attrs.len(), attrs);
    }
    assert_eq!(rt; steps.count(), 5);
    Ok(())
}

/// The unit up to 96 is long enough that the codes 1 and 2 are remembered: "c" has its declaration
/// without a walk.
#[test]
fn a_declaration_is_walked_to_once(rt: HostRuntime) -> Result<(), Fail> {
    let info = INFO;
    let abbrev = ABBREV;
    let sections = sections_of(&info, &abbrev);
    let mut header = HEADER;
    header.end = 96;
    let arena = Bump::new(rt.alloc());
    let mut scanner = Scanner::new(&abbrev);
    let mut steps = Steps::start(());
    let entries = match read_entries(&arena, &mut scanner, &header, &sections, &mut steps) {
        Ok(entries) => entries,
        Err(_) => return Err(Fail::from("refused")),
    };
    assert_eq!(rt; entries.len(), 3);
    for (entry, (place, tag, attrs)) in entries
        .iter()
        .zip([(13, 0x11, 3), (18, 0x34, 2), (22, 0x34, 2)])
    {
        assert_eq!(rt; entry.place, place);
        assert_eq!(rt; entry.tag, tag);
        assert_eq!(rt; entry.attrs.len(), attrs);
        for attr in entry.attrs.iter() {
            if attr.form == 0x21 {
                assert!(rt; matches!(attr.raw, Raw::Signed(-1)));
            }
        }
    }
    assert_eq!(rt; steps.count(), 3);
    Ok(())
}

/// Whether a batch has one entry, with that place, that depth and so many attributes.
fn is_entry(batch: &EntryBatch<'_, '_>, place: u64, depth: u32, attrs: usize) -> bool {
    if batch.len() != 1 {
        return false;
    }
    let entry = batch.entry(0);
    entry.place == place && entry.depth == depth && entry.attrs.len() == attrs
}

/// One entry a call: between the calls the cursor keeps its place and its depth, and a zero code is no entry.
#[test]
fn a_cursor_goes_on_where_it_stopped(rt: HostRuntime) -> Result<(), Fail> {
    let info = INFO;
    let abbrev = ABBREV;
    let sections = sections_of(&info, &abbrev);
    let arena = Bump::new(rt.alloc());
    let mut scanner = Scanner::new(&abbrev);
    let mut steps = Steps::start(());
    let mut cursor = EntryCursor::new(&arena, &HEADER, &sections);
    let mut batch = EntryBatch::new(&arena);
    let want = [(13, 0, 3), (18, 1, 2), (22, 0, 2)];
    let mut calls: usize = 0;
    'batches: while !cursor.is_at_end() {
        batch.clear();
        let read = cursor.read_into::<_, AllAttrs, _, _>(
            &mut scanner,
            &mut batch,
            Some(1),
            &mut steps,
        );
        match read {
            Ok(()) => {}
            Err(_) => return Err(Fail::from("refused")),
        }
        let Some((place, depth, attrs)) = want.get(calls) else {
            return Err(Fail::from("a fourth entry"));
        };
        assert!(rt; is_entry(&batch, *place, *depth, *attrs));
        calls = calls.saturating_add(1);
    }
    assert_eq!(rt; calls, 3);
    assert_eq!(rt; steps.count(), 5);
    Ok(())
}

/// How many entries the first call of a cursor gives.
fn entries_of_a_call(alloc: Global, most: Option<u64>) -> Option<usize> {
    let info = INFO;
    let abbrev = ABBREV;
    let sections = sections_of(&info, &abbrev);
    let arena = Bump::new(alloc);
    let mut scanner = Scanner::new(&abbrev);
    let mut steps = Steps::start(());
    let mut cursor = EntryCursor::new(&arena, &HEADER, &sections);
    let mut batch = EntryBatch::new(&arena);
    match cursor.read_into::<_, AllAttrs, _, _>(&mut scanner, &mut batch, most, &mut steps) {
        Ok(()) => Some(batch.len()),
        Err(_) => None,
    }
}

/// The entries count 4, 3 and 3 with their attributes; the zero codes before "a" and before "c" count nothing.
#[test]
fn a_cursor_counts_entries_and_attributes_together(rt: HostRuntime) {
    for (most, entries) in [
        (Some(0), 1),
        (Some(4), 1),
        (Some(5), 2),
        (Some(7), 2),
        (Some(8), 3),
        (None, 3),
    ] {
        assert_eq!(rt; entries_of_a_call(rt.alloc(), most), Some(entries));
    }
}

#[test]
fn the_first_attribute_of_a_name_tells(rt: HostRuntime) {
    let info = INFO;
    let abbrev = ABBREV;
    let sections = sections_of(&info, &abbrev);
    let mut scanner = Scanner::new(&abbrev);
    let mut steps = Steps::start(());
    match root_facts(&mut scanner, &HEADER, &sections, &mut steps) {
        Ok(facts) => {
            assert_eq!(rt; facts.line, Some(7));
            assert_eq!(rt; facts.root_end, Some(18));
            assert_eq!(rt; facts.low_pc, None);
            assert_eq!(rt; facts.bases.text, None);
        }
        Err(_) => assert!(rt; false),
    }
    assert_eq!(rt; steps.count(), 2);
}

#[test]
fn refusals_have_their_places(rt: HostRuntime) {
    for (place, value, code, at) in [
        (13, 3, Code::CodeMissing, 13),
        (18, 5, Code::CodeMissing, 18),
        (24, 0x41, Code::TextUnended, 23),
        (12, 0x80, Code::CodeMissing, 12),
    ] {
        let want = UnitRefusal::Refused(Fault::at(code, at));
        assert_eq!(rt;
            refusal_with(rt.alloc(), place, value),
            Some(want),
            "byte {place}"
        );
    }
    assert_eq!(rt; refusal_with(rt.alloc(), 14, 0x62), None);
}
