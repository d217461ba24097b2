//! A worked program, and what each changed byte of it comes to.

use dw_fields::Order;
use elf_sections::Sections;
use line_programs::{LineHeader, PathTexts};
use std::alloc::Global;
use unit_headers::{Extra, UnitHeader, UnitKind, UnitRefusal};

/// One directory `/s`, one file `a.c` twice, and four rows. The fields of the header end at 0x35.
const LINES: [u8; 72] = [
    0x44, 0x00, 0x00, 0x00, 0x05, 0x00, 0x08, 0x00, 0x29, 0x00, 0x00, 0x00, 0x01, 0x01, 0x01, 0xfb,
    0x0e, 0x0d, 0x00, 0x01, 0x01, 0x01, 0x01, 0x00, 0x00, 0x00, 0x01, 0x00, 0x00, 0x01, 0x01, 0x01,
    0x08, 0x01, 0x2f, 0x73, 0x00, 0x02, 0x01, 0x08, 0x02, 0x0b, 0x02, 0x61, 0x2e, 0x63, 0x00, 0x00,
    0x61, 0x2e, 0x63, 0x00, 0x00, 0x00, 0x09, 0x02, 0x00, 0x10, 0x00, 0x00, 0x00, 0x00, 0x00, 0x00,
    0x01, 0x4b, 0x13, 0x02, 0x02, 0x00, 0x01, 0x01,
];

/// The same with its paths in `.debug_line_str`, which is `PATHS`. The fields end at 0x36.
const FAR_LINES: [u8; 73] = [
    0x45, 0x00, 0x00, 0x00, 0x05, 0x00, 0x08, 0x00, 0x2a, 0x00, 0x00, 0x00, 0x01, 0x01, 0x01, 0xfb,
    0x0e, 0x0d, 0x00, 0x01, 0x01, 0x01, 0x01, 0x00, 0x00, 0x00, 0x01, 0x00, 0x00, 0x01, 0x01, 0x01,
    0x1f, 0x01, 0x00, 0x00, 0x00, 0x00, 0x02, 0x01, 0x1f, 0x02, 0x0b, 0x02, 0x03, 0x00, 0x00, 0x00,
    0x00, 0x03, 0x00, 0x00, 0x00, 0x00, 0x00, 0x09, 0x02, 0x00, 0x10, 0x00, 0x00, 0x00, 0x00, 0x00,
    0x00, 0x01, 0x4b, 0x13, 0x02, 0x02, 0x00, 0x01, 0x01,
];

const PATHS: [u8; 7] = *b"/s\0a.c\0";

fn sections(line: Option<&[u8]>) -> Sections<'_> {
    Sections {
        line,
        ..Sections::none(Order::Little)
    }
}

const UNIT: UnitHeader = UnitHeader {
    number: 0,
    place: 0,
    end: 0x11,
    wide: false,
    version: 5,
    kind: UnitKind::Compile,
    address_size: 8,
    abbrev: 0,
    entries: 0xc,
    extra: Extra::Nothing,
};

/// The number and the place of the first refusal of a program, header and rows; 0 and 0 without one.
fn refusal(alloc: Global, line: &[u8]) -> (u8, u64) {
    match LineHeader::read(alloc, &sections(Some(line)), &UNIT, 0) {
        Ok(header) => match header.rows(alloc) {
            Ok(_) => (0, 0),
            Err(refusal) => number_and_place(refusal),
        },
        Err(refusal) => number_and_place(refusal),
    }
}

fn number_and_place(refusal: UnitRefusal) -> (u8, u64) {
    match refusal {
        UnitRefusal::Refused(fault) => (fault.code.number(), fault.place),
        UnitRefusal::OutOfMemory => (255, 0),
    }
}

#[test]
fn the_worked_program_has_its_names_and_rows(rt: HostRuntime) {
    let header = LineHeader::read(rt.alloc(), &sections(Some(&LINES)), &UNIT, 0).expect(
        &rt, "read",
    );
    assert_eq!(rt; header.directories().len(), 1);
    assert_eq!(rt; header.files().len(), 2);
    for directory in header.directories() {
        assert!(rt; *directory == b"/s".as_slice());
    }
    for file in header.files() {
        assert!(rt; file.path == b"a.c".as_slice());
        assert_eq!(rt; file.directory, 0);
    }
    let rows = header.rows(rt.alloc()).expect(&rt, "rows");
    let wanted = [
        (0x1000, 1, false),
        (0x1004, 2, false),
        (0x1004, 3, false),
        (0x1006, 3, true),
    ];
    assert_eq!(rt; rows.len(), 4);
    for (row, (address, line, end)) in rows.iter().zip(wanted) {
        assert_eq!(rt; row.address, address);
        assert_eq!(rt; row.line, line);
        assert_eq!(rt; row.file, 1);
        assert_eq!(rt; row.column, 0);
        assert!(rt; row.stmt);
        assert_eq!(rt; row.end, end);
    }
}

#[test]
fn a_changed_byte_has_its_refusal(rt: HostRuntime) {
    let cases = [
        (0x00, 0x44, 0, 0x00), // as it is
        (0x00, 0x45, 53, 0x00), // the program passes the section
        (0x03, 0xff, 53, 0x00), // the length is larger still
        (0x04, 0x06, 50, 0x04), // another version
        (0x08, 0x3d, 53, 0x08), // the header passes the program
        (0x0d, 0x00, 52, 0x0d), // no operations
        (0x10, 0x00, 51, 0x10), // no range
        (0x11, 0x00, 51, 0x11), // no opcodes
        (0x11, 0xff, 53, 0x12), // lengths that pass the header
        (0x20, 0x0b, 54, 0x20), // a directory's path as data1
        (0x29, 0x08, 54, 0x29), // a directory index as string
        (0x27, 0x16, 54, 0x27), // a path as indirect
        (0x27, 0x0e, 47, 0x2b), // a path in an absent section
        (0x1e, 0x00, 54, 0x1f), // directories without a format
        (0x2a, 0x03, 53, 0x35), // a third file passes the header
        (0x36, 0x00, 55, 0x36), // an extended operation without a byte
        (0x36, 0x08, 55, 0x36), // an address of seven bytes
        (0x36, 0x7f, 53, 0x37), // an extended operation passes the program
        (0x46, 0x02, 53, 0x47), // the same of the last
        (0x47, 0x02, 55, 0x46), // an address without a byte
    ];
    for (place, value, number, at) in cases {
        let mut line = LINES;
        if place < 72 {
            line[place] = value;
        }
        let (code, found) = refusal(rt.alloc(), &line);
        assert_eq!(rt; code, number, "at {place:x}");
        assert_eq!(rt; found, at, "at {place:x}");
    }
}

#[test]
fn an_absent_section_and_an_offset_outside_are_refused(rt: HostRuntime) {
    let absent = LineHeader::read(rt.alloc(), &sections(None), &UNIT, 0).err();
    assert!(rt; absent.map(number_and_place) == Some((47, 0)));
    let outside = LineHeader::read(rt.alloc(), &sections(Some(&LINES)), &UNIT, 72).err();
    assert!(rt; outside.map(number_and_place) == Some((53, 72)));
}

/// The section of texts has seven bytes: the directory and the first file use up the walks, the second
/// file has the table made, and the second header asks the table alone.
#[test]
fn paths_in_another_section_are_found_by_walks_and_by_the_table(rt: HostRuntime) {
    let mut file = sections(Some(&FAR_LINES));
    file.line_text = Some(&PATHS);
    let mut texts = PathTexts::new(&file);
    for _turn in 0..2 {
        let header = LineHeader::read_with(rt.alloc(), &mut texts, &UNIT, 0).expect(&rt, "read");
        assert_eq!(rt; header.directories().len(), 1);
        assert_eq!(rt; header.files().len(), 2);
        for directory in header.directories() {
            assert!(rt; *directory == b"/s".as_slice());
        }
        for file in header.files() {
            assert!(rt; file.path == b"a.c".as_slice());
        }
    }
}

#[test]
fn a_path_outside_its_section_or_without_an_end_is_refused(rt: HostRuntime) {
    let cases = [
        (&PATHS[..3], 42, 0x2c), // the file's path begins at the section's end
        (&PATHS[..6], 43, 0x2c), // the file's path has no end
        (&PATHS[..2], 43, 0x22), // nor has the directory's
        (&PATHS[..0], 42, 0x22),
    ];
    for (paths, number, place) in cases {
        let mut file = sections(Some(&FAR_LINES));
        file.line_text = Some(paths);
        let refused = LineHeader::read(rt.alloc(), &file, &UNIT, 0).err();
        assert!(rt; refused.map(number_and_place) == Some((number, place)));
    }
}

#[test]
fn a_refusal_says_in_words_what_was_wrong_and_where(rt: HostRuntime) {
    let mut line = LINES;
    line[0x27] = 0x16;
    let refused = LineHeader::read(rt.alloc(), &sections(Some(&line)), &UNIT, 0).err();
    let refusals = [
        (
            refused,
            "form that cannot stand in a file or directory entry at offset 0x27",
        ),
        (Some(UnitRefusal::OutOfMemory), "out of memory"),
    ];
    for (refusal, wanted) in refusals {
        let refusal = refusal.expect(&rt, "a refusal");
        let text = format!(in rt.alloc(); "{refusal}").expect(&rt, "memory");
        assert!(rt; text.as_str() == wanted);
    }
}

#[test]
fn const_add_pc_advances_as_the_greatest_special_opcode(rt: HostRuntime) {
    let mut line = LINES;
    line[0x41] = 0x08;
    let header = LineHeader::read(rt.alloc(), &sections(Some(&line)), &UNIT, 0).expect(&rt, "read");
    let rows = header.rows(rt.alloc()).expect(&rt, "rows");
    let wanted = [(0x1000, 1, false), (0x1011, 2, false), (0x1013, 2, true)];
    assert_eq!(rt; rows.len(), 3);
    for (row, (address, line, end)) in rows.iter().zip(wanted) {
        assert_eq!(rt; row.address, address);
        assert_eq!(rt; row.line, line);
        assert_eq!(rt; row.end, end);
    }
}
