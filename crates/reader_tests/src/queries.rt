//! Walks over the units of small files, by this crate's visitors and by one of the test.

ghost use Rattle.std.specs.Prelude.{◌<◌, ◌^◌, length};

use crate::small_file::sections_of;
use abbrev_decl::{Scanner, Steps};
use dw_fields::{Code, Fault, Order};
use std::alloc::{AllocError, Global};
use std::test::Fail;
use unit_headers::UnitIndex;
use visit_queries::{
    EntryView, Functions, NamedVisitor, Turn, Types, Variables, Visitor, WalkStop, pick, walk,
};

/// Code 1: compile_unit with children and a name. Code 2: variable with a name and an implicit file.
/// Code 3: variable with a name in `.debug_str`. Code 4: subprogram whose first name is a number and whose
/// second is a text. Code 5: subprogram with two names. Code 6: base_type with a name.
const ABBREV: [u8; 50] = [
    0x01, 0x11, 0x01, 0x03, 0x08, 0, 0, 0x02, 0x34, 0, 0x03, 0x08, 0x3a, 0x21, 0x7f, 0, 0, 0x03,
    0x34, 0, 0x03, 0x0e, 0, 0, 0x04, 0x2e, 0, 0x03, 0x0b, 0x03, 0x08, 0, 0, 0x05, 0x2e, 0, 0x03,
    0x08, 0x03, 0x08, 0, 0, 0x06, 0x24, 0, 0x03, 0x08, 0, 0, 0,
];

/// The root "a" at 0xc, and below it the variables "b" at 0xf and "c" at 0x12.
const VARIABLES: [u8; 22] = [
    0x12, 0, 0, 0, 0x05, 0, 0x01, 0x08, 0, 0, 0, 0, 0x01, 0x61, 0, 0x02, 0x62, 0, 0x02, 0x63, 0, 0,
];

/// The same, and behind it a unit of version 6.
const THEN_VERSION_6: [u8; 34] = [
    0x12, 0, 0, 0, 0x05, 0, 0x01, 0x08, 0, 0, 0, 0, 0x01, 0x61, 0, 0x02, 0x62, 0, 0x02, 0x63, 0, 0,
    0x08, 0, 0, 0, 0x06, 0, 0x01, 0x08, 0, 0, 0, 0,
];

/// The root "a", the variable "b" at 0xf, and at 0x12 a variable whose name is in the absent `.debug_str`.
const NAME_IN_NO_SECTION: [u8; 24] = [
    0x14, 0, 0, 0, 0x05, 0, 0x01, 0x08, 0, 0, 0, 0, 0x01, 0x61, 0, 0x02, 0x62, 0, 0x03, 0, 0, 0, 0,
    0,
];

/// The same up to the name in the absent `.debug_str`, and at 0x17 the code 7, which no declaration has.
const THEN_NO_DECLARATION: [u8; 24] = [
    0x14, 0, 0, 0, 0x05, 0, 0x01, 0x08, 0, 0, 0, 0, 0x01, 0x61, 0, 0x02, 0x62, 0, 0x03, 0, 0, 0, 0,
    0x07,
];

/// The root "a", at 0xf a function whose first name is 7 and whose second is "d", at 0x13 a function
/// with the names "e" and "f", and at 0x18 the type "g".
const TWO_NAMES: [u8; 28] = [
    0x18, 0, 0, 0, 0x05, 0, 0x01, 0x08, 0, 0, 0, 0, 0x01, 0x61, 0, 0x04, 0x07, 0x64, 0, 0x05, 0x65,
    0, 0x66, 0, 0x06, 0x67, 0, 0,
];

/// Has seen enough at the first variable, and reports a letter for each entry that it was shown.
#[derive(Drop)]
struct FirstVariable {
    letters: Vec<u8>,
}

impl Visitor for FirstVariable {
    ghost use Rattle.std.specs.Prelude.{◌==◌, ◌++◌, ◌∷◌, [], if◌then◌else◌};
    ghost use Rattle.visit_queries.specs.declared.visitor.Turn.TheVariants as turns;

    ghost state = { λ v. v.letters.items };

    ghost step = { λ v e s. (
      s ++ 120 ∷ [],
      if e.tag == 52 then turns.Enough else turns.More,
    ) };

    ghost text = { λ v s. s };

    fn see(&mut self, entry: EntryView<'_>) -> Result<Turn, AllocError> {
        self.letters.extend_from_slice(b"x")?;
        if entry.tag == 0x34 {
            return Ok(Turn::Enough);
        }
        Ok(Turn::More)
    }

    fn report(&self, out: &mut Vec<u8>) -> Result<(), AllocError> {
        out.extend_from_slice(self.letters.as_slice())
    }
}

/// What a visitor reports on the units of a section.
fn report_of(alloc: Global, info: &[u8], visitor: Box<dyn Visitor>) -> Result<Vec<u8>, WalkStop>
    requires { length info.now < 2 ^ 31 }
{
    let declarations = ABBREV;
    let sections = sections_of(info, &declarations);
    let index = UnitIndex::read(alloc, info, declarations.len() as u64, Order::Little)?;
    let mut scanner = Scanner::new(&declarations);
    let mut steps = Steps::start(());
    let mut report = Vec::new(alloc);
    walk(
        alloc,
        &sections,
        &index,
        &mut scanner,
        visitor,
        &mut report,
        &mut steps,
    )?;
    Ok(report)
}

fn fault_in(unit: u32, code: Code, place: u64) -> WalkStop {
    WalkStop::Refused {
        unit,
        fault: Fault::at(code, place),
    }
}

#[test]
fn named_entries_are_kept_up_to_the_limit(rt: HostRuntime) -> Result<(), Fail> {
    let alloc = rt.alloc();
    let one: Box<dyn Visitor> = Box::new(alloc, Variables::new(alloc, 1)).expect(&rt, "a box");
    let report = report_of(alloc, &VARIABLES, one).expect(&rt, "a report");
    assert_eq!(rt; report.as_slice(), b"0xf b\n".as_slice());
    let all: Box<dyn Visitor> = Box::new(alloc, Variables::new(alloc, 3)).expect(&rt, "a box");
    let report = report_of(alloc, &VARIABLES, all).expect(&rt, "a report");
    assert_eq!(rt; report.as_slice(), b"0xf b\n0x12 c\n".as_slice());
    let none: Box<dyn Visitor> = Box::new(alloc, Functions::new(alloc, 3)).expect(&rt, "a box");
    let report = report_of(alloc, &VARIABLES, none).expect(&rt, "a report");
    assert_eq!(rt; report.as_slice(), b"".as_slice());
    Ok(())
}

#[test]
fn the_first_name_is_the_name(rt: HostRuntime) -> Result<(), Fail> {
    let alloc = rt.alloc();
    let functions: Box<dyn Visitor> = Box::new(alloc, Functions::new(alloc, 9)).expect(
        &rt, "a box",
    );
    let report = report_of(alloc, &TWO_NAMES, functions).expect(&rt, "a report");
    assert_eq!(rt; report.as_slice(), b"0x13 e\n".as_slice());
    let types: Box<dyn Visitor> = Box::new(alloc, Types::new(alloc, 9)).expect(&rt, "a box");
    let report = report_of(alloc, &TWO_NAMES, types).expect(&rt, "a report");
    assert_eq!(rt; report.as_slice(), b"0x18 g\n".as_slice());
    Ok(())
}

#[test]
fn nothing_is_shown_and_no_unit_read_behind_enough(rt: HostRuntime) -> Result<(), Fail> {
    let alloc = rt.alloc();
    let first = FirstVariable {
        letters: Vec::new(alloc),
    };
    let first: Box<dyn Visitor> = Box::new(alloc, first).expect(&rt, "a box");
    let report = report_of(alloc, &THEN_VERSION_6, first).expect(&rt, "a report");
    assert_eq!(rt; report.as_slice(), b"xx".as_slice());
    Ok(())
}

#[test]
fn refusals_have_their_units_and_places(rt: HostRuntime) -> Result<(), Fail> {
    let alloc = rt.alloc();
    let all: Box<dyn Visitor> = Box::new(alloc, Variables::new(alloc, 9)).expect(&rt, "a box");
    let stop = report_of(alloc, &THEN_VERSION_6, all).err();
    assert_eq!(rt; stop, Some(fault_in(1, Code::UnitVersion, 0x1a)));
    let first = FirstVariable {
        letters: Vec::new(alloc),
    };
    let first: Box<dyn Visitor> = Box::new(alloc, first).expect(&rt, "a box");
    let stop = report_of(alloc, &NAME_IN_NO_SECTION, first).err();
    assert_eq!(rt; stop, Some(fault_in(0, Code::NoSection, 0x13)));
    Ok(())
}

/// The unit is read to its end before a name is refused.
#[test]
fn the_reading_is_refused_before_a_name(rt: HostRuntime) -> Result<(), Fail> {
    let alloc = rt.alloc();
    let all: Box<dyn Visitor> = Box::new(alloc, Variables::new(alloc, 9)).expect(&rt, "a box");
    let stop = report_of(alloc, &THEN_NO_DECLARATION, all).err();
    assert_eq!(rt; stop, Some(fault_in(0, Code::CodeMissing, 0x17)));
    Ok(())
}

/// A visitor with a name.
fn named(alloc: Global, name: &str, visitor: Box<dyn Visitor>) -> Result<NamedVisitor, AllocError> {
    Ok(NamedVisitor {
        name: String::from_str(alloc, name)?,
        visitor,
    })
}

#[test]
fn the_first_visitor_of_a_name_is_picked(rt: HostRuntime) -> Result<(), Fail> {
    let alloc = rt.alloc();
    let functions: Box<dyn Visitor> = Box::new(alloc, Functions::new(alloc, 9)).expect(
        &rt, "a box",
    );
    let variables: Box<dyn Visitor> = Box::new(alloc, Variables::new(alloc, 9)).expect(
        &rt, "a box",
    );
    let mut visitors = Vec::new(alloc);
    visitors
        .push(named(alloc, "functions", functions).expect(&rt, "a name"))
        .expect(&rt, "room");
    visitors
        .push(named(alloc, "variables", variables).expect(&rt, "a name"))
        .expect(&rt, "room");
    let picked = pick(visitors, "variables").expect(&rt, "a visitor");
    let report = report_of(alloc, &VARIABLES, picked.visitor).expect(&rt, "a report");
    assert_eq!(rt; report.as_slice(), b"0xf b\n0x12 c\n".as_slice());
    assert!(rt; pick(Vec::new(alloc), "names").is_none());
    Ok(())
}
