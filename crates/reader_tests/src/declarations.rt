//! A small table, and declarations that can't be read.

ghost use Rattle.std.specs.Prelude.{◌≡◌, IfSome};

use abbrev_decl::{
    AttrSpec, Decl, Decls, FindFault, Scanner, Steps, decl_at, first_declaration_is_first,
    read_decl,
};

/// Code 1 (compile_unit, children) with name as string; code 2 (variable) with a pair of one
/// zero and an implicit number; code 1 once more, as a subprogram; the end, padded.
const TABLE: [u8; 26] = [
    0x01, 0x11, 0x01, 0x03, 0x08, 0x00, 0x00, // code 1
    0x02, 0x34, 0x00, 0x00, 0x21, 0x7f, 0x49, 0x13, 0x00, 0x00, // code 2 at 7
    0x01, 0x2e, 0x00, 0x03, 0x0e, 0x00, 0x00, // code 1 again, at 17
    0x80, 0x00, // the end, at 24
];

#[test]
fn the_first_declaration_of_a_repeated_code_is_found(rt: HostRuntime) {
    let mut steps = Steps::start(());
    let mut scanner = Scanner::new(&TABLE);
    match scanner.find(0, 1, &mut steps) {
        Ok(declaration) => {
            assert_eq!(rt; declaration.code(), 1);
            assert_eq!(rt; declaration.tag(), 0x11);
            assert!(rt; declaration.children());
            assert_eq!(rt; declaration.place(), 0);
        }
        Err(_) => assert!(rt; false),
    }
    assert_eq!(rt; steps.count(), 1);
    assert!(rt; matches!(scanner.find(0, 3, &mut steps), Err(FindFault::CodeMissing)));
    assert_eq!(rt; steps.count(), 5);
}

#[test]
fn a_pair_with_one_zero_is_an_ordinary_pair(rt: HostRuntime) {
    let mut steps = Steps::start(());
    let mut scanner = Scanner::new(&TABLE);
    let declaration = scanner.find(0, 2, &mut steps).expect(&rt, "code 2");
    first_declaration_is_first(&TABLE, 0, 2);
    let again = decl_at(&TABLE, declaration.place());
    assert_eq!(rt; again.tag(), 0x34);
    let mut attrs = again.attrs();
    let one_zero = AttrSpec {
        name: 0,
        form: 0x21,
        implicit: -1,
    };
    let typed = AttrSpec {
        name: 0x49,
        form: 0x13,
        implicit: 0,
    };
    assert_eq!(rt; attrs.count(), 2);
    assert!(rt; attrs.next() == Some(one_zero));
    assert!(rt; attrs.next() == Some(typed));
    assert!(rt; attrs.next().is_none());
    assert!(rt; attrs.next().is_none());
}

/// The pairs of a declaration; `None` where it doesn't have two.
fn pairs_of(declaration: &Decl<'_>) -> Option<[AttrSpec; 2]>
    ensures pairs { IfSome result (λ pairs. pairs ≡ declaration.entry.now.pairs) }
{
    let mut attrs = declaration.attrs();
    let Some(first) = attrs.next() else {
        return None;
    };
    let Some(second) = attrs.next() else {
        return None;
    };
    match attrs.next() {
        Some(_) => None,
        None => Some([first, second]),
    }
}

#[test]
fn a_list_of_the_pairs_gives_the_same_pairs(rt: HostRuntime) {
    let mut steps = Steps::start(());
    let mut scanner = Scanner::new(&TABLE);
    let declaration = scanner.find(0, 2, &mut steps).expect(&rt, "code 2");
    let pairs = pairs_of(&declaration).expect(&rt, "two pairs");
    let listed = declaration.listed(&pairs).again();
    assert_eq!(rt; listed.code(), 2);
    assert_eq!(rt; listed.tag(), 0x34);
    assert!(rt; !listed.children());
    assert_eq!(rt; listed.place(), 7);
    let mut attrs = listed.attrs();
    assert_eq!(rt; attrs.count(), 2);
    assert!(rt; attrs.next() == Some(pairs[0]));
    assert_eq!(rt; attrs.count(), 1);
    assert!(rt; attrs.next() == Some(pairs[1]));
    assert!(rt; attrs.next().is_none());
    assert!(rt; attrs.next().is_none());
}

#[test]
fn the_first_fault_of_a_declaration_has_its_place(rt: HostRuntime) {
    let cases: [(&[u8], u8, u64); 6] = [
        (&[], 31, 0),
        (&[0x01, 0x91], 31, 1),
        (&[0x01, 0x11, 0x02, 0x00, 0x00], 33, 2),
        (&[0x01, 0x11, 0x01, 0x03], 31, 4),
        (&[0x01, 0x11, 0x00, 0x03, 0x21], 31, 5),
        (
            &[
                0x01, 0xff, 0xff, 0xff, 0xff, 0xff, 0xff, 0xff, 0xff, 0xff, 0x02,
            ],
            32,
            1,
        ),
    ];
    for (bytes, code, place) in cases {
        let mut steps = Steps::start(());
        match read_decl(bytes, 0, &mut steps) {
            Err(fault) => {
                assert_eq!(rt; fault.code.number(), code);
                assert_eq!(rt; fault.place, place);
            }
            Ok(_) => assert!(rt; false),
        }
        assert_eq!(rt; steps.count(), 1);
    }
}
